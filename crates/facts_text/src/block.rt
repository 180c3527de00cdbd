//! Blocks.

ghost use Rattle.std.specs.Prelude.{◌≡◌, ◌≤◌, ◌+◌, ◌++◌, IfOk, OnOk, Some, length};
ghost use Rattle.fact_list.specs.Facts.{binders};
ghost use Rattle.facts_text.specs.Block.{MayList, block, fact_line, fact_lines, goal_line, goal_text, is_met, known_text, shows, title_text, verdict_text};

use crate::fault::PrintFault;
use crate::writer::Writer;
use affine_index::{Aff, Cmp};
use fact_list::{CertRefusal, Facts, PathFact};
use linear_cert::{Lines, shown};
use std::alloc::Global;
use term_tree::SizeDecl;

/// Which claim a block tells: a condition of a step, or a goal of the last version, each counted from 1.
#[derive(Clone, Copy)]
pub enum Title {
    Condition { step: u64, condition: u64 },
    Goal(u64),
}

/// How many gens and sums stand on a path.
fn binders(path: &[PathFact]) -> u32
    requires { length path.now ≤ 2147483647 }
    ensures { result ≡ binders path.now }
{
    let mut count = 0u32;
    for fact in path {
        match fact {
            PathFact::Bound(_) => count += 1,
            PathFact::Holds(_) => {}
        }
    }
    count
}

/// Whether lines show a form, where there is one.
fn shows(
    alloc: Global,
    facts: &Facts,
    goal: &Option<Aff>,
    lines: &Lines,
) -> Result<bool, CertRefusal>
    requires { MayList facts.now }
    ensures { IfOk result (λ b. b ≡ shows facts.now goal.now lines.now) }
{
    match goal {
        None => Ok(false),
        Some(form) => shown(alloc, facts, form, lines),
    }
}

fn verdict(is_met: bool) -> &'static [u8]
    ensures { result.now ≡ verdict_text is_met }
{
    if is_met {
        b": shown\n"
    } else {
        b": not shown\n"
    }
}

impl Writer {
    fn put_title(&mut self, title: Title) -> Result<(), PrintFault>
        ensures { OnOk result (self.new ≡ self.old ++ title_text title) }
    {
        match title {
            Title::Condition { step, condition } => {
                self.put(b"step ")?;
                self.put_number(step)?;
                self.put(b" condition ")?;
                self.put_number(condition)
            }
            Title::Goal(goal) => {
                self.put(b"goal ")?;
                self.put_number(goal)
            }
        }
    }

    fn put_fact(
        &mut self,
        alloc: Global,
        sizes: &[SizeDecl],
        vars: u32,
        number: u64,
        fact: &Cmp,
    ) -> Result<(), PrintFault>
        ensures { OnOk result (self.new ≡ self.old ++ fact_line sizes.now vars number fact.now) }
    {
        self.put_number(number)?;
        self.put(b": ")?;
        self.put_comparison(alloc, sizes, vars, fact)?;
        self.put(b"\n")
    }

    /// Facts with their numbers, from 1.
    fn put_facts(
        &mut self,
        alloc: Global,
        sizes: &[SizeDecl],
        vars: u32,
        facts: &[Cmp],
    ) -> Result<(), PrintFault>
        ensures { OnOk result (self.new ≡ self.old ++ fact_lines sizes.now vars 1 facts.now) }
    {
        for at in 0..facts.len() {
            self.put_fact(alloc, sizes, vars, at as u64 + 1, &facts[at])?;
        }
        Ok(())
    }

    fn put_goal(
        &mut self,
        alloc: Global,
        sizes: &[SizeDecl],
        vars: u32,
        goal: &Aff,
    ) -> Result<(), PrintFault>
        ensures { OnOk result (self.new ≡ self.old ++ goal_line sizes.now vars goal.now) }
    {
        self.put(b"goal ")?;
        self.put_form(alloc, sizes, vars, goal)?;
        self.put(b" >= 0\n")
    }

    /// A goal and its facts.
    fn put_known(
        &mut self,
        alloc: Global,
        sizes: &[SizeDecl],
        facts: &Facts,
        goal: &Aff,
    ) -> Result<(), PrintFault>
        requires { MayList facts.now }
        ensures { OnOk result (self.new ≡ self.old ++ known_text sizes.now facts.now goal.now) }
    {
        let list = facts.list(alloc, goal)?;
        let vars = binders(facts.path.as_slice());
        self.put_goal(alloc, sizes, vars, goal)?;
        self.put_facts(alloc, sizes, vars, list.as_slice())
    }

    fn put_goal_text(
        &mut self,
        alloc: Global,
        sizes: &[SizeDecl],
        facts: &Facts,
        goal: &Option<Aff>,
    ) -> Result<(), PrintFault>
        requires { MayList facts.now }
        ensures { OnOk result (self.new ≡ self.old ++ goal_text sizes.now facts.now goal.now) }
    {
        match goal {
            None => self.put(b""),
            Some(form) => self.put_known(alloc, sizes, facts, form),
        }
    }

    /// The block of a claim; answers whether its lines show it. The facts are listed twice: once for the certificate, and once to be told. Linear in the
    /// text beside that.
    pub fn put_block(
        &mut self,
        alloc: Global,
        sizes: &[SizeDecl],
        title: Title,
        goal: &Option<Aff>,
        facts: &Facts,
        lines: &Lines,
    ) -> Result<bool, PrintFault>
        requires { MayList facts.now }
        ensures told { OnOk result (self.new ≡ self.old ++ block sizes.now (record { title = title; goal = goal.now; facts = facts.now; lines = lines.now })) }
        ensures met { IfOk result (λ met. met ≡ is_met (record { title = title; goal = goal.now; facts = facts.now; lines = lines.now })) }
    {
        let is_met = shows(alloc, facts, goal, lines)?;
        self.put_title(title)?;
        self.put(verdict(is_met))?;
        self.put_goal_text(alloc, sizes, facts, goal)?;
        Ok(is_met)
    }
}
