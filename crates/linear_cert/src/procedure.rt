//! The procedure of default lines.
#![tactic(auto, using(crate::proofs::ProcedureLaws::procedure_laws))]

ghost use Rattle.std.specs.Prelude.{true, ◌≡◌, ◌+◌, ◌^◌, ◌<◌, ◌≤◌, ◌++◌, length, get_or, IfOk, IsTrue, Option, None};
ghost use Rattle.std.specs.Int.RustNames.{unsigned_abs};
ghost use Rattle.affine_index.specs.Sum.{difference_of, scaled};
ghost use Rattle.fact_list.specs.Normal.{AllNormal};
ghost use Rattle.linear_cert.specs.Roles.{Mapped};
ghost use Rattle.linear_cert.specs.Room.{Room};
ghost use Rattle.linear_cert.specs.DefaultLines.{attempt_lines, attempt_with, attempts_of_cmp, attempts_of_role, carried_on, default_lines_of, finished, first_attempt, first_lines, lines_from, no_times};

use crate::attempt::{Attempt, replaced};
use crate::lines::Line;
use crate::roles::mapped;
use affine_index::raw::{Wide, copied, scaled, sum};
use affine_index::{Aff, Cmp};
use fact_list::told::told;
use fact_list::{CertRefusal, Fact, Role};
use sqlite_items::Items;
use std::alloc::Global;

/// The most replacements of an attempt.
const MOST: usize = 512;

/// The lines of an attempt: the negated goal, then the facts by number, without multipliers of 0.
fn attempt_lines(alloc: Global, attempt: &Attempt) -> Result<Items<Line>, CertRefusal>
    requires times { attempt.now.goal_times ≤ 2 ^ 31 }
    requires few { length attempt.now.times ≤ 2000 }
    ensures { IfOk result (λ lines. lines ≡ attempt_lines attempt.now) }
{
    let mut lines = Items::new(alloc);
    lines.push(Line {
        fact: 0,
        multiplier: attempt.goal_times as i64,
    })?;
    let times = attempt.times.as_slice();
    for i in 0..times.len() {
        if times[i] != 0 {
            lines.push(Line {
                fact: i as u32 + 1,
                multiplier: times[i],
            })?;
        }
    }
    Ok(lines)
}

/// The lines of an attempt without atoms, if it shows the goal.
fn finished(
    alloc: Global,
    facts: &[Fact],
    attempt: &Attempt,
) -> Result<Option<Items<Line>>, CertRefusal>
    requires few { length facts.now ≤ 2000 }
    requires room { Room facts.now 512 attempt.now }
    ensures { IfOk result (λ lines. lines ≡ finished attempt.now) }
{
    if attempt.left.constant() + i128::from(attempt.goal_times) <= 0 {
        return Ok(None);
    }
    Ok(Some(attempt_lines(alloc, attempt)?))
}

/// The lines that an attempt ends with.
fn carried_on(
    alloc: Global,
    facts: &[Fact],
    places: &[usize],
    attempt: Attempt,
) -> Result<Option<Items<Line>>, CertRefusal>
    requires few { length facts.now ≤ 2000 }
    requires mapped { Mapped facts.now (length facts.now) places.now }
    requires normal { AllNormal facts.now }
    requires room { Room facts.now 0 attempt }
    ensures { IfOk result (λ lines. lines ≡ carried_on 512 facts.now attempt) }
{
    let mut attempt = attempt;
    for _count in 0..MOST {
        if attempt.left.terms().len() == 0 {
            return finished(alloc, facts, &attempt);
        }
        match replaced(alloc, facts, places, attempt)? {
            Some(next) => attempt = next,
            None => return Ok(None),
        }
    }
    if attempt.left.terms().len() > 0 {
        return Ok(None);
    }
    finished(alloc, facts, &attempt)
}

fn no_times(alloc: Global, facts: &[Fact]) -> Result<Items<i64>, CertRefusal>
    ensures { IfOk result (λ times. times ≡ no_times facts.now) }
{
    let mut times = Items::new(alloc);
    for _i in 0..facts.len() {
        times.push(0)?;
    }
    Ok(times)
}

/// The goal as it stands.
fn first_attempt(alloc: Global, facts: &[Fact], goal: &Aff) -> Result<Attempt, CertRefusal>
    ensures is { IfOk result (λ attempt. attempt ≡ first_attempt facts.now goal.now) }
    ensures room { IfOk result (λ attempt. Room facts.now 0 attempt) }
{
    Ok(Attempt {
        left: copied(alloc, goal)?,
        goal_times: 1,
        times: no_times(alloc, facts)?,
    })
}

/// A goal less a form, or plus it.
fn less_form(alloc: Global, goal: &Aff, form: &Aff, times: i64) -> Result<Wide, CertRefusal>
    requires { unsigned_abs times ≤ 1 }
    ensures { IfOk result (λ left. left ≡ difference_of goal.now (scaled times form.now)) }
{
    let whole = copied(alloc, goal)?;
    let taken = scaled(alloc, i128::from(times), copied(alloc, form)?)?;
    let minus = scaled(alloc, -1, taken)?;
    Ok(sum(alloc, whole, minus)?)
}

/// The lines that an attempt with a fact subtracted, or added, ends with.
fn tried(
    alloc: Global,
    facts: &[Fact],
    places: &[usize],
    goal: &Aff,
    at: usize,
    form: &Aff,
    by: i64,
) -> Result<Option<Items<Line>>, CertRefusal>
    requires few { length facts.now ≤ 2000 }
    requires mapped { Mapped facts.now (length facts.now) places.now }
    requires normal { AllNormal facts.now }
    requires within { at < length facts.now }
    requires once { unsigned_abs by ≤ 1 }
    ensures { IfOk result (λ lines. lines ≡ carried_on 512 facts.now (attempt_with facts.now goal.now at form.now by)) }
{
    goal.told();
    form.told();
    let left = less_form(alloc, goal, form, by)?;
    let mut times = no_times(alloc, facts)?;
    times.set(at, by);
    let attempt = Attempt {
        left,
        goal_times: 1,
        times,
    };
    carried_on(alloc, facts, places, attempt)
}

/// The lines of the first attempt with a comparison that ends with some.
fn tried_cmp(
    alloc: Global,
    facts: &[Fact],
    places: &[usize],
    goal: &Aff,
    at: usize,
    cmp: &Cmp,
) -> Result<Option<Items<Line>>, CertRefusal>
    requires few { length facts.now ≤ 2000 }
    requires mapped { Mapped facts.now (length facts.now) places.now }
    requires normal { AllNormal facts.now }
    requires within { at < length facts.now }
    ensures { IfOk result (λ lines. lines ≡ first_lines facts.now (attempts_of_cmp facts.now goal.now at cmp.now)) }
{
    match cmp {
        Cmp::Ge(form) => tried(alloc, facts, places, goal, at, form, 1),
        Cmp::Eq(form) => match tried(alloc, facts, places, goal, at, form, 1)? {
            Some(lines) => Ok(Some(lines)),
            None => tried(alloc, facts, places, goal, at, form, -1),
        },
    }
}

/// The same where the comparison was stated.
fn tried_fact(
    alloc: Global,
    facts: &[Fact],
    places: &[usize],
    goal: &Aff,
    at: usize,
    fact: &Fact,
) -> Result<Option<Items<Line>>, CertRefusal>
    requires few { length facts.now ≤ 2000 }
    requires mapped { Mapped facts.now (length facts.now) places.now }
    requires normal { AllNormal facts.now }
    requires within { at < length facts.now }
    ensures { IfOk result (λ lines. lines ≡ first_lines facts.now (attempts_of_role facts.now goal.now at fact.now.role fact.now.cmp)) }
{
    match &fact.role {
        Role::Stated => tried_cmp(alloc, facts, places, goal, at, &fact.cmp),
        Role::BoundOf(_, _) => Ok(None),
        Role::FactorOf(_, _, _) => Ok(None),
        Role::ProductOf(_) => Ok(None),
    }
}

/// The lines that the procedure ends with.
pub fn default_lines_of(
    alloc: Global,
    facts: &[Fact],
    goal: &Aff,
) -> Result<Option<Items<Line>>, CertRefusal>
    requires { length facts.now ≤ 2000 }
    ensures { IfOk result (λ lines. lines ≡ default_lines_of facts.now goal.now) }
{
    told(facts);
    let places = mapped(alloc, facts)?;
    let first = first_attempt(alloc, facts, goal)?;
    if let Some(lines) = carried_on(alloc, facts, places.as_slice(), first)? {
        return Ok(Some(lines));
    }
    for at in 0..facts.len() {
        match tried_fact(alloc, facts, places.as_slice(), goal, at, &facts[at])? {
            Some(lines) => return Ok(Some(lines)),
            None => {}
        }
    }
    Ok(None)
}
