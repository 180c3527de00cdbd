//! The numbered facts of a goal, and their comparisons.
#![tactic(auto, using(crate::proofs::ListLaws::list_laws))]

ghost use Rattle.std.specs.Prelude.{◌≡◌, ◌≤◌, ◌++◌, ◌∷◌, [], length, take, IfOk, OnOk, IsTrue};
ghost use Rattle.affine_index.specs.Condition.{cmp_form};
ghost use Rattle.fact_list.specs.Facts.{comparisons, facts_of, meet_form, moves_fit};

use crate::declared::declared_facts;
use crate::facts::Facts;
use crate::forms::{copied_cmp, form_of};
use crate::met::{Met, MetAtoms};
use crate::refusal::CertRefusal;
use crate::role::Fact;
use crate::walk::meet_form;
use affine_index::{Aff, Cmp};
use sqlite_items::Items;
use std::alloc::Global;

/// The most facts of a list.
const MOST: usize = 2000;

/// The first facts of a list, at most so many.
fn shortened(list: Items<Fact>, count: usize) -> Items<Fact>
    ensures { result ≡ take count list }
{
    let mut list = list;
    while list.len() > count {
        let _ = list.pop();
    }
    list
}

/// The atoms of a fact, of which some were met before.
fn meet_fact(alloc: Global, atoms: MetAtoms, facts: &Facts, fact: &Fact) -> Result<Met, CertRefusal>
    ensures { IfOk result (λ met. met ≡ meet_form facts.now atoms (cmp_form fact.now.cmp)) }
{
    meet_form(alloc, atoms, facts, form_of(&fact.cmp))
}

/// The facts of a goal, of which the first has number 1: what the atoms of each fact add stands at the end.
pub fn facts_of(alloc: Global, facts: &Facts, goal: &Aff) -> Result<Items<Fact>, CertRefusal>
    requires sizes { length facts.now.sizes ≤ 2147483647 }
    requires path { length facts.now.path ≤ 2147483647 }
    requires fit { IsTrue (moves_fit facts.now.path) }
    ensures is { IfOk result (λ list. list ≡ facts_of facts.now goal.now) }
    ensures few { IfOk result (λ list. length list ≤ 2000) }
{
    let Met {
        mut atoms,
        facts: first,
    } = meet_form(alloc, MetAtoms::new(alloc), facts, goal)?;
    let mut list = declared_facts(alloc, facts)?;
    list.append(first)?;
    let mut i = 0;
    while i < list.len() && list.len() < MOST {
        let met = meet_fact(alloc, atoms, facts, &list.as_slice()[i])?;
        let Met {
            atoms: more,
            facts: added,
        } = met;
        atoms = more;
        list.append(added)?;
        i += 1;
    }
    Ok(shortened(list, MOST))
}

fn comparisons(alloc: Global, facts: &[Fact]) -> Result<Items<Cmp>, CertRefusal>
    ensures { IfOk result (λ list. list ≡ comparisons facts.now) }
{
    let mut list = Items::new(alloc);
    for fact in facts {
        let cmp = copied_cmp(alloc, &fact.cmp)?;
        list.push(cmp)?;
    }
    Ok(list)
}

impl Facts {
    /// The facts of a goal, of which the first has number 1: the bounds of the sizes, the assumes, the facts of the path, and what the quotients and products in them and in the goal add.
    /// A fact that breaks a limit of forms is left out, and there are at most 2,000. Variables are numbered at the end of the path.
    pub fn list(&self, alloc: Global, goal: &Aff) -> Result<Items<Cmp>, CertRefusal>
        requires sizes { length self.now.sizes ≤ 2147483647 }
        requires path { length self.now.path ≤ 2147483647 }
        requires fit { IsTrue (moves_fit self.now.path) }
        ensures { IfOk result (λ list. list ≡ comparisons (facts_of self.now goal.now)) }
    {
        let list = facts_of(alloc, self, goal)?;
        comparisons(alloc, list.as_slice())
    }
}
