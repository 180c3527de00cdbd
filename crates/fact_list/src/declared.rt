//! The facts that are declared: the sizes, the assumes, the path.
#![tactic(auto, using(crate::proofs::DeclaredLaws::declared_laws))]

ghost use Rattle.std.specs.Prelude.{◌≡◌, ◌+◌, ◌≤◌, ◌++◌, ◌∷◌, [], List, length, IfOk, OnOk, IsTrue};
ghost use Rattle.affine_index.specs.Condition.{cmp_form};
ghost use Rattle.affine_index.specs.Normal.{is_normal};
ghost use Rattle.affine_index.specs.Put.{numbers_fit, shifted};
ghost use Rattle.fact_list.specs.declared.facts.PathFact.{PathFact};
ghost use Rattle.fact_list.specs.Facts.{binders, bound_facts, cmps_fit, declared_facts, where_normal, moved_cmp, moved_facts, moves_fit, path_facts, size_facts, stated, stated_facts, stated_if, step_facts, step_fits};

use crate::adding::push_fact;
use crate::facts::{Facts, PathFact, SizeBounds};
use crate::forms::{copied_cmp, difference, form_of, moved, single};
use crate::limits::{above_low, below_high, binders};
use crate::refusal::CertRefusal;
use crate::role::{Fact, Role, Side};
use affine_index::{Aff, Atom, Cmp};
use sqlite_items::Items;
use std::alloc::Global;

fn size_facts(
    alloc: Global,
    list: &mut Items<Fact>,
    sizes: &[SizeBounds],
) -> Result<(), CertRefusal>
    requires { length sizes.now ≤ 2147483647 }
    ensures { OnOk result (list.new ≡ list.old ++ size_facts 0 sizes.now) }
{
    for i in 0..sizes.len() {
        let size = i as u32;
        let low = above_low(alloc, size, sizes[i].low)?;
        let high = below_high(alloc, size, sizes[i].high)?;
        push_fact(list, Role::BoundOf(Side::Lower, Atom::Size(size)), low)?;
        push_fact(list, Role::BoundOf(Side::Upper, Atom::Size(size)), high)?;
    }
    Ok(())
}

fn push_stated(list: &mut Items<Fact>, cmp: Cmp) -> Result<(), CertRefusal>
    ensures { OnOk result (list.new ≡ list.old ++ stated cmp ∷ []) }
{
    list.push(Fact {
        role: Role::Stated,
        cmp,
    })?;
    Ok(())
}

fn push_copy(alloc: Global, list: &mut Items<Fact>, cmp: &Cmp) -> Result<(), CertRefusal>
    ensures { OnOk result (list.new ≡ list.old ++ stated_if (is_normal (cmp_form cmp.now)) cmp.now) }
{
    form_of(cmp);
    push_stated(list, copied_cmp(alloc, cmp)?)
}

fn stated_facts(alloc: Global, list: &mut Items<Fact>, cmps: &[Cmp]) -> Result<(), CertRefusal>
    ensures { OnOk result (list.new ≡ list.old ++ stated_facts cmps.now) }
{
    for cmp in cmps {
        push_copy(alloc, list, cmp)?;
    }
    Ok(())
}

fn push_moved(alloc: Global, list: &mut Items<Fact>, cmp: &Cmp, by: u32) -> Result<(), CertRefusal>
    requires { IsTrue (numbers_fit 0 by (cmp_form cmp.now)) }
    ensures { OnOk result (list.new ≡ list.old ++ stated_if (is_normal (cmp_form (moved_cmp by cmp.now))) (moved_cmp by cmp.now)) }
{
    let Some(form) = moved(alloc, form_of(cmp), by)? else {
        return Ok(());
    };
    match cmp {
        Cmp::Ge(_) => push_stated(list, Cmp::Ge(form)),
        Cmp::Eq(_) => push_stated(list, Cmp::Eq(form)),
    }
}

fn moved_facts(
    alloc: Global,
    list: &mut Items<Fact>,
    cmps: &[Cmp],
    by: u32,
) -> Result<(), CertRefusal>
    requires { IsTrue (cmps_fit by cmps.now) }
    ensures { OnOk result (list.new ≡ list.old ++ moved_facts by cmps.now) }
{
    for cmp in cmps {
        push_moved(alloc, list, cmp, by)?;
    }
    Ok(())
}

fn bound_facts(
    alloc: Global,
    list: &mut Items<Fact>,
    var: u32,
    extent: &Aff,
) -> Result<(), CertRefusal>
    ensures { OnOk result (list.new ≡ list.old ++ bound_facts var extent.now) }
{
    let least = single(alloc, 1, Atom::Var(var), 0)?;
    let next = single(alloc, 1, Atom::Var(var), 1)?;
    let below = difference(alloc, extent, &next)?;
    push_fact(
        list,
        Role::BoundOf(Side::Lower, Atom::Var(var)),
        Some(least),
    )?;
    push_fact(list, Role::BoundOf(Side::Upper, Atom::Var(var)), below)
}

/// One for a binder, and none for a guard.
pub fn binder_count(fact: &PathFact) -> usize
    ensures { (ps : List PathFact) → binders (fact.now ∷ ps) ≡ result + binders ps }
{
    match fact {
        PathFact::Bound(_) => 1,
        PathFact::Holds(_) => 0,
    }
}

/// The facts of a node on a path that so many binders follow.
fn step_facts(
    alloc: Global,
    list: &mut Items<Fact>,
    fact: &PathFact,
    after: u32,
) -> Result<(), CertRefusal>
    requires { IsTrue (step_fits after fact.now) }
    ensures { OnOk result (list.new ≡ list.old ++ step_facts after fact.now) }
{
    match fact {
        PathFact::Bound(extent) => bound_facts(alloc, list, after, extent),
        PathFact::Holds(cond) => moved_facts(alloc, list, cond.all.as_slice(), after),
    }
}

fn path_facts(alloc: Global, list: &mut Items<Fact>, path: &[PathFact]) -> Result<(), CertRefusal>
    requires few { length path.now ≤ 2147483647 }
    requires fit { IsTrue (moves_fit path.now) }
    ensures { OnOk result (list.new ≡ list.old ++ path_facts path.now) }
{
    let mut after = binders(path);
    for fact in path {
        after -= binder_count(fact);
        step_facts(alloc, list, fact, after as u32)?;
    }
    Ok(())
}

/// The bounds of the sizes, the assumes, and the facts of the path.
pub fn declared_facts(alloc: Global, facts: &Facts) -> Result<Items<Fact>, CertRefusal>
    requires sizes { length facts.now.sizes ≤ 2147483647 }
    requires path { length facts.now.path ≤ 2147483647 }
    requires fit { IsTrue (moves_fit facts.now.path) }
    ensures { IfOk result (λ list. list ≡ declared_facts facts.now) }
{
    let mut list = Items::new(alloc);
    size_facts(alloc, &mut list, facts.sizes.as_slice())?;
    stated_facts(alloc, &mut list, facts.assumes.as_slice())?;
    path_facts(alloc, &mut list, facts.path.as_slice())?;
    Ok(list)
}
