//! What quotients and products add to the facts.
#![tactic(auto, using(crate::proofs::AddLaws::add_laws))]

ghost use Rattle.std.specs.Prelude.{◌≡◌, ◌++◌, IfOk, OnOk, Some};
ghost use Rattle.affine_index.specs.declared.form.Atom.TheVariants.{Mul};
ghost use Rattle.fact_list.specs.Facts.{NormalAtom, all_factor_facts, atom_facts, fact_if, factor_facts, limit_facts, limit_products, meet, product_of_others};
ghost use Rattle.fact_list.specs.Atoms.{different, without};
ghost use Rattle.fact_list.specs.Joined.{joined};

use crate::facts::Facts;
use crate::forms::{copied, product, single};
use crate::limits::{Limit, limits_of};
use crate::met::Met;
use crate::refusal::CertRefusal;
use crate::role::{Fact, Role};
use crate::search::{begins, same_atoms};
use affine_index::raw::copy_atom;
use affine_index::{Aff, Atom, Cmp};
use sqlite_items::Items;
use std::alloc::Global;

/// A fact, if there is a form.
pub fn push_fact(facts: &mut Items<Fact>, role: Role, form: Option<Aff>) -> Result<(), CertRefusal>
    ensures { OnOk result (facts.new ≡ facts.old ++ fact_if role form) }
{
    if let Some(form) = form {
        facts.push(Fact {
            role,
            cmp: Cmp::Ge(form),
        })?;
    }
    Ok(())
}

fn limit_facts(
    alloc: Global,
    facts: &mut Items<Fact>,
    atom: &Atom,
    limits: &[Limit],
) -> Result<(), CertRefusal>
    ensures { OnOk result (facts.new ≡ facts.old ++ limit_facts atom.now limits.now) }
{
    for limit in limits {
        let role = Role::BoundOf(limit.side, copy_atom(alloc, atom)?);
        let form = copied(alloc, &limit.form)?;
        push_fact(facts, role, Some(form))?;
    }
    Ok(())
}

fn limit_products(
    alloc: Global,
    facts: &mut Items<Fact>,
    whole: &Atom,
    factor: &Atom,
    others: &Aff,
    limits: &[Limit],
) -> Result<(), CertRefusal>
    ensures { OnOk result (facts.new ≡ facts.old ++ limit_products whole.now factor.now others.now limits.now) }
{
    for limit in limits {
        let form = product(alloc, &limit.form, others)?;
        let role = Role::FactorOf(
            limit.side,
            copy_atom(alloc, factor)?,
            copy_atom(alloc, whole)?,
        );
        push_fact(facts, role, form)?;
    }
    Ok(())
}

/// The factors without the first that equals one.
fn without(alloc: Global, factor: &Atom, factors: &[Atom]) -> Result<Items<Atom>, CertRefusal>
    ensures { IfOk result (λ others. others ≡ without factor.now factors.now) }
{
    let mut others = Items::new(alloc);
    let mut found = false;
    for other in factors {
        if !found && same_atoms(factor, other) {
            found = true;
        } else {
            others.push(copy_atom(alloc, other)?)?;
        }
    }
    Ok(others)
}

/// A factor alone, or the product of several.
fn joined(factors: Items<Atom>) -> Atom
    ensures { result ≡ joined factors }
{
    let mut factors = factors;
    if factors.len() != 1 {
        return Atom::Mul(factors);
    }
    match factors.pop() {
        Some(factor) => factor,
        None => Atom::Mul(factors),
    }
}

/// The product of the factors of a product without the first that equals one. Linear in the factors: the product of all but one is an atom of a normal form.
fn product_without(alloc: Global, factor: &Atom, factors: &[Atom]) -> Result<Aff, CertRefusal>
    requires { NormalAtom (Mul factors.now) }
    ensures { IfOk result (λ form. Some form ≡ product_of_others (without factor.now factors.now)) }
{
    let others = without(alloc, factor, factors)?;
    let form = single(alloc, 1, joined(others), 0)?;
    Ok(form)
}

/// The bounds of a factor times the other factors of a product.
fn factor_facts(
    alloc: Global,
    list: &mut Items<Fact>,
    facts: &Facts,
    factors: &[Atom],
    whole: &Atom,
    factor: &Atom,
) -> Result<(), CertRefusal>
    requires whole { whole.now ≡ Mul factors.now }
    requires normal { NormalAtom (Mul factors.now) }
    requires factor { NormalAtom factor.now }
    ensures { OnOk result (list.new ≡ list.old ++ factor_facts facts.now factors.now factor.now) }
{
    let others = product_without(alloc, factor, factors)?;
    let limits = limits_of(alloc, facts, factor)?;
    limit_products(alloc, list, whole, factor, &others, limits.as_slice())
}

fn all_factor_facts(
    alloc: Global,
    list: &mut Items<Fact>,
    facts: &Facts,
    factors: &[Atom],
    whole: &Atom,
) -> Result<(), CertRefusal>
    requires whole { whole.now ≡ Mul factors.now }
    requires normal { NormalAtom (Mul factors.now) }
    ensures { OnOk result (list.new ≡ list.old ++ all_factor_facts facts.now factors.now (different factors.now)) }
{
    for i in 0..factors.len() {
        if begins(&factors[i], &factors[i + 1..]) {
            continue;
        }
        factor_facts(alloc, list, facts, factors, whole, &factors[i])?;
    }
    Ok(())
}

/// Adds what a quotient or a product adds.
fn atom_facts(
    alloc: Global,
    list: &mut Items<Fact>,
    facts: &Facts,
    atom: &Atom,
) -> Result<(), CertRefusal>
    requires { NormalAtom atom.now }
    ensures { OnOk result (list.new ≡ list.old ++ atom_facts facts.now atom.now) }
{
    match atom {
        Atom::Size(_) => Ok(()),
        Atom::Var(_) => Ok(()),
        Atom::Div(_, _) => {
            let limits = limits_of(alloc, facts, atom)?;
            limit_facts(alloc, list, atom, limits.as_slice())
        }
        Atom::Mul(factors) => {
            let form = single(alloc, 1, copy_atom(alloc, atom)?, 0)?;
            push_fact(list, Role::ProductOf(copy_atom(alloc, atom)?), Some(form))?;
            all_factor_facts(alloc, list, facts, factors.as_slice(), atom)
        }
    }
}

/// An atom adds its facts once.
pub fn meet(alloc: Global, met: Met, facts: &Facts, atom: &Atom) -> Result<Met, CertRefusal>
    requires { NormalAtom atom.now }
    ensures { IfOk result (λ more. more ≡ meet facts.now met atom.now) }
{
    if met.atoms.contains(atom) {
        return Ok(met);
    }
    let Met {
        atoms,
        facts: mut list,
    } = met;
    let atoms = atoms.with(alloc, atom)?;
    atom_facts(alloc, &mut list, facts, atom)?;
    Ok(Met { atoms, facts: list })
}
