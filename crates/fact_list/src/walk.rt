//! The quotients and products within a form, met in order.
#![tactic(auto, using(crate::proofs::WalkLaws::walk_laws))]

ghost use Rattle.std.specs.Prelude.{true, ◌≡◌, ◌≤◌, IfOk};
ghost use Rattle.affine_index.proofs.Induction.{Each, EachTerm};
ghost use Rattle.affine_index.specs.Normal.{is_normal};
ghost use Rattle.fact_list.specs.Facts.{NormalAtom, meet_all, meet_form};
ghost use Rattle.fact_list.specs.Within.{atom_parts, form_parts, list_parts, terms_parts};

use crate::adding::meet;
use crate::facts::Facts;
use crate::met::{Met, MetAtoms};
use crate::refusal::CertRefusal;
use affine_index::{Aff, Atom, Item};
use sqlite_items::Items;
use std::alloc::Global;

#[cycle(walk)]
fn meet_atom(alloc: Global, met: Met, facts: &Facts, atom: &Atom) -> Result<Met, CertRefusal>
    requires { NormalAtom atom.now }
    ensures { IfOk result (λ more. more ≡ meet_all facts.now met (atom_parts atom.now)) }
{
    match atom {
        Atom::Size(_) => Ok(met),
        Atom::Var(_) => Ok(met),
        Atom::Div(dividend, _) => {
            let more = meet(alloc, met, facts, atom)?;
            meet_items(alloc, more, facts, dividend.get())
        }
        Atom::Mul(factors) => {
            let more = meet(alloc, met, facts, atom)?;
            meet_atoms(alloc, more, facts, factors.as_slice())
        }
    }
}

#[cycle(walk)]
fn meet_atoms(alloc: Global, met: Met, facts: &Facts, atoms: &[Atom]) -> Result<Met, CertRefusal>
    requires { Each NormalAtom atoms.now }
    ensures { IfOk result (λ more. more ≡ meet_all facts.now met (list_parts atoms.now)) }
{
    let mut more = met;
    for atom in atoms {
        more = meet_atom(alloc, more, facts, atom)?;
    }
    Ok(more)
}

#[cycle(walk)]
fn meet_items(
    alloc: Global,
    met: Met,
    facts: &Facts,
    items: &affine_index::Items,
) -> Result<Met, CertRefusal>
    requires { is_normal items.now ≡ true }
    ensures { IfOk result (λ more. more ≡ meet_all facts.now met (form_parts items.now)) }
{
    meet_terms(alloc, met, facts, items.terms.as_slice())
}

#[cycle(walk)]
fn meet_terms(
    alloc: Global,
    met: Met,
    facts: &Facts,
    terms: &[Item<Atom>],
) -> Result<Met, CertRefusal>
    requires { EachTerm NormalAtom terms.now }
    ensures { IfOk result (λ more. more ≡ meet_all facts.now met (terms_parts terms.now)) }
{
    let mut more = met;
    for term in terms {
        more = meet_atom(alloc, more, facts, &term.atom)?;
    }
    Ok(more)
}

/// The atoms of a form, of which some were met before.
pub fn meet_form(
    alloc: Global,
    atoms: MetAtoms,
    facts: &Facts,
    form: &Aff,
) -> Result<Met, CertRefusal>
    ensures { IfOk result (λ met. met ≡ meet_form facts.now atoms form.now) }
{
    let none = Items::new(alloc);
    let met = Met { atoms, facts: none };
    meet_items(alloc, met, facts, form.items())
}
