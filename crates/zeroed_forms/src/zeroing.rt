//! A form with 0 for an atom, at every depth.
#![tactic(auto, using(crate::proofs::ZeroLaws::zero_laws))]

ghost use Rattle.std.specs.Prelude.{◌≡◌, Some, pos, IfOk};
ghost use Rattle.affine_index.specs.Form.{literal_form};
ghost use Rattle.fact_list.specs.Facts.{where_normal};
ghost use Rattle.zeroed_forms.specs.Zeroed.{atom_zeroed, factors_zeroed, terms_zeroed, zeroed};

use crate::arithmetic::{literal, plus, product, quotient, size, times, var};
use crate::sought::Sought;
use affine_index::{Aff, Atom, Item, Items};
use fact_list::{CertRefusal, same_atoms};
use std::alloc::Global;

#[cycle(zero)]
fn atom_zeroed(alloc: Global, z: &Sought, atom: &Atom) -> Result<Option<Aff>, CertRefusal>
    ensures { IfOk result (λ o. o ≡ atom_zeroed z.now.atom.now atom.now) }
{
    if same_atoms(z.atom, atom) {
        return literal(alloc, 0);
    }
    match atom {
        Atom::Size(number) => size(alloc, *number),
        Atom::Var(number) => var(alloc, *number),
        Atom::Div(dividend, divisor) => {
            let form = items_zeroed(alloc, z, dividend.get())?;
            quotient(alloc, form, *divisor)
        }
        Atom::Mul(factors) => factors_zeroed(alloc, z, factors.as_slice()),
    }
}

#[cycle(zero)]
fn factors_zeroed(alloc: Global, z: &Sought, factors: &[Atom]) -> Result<Option<Aff>, CertRefusal>
    ensures { IfOk result (λ o. o ≡ factors_zeroed z.now.atom.now factors.now (Some (literal_form (pos 1)))) }
{
    let mut all = literal(alloc, 1)?;
    for factor in factors {
        let form = atom_zeroed(alloc, z, factor)?;
        all = product(alloc, all, form)?;
    }
    Ok(all)
}

#[cycle(zero)]
fn terms_zeroed(
    alloc: Global,
    z: &Sought,
    terms: &[Item<Atom>],
    constant: i64,
) -> Result<Option<Aff>, CertRefusal>
    ensures { IfOk result (λ o. o ≡ terms_zeroed z.now.atom.now terms.now (where_normal (literal_form constant))) }
{
    let mut all = literal(alloc, constant)?;
    for term in terms {
        let form = atom_zeroed(alloc, z, &term.atom)?;
        let item = times(alloc, term.coefficient, form)?;
        all = plus(alloc, all, item)?;
    }
    Ok(all)
}

#[cycle(zero)]
fn items_zeroed(alloc: Global, z: &Sought, items: &Items) -> Result<Option<Aff>, CertRefusal>
    ensures { IfOk result (λ o. o ≡ zeroed z.now.atom.now items.now) }
{
    terms_zeroed(alloc, z, items.terms.as_slice(), items.constant)
}

/// The form with 0 for an atom at each place where it stands, or None where a part of what this gives breaks a limit. Products are multiplied out.
pub fn zeroed(alloc: Global, atom: &Atom, form: &Aff) -> Result<Option<Aff>, CertRefusal>
    ensures { IfOk result (λ o. o ≡ zeroed atom.now form.now) }
{
    let z = Sought { atom };
    items_zeroed(alloc, &z, form.items())
}
