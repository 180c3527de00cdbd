//! How many variables a form may name.
#![tactic(auto, using(crate::proofs::BoundLaws::bound_laws))]

ghost use Rattle.std.specs.Prelude.{◌≡◌, ◌≤◌, ◌^◌, map};
ghost use Rattle.binders.specs.Bound.{atom_bound, form_bound, largest, terms_bound};

use affine_index::{Atom, Item, Items};

#[cycle(bound)]
fn atom_bound(atom: &Atom) -> u64
    ensures value { result ≡ atom_bound atom.now }
    ensures limit { result ≤ 2 ^ 32 }
{
    match atom {
        Atom::Size(_) => 0,
        Atom::Var(var) => u64::from(*var) + 1,
        Atom::Div(items, _) => form_bound(items.get()),
        Atom::Mul(factors) => factors_bound(factors.as_slice()),
    }
}

#[cycle(bound)]
fn factors_bound(factors: &[Atom]) -> u64
    ensures value { result ≡ largest (map atom_bound factors.now) }
    ensures limit { result ≤ 2 ^ 32 }
{
    let mut most: u64 = 0;
    for factor in factors {
        most = most.max(atom_bound(factor));
    }
    most
}

#[cycle(bound)]
fn terms_bound(terms: &[Item<Atom>]) -> u64
    ensures value { result ≡ terms_bound terms.now }
    ensures limit { result ≤ 2 ^ 32 }
{
    let mut most: u64 = 0;
    for term in terms {
        most = most.max(atom_bound(&term.atom));
    }
    most
}

/// One more than the largest number of a variable of the form, 0 without variables.
#[cycle(bound)]
pub fn form_bound(items: &Items) -> u64
    ensures value { result ≡ form_bound items.now }
    ensures limit { result ≤ 2 ^ 32 }
{
    terms_bound(items.terms.as_slice())
}
