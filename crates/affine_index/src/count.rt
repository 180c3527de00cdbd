//! The number of atoms, which stops at 2^64 - 1.
#![tactic(auto, using(crate::proofs::CountLaws::count_laws))]

ghost use Rattle.std.specs.Prelude.{◌≡◌, ◌-◌, ◌^◌, map, min};
ghost use Rattle.affine_index.specs.Count.{atom_count, items_count, total, terms_count};

use crate::form::{Atom, Item, Items};

#[cycle(count)]
pub fn count_atom(atom: &Atom) -> u64
    ensures { result ≡ min (atom_count atom.now) (2 ^ 64 - 1) }
{
    match atom {
        Atom::Size(_) => 1,
        Atom::Var(_) => 1,
        Atom::Div(items, _) => count_items(items.get()).saturating_add(1),
        Atom::Mul(factors) => count_atoms(factors.as_slice()),
    }
}

#[cycle(count)]
fn count_atoms(atoms: &[Atom]) -> u64
    ensures { result ≡ min (total (map atom_count atoms.now)) (2 ^ 64 - 1) }
{
    let mut total: u64 = 0;
    for atom in atoms {
        total = total.saturating_add(count_atom(atom));
    }
    total
}

#[cycle(count)]
pub fn count_items(items: &Items) -> u64
    ensures { result ≡ min (items_count items.now) (2 ^ 64 - 1) }
{
    count_terms(items.terms.as_slice())
}

#[cycle(count)]
fn count_terms(terms: &[Item<Atom>]) -> u64
    ensures { result ≡ min (terms_count terms.now) (2 ^ 64 - 1) }
{
    let mut total: u64 = 0;
    for term in terms {
        total = total.saturating_add(count_atom(&term.atom));
    }
    total
}
