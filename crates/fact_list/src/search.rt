//! A search for an atom in a list in order.

ghost use Rattle.std.specs.Prelude.{◌≡◌, ◌∷◌};
ghost use Rattle.std.specs.Ordering.{is_lt};
ghost use Rattle.affine_index.proofs.Factors.{SortedFactors};
ghost use Rattle.affine_index.specs.Order.{atom_order};
ghost use Rattle.fact_list.specs.Atoms.{same_atoms, stands_in};
ghost use Rattle.fact_list.specs.Sorted.{Splits};

use affine_index::Atom;
use affine_index::raw::{order_atoms, same_atom};
use std::cmp::Ordering;

/// Whether two atoms are equal.
pub fn same_atoms(a: &Atom, b: &Atom) -> bool
    ensures { result ≡ same_atoms a.now b.now }
{
    same_atom(a, b)
}

fn stands_before(a: &Atom, b: &Atom) -> bool
    ensures { result ≡ is_lt (atom_order a.now b.now) }
{
    match order_atoms(a, b) {
        Ordering::Less => true,
        Ordering::Equal => false,
        Ordering::Greater => false,
    }
}

/// Whether an atom stands in a list in order, none of which it comes after: then it is the first.
pub fn begins(atom: &Atom, list: &[Atom]) -> bool
    requires { SortedFactors (atom.now ∷ list.now) }
    ensures { result ≡ stands_in atom.now list.now }
{
    if list.len() == 0 {
        return false;
    }
    same_atoms(atom, &list[0])
}

/// The place of an atom in a list in order, after those that are less. Halves the list at each step.
pub fn place(atom: &Atom, list: &[Atom]) -> usize
    requires { SortedFactors list.now }
    ensures { Splits atom.now list.now result }
{
    let mut low = 0;
    let mut high = list.len();
    while low < high {
        let middle = low + (high - low) / 2;
        if stands_before(&list[middle], atom) {
            low = middle + 1;
        } else {
            high = middle;
        }
    }
    low
}
