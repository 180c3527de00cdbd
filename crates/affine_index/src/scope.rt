//! Whether the sizes and variables of a form are below given numbers.
#![tactic(auto, using(crate::proofs::ScopeLaws::scope_laws))]

ghost use Rattle.std.specs.Prelude.{◌≡◌};
ghost use Rattle.affine_index.specs.Limited.{atom_scoped, atoms_scoped, items_scoped, terms_scoped};

use crate::form::{Atom, Item, Items};

#[cycle(scope)]
fn atom_scoped(atom: &Atom, sizes: usize, vars: usize) -> bool
    ensures { result ≡ atom_scoped sizes vars atom.now }
{
    match atom {
        Atom::Size(size) => (*size as usize) < sizes,
        Atom::Var(var) => (*var as usize) < vars,
        Atom::Div(items, _) => items_scoped(items.get(), sizes, vars),
        Atom::Mul(factors) => atoms_scoped(factors.as_slice(), sizes, vars),
    }
}

#[cycle(scope)]
fn atoms_scoped(atoms: &[Atom], sizes: usize, vars: usize) -> bool
    ensures { result ≡ atoms_scoped sizes vars atoms.now }
{
    for atom in atoms {
        if !atom_scoped(atom, sizes, vars) {
            return false;
        }
    }
    true
}

#[cycle(scope)]
fn terms_scoped(terms: &[Item<Atom>], sizes: usize, vars: usize) -> bool
    ensures { result ≡ terms_scoped sizes vars terms.now }
{
    for term in terms {
        if !atom_scoped(&term.atom, sizes, vars) {
            return false;
        }
    }
    true
}

/// Whether each number of a size and of a variable in a form is below these.
#[cycle(scope)]
pub fn items_scoped(items: &Items, sizes: usize, vars: usize) -> bool
    ensures { result ≡ items_scoped sizes vars items.now }
{
    terms_scoped(items.terms.as_slice(), sizes, vars)
}
