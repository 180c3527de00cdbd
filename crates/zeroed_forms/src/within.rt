//! Whether a quotient or product stands within a form.
#![tactic(auto, using(crate::proofs::OccursLaws::occurs_laws))]

ghost use Rattle.std.specs.Prelude.{◌≡◌};
ghost use Rattle.zeroed_forms.specs.Occurs.{atom_has, atoms_have, occurs, terms_have};

use crate::sought::Sought;
use affine_index::{Aff, Atom, Item, Items};
use fact_list::same_atoms;

#[cycle(occurs)]
fn atom_has(z: &Sought, atom: &Atom) -> bool
    ensures { result ≡ atom_has z.now.atom.now atom.now }
{
    match atom {
        Atom::Size(_) => false,
        Atom::Var(_) => false,
        Atom::Div(dividend, _) => same_atoms(z.atom, atom) || items_have(z, dividend.get()),
        Atom::Mul(factors) => same_atoms(z.atom, atom) || atoms_have(z, factors.as_slice()),
    }
}

#[cycle(occurs)]
fn atoms_have(z: &Sought, atoms: &[Atom]) -> bool
    ensures { result ≡ atoms_have z.now.atom.now atoms.now }
{
    for atom in atoms {
        if atom_has(z, atom) {
            return true;
        }
    }
    false
}

#[cycle(occurs)]
fn terms_have(z: &Sought, terms: &[Item<Atom>]) -> bool
    ensures { result ≡ terms_have z.now.atom.now terms.now }
{
    for term in terms {
        if atom_has(z, &term.atom) {
            return true;
        }
    }
    false
}

#[cycle(occurs)]
fn items_have(z: &Sought, items: &Items) -> bool
    ensures { result ≡ occurs z.now.atom.now items.now }
{
    terms_have(z, items.terms.as_slice())
}

/// Whether a quotient or product stands within a form, at any depth. Linear in the atoms of both, for each atom.
pub fn occurs(atom: &Atom, form: &Aff) -> bool
    ensures { result ≡ occurs atom.now form.now }
{
    let z = Sought { atom };
    items_have(&z, form.items())
}
