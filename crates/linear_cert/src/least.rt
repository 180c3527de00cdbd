//! The least variable in atoms and forms.
#![tactic(auto, using(crate::proofs::LeastLaws::least_laws))]

ghost use Rattle.std.specs.Prelude.{◌≡◌};
ghost use Rattle.linear_cert.specs.DefaultLines.{atom_least, form_least, lesser, list_least, terms_least};

use affine_index::raw::Wide;
use affine_index::{Atom, Item};

fn lesser(v: Option<u32>, w: Option<u32>) -> Option<u32>
    ensures { result ≡ lesser v w }
{
    match (v, w) {
        (None, w) => w,
        (v, None) => v,
        (Some(v), Some(w)) => Some(v.min(w)),
    }
}

/// The least variable in an atom, at any depth.
#[cycle(least)]
pub fn atom_least(atom: &Atom) -> Option<u32>
    ensures { result ≡ atom_least atom.now }
{
    match atom {
        Atom::Size(_) => None,
        Atom::Var(var) => Some(*var),
        Atom::Div(dividend, _) => items_least(dividend.get()),
        Atom::Mul(factors) => atoms_least(factors.as_slice()),
    }
}

#[cycle(least)]
fn atoms_least(atoms: &[Atom]) -> Option<u32>
    ensures { result ≡ list_least atoms.now }
{
    let mut least = None;
    for atom in atoms {
        least = lesser(least, atom_least(atom));
    }
    least
}

#[cycle(least)]
fn items_least(items: &affine_index::Items) -> Option<u32>
    ensures { result ≡ form_least items.now }
{
    terms_least(items.terms.as_slice())
}

#[cycle(least)]
fn terms_least(terms: &[Item<Atom>]) -> Option<u32>
    ensures { result ≡ terms_least terms.now }
{
    let mut least = None;
    for term in terms {
        least = lesser(least, atom_least(&term.atom));
    }
    least
}

/// The least variable in a form.
pub fn form_least(form: &Wide) -> Option<u32>
    ensures { result ≡ form_least form.now }
{
    let mut least = None;
    for at in 0..form.terms().len() {
        least = lesser(least, atom_least(form.terms().get(at).atom()));
    }
    least
}
