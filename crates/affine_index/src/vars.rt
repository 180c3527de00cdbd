//! Whether a form holds an index variable.
#![tactic(auto, using(crate::proofs::VarLaws::var_laws))]

ghost use Rattle.std.specs.Prelude.{◌≡◌};
ghost use Rattle.affine_index.specs.Normal.{any_holds, any_term_holds, atom_holds_var, holds_var};

use crate::form::{Atom, Item, Items};

#[cycle(vars)]
fn atom_holds_var(atom: &Atom) -> bool
    ensures { result ≡ atom_holds_var atom.now }
{
    match atom {
        Atom::Size(_) => false,
        Atom::Var(_) => true,
        Atom::Div(items, _) => holds_var(items.get()),
        Atom::Mul(factors) => any_holds(factors.as_slice()),
    }
}

#[cycle(vars)]
fn any_holds(atoms: &[Atom]) -> bool
    ensures { result ≡ any_holds atoms.now }
{
    for atom in atoms {
        if atom_holds_var(atom) {
            return true;
        }
    }
    false
}

#[cycle(vars)]
fn any_term_holds(terms: &[Item<Atom>]) -> bool
    ensures { result ≡ any_term_holds terms.now }
{
    for term in terms {
        if atom_holds_var(&term.atom) {
            return true;
        }
    }
    false
}

/// Whether a form holds an index variable at any depth.
#[cycle(vars)]
pub fn holds_var(items: &Items) -> bool
    ensures { result ≡ holds_var items.now }
{
    any_term_holds(items.terms.as_slice())
}
