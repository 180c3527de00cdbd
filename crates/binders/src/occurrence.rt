//! Whether a variable occurs in a form.
#![tactic(auto, using(crate::proofs::HasLaws::has_laws))]

ghost use Rattle.std.specs.Prelude.{◌≡◌, ◌==◌, map};
ghost use Rattle.affine_index.specs.Condition.{cmp_form};
ghost use Rattle.affine_index.specs.Normal.{any_true};
ghost use Rattle.binders.specs.Uses.{any_cmp, atom_has, terms_have, uses};

use affine_index::{Atom, Cmp, Cond, Item, Items};

#[cycle(uses)]
fn atom_uses(atom: &Atom, var: u64) -> bool
    ensures { result ≡ atom_has (λ w. w == var) atom.now }
{
    match atom {
        Atom::Size(_) => false,
        Atom::Var(v) => u64::from(*v) == var,
        Atom::Div(items, _) => form_uses(items.get(), var),
        Atom::Mul(factors) => factors_use(factors.as_slice(), var),
    }
}

#[cycle(uses)]
fn factors_use(factors: &[Atom], var: u64) -> bool
    ensures { result ≡ any_true (map (atom_has (λ w. w == var)) factors.now) }
{
    for factor in factors {
        if atom_uses(factor, var) {
            return true;
        }
    }
    false
}

#[cycle(uses)]
fn terms_use(terms: &[Item<Atom>], var: u64) -> bool
    ensures { result ≡ terms_have (λ w. w == var) terms.now }
{
    for term in terms {
        if atom_uses(&term.atom, var) {
            return true;
        }
    }
    false
}

#[cycle(uses)]
pub fn form_uses(items: &Items, var: u64) -> bool
    ensures { result ≡ uses var items.now }
{
    terms_use(items.terms.as_slice(), var)
}

fn cmp_uses(cmp: &Cmp, var: u64) -> bool
    ensures { result ≡ uses var (cmp_form cmp.now) }
{
    match cmp {
        Cmp::Ge(x) | Cmp::Eq(x) => form_uses(x.items(), var),
    }
}

pub fn cond_uses(cond: &Cond, var: u64) -> bool
    ensures { result ≡ any_cmp (uses var) cond.now.all }
{
    for cmp in cond.all.as_slice() {
        if cmp_uses(cmp, var) {
            return true;
        }
    }
    false
}
