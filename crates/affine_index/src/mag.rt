//! The magnitude at the greatest sizes and variables, which stops at 2^63.
#![tactic(auto, using(crate::proofs::MagLaws::mag_laws))]

ghost use Rattle.std.specs.Prelude.{◌≡◌, ◌≤◌, ◌+◌, ◌*◌, ◌^◌, length, min, IsTrue};
ghost use Rattle.std.specs.Int.RustNames.{unsigned_abs};
ghost use Rattle.affine_index.specs.Limited.{atom_ready, atoms_ready, items_ready, terms_ready};
ghost use Rattle.affine_index.specs.Magnitude.{atom_magnitude, factors_magnitude, magnitude, terms_magnitude};

use crate::form::{Atom, Item, Items};

const STOP: u64 = 1 << 63;

fn capped(number: u128) -> u64
    ensures { result ≡ min number (2 ^ 63) }
{
    if number < u128::from(STOP) {
        number as u64
    } else {
        STOP
    }
}

fn plus(a: u64, b: u64) -> u64
    ensures { result ≡ min (a + b) (2 ^ 63) }
{
    capped(u128::from(a) + u128::from(b))
}

fn times(a: u64, b: u64) -> u64
    ensures { result ≡ min (a * b) (2 ^ 63) }
{
    capped(u128::from(a) * u128::from(b))
}

#[cycle(mag)]
fn atom_mag(atom: &Atom, maxima: &[u64], vars: &[u64]) -> u64
    requires ready { IsTrue (atom_ready (length maxima.now) (length vars.now) atom.now) }
    ensures { result ≡ min (atom_magnitude maxima.now vars.now atom.now) (2 ^ 63) }
{
    match atom {
        Atom::Size(size) => capped(u128::from(maxima[*size as usize])),
        Atom::Var(var) => capped(u128::from(vars[*var as usize])),
        Atom::Div(items, _) => items_mag(items.get(), maxima, vars),
        Atom::Mul(factors) => factors_mag(factors.as_slice(), maxima, vars),
    }
}

#[cycle(mag)]
fn factors_mag(atoms: &[Atom], maxima: &[u64], vars: &[u64]) -> u64
    requires ready { IsTrue (atoms_ready (length maxima.now) (length vars.now) atoms.now) }
    ensures { result ≡ min (factors_magnitude maxima.now vars.now atoms.now) (2 ^ 63) }
{
    let mut product = 1;
    for atom in atoms {
        product = times(product, atom_mag(atom, maxima, vars));
    }
    product
}

#[cycle(mag)]
fn terms_mag(terms: &[Item<Atom>], maxima: &[u64], vars: &[u64]) -> u64
    requires ready { IsTrue (terms_ready (length maxima.now) (length vars.now) terms.now) }
    ensures { result ≡ min (terms_magnitude maxima.now vars.now terms.now) (2 ^ 63) }
{
    let mut total = 0;
    for term in terms {
        let mag = times(
            term.coefficient.unsigned_abs(),
            atom_mag(&term.atom, maxima, vars),
        );
        total = plus(total, mag);
    }
    total
}

/// The magnitude of a form.
#[cycle(mag)]
pub fn items_mag(items: &Items, maxima: &[u64], vars: &[u64]) -> u64
    requires ready { IsTrue (items_ready (length maxima.now) (length vars.now) items.now) }
    ensures { result ≡ min (magnitude maxima.now vars.now items.now) (2 ^ 63) }
{
    plus(
        terms_mag(items.terms.as_slice(), maxima, vars),
        items.constant.unsigned_abs(),
    )
}
