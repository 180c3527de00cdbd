//! The value at given sizes and variables, which gives up at 2^120.
#![tactic(auto, using(crate::proofs::LimitedLaws::value_laws))]

ghost use Rattle.std.specs.Prelude.{◌≡◌, length, pos, ◌+ℤ◌, ◌*ℤ◌, IsTrue};
ghost use Rattle.affine_index.specs.Limited.{limited, plus, times, times_all, limited_value, added_all, atom_ready, atoms_ready, items_ready, terms_ready};

use crate::form::{Atom, Item, Items};

const LIMIT: u128 = 1 << 120;

fn limited(x: i128) -> Option<i128>
    ensures { result ≡ limited x }
{
    if x.unsigned_abs() < LIMIT {
        Some(x)
    } else {
        None
    }
}

fn limited_sum(x: i128, y: i128) -> Option<i128>
    ensures { result ≡ limited (x +ℤ y) }
{
    match x.checked_add(y) {
        Some(sum) => limited(sum),
        None => None,
    }
}

fn limited_product(x: i128, y: i128) -> Option<i128>
    ensures { result ≡ limited (x *ℤ y) }
{
    match x.checked_mul(y) {
        Some(product) => limited(product),
        None => None,
    }
}

fn plus(total: i128, item: Option<i128>) -> Option<i128>
    ensures { result ≡ plus total item }
{
    limited_sum(total, item?)
}

#[cycle(value)]
fn times(number: i128, atom: &Atom, sizes: &[u64], vars: &[u64]) -> Option<i128>
    requires ready { IsTrue (atom_ready (length sizes.now) (length vars.now) atom.now) }
    ensures { result ≡ times sizes.now vars.now atom.now number }
{
    match atom {
        Atom::Size(size) => limited_product(number, i128::from(sizes[*size as usize])),
        Atom::Var(var) => limited_product(number, i128::from(vars[*var as usize])),
        Atom::Div(items, divisor) => {
            let dividend = items_value(items.get(), sizes, vars)?;
            limited_product(number, dividend.div_euclid(i128::from(*divisor)))
        }
        Atom::Mul(factors) => times_all(number, factors.as_slice(), sizes, vars),
    }
}

#[cycle(value)]
fn times_all(number: i128, atoms: &[Atom], sizes: &[u64], vars: &[u64]) -> Option<i128>
    requires ready { IsTrue (atoms_ready (length sizes.now) (length vars.now) atoms.now) }
    ensures { result ≡ times_all sizes.now vars.now atoms.now number }
{
    let mut product = number;
    for atom in atoms {
        product = times(product, atom, sizes, vars)?;
    }
    Some(product)
}

#[cycle(value)]
fn added_all(terms: &[Item<Atom>], sizes: &[u64], vars: &[u64]) -> Option<i128>
    requires ready { IsTrue (terms_ready (length sizes.now) (length vars.now) terms.now) }
    ensures { result ≡ added_all sizes.now vars.now terms.now (pos 0) }
{
    let mut total = 0;
    for term in terms {
        let item = times(i128::from(term.coefficient), &term.atom, sizes, vars);
        total = plus(total, item)?;
    }
    Some(total)
}

#[cycle(value)]
pub fn items_value(items: &Items, sizes: &[u64], vars: &[u64]) -> Option<i128>
    requires ready { IsTrue (items_ready (length sizes.now) (length vars.now) items.now) }
    ensures { result ≡ limited_value sizes.now vars.now items.now }
{
    let total = added_all(items.terms.as_slice(), sizes, vars);
    plus(i128::from(items.constant), total)
}
