//! Equality.

ghost use Rattle.std.specs.Prelude.{◌≡◌, ◌↔◌, IsTrue};

use crate::term::Term;
use affine_index::{Cmp, Cond};

fn same_cmp(a: &Cmp, b: &Cmp) -> bool
    ensures { IsTrue result ↔ (a.now ≡ b.now) }
{
    match (a, b) {
        (Cmp::Ge(x), Cmp::Ge(y)) => x.same(y),
        (Cmp::Eq(x), Cmp::Eq(y)) => x.same(y),
        _ => false,
    }
}

fn same_cond(a: &Cond, b: &Cond) -> bool
    ensures { IsTrue result ↔ (a.now ≡ b.now) }
{
    let a = a.all.as_slice();
    let b = b.all.as_slice();
    if a.len() != b.len() {
        return false;
    }
    for i in 0..a.len() {
        if !same_cmp(&a[i], &b[i]) {
            return false;
        }
    }
    true
}

/// Whether two parts are equal too. Parts of nodes that differ before are not looked at.
#[cycle(same)]
fn and_same(first: bool, d: &Term, e: &Term) -> bool
    ensures { IsTrue result ↔ (IsTrue first × (d.now ≡ e.now)) }
{
    first && same(d, e)
}

/// Whether two terms are equal.
#[cycle(same)]
pub fn same(a: &Term, b: &Term) -> bool
    ensures { IsTrue result ↔ (a.now ≡ b.now) }
{
    match a {
        Term::Lit(v) => match b {
            Term::Lit(w) => *v == *w,
            _ => false,
        },
        Term::TVar(v) => match b {
            Term::TVar(w) => *v == *w,
            _ => false,
        },
        Term::WordOf(x) => match b {
            Term::WordOf(y) => x.same(y),
            _ => false,
        },
        Term::Index(d, x) => match b {
            Term::Index(e, y) => and_same(x.same(y), d.get(), e.get()),
            _ => false,
        },
        Term::Flatten(d) => match b {
            Term::Flatten(e) => same(d.get(), e.get()),
            _ => false,
        },
        Term::Transpose(d) => match b {
            Term::Transpose(e) => same(d.get(), e.get()),
            _ => false,
        },
        Term::Split(k, d) => match b {
            Term::Split(l, e) => *k == *l && same(d.get(), e.get()),
            _ => false,
        },
        Term::Guard(x, d) => match b {
            Term::Guard(y, e) => and_same(same_cond(x, y), d.get(), e.get()),
            _ => false,
        },
        Term::Gen(x, d) => match b {
            Term::Gen(y, e) => and_same(x.same(y), d.get(), e.get()),
            _ => false,
        },
        Term::Sum(x, d) => match b {
            Term::Sum(y, e) => and_same(x.same(y), d.get(), e.get()),
            _ => false,
        },
        Term::TruncL(x, d) => match b {
            Term::TruncL(y, e) => and_same(x.same(y), d.get(), e.get()),
            _ => false,
        },
        Term::TruncR(x, d) => match b {
            Term::TruncR(y, e) => and_same(x.same(y), d.get(), e.get()),
            _ => false,
        },
        Term::PadL(x, d) => match b {
            Term::PadL(y, e) => and_same(x.same(y), d.get(), e.get()),
            _ => false,
        },
        Term::PadR(x, d) => match b {
            Term::PadR(y, e) => and_same(x.same(y), d.get(), e.get()),
            _ => false,
        },
        Term::Let(c, d) => match b {
            Term::Let(e, f) => and_same(same(c.get(), e.get()), d.get(), f.get()),
            _ => false,
        },
        Term::Add(c, d) => match b {
            Term::Add(e, f) => and_same(same(c.get(), e.get()), d.get(), f.get()),
            _ => false,
        },
        Term::Sub(c, d) => match b {
            Term::Sub(e, f) => and_same(same(c.get(), e.get()), d.get(), f.get()),
            _ => false,
        },
        Term::Mul(c, d) => match b {
            Term::Mul(e, f) => and_same(same(c.get(), e.get()), d.get(), f.get()),
            _ => false,
        },
        Term::Concat(c, d) => match b {
            Term::Concat(e, f) => and_same(same(c.get(), e.get()), d.get(), f.get()),
            _ => false,
        },
    }
}
