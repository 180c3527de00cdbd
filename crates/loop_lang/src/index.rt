//! Index expressions of loop programs, and comparisons of them.

use affine_index::Rel;
use sqlite_items::Boxed;

/// An index expression, computed in 64 signed bits from left to right.
#[derive(Drop)]
pub enum Iexp {
    Lit(i64),
    /// A size of the program.
    Size(u32),
    /// The variable of a loop, by its depth counted from the outside.
    Loop(u32),
    Add(Boxed<Iexp>, Boxed<Iexp>),
    Sub(Boxed<Iexp>, Boxed<Iexp>),
    Mul(Boxed<Iexp>, Boxed<Iexp>),
    /// The quotient by a number above 0; its dividend must not be negative.
    Div(Boxed<Iexp>, u64),
    /// The remainder by a number above 0; its dividend must not be negative.
    Rem(Boxed<Iexp>, u64),
    /// The larger of two, in lengths alone.
    Larger(Boxed<Iexp>, Boxed<Iexp>),
}

/// A comparison of two indices.
#[derive(Drop)]
pub struct Test {
    pub left: Iexp,
    pub rel: Rel,
    pub right: Iexp,
}
