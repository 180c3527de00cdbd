//! What an expression of C is read as.

use loop_lang::{Iexp, Test, Wexp};
use sqlite_items::{Boxed, Items};

/// An expression of one of the three kinds.
#[derive(Drop)]
pub enum Value {
    Index(Boxed<Iexp>),
    Word(Boxed<Wexp>),
    /// Comparisons that must all hold.
    Tests(Items<Test>),
}

/// An operator of arithmetic.
#[derive(Clone, Copy, Debug, PartialEq, Eq)]
pub enum Operator {
    Plus,
    Minus,
    Times,
    Over,
    Modulo,
}
