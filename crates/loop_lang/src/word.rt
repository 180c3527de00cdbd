//! Word expressions of loop programs.

use crate::index::{Iexp, Test};
use sqlite_items::{Boxed, Items};

/// A buffer.
#[derive(Clone, Copy, Debug, PartialEq, Eq)]
pub enum Buf {
    Input(u32),
    Output(u32),
    Scratch(u32),
}

/// A word expression, computed modulo 2^64.
#[derive(Drop)]
pub enum Wexp {
    Lit(u64),
    Load(Buf, Iexp),
    /// An index as a word, modulo 2^64.
    OfIndex(Iexp),
    Add(Boxed<Wexp>, Boxed<Wexp>),
    Sub(Boxed<Wexp>, Boxed<Wexp>),
    Mul(Boxed<Wexp>, Boxed<Wexp>),
    /// The first where all tests hold, else the second; only that one is computed.
    Choose(Items<Test>, Boxed<Wexp>, Boxed<Wexp>),
}
