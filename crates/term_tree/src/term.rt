//! Terms, modules and paths.

use crate::name::Name;
use affine_index::{Aff, Cmp, Cond};
use sqlite_items::{Boxed, Items};

/// A term of the tensor language. Index variables and tensor variables are two kinds, each counted from the
/// innermost binder, which is 0; under d lets `TVar(d + q)` is input q.
#[derive(Drop)]
pub enum Term {
    /// A word.
    Lit(u64),
    /// An input, or the tensor of a let.
    TVar(u32),
    /// The value of an index, modulo 2^64.
    WordOf(Aff),
    /// A row of a tensor; zero where there is no such row.
    Index(Boxed<Term>, Aff),
    /// The rows at each index below the extent.
    Gen(Aff, Boxed<Term>),
    /// The sum over each index below the extent.
    Sum(Aff, Boxed<Term>),
    /// The tensor where the condition holds, else zero.
    Guard(Cond, Boxed<Term>),
    /// A definition, and a body in which its tensor is variable 0.
    Let(Boxed<Term>, Boxed<Term>),
    Add(Boxed<Term>, Boxed<Term>),
    Sub(Boxed<Term>, Boxed<Term>),
    /// The product of two words.
    Mul(Boxed<Term>, Boxed<Term>),
    Concat(Boxed<Term>, Boxed<Term>),
    /// The rows of the rows, joined.
    Flatten(Boxed<Term>),
    /// Chunks of so many rows, the last filled up with zero rows.
    Split(u32, Boxed<Term>),
    Transpose(Boxed<Term>),
    /// All but the first rows.
    TruncL(Aff, Boxed<Term>),
    /// All but the last rows.
    TruncR(Aff, Boxed<Term>),
    /// Zero rows before the rows.
    PadL(Aff, Boxed<Term>),
    /// Zero rows behind the rows.
    PadR(Aff, Boxed<Term>),
}

/// A size, and the bounds that it is within, both included.
#[derive(Drop)]
pub struct SizeDecl {
    pub name: Name,
    pub low: u64,
    pub high: u64,
}

/// An input, with its extents over sizes.
#[derive(Drop)]
pub struct InputDecl {
    pub name: Name,
    pub extents: Items<Aff>,
}

#[derive(Drop)]
pub struct OutputDecl {
    pub name: Name,
    pub term: Term,
}

/// A source. The example has one number for each size.
#[derive(Drop)]
pub struct Module {
    pub version: u32,
    pub sizes: Items<SizeDecl>,
    pub assumes: Items<Cmp>,
    pub example: Items<u64>,
    pub inputs: Items<InputDecl>,
    pub outputs: Items<OutputDecl>,
}

/// The place of a node: the output, and the numbers of the children from its term downward. A let has its
/// definition as child 0 and its body as child 1.
#[derive(Drop)]
pub struct Path {
    pub output: u32,
    pub steps: Items<u32>,
}
