//! The facts of a list, each with what it is a bound of.

use affine_index::{Atom, Cmp};

#[derive(Debug, Drop, Clone, Copy, PartialEq, Eq)]
pub enum Side {
    Lower,
    Upper,
}

/// What a fact is known for.
#[derive(Drop)]
pub enum Role {
    /// An assume or a comparison of a guard.
    Stated,
    /// A bound of a size, a variable or a quotient.
    BoundOf(Side, Atom),
    /// A bound of a factor, times the other factors of a product.
    FactorOf(Side, Atom, Atom),
    /// A product is at least 0.
    ProductOf(Atom),
}

/// A fact of the list.
#[derive(Drop)]
pub struct Fact {
    pub role: Role,
    pub cmp: Cmp,
}
