//! Why a term has no shape.

/// What a shape rule finds wrong at a node, in the order in which a node is tested.
#[derive(Debug, Drop, Clone, Copy, PartialEq, Eq)]
pub enum Cause {
    /// The operands have not the rank that the operator asks for, or not one rank.
    RankMismatch,
    /// Extents that must be equal are different forms.
    ShapesDiffer,
    /// The rank is over 8.
    RankTooLarge,
    CoefficientTooLarge,
    IndexTooLong,
}
