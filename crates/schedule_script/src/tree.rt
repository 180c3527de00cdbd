//! Scripts as trees. Names are as they stand in the text: what they mean depends on the place of a step.

use affine_index::Rel;
use linear_cert::{FinalLine, Lines};
use sqlite_items::{Boxed, Items};
use term_tree::{Name, Path};

/// An index expression as it is written. What an operator makes is read only up to a depth of 1,000, so with its
/// minuses a tree is at most 2,000 deep.
#[derive(Drop)]
pub enum IxTree {
    Num(u64),
    Name(Name),
    Neg(Boxed<IxTree>),
    Add(Boxed<IxTree>, Boxed<IxTree>),
    Sub(Boxed<IxTree>, Boxed<IxTree>),
    Mul(Boxed<IxTree>, Boxed<IxTree>),
    /// The quotient by a number from 1 to 2,147,483,647.
    Div(Boxed<IxTree>, u32),
    /// The remainder by a number from 1 to 2,147,483,647.
    Rem(Boxed<IxTree>, u32),
}

/// A comparison of two index expressions.
#[derive(Drop)]
pub struct Comparison {
    pub left: Boxed<IxTree>,
    pub rel: Rel,
    pub right: Boxed<IxTree>,
}

/// An argument of a rule: an index expression, or comparisons that all hold.
#[derive(Drop)]
pub enum ArgTree {
    Ix(Boxed<IxTree>),
    Cond(Items<Comparison>),
}

/// A rule, the place at which it is applied, its arguments, and how its first conditions are shown, one after
/// another.
#[derive(Drop)]
pub struct Step {
    pub path: Path,
    pub rule: Name,
    pub args: Items<ArgTree>,
    pub lines: Items<Lines>,
}

/// The steps of a schedule, how goals of the last version are shown, and the loops whose turns may run in any
/// order; no text has the last yet.
#[derive(Drop)]
pub struct Script {
    pub steps: Items<Step>,
    pub finals: Items<FinalLine>,
    pub parallel: Items<Path>,
}
