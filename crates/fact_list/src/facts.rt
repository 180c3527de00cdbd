//! What is known at a place.

use affine_index::{Aff, Cmp, Cond};
use sqlite_items::Items;

/// The declared bounds of a size, both included.
#[derive(Drop)]
pub struct SizeBounds {
    pub low: u64,
    pub high: u64,
}

/// What a node on the way to a place tells: a gen or sum the extent of its variable, a guard its comparisons, numbered by the binders before it.
#[derive(Drop)]
pub enum PathFact {
    Bound(Aff),
    Holds(Cond),
}

/// The declared bounds, the assumes, and the path from outside.
#[derive(Drop)]
pub struct Facts {
    pub sizes: Items<SizeBounds>,
    pub assumes: Items<Cmp>,
    pub path: Items<PathFact>,
}
