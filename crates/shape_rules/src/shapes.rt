//! The shapes of the tensor variables around a term.

use affine_index::Aff;
use sqlite_items::Items;

/// The extents of each let, the innermost first, and of each input.
#[derive(Drop)]
pub struct Shapes {
    pub lets: Items<Items<Aff>>,
    pub inputs: Items<Items<Aff>>,
}
