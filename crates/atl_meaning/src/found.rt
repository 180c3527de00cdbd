//! What is found of a term.

use affine_index::Aff;
use sqlite_items::Items;

/// The extents of a term, and the words of its first node, in preorder, with over 2^24 of them.
#[derive(Drop)]
pub struct Found {
    pub extents: Items<Aff>,
    pub big: Option<u64>,
}
