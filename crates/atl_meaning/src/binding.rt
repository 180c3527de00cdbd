//! Tensors in scope.

use crate::tensor::Tensor;
use sqlite_items::Items;

/// The tensor of a let or an input, with its extents at the sizes.
#[derive(Drop)]
pub struct Binding {
    pub extents: Items<u64>,
    pub value: Tensor,
}
