//! Tensors.

use sqlite_items::Items;

/// A word, or rows. A tensor of rank 0 is a word; one of n rows has n as its first extent.
#[derive(Debug, Drop)]
pub enum Tensor {
    Word(u64),
    Row(Items<Tensor>),
}
