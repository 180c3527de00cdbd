//! What is read of a term.

use crate::tensor::Tensor;

/// The row, or that there is none, or that the term names no tensor.
#[derive(Drop)]
pub enum Read {
    Row(Tensor),
    Missing,
    Computed,
}
