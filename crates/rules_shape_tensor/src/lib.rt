//! Rules of tensors that are transposed, padded, cut, joined, split or flattened, and of rows of such tensors.
#![tactic(auto)]

pub mod build;
mod columns;
pub mod extents;
pub mod formed;
pub mod laws;
mod order;
pub mod patterns;
mod places;
mod tensors;

pub use columns::{split_index, transpose_index};
pub use order::shapes_told;
pub use places::flatten_index;
pub use tensors::{
    concat_assoc, flatten_split, pad_trunc_l, pad_trunc_r, split_flatten, transpose_twice,
};
