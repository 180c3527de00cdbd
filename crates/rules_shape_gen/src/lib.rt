//! Rules of gens whose rows are cut, joined, filled up, put into tiles or flattened.
#![tactic(auto)]

mod concats;
mod formed;
pub mod laws;
mod patterns;
mod rows;
mod tiles;
mod widths;

pub use concats::concat_gen;
pub use tiles::{flatten_of_gen, split_of_gen};
pub use widths::{pad_gen_l, pad_gen_r, trunc_gen_l, trunc_gen_r};
