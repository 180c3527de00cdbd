//! Rules of tensors whose rows are moved, cut, joined or added, and laws of arithmetic on words.
#![tactic(auto)]

mod folding;
pub mod laws;
mod patterns;
mod ring;
mod rows;
mod rules;
mod words;

pub use rules::{ShapeRule, apply, conditions};
