//! Rules of gens and sums.
#![tactic(auto)]

mod beside;
mod build;
mod cuts;
mod drafts;
mod formed;
mod fusing;
pub mod laws;
mod one_turn;
mod patterns;
mod products;
mod raising;
mod rows;
mod rules;
mod sums;
mod swaps;
mod tilings;

pub use rules::{LoopRule, apply, conditions};
