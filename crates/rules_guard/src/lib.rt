//! Rules of guards.
#![tactic(auto)]

mod arguments;
mod cases;
mod inward;
pub mod laws;
mod nested;
mod outward;
mod rows;
mod rules;
mod shown;
mod words;

pub use rules::{GuardRule, apply, conditions};
