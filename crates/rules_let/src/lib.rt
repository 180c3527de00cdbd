//! Rules of lets.
#![tactic(auto)]

mod arguments;
mod build;
mod drafts;
mod inlining;
pub mod laws;
mod lifting;
mod moving;
mod nesting;
mod operators;
mod patterns;
mod rules;

pub use rules::{LetRule, apply, conditions};
