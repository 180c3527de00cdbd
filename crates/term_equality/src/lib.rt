//! Equality of terms as a Boolean.
#![tactic(auto)]

mod equality;
pub mod laws;

pub use equality::same_terms;
