//! Reads the expressions of C texts.
#![tactic(auto)]

mod expressions;
mod joins;
mod made;
mod value;
pub mod whole;
pub mod words;
