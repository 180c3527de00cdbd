//! Reads the statements of C texts.
#![tactic(auto)]

mod pieces;
mod statements;
pub mod whole;
