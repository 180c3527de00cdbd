//! Tensors from their words.
#![tactic(auto)]

pub mod laws;
