//! The loops of modules have a text of their own.
#![tactic(auto)]

pub mod laws;
