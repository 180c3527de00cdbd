//! No run of the loops of a module is stuck.
#![tactic(auto)]

pub mod laws;
