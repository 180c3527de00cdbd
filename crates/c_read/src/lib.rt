//! C texts read back: which program a text stands for, and that it is one alone.
#![tactic(auto)]

pub mod laws;
pub mod names;
pub mod scope;
pub mod words;
