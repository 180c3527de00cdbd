//! What C texts stand for: the grammar of the subset of C, and the law of the printed text.
#![tactic(auto)]

pub mod laws;
