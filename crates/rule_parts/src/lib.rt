//! Parts of rules: the patterns of terms, terms made of terms, and conditions of guards.
#![tactic(auto)]

pub mod build;
pub mod conds;
pub mod goals;
pub mod patterns;
