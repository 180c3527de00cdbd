//! Runs of the loops of modules on given texts.
#![tactic(auto)]

mod names;
mod version;

pub use version::run_version;
