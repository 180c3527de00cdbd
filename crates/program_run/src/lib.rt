//! Runs of loop programs within the limits of a run.
#![tactic(auto)]

mod run;

pub use run::{Ran, run_program};
