//! Runs of trials.
#![tactic(auto)]

mod names;
mod read;
mod summed;
mod sums;
mod trial;

pub use trial::run_trial;
