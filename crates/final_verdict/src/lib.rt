//! Whether a module may be lowered.
#![tactic(auto)]

mod copying;
mod verdict;

pub use verdict::judge;
