//! Runs of loop programs.
#![tactic(auto)]

mod buffers;
mod counted;
mod given;
mod index;
mod lengths;
mod machine;
mod making;
mod numbers;
mod refusal;
mod statement;
mod tests;
mod trouble;
mod word;

pub use buffers::{Buffers, go};
pub use counted::Counted;
pub use given::Given;
pub use making::make;
pub use refusal::{MakeRefusal, Stuck};
