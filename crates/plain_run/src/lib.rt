//! What modules denote on given texts, by the plain evaluator.
#![tactic(auto)]

mod fault;
mod flat;
mod names;
mod plain;
mod read;
mod shapes;
mod tensors;

pub use fault::PlainFault;
pub use plain::run_plain;
