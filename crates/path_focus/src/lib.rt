//! Places in modules: what is known there, and a term put in place of another.
#![tactic(auto)]

pub mod forms;
pub mod laws;
pub mod making;
mod outcome;
mod outputs;
mod place;
mod plugging;
mod reaching;
mod rule;
mod trail;
mod verdict;

pub use outcome::{Draft, Outcome, Rewrite};
pub use place::{BoundLet, Focus, PathRefusal};
pub use plugging::plug;
pub use reaching::focus;
pub use rule::{Arg, Condition, Law, RuleFault};
pub use verdict::{conditions, finish};
