//! The facts that a script stands on, told as a text.
#![tactic(auto)]

mod conditions;
mod fault;
mod goals;
mod script;

pub use fault::FactsFault;
pub use script::facts;
