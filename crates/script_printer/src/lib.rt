//! Prints the canonical text of a schedule script.
#![tactic(auto)]

mod arguments;
mod fault;
mod index;
mod level;
mod script;
mod steps;
mod writer;

pub use fault::PrintFault;
pub use script::print_script;
