//! Reads source texts.
#![tactic(auto)]

mod fault;
mod limits;
mod source;

pub use fault::ReadFault;
pub use source::read_module;
