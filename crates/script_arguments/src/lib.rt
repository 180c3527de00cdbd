//! Arguments of the steps of a schedule, as what they are at a place of a module.
#![tactic(auto)]

mod arguments;
mod forms;
mod names;

pub use arguments::{resolve, resolve_all};
