//! The loops of modules that may be lowered.
#![tactic(auto)]

mod forms;
mod leaf;
mod literals;
mod marks;
mod modules;
mod node;
mod outputs;
mod parts;
mod walk;
mod words;

pub use modules::lower;
