//! The first printed index of a module that is too large.
#![tactic(auto)]

mod forms;
mod modules;
mod stores;
mod walk;

pub use modules::first_large;
