//! Reads the declarations of a source text, and whole texts of one version, as the grammar of source texts says.
#![tactic(auto)]

mod inputs;
mod outputs;
mod sizes;
mod whole;
mod words;

pub use whole::source;
