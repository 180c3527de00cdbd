//! Runs of loop programs told as text: their outputs, and how many words they stored.
#![tactic(auto)]

mod fault;
mod text;
mod told;

pub use fault::RunFault;
pub use text::{output_text, run_text};
pub use told::{run_checked, run_told};
