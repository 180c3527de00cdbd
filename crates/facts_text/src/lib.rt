//! The text that tells what is to be shown, and by which facts.
#![tactic(auto)]

mod block;
mod fault;
mod form;
mod level;
mod writer;

pub use block::Title;
pub use fault::PrintFault;
pub use writer::Writer;
