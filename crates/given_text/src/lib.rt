//! Given text: the sizes of a run and the words of its inputs, and the line that tells the words of an output.
#![tactic(auto)]

mod fault;
mod line;
mod reader;
mod words;

pub use fault::{GivenFault, PrintFault};
pub use line::print_words;
pub use reader::read_given;
