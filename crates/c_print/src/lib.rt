//! The C text of loop programs.
#![tactic(auto)]

mod fault;
mod index;
mod level;
mod program;
mod stmt;
mod word;
mod writer;

pub use fault::PrintFault;
pub use program::print_c;
pub use word::buffer_name;
