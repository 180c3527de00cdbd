//! The canonical text of a source: one declaration a line, names by number, parentheses only where they are needed; it reads back.
#![tactic(auto)]

mod declaration;
mod form;
mod index;
pub mod laws;
mod pen;
mod term;

pub use declaration::print_module;
pub use pen::PrintFault;
