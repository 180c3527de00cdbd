//! The text of the versions of a module: for each a line with its number, and below it its canonical text, which reads back.
#![tactic(auto)]

mod stages;

pub use stages::print_stages;
