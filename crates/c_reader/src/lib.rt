//! Reads C texts as loop programs.
#![tactic(auto)]

mod fault;
mod heads;
mod lengths;
mod parameters;
mod read;
mod sizes;
mod unit;

pub use fault::CFault;
pub use read::read_c;
