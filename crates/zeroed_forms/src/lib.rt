//! Forms with 0 for an atom.
#![tactic(auto)]

mod arithmetic;
mod dividends;
pub mod laws;
mod sought;
mod within;
mod zeroing;

pub use dividends::formed;
pub use within::occurs;
pub use zeroing::zeroed;
