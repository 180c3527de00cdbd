//! Each version that a script makes of a printable module is printable.
#![tactic(auto)]

pub mod laws;
mod told;

pub use told::versions_told;
