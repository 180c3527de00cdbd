//! What readers of words are put together from, and the laws by which what is read is what the grammar says.
#![tactic(auto)]

mod fault;
mod levels;
mod step;

pub use fault::{Fault, ReadError};
pub use levels::{expect_in, misplaced_in, open};
pub use step::{expect, finish, misplaced, place_of, refuse};
