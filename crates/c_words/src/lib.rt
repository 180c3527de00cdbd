//! The words of a C text, cut one at a time: the cursor that the reader of C stands on.
#![tactic(auto)]

mod cursor;
mod lex;
mod skip;
mod state;

pub use cursor::CWords;
pub use state::{Margin, State};
