//! Loop programs, and what they do.
#![tactic(auto)]

mod index;
mod stmt;
mod word;

pub use index::{Iexp, Test};
pub use stmt::{Prog, Stmt};
pub use word::{Buf, Wexp};
