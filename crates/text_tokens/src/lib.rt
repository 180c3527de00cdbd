//! The words of a text, cut one at a time: the cursor that all readers of the source language, of scripts and of data stand on.
#![tactic(auto)]

mod cursor;
mod kind;
mod lex;

pub use cursor::Tokens;
pub use kind::{Kind, Language, same_kind};
pub use lex::number;
