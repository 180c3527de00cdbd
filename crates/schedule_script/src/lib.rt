//! Schedule scripts: their trees, and the reader of their text.
#![tactic(auto)]

mod arguments;
mod fault;
mod index;
mod made;
mod script;
mod steps;
mod tree;
mod words;

pub use fault::ScriptFault;
pub use script::read_script;
pub use tree::{ArgTree, Comparison, IxTree, Script, Step};
