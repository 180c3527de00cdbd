//! The trees that normal forms print as, and that they compute their values.
#![tactic(auto)]

pub mod laws;
mod tree;

pub use tree::{index_tree, tree_after};
