//! Where the tensors of lets stand in one region of scratch, and how long it is.
#![tactic(auto)]

pub mod extents;
mod length;
mod modules;
mod needs;
mod planned;
mod refusal;
mod region;
mod walk;

pub use length::{Length, larger_of, length_tree, longer};
pub use modules::{plan, scratch_length};
pub use refusal::PlanRefusal;
pub use region::Plan;
