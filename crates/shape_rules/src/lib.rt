//! The shapes of terms, and the numbers that must not be negative.
#![tactic(auto)]

pub mod extents;
mod facts;
mod fault;
pub mod laws;
mod modules;
mod rules;
mod shapes;
mod terms;
mod walk;

pub use facts::module_facts;
pub use fault::ShapeFault;
pub use modules::extent_goals;
pub use shapes::Shapes;
pub use terms::shape;
