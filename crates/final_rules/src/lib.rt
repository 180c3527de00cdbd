//! What a module in final form has to show before it is lowered.
#![tactic(auto)]

mod fault;
mod final_module;
pub mod form;
pub mod frames;
pub mod goal;
pub mod laws;
pub mod lengths;
pub mod lines;
pub mod lowerable;
pub mod marks;
pub mod printing;
pub mod read;
pub mod spot;
pub mod steps;

pub use fault::FinalFault;
pub use final_module::Final;
pub use goal::{Goal, GoalKind};
pub use read::Read;
pub use spot::{Around, Spot};
