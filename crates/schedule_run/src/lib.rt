//! Scripts run on modules, step by step.
#![tactic(auto)]

mod conditions;
mod fault;
mod limits;
mod names;
mod running;
mod stepping;

pub use conditions::step_conditions;
pub use fault::{StepFault, StepKind};
pub use names::Rule;
pub use running::{Staged, last_version, run_script};
pub use stepping::version_after;
