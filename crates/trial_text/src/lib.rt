//! The texts of trials.
#![tactic(auto)]

mod given;
mod line;
mod put;
mod script;
mod source;

pub use given::trial_given;
pub use line::trial_line;
pub use script::trial_script;
pub use source::trial_source;
