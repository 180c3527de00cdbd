//! Certificates: sums of facts times multipliers that show a form to be at least 0.
#![tactic(auto)]

mod attempt;
mod certificate;
mod choice;
mod given;
mod least;
pub mod lines;
mod procedure;
mod roles;

pub use certificate::{default_lines, shown};
pub use fact_list::{CertRefusal, Facts, PathFact, SizeBounds};
pub use lines::{FinalLine, Line, Lines};
