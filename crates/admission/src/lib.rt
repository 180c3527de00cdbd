//! Whether a module that was read is admitted: its shapes, its extents and its example keep the rules of the language; and which sizes it allows.
#![tactic(auto)]

mod constraints;
mod fault;
mod verdict;

pub use constraints::broken_constraint;
pub use fault::AdmissionFault;
pub use verdict::admit;
