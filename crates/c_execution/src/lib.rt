//! Executes C texts on given texts.
#![tactic(auto)]

mod exec;
mod executed;
mod fault;
mod names;

pub use exec::exec_bytes;
pub use fault::ExecFault;
