//! The driver: the words of the command line decide what is read, compiled and written.
#![tactic(auto)]

mod command;
mod compile;
mod decide;
mod driver;
mod emit;
mod exec;
mod fault;
mod faults;
mod last_run;
mod last_text;
mod line;
mod module_text;
mod plain;
mod reading;
mod refusal;
mod report;
mod run_faults;
mod status;
mod task;
mod trial;

pub use command::Verb;
pub use compile::{CompileRefusal, compile_bytes, facts_bytes, run_bytes, stages_bytes};
pub use driver::atl;
pub use emit::Emit;
pub use exec::exec_text;
pub use fault::{Fault, FaultField, Fields};
pub use line::fault_line;
pub use plain::plain_bytes;
pub use status::Status;
pub use task::Task;
pub use trial::trial_bytes;
