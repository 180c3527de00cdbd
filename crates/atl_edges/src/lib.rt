//! The edges of the program: files that are read by name, and sinks that pieces of text are put to.
//! Each keeps a count of its faults, so that an answer `Failed` has its cause in the contract.
#![tactic(auto)]

mod listed;
mod memory_files;
mod memory_sink;
mod refusals;
mod std_files;
mod std_sink;
mod traits;

pub use memory_files::{MemFiles, SureFiles};
pub use memory_sink::MemSink;
pub use refusals::{EdgeRefusal, ReadRefusal, SinkFailed};
pub use std_files::StdFiles;
pub use std_sink::StdSink;
pub use traits::{FILE_LIMIT, Files, Sink};
