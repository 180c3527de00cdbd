//! What terms denote, computed by a plain walk over the term.
#![tactic(auto)]

mod binding;
mod build;
mod evaluate;
mod extents;
mod fault;
mod forms;
mod found;
mod operation;
mod outputs;
mod read;
mod reading;
mod reshape;
mod stack;
mod survey;
mod tensor;
mod turns;
mod values;
mod variables;
mod words;

pub use fault::MeaningFault;
pub use outputs::denote;
pub use tensor::Tensor;
