//! Worked sources of the evaluator, each with its words. What `denote` asks of a module, of sizes and of inputs is
//! found to hold first, so that a source is only data.
#![tactic(auto)]

#[cfg(test)]
mod check;
#[cfg(test)]
mod given;
#[cfg(test)]
mod scope;
#[cfg(test)]
mod sources;
#[cfg(test)]
mod tests;
