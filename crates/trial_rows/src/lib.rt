//! Worked rows of the texts of trials.
#![tactic(auto)]

#[cfg(test)]
mod tests;
