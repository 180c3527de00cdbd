//! Worked rows of the arguments of rules.
#![tactic(auto)]

#[cfg(test)]
mod tests;
