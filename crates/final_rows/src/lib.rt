//! Worked rows of the rules of the final form, as tests, so that the crates that have their code are not proved with them each time.
#![tactic(auto)]

#[cfg(test)]
mod judged;
#[cfg(test)]
mod tests;
