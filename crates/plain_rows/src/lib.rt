//! Worked rows of the plain evaluator on given texts, as tests, so that `plain_run` is not proved with them each time.
#![tactic(auto)]

#[cfg(test)]
mod tests;
