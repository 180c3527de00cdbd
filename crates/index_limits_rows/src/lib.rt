//! Worked rows of printed indices, as tests, so that `index_limits` is not proved with them each time.
#![tactic(auto)]

#[cfg(test)]
mod tests;
