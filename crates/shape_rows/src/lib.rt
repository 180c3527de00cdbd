//! Worked rows of shapes and extent goals, as tests, so that `shape_rules` is not proved with them each time.
#![tactic(auto)]

#[cfg(test)]
mod tests;
