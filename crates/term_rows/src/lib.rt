//! Worked rows of terms, as tests, so that `term_tree` is not proved with them each time.
#![tactic(auto)]

#[cfg(test)]
mod tests;
