//! Worked rows of places, as tests, so that `path_focus` is not proved with them each time.
#![tactic(auto)]

#[cfg(test)]
mod tests;
