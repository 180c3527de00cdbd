//! Worked rows of the reader of scripts, as tests, so that `schedule_script` is not proved with them each time.
#![tactic(auto)]

#[cfg(test)]
mod tests;
