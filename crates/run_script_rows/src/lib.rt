//! Worked rows of scripts on sources, as tests, so that `schedule_run` is not proved with them each time.
#![tactic(auto)]

#[cfg(test)]
mod rules;
#[cfg(test)]
mod tests;
