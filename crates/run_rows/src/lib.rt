//! Worked rows of runs and of given texts, as tests, so that `loop_run` and `given_text` are not proved with them each time. What a call asks of a
//! program is found to hold first, so that a program is only data.
#![tactic(auto)]

#[cfg(test)]
mod formed;
#[cfg(test)]
mod programs;
#[cfg(test)]
mod runs;
#[cfg(test)]
mod tests;
#[cfg(test)]
mod texts;
