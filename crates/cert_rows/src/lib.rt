//! Worked rows of fact lists and certificates, as tests, so that `fact_list` and `linear_cert` are not proved with them each time.
#![tactic(auto)]

#[cfg(test)]
mod known;
#[cfg(test)]
mod steps;
#[cfg(test)]
mod tests;
#[cfg(test)]
mod text;
