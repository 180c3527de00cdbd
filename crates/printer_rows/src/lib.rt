//! Worked canonical texts, as tests, so that `atl_printer` is not proved with them each time.
#![tactic(auto)]

#[cfg(test)]
mod again;
#[cfg(test)]
mod tests;
