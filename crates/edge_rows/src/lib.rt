//! Worked rows of the edges in memory and of the adapters over real files and writers, as tests, so that `atl_edges` is not proved with them each time.
#![tactic(auto)]

#[cfg(test)]
mod tests;
