//! Worked rows of places and of plans, as tests, so that `reindexer` and `region_plan` are not proved with them each time.
#![tactic(auto)]

#[cfg(test)]
mod places;
#[cfg(test)]
mod plans;
