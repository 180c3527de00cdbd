//! Worked rows of index forms, as tests, so that `affine_index` is not proved with them each time.
#![tactic(auto)]

#[cfg(test)]
mod steps;
#[cfg(test)]
mod tests;
#[cfg(test)]
mod text;
