//! Worked rows of substitution and of free variables, as tests, so that `binders` is not proved with them each time.
#![tactic(auto)]

#[cfg(test)]
mod tests;
