//! Numbers of binders.

/// How many binders of each kind stand around a term: gens and sums, and lets.
#[derive(Clone, Copy, Debug, PartialEq, Eq)]
pub struct Depths {
    pub index: u32,
    pub tensor: u32,
}
