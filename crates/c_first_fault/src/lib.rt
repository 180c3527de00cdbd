//! First means first: the place at which a C text is refused is the first at which no text goes on, where kinds, levels and numbers of 32 bits do not count.
#![tactic(auto)]

pub mod laws;
