//! Rules of guards that leave less to do: a sum over the turns at which a guard may hold, and a quotient that is 0.
#![tactic(auto)]

mod conditions;
pub mod laws;
mod narrow;
mod quotients;
mod range;

pub use narrow::sum_narrow;
pub use quotients::div_zero;
