//! Index arithmetic: sums of sizes, index variables, floor quotients and products with whole coefficients, each in one normal form.
#![tactic(auto)]

pub mod aff;
mod arithmetic;
pub mod cond;
mod copy;
mod count;
pub mod form;
pub mod laws;
mod limits;
mod mag;
mod merge;
mod multiple;
mod order;
mod product;
mod put;
mod quotient;
pub mod refusal;
mod same;
mod scope;
mod substitution;
mod value;
mod vars;
mod wide;

/// Forms without limits, for what is tested only at the end of several steps, and their atoms.
pub mod raw {
    pub use crate::aff::within_limits;
    pub use crate::arithmetic::copied;
    pub use crate::copy::{copy_atom, copy_items};
    pub use crate::multiple::{copy_wide, multiple, scaled, sum};
    pub use crate::order::{order_atoms, order_items};
    pub use crate::product::product;
    pub use crate::quotient::quotient;
    pub use crate::same::{same_atom, same_items};
    pub use crate::wide::Wide;
}

pub use aff::{Aff, all_told};
pub use cond::{Cmp, Cond, Rel};
pub use form::{Atom, Item, Items};
pub use refusal::AffRefusal;
