//! Terms of the tensor language, modules, and what they mean.
#![tactic(auto)]

mod cause;
mod copying;
mod count;
mod depths;
mod equality;
mod folding;
mod kinds;
mod name;
mod normality;
mod refusal;
mod term;
mod walk;

pub use cause::Cause;
pub use copying::copy;
pub use count::{depth, nodes};
pub use depths::Depths;
pub use equality::same;
pub use folding::Fold;
pub use name::Name;
pub use normality::told;
pub use refusal::TreeRefusal;
pub use term::{InputDecl, Module, OutputDecl, Path, SizeDecl, Term};
pub use walk::fold;
