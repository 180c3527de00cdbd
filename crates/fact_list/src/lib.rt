//! What is known at a place, as a numbered list of facts.
#![tactic(auto)]

mod adding;
mod copying;
mod declared;
pub mod facts;
mod forms;
mod items;
pub mod laws;
mod limits;
mod list;
mod met;
pub mod refusal;
pub mod role;
mod scoped;
mod search;
pub mod told;
mod walk;

pub use copying::{copy_bounds, copy_cmps, copy_facts, copy_path, copy_path_fact};
pub use facts::{Facts, PathFact, SizeBounds};
pub use forms::form_of;
pub use items::number;
pub use list::facts_of;
pub use refusal::CertRefusal;
pub use role::{Fact, Role, Side};
pub use search::same_atoms;
