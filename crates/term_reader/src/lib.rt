//! Reads index expressions, conditions and terms as the grammar of source texts says.
#![tactic(auto)]

mod conditions;
mod forms;
mod index;
mod joins;
mod names;
mod scope;
mod terms;
mod words;

pub use conditions::condition;
pub use index::sum;
pub use names::{Names, Over};
pub use scope::{NameSet, Scope};
pub use terms::term;
