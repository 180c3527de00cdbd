//! Variables of terms: where they occur, and what is put for them.
#![tactic(auto)]

mod bound;
mod counting;
mod free;
mod hollow;
mod kinds;
mod mapped;
mod mapping;
mod moving;
mod occurrence;
mod putting_index;
mod putting_tensor;
mod refusal;
mod replacement;
mod var_map;
mod variables;

pub use free::{free_index, free_tensor};
pub use mapped::map_term;
pub use moving::Shift;
pub use putting_index::PutIndex;
pub use putting_tensor::PutTensor;
pub use refusal::MapRefusal;
pub use var_map::VarMap;
