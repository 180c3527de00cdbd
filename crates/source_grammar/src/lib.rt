//! The grammar of source texts, of both versions, as a relation of words to modules, and the readers that are proved to read it.
#![tactic(auto)]

mod operator;
mod sort;

pub use operator::{Operator, product_operator, sum_operator};
pub use sort::{Meaning, Sort, same_sort};
