//! Where a text is refused, the words before the fault's word begin some text of the grammar: the fault is the first one.
#![tactic(auto)]

mod laws;

pub use laws::{
    assume_faults_are_first, condition_faults_are_first, extent_faults_are_first,
    index_faults_are_first, source_faults_are_first, term_faults_are_first,
    thousand_levels_are_the_sources,
};
