//! The goals of a module in final form, in order.
#![tactic(auto, using(crate::proofs::ClaimLaws::claim_laws))]

pub mod drops;
pub mod leaf;
pub mod loose;
pub mod met;
pub mod outputs;
pub mod reads;
pub mod walk;

pub use outputs::goals;
