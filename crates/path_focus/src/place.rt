//! A place of a module.

ghost use Rattle.std.specs.Prelude.{◌≡◌};

use fact_list::{CertRefusal, Facts};
use shape_rules::Shapes;
use sqlite_items::{Boxed, Items};
use std::alloc::AllocError;
use term_tree::Term;

/// A let around a place: the number of its tensor variable there, and its definition moved there.
#[derive(Drop)]
pub struct BoundLet {
    pub var: u32,
    pub term: Boxed<Term>,
}

/// What stands at a place, and what is known there.
#[derive(Drop)]
pub struct Focus {
    pub facts: Facts,
    pub shapes: Shapes,
    pub bound: Items<BoundLet>,
    pub term: Boxed<Term>,
}

/// Why there is no place.
#[derive(Clone, Copy, Debug, PartialEq, Eq)]
pub enum PathRefusal {
    /// The path names no node.
    NoSuchPath,
    Memory,
}

impl From<AllocError> for PathRefusal {
    ghost use Rattle.path_focus.specs.declared.place.PathRefusal.TheVariants.{Memory};

    ghost from_gives = { λ _ e. e ≡ Memory };

    fn from(_e: AllocError) -> PathRefusal {
        PathRefusal::Memory
    }
}

impl From<CertRefusal> for PathRefusal {
    ghost use Rattle.path_focus.specs.declared.place.PathRefusal.TheVariants.{Memory};

    ghost from_gives = { λ _ e. e ≡ Memory };

    fn from(_e: CertRefusal) -> PathRefusal {
        PathRefusal::Memory
    }
}
