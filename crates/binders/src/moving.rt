//! The map that moves free variables up.

ghost use Rattle.binders.specs.PlainMaps.{SendsShift};
ghost use Rattle.binders.specs.Scoped.{ScopesShift};

use crate::refusal::MapRefusal;
use crate::var_map::VarMap;
use crate::variables::{moved, variable};
use affine_index::Aff;
use std::alloc::Global;
use term_tree::{Depths, Term};

/// Adds these numbers to the free variables of each kind, as under so many new binders around the term.
#[derive(Clone, Copy, Debug, PartialEq, Eq)]
pub struct Shift {
    pub index: u32,
    pub tensor: u32,
}

impl Shift {
    /// Under new binders in front each variable keeps its value.
    pub fn keeps_values(&self)
        ensures { SendsShift self.now.index self.now.tensor }
    {}

    /// A variable in scope stays in scope under new binders in front.
    pub fn keeps_scope(&self)
        ensures { ScopesShift self.now.index self.now.tensor }
    {}
}

impl VarMap for Shift {
    ghost use Rattle.binders.specs.Answers.{no_refusals};
    ghost use Rattle.binders.specs.PlainMaps.{shift_map, shift_reach};

    ghost meaning = { λ m. shift_map m.index m.tensor };

    ghost refusals = { λ m. no_refusals };

    ghost reach = { λ m. shift_reach m.index m.tensor };

    fn index(&self, alloc: Global, depths: Depths, var: u32) -> Result<Aff, MapRefusal> {
        variable(alloc, moved(var, depths.index, self.index))
    }

    fn tensor(&self, _alloc: Global, depths: Depths, var: u32) -> Result<Term, MapRefusal> {
        Ok(Term::TVar(moved(var, depths.tensor, self.tensor)))
    }
}
