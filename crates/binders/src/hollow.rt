//! A map that keeps no term, so that limits of forms are looked for in little memory.

ghost use Rattle.binders.specs.Answers.{IsAnswer};

use crate::refusal::MapRefusal;
use crate::var_map::VarMap;
use affine_index::Aff;
use owned_values::spent;
use std::alloc::Global;
use term_tree::{Depths, Term, told};

/// Another map, with 0 in place of each term that it puts: forms break the same limits, and the map is refused alike.
#[derive(Drop)]
pub struct Hollow<'a, M> {
    pub map: &'a M,
}

impl<M: VarMap> VarMap for Hollow<'_, M> {
    ghost use Rattle.binders.specs.Counting.{hollow_map};

    ghost meaning = { λ h. hollow_map (M.meaning h.map.now) };

    ghost refusals = { λ h. M.refusals h.map.now };

    ghost reach = { λ h. M.reach h.map.now };

    fn index(&self, alloc: Global, depths: Depths, var: u32) -> Result<Aff, MapRefusal> {
        self.map.index(alloc, depths, var)
    }

    fn tensor(&self, alloc: Global, depths: Depths, var: u32) -> Result<Term, MapRefusal> {
        match self.map.tensor(alloc, depths, var) {
            Ok(term) => {
                told(&term);
                spent(term);
                Ok(Term::Lit(0))
            }
            Err(refusal) => Err(refusal),
        }
    }
}
