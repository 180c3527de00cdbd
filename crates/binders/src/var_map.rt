//! What is put for the variables of a term.

ghost use Rattle.std.specs.Prelude.{◌≡◌, true};
ghost use Rattle.binders.specs.Answers.{IsAnswer, Reach, Refusals};
ghost use Rattle.binders.specs.Maps.{Replacement};

use crate::refusal::MapRefusal;
use affine_index::Aff;
use std::alloc::Global;
use term_tree::{Depths, Term};

/// A replacement for each free variable, numbered as the mapped term is under so many binders.
pub trait VarMap {
    // What stands for each variable.
    ghost meaning: { Self → Replacement };

    // The refusal other than want of memory at each variable, if any.
    ghost refusals: { Self → Refusals };

    // The variables that may be asked for.
    ghost reach: { Self → Reach };

    fn index(&self, alloc: Global, depths: Depths, var: u32) -> Result<Aff, MapRefusal>
        requires within { (reach self.now).has_index depths.index depths.tensor var ≡ true }
        ensures { IsAnswer ((meaning self.now).for_index depths.index depths.tensor var) ((refusals self.now).at_index depths.index depths.tensor var) result };

    fn tensor(&self, alloc: Global, depths: Depths, var: u32) -> Result<Term, MapRefusal>
        requires within { (reach self.now).has_tensor depths.index depths.tensor var ≡ true }
        ensures { IsAnswer ((meaning self.now).for_tensor depths.index depths.tensor var) ((refusals self.now).at_tensor depths.index depths.tensor var) result };
}
