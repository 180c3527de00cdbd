//! The map that puts a term for a tensor variable.

ghost use Rattle.std.specs.Prelude.{◌≡◌, None, true};
ghost use Rattle.binders.specs.Answers.{IsAnswer};
ghost use Rattle.binders.specs.Maps.{mapped};
ghost use Rattle.binders.specs.PlainMaps.{SendsPutTensor, may_put_tensor, may_shift, put_tensor_for, shift_map};
ghost use Rattle.binders.specs.Scoped.{ScopesPutTensor};

use crate::mapping::part;
use crate::moving::Shift;
use crate::refusal::MapRefusal;
use crate::var_map::VarMap;
use crate::variables::variable;
use affine_index::Aff;
use std::alloc::Global;
use term_tree::{Depths, Term, told};

/// Puts `by` for tensor variable 0, and makes each other free tensor variable t into t - 1 + `under`, where `under`
/// counts new lets. The term is numbered under those lets.
#[derive(Drop)]
pub struct PutTensor {
    pub by: Term,
    pub under: u32,
}

/// A term under so many more binders, refused for want of memory alone, since the coefficients and atoms of its forms stay as many.
fn under_binders(alloc: Global, term: &Term, by: Depths) -> Result<Term, MapRefusal>
    requires { may_shift by.index by.tensor term.now ≡ true }
    ensures { IsAnswer (mapped (shift_map by.index by.tensor) 0 0 term.now) None result }
{
    let shift = Shift {
        index: by.index,
        tensor: by.tensor,
    };
    told(term);
    let outside = Depths {
        index: 0,
        tensor: 0,
    };
    match part(alloc, &shift, outside, term) {
        Ok(Some(moved)) => Ok(moved),
        Ok(None) => unreachable!(),
        Err(refusal) => Err(refusal),
    }
}

/// What stands for a tensor variable under so many binders.
fn put(alloc: Global, by: &Term, under: u32, depths: Depths, var: u32) -> Result<Term, MapRefusal>
    requires { may_put_tensor by.now under depths.index depths.tensor var ≡ true }
    ensures { IsAnswer (put_tensor_for by.now under depths.index depths.tensor var) None result }
{
    if var < depths.tensor {
        return Ok(Term::TVar(var));
    }
    if var > depths.tensor {
        return Ok(Term::TVar(var - 1 + under));
    }
    under_binders(alloc, by, depths)
}

impl PutTensor {
    /// The variable has the extents and the value of what is put for it.
    pub fn keeps_values(&self)
        ensures { SendsPutTensor self.now.by self.now.under }
    {
        told(&self.by);
    }

    /// Where the term is well scoped under the new lets, so is what stands for each variable.
    pub fn keeps_scope(&self)
        ensures { ScopesPutTensor self.now.by self.now.under }
    {}
}

impl VarMap for PutTensor {
    ghost use Rattle.binders.specs.Answers.{no_refusals};
    ghost use Rattle.binders.specs.PlainMaps.{put_tensor_map, put_tensor_reach};

    ghost meaning = { λ m. put_tensor_map m.by m.under };

    ghost refusals = { λ m. no_refusals };

    ghost reach = { λ m. put_tensor_reach m.by m.under };

    fn index(&self, alloc: Global, _depths: Depths, var: u32) -> Result<Aff, MapRefusal> {
        variable(alloc, var)
    }

    fn tensor(&self, alloc: Global, depths: Depths, var: u32) -> Result<Term, MapRefusal> {
        put(alloc, &self.by, self.under, depths, var)
    }
}
