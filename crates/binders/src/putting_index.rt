//! The map that puts forms for index variables.

ghost use Rattle.std.specs.Prelude.{◌≡◌, ℕ, None, true};
ghost use Rattle.affine_index.specs.Normal.{is_normal};
ghost use Rattle.affine_index.specs.Put.{given};
ghost use Rattle.binders.specs.Answers.{IsAnswer};
ghost use Rattle.binders.specs.PlainMaps.{SendsPutIndex, may_put, put_for};
ghost use Rattle.binders.specs.Scoped.{ScopesPutIndex};

use crate::refusal::MapRefusal;
use crate::var_map::VarMap;
use crate::variables::{under_binders, variable};
use affine_index::Aff;
use sqlite_items::Items;
use std::alloc::Global;
use term_tree::{Depths, Term};

/// Puts `by[v]` for each free index variable v below the length of `by`, all at once, and makes each other free
/// index variable v into v less that length plus `under`. The forms are numbered under `under` new binders.
#[derive(Drop)]
pub struct PutIndex {
    pub by: Items<Aff>,
    pub under: u32,
}

/// Tells a proof that each form is normal, and does nothing else.
fn all_told(forms: &[Aff])
    ensures { (v : ℕ) → is_normal (given forms.now v) ≡ true }
{
    for form in forms {
        form.told();
    }
}

/// What stands for an index variable under so many gens and sums.
fn put(alloc: Global, by: &[Aff], under: u32, depth: u32, var: u32) -> Result<Aff, MapRefusal>
    requires { may_put by.now under depth var ≡ true }
    ensures { IsAnswer (put_for by.now under depth var) None result }
{
    if var < depth {
        return variable(alloc, var);
    }
    let place = (var - depth) as usize;
    if place < by.len() {
        under_binders(alloc, &by[place], depth)
    } else {
        variable(alloc, var - by.len() as u32 + under)
    }
}

impl PutIndex {
    /// Where each form has its value under the new binders, the variables that it is put for had those values.
    pub fn keeps_values(&self)
        ensures { SendsPutIndex self.now.by self.now.under }
    {
        all_told(self.by.as_slice());
    }

    /// Where each form is in scope under the new binders, so is what stands for each variable.
    pub fn keeps_scope(&self)
        ensures { ScopesPutIndex self.now.by self.now.under }
    {}
}

impl VarMap for PutIndex {
    ghost use Rattle.binders.specs.Answers.{no_refusals};
    ghost use Rattle.binders.specs.PlainMaps.{put_index_map, put_index_reach};

    ghost meaning = { λ m. put_index_map m.by m.under };

    ghost refusals = { λ m. no_refusals };

    ghost reach = { λ m. put_index_reach m.by m.under };

    fn index(&self, alloc: Global, depths: Depths, var: u32) -> Result<Aff, MapRefusal> {
        put(alloc, self.by.as_slice(), self.under, depths.index, var)
    }

    fn tensor(&self, _alloc: Global, _depths: Depths, var: u32) -> Result<Term, MapRefusal> {
        Ok(Term::TVar(var))
    }
}
