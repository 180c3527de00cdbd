//! Whether facts are well scoped.
#![tactic(auto, using(crate::proofs::ScopedLaws::scoped_laws))]

ghost use Rattle.std.specs.Prelude.{◌≡◌};
ghost use Rattle.affine_index.specs.Condition.{all_scoped, cmp_form};
ghost use Rattle.affine_index.specs.Limited.{items_scoped};
ghost use Rattle.fact_list.specs.Scoped.{facts_scoped, path_scoped, step_scoped};

use crate::declared::binder_count;
use crate::facts::{Facts, PathFact};
use crate::forms::form_of;
use affine_index::Cmp;

fn cmp_scoped(cmp: &Cmp, sizes: usize, vars: usize) -> bool
    ensures { result ≡ items_scoped sizes vars (cmp_form cmp.now) }
{
    form_of(cmp).is_scoped(sizes, vars)
}

fn all_scoped(cmps: &[Cmp], sizes: usize, vars: usize) -> bool
    ensures { result ≡ all_scoped sizes vars cmps.now }
{
    for cmp in cmps {
        if !cmp_scoped(cmp, sizes, vars) {
            return false;
        }
    }
    true
}

/// A node of a path under so many binders.
fn step_scoped(fact: &PathFact, sizes: usize, depth: usize) -> bool
    ensures { result ≡ step_scoped sizes depth fact.now }
{
    match fact {
        PathFact::Bound(extent) => extent.is_scoped(sizes, 0),
        PathFact::Holds(cond) => {
            cond.all.len() > 0 && all_scoped(cond.all.as_slice(), sizes, depth)
        }
    }
}

fn path_scoped(path: &[PathFact], sizes: usize) -> bool
    ensures { result ≡ path_scoped sizes 0 path.now }
{
    let mut depth = 0;
    for fact in path {
        if !step_scoped(fact, sizes, depth) {
            return false;
        }
        depth += binder_count(fact);
    }
    true
}

impl Facts {
    /// Whether the assumes and the extents hold declared sizes alone, and each guard at least one comparison, of declared sizes and of the variables of the binders before it.
    pub fn is_scoped(&self) -> bool
        ensures { result ≡ facts_scoped self.now }
    {
        let sizes = self.sizes.len();
        all_scoped(self.assumes.as_slice(), sizes, 0) && path_scoped(self.path.as_slice(), sizes)
    }
}
