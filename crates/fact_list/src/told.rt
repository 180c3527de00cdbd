//! What a proof is told of facts and paths: that their forms are normal. The functions do nothing.
#![tactic(auto, using(crate::proofs::ToldLaws::told_laws))]

ghost use Rattle.std.specs.Prelude.{◌∷◌, []};
ghost use Rattle.fact_list.specs.Normal.{CmpsNormal, AllNormal, PathNormal};

use crate::facts::PathFact;
use crate::forms::form_of;
use crate::role::Fact;
use affine_index::Cmp;

/// The facts are of normal forms.
pub fn told(facts: &[Fact])
    ensures { AllNormal facts.now }
{
    for fact in facts {
        let _ = form_of(&fact.cmp);
    }
}

fn told_cmps(cmps: &[Cmp])
    ensures { CmpsNormal cmps.now }
{
    for cmp in cmps {
        let _ = form_of(cmp);
    }
}

fn told_step(fact: &PathFact)
    ensures { PathNormal (fact.now ∷ []) }
{
    match fact {
        PathFact::Bound(_) => {}
        PathFact::Holds(cond) => told_cmps(cond.all.as_slice()),
    }
}

/// The guards of a path compare normal forms.
pub fn told_path(path: &[PathFact])
    ensures { PathNormal path.now }
{
    for fact in path {
        told_step(fact);
    }
}
