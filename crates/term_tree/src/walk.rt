//! The answer of a fold, from the leaves upward.

ghost use Rattle.std.specs.Prelude.{◌≡◌, ◌+◌, ◌^◌, ◌<◌, ◌≤◌, IfOk, Ok, [], ◌∷◌};
ghost use Rattle.term_tree.specs.Children.{AreRight, children};
ghost use Rattle.term_tree.specs.Counts.{depth_fold, node_depth};

use crate::depths::Depths;
use crate::folding::Fold;
use crate::refusal::TreeRefusal;
use crate::term::Term;
use owned_values::two as pair;
use std::alloc::{AllocError, Global};

/// What f answers for the term under so many binders; each node is visited once, after its children.
#[tactic(auto, using(crate::proofs::NodeFold::node_depth_laws))]
pub fn fold<F: Fold>(
    alloc: Global,
    f: &F,
    depths: Depths,
    term: &Term,
) -> Result<F::Out, TreeRefusal>
    requires index { depths.index ≤ 2147483647 }
    requires tensor { depths.tensor ≤ 2147483647 }
    requires deep { node_depth term.now ≤ 2147483647 }
    ensures { IfOk result (λ out. F.right f.now depths term.now out) }
{
    answer(alloc, f, depths, term)
}

#[cycle(fold)]
fn answer<F: Fold>(alloc: Global, f: &F, depths: Depths, term: &Term) -> Result<F::Out, TreeRefusal>
    requires index { depths.index + depth_fold term.now < 2 ^ 32 }
    requires tensor { depths.tensor + depth_fold term.now < 2 ^ 32 }
    ensures { IfOk result (λ out. F.right f.now depths term.now out) }
{
    let parts = parts(alloc, f, depths, term)?;
    f.visit(alloc, depths, term, parts)
}

#[cycle(fold)]
fn parts<F: Fold>(
    alloc: Global,
    f: &F,
    depths: Depths,
    term: &Term,
) -> Result<Vec<F::Out>, TreeRefusal>
    requires index { depths.index + depth_fold term.now < 2 ^ 32 }
    requires tensor { depths.tensor + depth_fold term.now < 2 ^ 32 }
    ensures { IfOk result (λ parts. AreRight (F.right f.now) (children depths term.now) parts.items) }
{
    match term {
        Term::Lit(_) | Term::TVar(_) | Term::WordOf(_) => Ok(Vec::new(alloc)),
        Term::Index(child, _)
        | Term::Guard(_, child)
        | Term::Flatten(child)
        | Term::Split(_, child)
        | Term::Transpose(child)
        | Term::TruncL(_, child)
        | Term::TruncR(_, child)
        | Term::PadL(_, child)
        | Term::PadR(_, child) => only(alloc, answer(alloc, f, depths, child.get())),
        Term::Gen(_, child) | Term::Sum(_, child) => {
            let inner = Depths {
                index: depths.index + 1,
                tensor: depths.tensor,
            };
            only(alloc, answer(alloc, f, inner, child.get()))
        }
        Term::Let(definition, body) => {
            let first = answer(alloc, f, depths, definition.get());
            let inner = Depths {
                index: depths.index,
                tensor: depths.tensor + 1,
            };
            both(alloc, first, answer(alloc, f, inner, body.get()))
        }
        Term::Add(left, right)
        | Term::Sub(left, right)
        | Term::Mul(left, right)
        | Term::Concat(left, right) => {
            let first = answer(alloc, f, depths, left.get());
            both(alloc, first, answer(alloc, f, depths, right.get()))
        }
    }
}

/// The list of one answer, or its refusal.
fn only<T: Drop>(alloc: Global, part: Result<T, TreeRefusal>) -> Result<Vec<T>, TreeRefusal>
    ensures { IfOk result (λ v. (x : T) × (part ≡ Ok x) × (v.items ≡ x ∷ [])) }
{
    let part = part?;
    Ok(one(alloc, part)?)
}

/// The list of two answers, or the first refusal.
fn both<T: Drop>(
    alloc: Global,
    first: Result<T, TreeRefusal>,
    second: Result<T, TreeRefusal>,
) -> Result<Vec<T>, TreeRefusal>
    ensures { IfOk result (λ v. (x : T) × ((y : T) × ((first ≡ Ok x) × ((second ≡ Ok y) × (v.items ≡ x ∷ (y ∷ [])))))) }
{
    let (first, second) = pair(first, second)?;
    Ok(two(alloc, first, second)?)
}

fn one<T: Drop>(alloc: Global, part: T) -> Result<Vec<T>, AllocError>
    ensures { IfOk result (λ v. v.items ≡ part ∷ []) }
{
    let mut parts = Vec::new(alloc);
    parts.push(part)?;
    Ok(parts)
}

fn two<T: Drop>(alloc: Global, first: T, second: T) -> Result<Vec<T>, AllocError>
    ensures { IfOk result (λ v. v.items ≡ first ∷ (second ∷ [])) }
{
    let mut parts = Vec::new(alloc);
    parts.push(first)?;
    parts.push(second)?;
    Ok(parts)
}
