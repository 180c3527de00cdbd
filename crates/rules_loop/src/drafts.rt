//! Terms whose forms may break limits, made of others.

ghost use Rattle.std.specs.Prelude.{◌≡◌, ◌≤◌, ◌+◌, ◌-◌, ◌^◌, min, ◌∷◌, [], IfOk};
ghost use Rattle.affine_index.specs.Form.{var_form};
ghost use Rattle.binders.specs.Answers.{IsWithinReach};
ghost use Rattle.binders.specs.PlainMaps.{put_index_reach};
ghost use Rattle.path_focus.specs.Outcome.{IsDraft};
ghost use Rattle.rules_loop.specs.Table as table;
ghost use Rattle.term_tree.specs.Counts.{node_depth};
ghost use Rattle.term_tree.specs.Syntax as tree;
ghost use Rattle.term_tree.specs.declared.term.Term as spec;

use crate::build::{flatten, transpose};
use affine_index::Aff;
use fact_list::CertRefusal;
use path_focus::Draft;
use path_focus::making::with_indices;
use rule_parts::build::{copied_form, generated, sum};
use sqlite_items::{Boxed, Items};
use std::alloc::Global;
use term_tree::{Term, told};

/// A term whose forms are within the limits.
#[tactic(auto, using(rule_parts::proofs::DraftLaws::whole_is))]
pub fn whole(term: Boxed<Term>) -> Draft
    ensures { IsDraft term result }
{
    told(term.get());
    Draft::Whole(term)
}

/// So many nodes more.
pub fn more(nodes: u64) -> Draft
    ensures { result ≡ Draft.TooMany (min (nodes + 1) (2 ^ 64 - 1)) }
{
    Draft::TooMany {
        nodes: nodes.saturating_add(1),
    }
}

#[tactic(auto, using(crate::proofs::DraftLaws::draft_laws))]
pub fn gen_of(alloc: Global, n: &Aff, body: Draft) -> Result<Draft, CertRefusal>
    ensures { (raw : spec.Term) → IsDraft raw body → IfOk result (IsDraft (tree.gen n.now raw)) }
{
    n.told();
    match body {
        Draft::Whole(body) => {
            let n = copied_form(alloc, n)?;
            let term = generated(alloc, n, body)?;
            Ok(whole(term))
        }
        Draft::TooLarge => Ok(Draft::TooLarge),
        Draft::TooLong => Ok(Draft::TooLong),
        Draft::TooMany { nodes } => Ok(more(nodes)),
    }
}

#[tactic(auto, using(crate::proofs::DraftLaws::draft_laws))]
pub fn sum_of(alloc: Global, n: &Aff, body: Draft) -> Result<Draft, CertRefusal>
    ensures { (raw : spec.Term) → IsDraft raw body → IfOk result (IsDraft (tree.sum n.now raw)) }
{
    n.told();
    match body {
        Draft::Whole(body) => {
            let n = copied_form(alloc, n)?;
            let term = sum(alloc, n, body)?;
            Ok(whole(term))
        }
        Draft::TooLarge => Ok(Draft::TooLarge),
        Draft::TooLong => Ok(Draft::TooLong),
        Draft::TooMany { nodes } => Ok(more(nodes)),
    }
}

#[tactic(auto, using(crate::proofs::DraftLaws::draft_laws))]
pub fn transpose_of(alloc: Global, body: Draft) -> Result<Draft, CertRefusal>
    ensures { (raw : spec.Term) → IsDraft raw body → IfOk result (IsDraft (tree.transpose raw)) }
{
    match body {
        Draft::Whole(body) => {
            let term = transpose(alloc, body)?;
            Ok(whole(term))
        }
        Draft::TooLarge => Ok(Draft::TooLarge),
        Draft::TooLong => Ok(Draft::TooLong),
        Draft::TooMany { nodes } => Ok(more(nodes)),
    }
}

#[tactic(auto, using(crate::proofs::DraftLaws::draft_laws))]
pub fn flatten_of(alloc: Global, body: Draft) -> Result<Draft, CertRefusal>
    ensures { (raw : spec.Term) → IsDraft raw body → IfOk result (IsDraft (tree.flatten raw)) }
{
    match body {
        Draft::Whole(body) => {
            let term = flatten(alloc, body)?;
            Ok(whole(term))
        }
        Draft::TooLarge => Ok(Draft::TooLarge),
        Draft::TooLong => Ok(Draft::TooLong),
        Draft::TooMany { nodes } => Ok(more(nodes)),
    }
}

/// The index variable of a number.
pub fn var(alloc: Global, var: u32) -> Result<Aff, CertRefusal>
    ensures { IfOk result (λ x. x ≡ var_form var) }
{
    match Aff::var(alloc, var) {
        Ok(form) => Ok(form),
        Err(_) => Err(CertRefusal::Memory),
    }
}

/// The two innermost variables, the outer one first.
fn both_vars(alloc: Global) -> Result<Items<Aff>, CertRefusal>
    ensures { IfOk result (λ by. by ≡ var_form 1 ∷ var_form 0 ∷ []) }
{
    let mut by = Items::new(alloc);
    by.push(var(alloc, 1)?)?;
    by.push(var(alloc, 0)?)?;
    Ok(by)
}

/// A body with its two innermost variables swapped.
pub fn swapped(alloc: Global, body: &Term) -> Result<Draft, CertRefusal>
    requires deep { node_depth body.now ≤ 2147483647 }
    requires within { IsWithinReach (put_index_reach (var_form 1 ∷ var_form 0 ∷ []) 2) body.now }
    ensures { IfOk result (IsDraft (table.swapped body.now)) }
{
    let by = both_vars(alloc)?;
    with_indices(alloc, by, 2, body)
}
