//! Terms whose forms may break limits, made of others.

ghost use Rattle.std.specs.Prelude.{◌≡◌, ◌≤◌, ◌+◌, ◌-◌, ◌^◌, min, IfOk};
ghost use Rattle.binders.specs.Answers.{IsWithinLimits, IsWithinReach};
ghost use Rattle.binders.specs.Maps.{mapped};
ghost use Rattle.binders.specs.PlainMaps.{put_tensor_map, put_tensor_reach};
ghost use Rattle.path_focus.specs.Outcome.{IsDraft};
ghost use Rattle.rules_let.specs.Table as table;
ghost use Rattle.term_tree.specs.Counts.{node_count, node_depth};
ghost use Rattle.term_tree.specs.Syntax as tree;
ghost use Rattle.term_tree.specs.declared.term.Term as spec;

use crate::build::{boxed, let_in, let_over, plain_copy, row_of_variable};
use affine_index::Aff;
use binders::{MapRefusal, PutTensor, map_term};
use fact_list::CertRefusal;
use path_focus::Draft;
use rule_parts::build::{copied, copied_form, generated};
use sqlite_items::Boxed;
use std::alloc::Global;
use term_tree::{Term, nodes, told};

/// A term whose forms are within the limits.
#[tactic(auto, using(rule_parts::proofs::DraftLaws::whole_is))]
pub fn whole(term: Boxed<Term>) -> Draft
    ensures { IsDraft term result }
{
    told(term.get());
    Draft::Whole(term)
}

fn whole_of(alloc: Global, term: Term) -> Result<Draft, CertRefusal>
    ensures { IfOk result (λ d. d ≡ Draft.Whole term) }
{
    let term = boxed(alloc, term)?;
    Ok(Draft::Whole(term))
}

/// What a mapped term or its refusal is as a draft.
fn drafted(alloc: Global, mapped: Result<Term, MapRefusal>) -> Result<Draft, CertRefusal>
    ensures { (raw : spec.Term) → IsWithinLimits raw mapped → IfOk result (IsDraft raw) }
{
    match mapped {
        Ok(term) => whole_of(alloc, term),
        Err(MapRefusal::CoefficientTooLarge) => Ok(Draft::TooLarge),
        Err(MapRefusal::IndexTooLong) => Ok(Draft::TooLong),
        Err(MapRefusal::TooManyNodes { nodes }) => Ok(Draft::TooMany { nodes }),
        Err(MapRefusal::NotAffine) | Err(MapRefusal::Memory) => Err(CertRefusal::Memory),
    }
}

/// A body with a term for the variable of its let, under so many lets in its place. Nodes are counted before it is made.
fn with_tensor(alloc: Global, by: Term, under: u32, body: &Term) -> Result<Draft, CertRefusal>
    requires deep { node_depth body.now ≤ 2147483647 }
    requires within { IsWithinReach (put_tensor_reach by under) body.now }
    ensures { IfOk result (IsDraft (mapped (put_tensor_map by under) 0 0 body.now)) }
{
    let map = PutTensor { by, under };
    let mapped = map_term(alloc, &map, body);
    drafted(alloc, mapped)
}

/// The body of a let with the definition for its variable.
pub fn inlined(alloc: Global, definition: &Term, body: &Term) -> Result<Draft, CertRefusal>
    requires deep { node_depth body.now ≤ 2147483647 }
    requires within { IsWithinReach (put_tensor_reach definition.now 0) body.now }
    ensures { IfOk result (IsDraft (table.inlined definition.now body.now)) }
{
    match plain_copy(alloc, definition) {
        Ok(by) => with_tensor(alloc, by, 0, body),
        Err(refusal) => Err(refusal),
    }
}

/// The body of a let under one more let around its own.
pub fn under_outer_let(alloc: Global, body: &Term) -> Result<Draft, CertRefusal>
    requires deep { node_depth body.now ≤ 2147483647 }
    requires within { IsWithinReach (put_tensor_reach (spec.TVar 0) 2) body.now }
    ensures { IfOk result (IsDraft (table.under_outer_let body.now)) }
{
    with_tensor(alloc, Term::TVar(0), 2, body)
}

/// The body of a let with a row for its variable.
pub fn by_rows(alloc: Global, body: &Term) -> Result<Draft, CertRefusal>
    requires deep { node_depth body.now ≤ 2147483647 }
    requires within { IsWithinReach (put_tensor_reach table.row_of_variable 1) body.now }
    ensures { IfOk result (IsDraft (table.by_rows body.now)) }
{
    let row = row_of_variable(alloc)?;
    match plain_copy(alloc, row.get()) {
        Ok(by) => with_tensor(alloc, by, 1, body),
        Err(refusal) => Err(refusal),
    }
}

/// So many nodes, one more and those of another part.
fn both_many(count: u64, part: &Term) -> Draft
    ensures { result ≡ Draft.TooMany (min (count + (node_count part.now + 1)) (2 ^ 64 - 1)) }
{
    Draft::TooMany {
        nodes: count.saturating_add(nodes(part)).saturating_add(1),
    }
}

/// A let of a copy of a definition.
pub fn let_of(alloc: Global, definition: &Term, body: Draft) -> Result<Draft, CertRefusal>
    ensures { (raw : spec.Term) → IsDraft raw body → IfOk result (IsDraft (tree.let_in definition.now raw)) }
{
    told(definition);
    match body {
        Draft::Whole(body) => {
            let term = let_over(alloc, definition, body)?;
            Ok(whole(term))
        }
        Draft::TooLarge => Ok(Draft::TooLarge),
        Draft::TooLong => Ok(Draft::TooLong),
        Draft::TooMany { nodes } => Ok(both_many(nodes, definition)),
    }
}

/// A let around a copy of a body.
pub fn let_around(alloc: Global, definition: Draft, body: &Term) -> Result<Draft, CertRefusal>
    ensures { (raw : spec.Term) → IsDraft raw definition → IfOk result (IsDraft (tree.let_in raw body.now)) }
{
    told(body);
    match definition {
        Draft::Whole(definition) => {
            let body = copied(alloc, body)?;
            let term = let_in(alloc, definition, body)?;
            Ok(whole(term))
        }
        Draft::TooLarge => Ok(Draft::TooLarge),
        Draft::TooLong => Ok(Draft::TooLong),
        Draft::TooMany { nodes } => Ok(both_many(nodes, body)),
    }
}

fn one_more(nodes: u64) -> Draft
    ensures { result ≡ Draft.TooMany (min (nodes + 1) (2 ^ 64 - 1)) }
{
    Draft::TooMany {
        nodes: nodes.saturating_add(1),
    }
}

pub fn gen_of(alloc: Global, n: &Aff, body: Draft) -> Result<Draft, CertRefusal>
    ensures { (raw : spec.Term) → IsDraft raw body → IfOk result (IsDraft (tree.gen n.now raw)) }
{
    n.told();
    match body {
        Draft::Whole(body) => {
            let n = copied_form(alloc, n)?;
            let term = generated(alloc, n, body)?;
            Ok(whole(term))
        }
        Draft::TooLarge => Ok(Draft::TooLarge),
        Draft::TooLong => Ok(Draft::TooLong),
        Draft::TooMany { nodes } => Ok(one_more(nodes)),
    }
}
