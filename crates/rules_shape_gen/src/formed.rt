//! Nodes made of a form and a term, or of two terms, each of which may break limits.

ghost use Rattle.std.specs.Prelude.{◌≡◌, ◌+◌, ◌-◌, ◌^◌, min, IfOk, MatchResult, true};
ghost use Rattle.affine_index.specs.Normal.{Refused, is_normal};
ghost use Rattle.affine_index.specs.declared.form.Items as form;
ghost use Rattle.path_focus.specs.Outcome.{IsDraft};
ghost use Rattle.rule_parts.specs.Conds.{at_least};
ghost use Rattle.rules_shape_gen.specs.Formed.{IsFormed, IsJoined};
ghost use Rattle.term_tree.specs.Counts.{node_count};
ghost use Rattle.term_tree.specs.Syntax as tree;
ghost use Rattle.term_tree.specs.declared.term.Term as spec;

use affine_index::{Aff, AffRefusal, Cmp, Cond};
use fact_list::CertRefusal;
use owned_values::spent;
use path_focus::Draft;
use rule_parts::build::{add, generated, guard};
use sqlite_items::{Boxed, Items};
use std::alloc::Global;
use term_tree::{Term, nodes, told};

/// A form within the limits, or which limit it breaks.
#[derive(Drop)]
pub enum FormDraft {
    Within(Aff),
    TooLarge,
    TooLong,
}

/// A form and a term within the limits, or which limit a node of both breaks.
#[derive(Drop)]
pub enum Pair {
    Both(Aff, Boxed<Term>),
    Neither(Draft),
}

/// A term whose forms are within the limits.
#[tactic(auto, using(rule_parts::proofs::DraftLaws::whole_is))]
pub fn whole(term: Boxed<Term>) -> Draft
    ensures { IsDraft term result }
{
    told(term.get());
    Draft::Whole(term)
}

/// So many nodes and one more.
fn one_more(nodes: u64) -> Draft
    ensures { result ≡ Draft.TooMany (min (nodes + 1) (2 ^ 64 - 1)) }
{
    Draft::TooMany {
        nodes: nodes.saturating_add(1),
    }
}

/// What index arithmetic has made.
pub fn formed(made: Result<Aff, AffRefusal>) -> Result<FormDraft, CertRefusal>
    ensures { (raw : form.Items) → MatchResult made (λ x. x ≡ raw) (Refused raw) → IfOk result (IsFormed raw) }
{
    match made {
        Ok(form) => Ok(FormDraft::Within(form)),
        Err(AffRefusal::CoefficientTooLarge) => Ok(FormDraft::TooLarge),
        Err(AffRefusal::IndexTooLong) => Ok(FormDraft::TooLong),
        Err(AffRefusal::NotAffine) | Err(AffRefusal::Memory) => Err(CertRefusal::Memory),
    }
}

/// A form within the limits, and a term.
fn beside(form: Aff, body: Draft) -> Pair
    requires { is_normal form ≡ true }
    ensures { (e : spec.Term) → IsDraft e body → IsJoined form e result }
{
    match body {
        Draft::Whole(body) => Pair::Both(form, body),
        Draft::TooLarge => Pair::Neither(Draft::TooLarge),
        Draft::TooLong => Pair::Neither(Draft::TooLong),
        Draft::TooMany { nodes } => Pair::Neither(one_more(nodes)),
    }
}

/// A form that is too long, and a term.
fn beside_long(body: Draft) -> Draft
    ensures { (x : form.Items) (e : spec.Term) → IsFormed x FormDraft.TooLong → IsDraft e body → IsJoined x e (Pair.Neither result) }
{
    match body {
        Draft::TooLarge => Draft::TooLarge,
        Draft::Whole(body) => {
            spent(body);
            Draft::TooLong
        }
        Draft::TooLong => Draft::TooLong,
        Draft::TooMany { .. } => Draft::TooLong,
    }
}

fn joined(drafted: FormDraft, body: Draft) -> Pair
    ensures { (x : form.Items) (e : spec.Term) → IsFormed x drafted → IsDraft e body → IsJoined x e result }
{
    match drafted {
        FormDraft::Within(form) => {
            form.told();
            beside(form, body)
        }
        FormDraft::TooLarge => Pair::Neither(Draft::TooLarge),
        FormDraft::TooLong => Pair::Neither(beside_long(body)),
    }
}

/// The condition that a form is at least 0.
fn not_negative(alloc: Global, x: Aff) -> Result<Cond, CertRefusal>
    ensures { IfOk result (λ c. c ≡ at_least x) }
{
    let mut all = Items::new(alloc);
    all.push(Cmp::Ge(x))?;
    Ok(Cond { all })
}

fn guarded(alloc: Global, x: Aff, body: Boxed<Term>) -> Result<Boxed<Term>, CertRefusal>
    ensures { IfOk result (λ e. e ≡ tree.guard (at_least x) body) }
{
    let cond = not_negative(alloc, x)?;
    guard(alloc, cond, body)
}

/// A gen of an extent and a body that may break limits.
pub fn gen_with(alloc: Global, n: FormDraft, body: Draft) -> Result<Draft, CertRefusal>
    ensures { (x : form.Items) (e : spec.Term) → IsFormed x n → IsDraft e body → IfOk result (IsDraft (tree.gen x e)) }
{
    match joined(n, body) {
        Pair::Both(n, body) => {
            let term = generated(alloc, n, body)?;
            Ok(whole(term))
        }
        Pair::Neither(draft) => Ok(draft),
    }
}

/// The same of a guard by the condition that the form is at least 0.
pub fn guard_with(alloc: Global, rest: FormDraft, body: Draft) -> Result<Draft, CertRefusal>
    ensures { (x : form.Items) (e : spec.Term) → IsFormed x rest → IsDraft e body → IfOk result (IsDraft (tree.guard (at_least x) e)) }
{
    match joined(rest, body) {
        Pair::Both(rest, body) => {
            let term = guarded(alloc, rest, body)?;
            Ok(whole(term))
        }
        Pair::Neither(draft) => Ok(draft),
    }
}

/// So many nodes, those of a term, and the node above both.
fn both_many(count: u64, term: &Term) -> Draft
    ensures { result ≡ Draft.TooMany (min (count + (node_count term.now + 1)) (2 ^ 64 - 1)) }
{
    Draft::TooMany {
        nodes: count.saturating_add(nodes(term)).saturating_add(1),
    }
}

/// Two terms added, the first within the limits.
fn whole_plus(alloc: Global, first: Boxed<Term>, second: Draft) -> Result<Draft, CertRefusal>
    ensures { (e : spec.Term) → IsDraft e second → IfOk result (IsDraft (tree.add first e)) }
{
    told(first.get());
    match second {
        Draft::Whole(second) => {
            let term = add(alloc, first, second)?;
            Ok(whole(term))
        }
        Draft::TooLarge => {
            spent(first);
            Ok(Draft::TooLarge)
        }
        Draft::TooLong => {
            spent(first);
            Ok(Draft::TooLong)
        }
        Draft::TooMany { nodes } => {
            let draft = both_many(nodes, first.get());
            spent(first);
            Ok(draft)
        }
    }
}

/// Two terms added, the first of which is too long.
fn long_plus(second: Draft) -> Draft
    ensures { (d e : spec.Term) → IsDraft d Draft.TooLong → IsDraft e second → IsDraft (tree.add d e) result }
{
    match second {
        Draft::TooLarge => Draft::TooLarge,
        Draft::Whole(second) => {
            spent(second);
            Draft::TooLong
        }
        Draft::TooLong => Draft::TooLong,
        Draft::TooMany { .. } => Draft::TooLong,
    }
}

/// Two terms added, the first of so many nodes.
fn many_plus(nodes: u64, second: Draft) -> Draft
    ensures { (d e : spec.Term) → IsDraft d (Draft.TooMany nodes) → IsDraft e second → IsDraft (tree.add d e) result }
{
    match second {
        Draft::TooLarge => Draft::TooLarge,
        Draft::Whole(second) => {
            let draft = both_many(nodes, second.get());
            spent(second);
            draft
        }
        Draft::TooLong => Draft::TooLong,
        Draft::TooMany { nodes: more } => one_more(nodes.saturating_add(more)),
    }
}

/// Two terms added, each of which may break limits.
pub fn added(alloc: Global, first: Draft, second: Draft) -> Result<Draft, CertRefusal>
    ensures { (d e : spec.Term) → IsDraft d first → IsDraft e second → IfOk result (IsDraft (tree.add d e)) }
{
    match first {
        Draft::Whole(first) => whole_plus(alloc, first, second),
        Draft::TooLarge => Ok(Draft::TooLarge),
        Draft::TooLong => Ok(long_plus(second)),
        Draft::TooMany { nodes } => Ok(many_plus(nodes, second)),
    }
}
