//! Nodes made of a form and a term, either of which may break limits.

ghost use Rattle.std.specs.Prelude.{◌≡◌, ◌∷◌, [], IfOk, MatchResult, true};
ghost use Rattle.affine_index.specs.Normal.{Refused, is_normal};
ghost use Rattle.affine_index.specs.declared.cond.Cmp.TheVariants as cmp;
ghost use Rattle.affine_index.specs.declared.form.Items as form;
ghost use Rattle.path_focus.specs.Outcome.{IsDraft};
ghost use Rattle.rules_loop.specs.Formed.{IsFormed, IsJoined};
ghost use Rattle.term_tree.specs.Syntax as tree;
ghost use Rattle.term_tree.specs.declared.term.Term as spec;

use crate::build::boxed;
use crate::drafts::{more, whole};
use affine_index::{Aff, AffRefusal, Cmp, Cond};
use fact_list::CertRefusal;
use owned_values::spent;
use path_focus::Draft;
use rule_parts::build::{generated, sum};
use sqlite_items::{Boxed, Items};
use std::alloc::Global;
use term_tree::Term;

/// A form within the limits, or which limit it breaks.
#[derive(Drop)]
pub enum FormDraft {
    Within(Aff),
    TooLarge,
    TooLong,
}

/// A form and a term within the limits, or which limit a node of both breaks.
#[derive(Drop)]
pub enum Pair {
    Both(Aff, Boxed<Term>),
    Neither(Draft),
}

/// What index arithmetic has made.
pub fn formed(made: Result<Aff, AffRefusal>) -> Result<FormDraft, CertRefusal>
    ensures { (raw : form.Items) → MatchResult made (λ x. x ≡ raw) (Refused raw) → IfOk result (IsFormed raw) }
{
    match made {
        Ok(form) => Ok(FormDraft::Within(form)),
        Err(AffRefusal::CoefficientTooLarge) => Ok(FormDraft::TooLarge),
        Err(AffRefusal::IndexTooLong) => Ok(FormDraft::TooLong),
        Err(AffRefusal::NotAffine) | Err(AffRefusal::Memory) => Err(CertRefusal::Memory),
    }
}

/// A form within the limits, and a term.
fn beside(form: Aff, body: Draft) -> Pair
    requires { is_normal form ≡ true }
    ensures { (e : spec.Term) → IsDraft e body → IsJoined form e result }
{
    match body {
        Draft::Whole(body) => Pair::Both(form, body),
        Draft::TooLarge => Pair::Neither(Draft::TooLarge),
        Draft::TooLong => Pair::Neither(Draft::TooLong),
        Draft::TooMany { nodes } => Pair::Neither(more(nodes)),
    }
}

/// A form that is too long, and a term.
fn beside_long(body: Draft) -> Draft
    ensures { (x : form.Items) (e : spec.Term) → IsFormed x FormDraft.TooLong → IsDraft e body → IsJoined x e (Pair.Neither result) }
{
    match body {
        Draft::TooLarge => Draft::TooLarge,
        Draft::Whole(body) => {
            spent(body);
            Draft::TooLong
        }
        Draft::TooLong => Draft::TooLong,
        Draft::TooMany { .. } => Draft::TooLong,
    }
}

fn joined(drafted: FormDraft, body: Draft) -> Pair
    ensures { (x : form.Items) (e : spec.Term) → IsFormed x drafted → IsDraft e body → IsJoined x e result }
{
    match drafted {
        FormDraft::Within(form) => {
            form.told();
            beside(form, body)
        }
        FormDraft::TooLarge => Pair::Neither(Draft::TooLarge),
        FormDraft::TooLong => Pair::Neither(beside_long(body)),
    }
}

/// The comparison that a form is at least 0, alone.
fn at_least_zero(alloc: Global, x: Aff) -> Result<Items<Cmp>, CertRefusal>
    ensures { IfOk result (λ all. all ≡ cmp.Ge x ∷ []) }
{
    let mut all = Items::new(alloc);
    all.push(Cmp::Ge(x))?;
    Ok(all)
}

#[tactic(auto, using(term_tree::proofs::Forms::term_forms))]
fn guard(alloc: Global, x: Aff, body: Boxed<Term>) -> Result<Boxed<Term>, CertRefusal>
    ensures { IfOk result (λ e. e ≡ tree.guard (record { all = cmp.Ge x ∷ [] }) body) }
{
    let all = at_least_zero(alloc, x)?;
    boxed(alloc, Term::Guard(Cond { all }, body))
}

#[tactic(auto, using(term_tree::proofs::Forms::term_forms))]
fn trunc_r(alloc: Global, a: Aff, body: Boxed<Term>) -> Result<Boxed<Term>, CertRefusal>
    ensures { IfOk result (λ e. e ≡ tree.trunc_r a body) }
{
    boxed(alloc, Term::TruncR(a, body))
}

/// A gen of an extent and a body that may break limits.
pub fn gen_with(alloc: Global, n: FormDraft, body: Draft) -> Result<Draft, CertRefusal>
    ensures { (x : form.Items) (e : spec.Term) → IsFormed x n → IsDraft e body → IfOk result (IsDraft (tree.gen x e)) }
{
    match joined(n, body) {
        Pair::Both(n, body) => {
            let term = generated(alloc, n, body)?;
            Ok(whole(term))
        }
        Pair::Neither(draft) => Ok(draft),
    }
}

/// The same of a sum.
pub fn sum_with(alloc: Global, n: FormDraft, body: Draft) -> Result<Draft, CertRefusal>
    ensures { (x : form.Items) (e : spec.Term) → IsFormed x n → IsDraft e body → IfOk result (IsDraft (tree.sum x e)) }
{
    match joined(n, body) {
        Pair::Both(n, body) => {
            let term = sum(alloc, n, body)?;
            Ok(whole(term))
        }
        Pair::Neither(draft) => Ok(draft),
    }
}

/// The same of a guard by the condition that the form is at least 0.
pub fn guard_with(alloc: Global, rest: FormDraft, body: Draft) -> Result<Draft, CertRefusal>
    ensures { (x : form.Items) (e : spec.Term) → IsFormed x rest → IsDraft e body → IfOk result (IsDraft (tree.guard (record { all = cmp.Ge x ∷ [] }) e)) }
{
    match joined(rest, body) {
        Pair::Both(rest, body) => {
            let term = guard(alloc, rest, body)?;
            Ok(whole(term))
        }
        Pair::Neither(draft) => Ok(draft),
    }
}

/// The same of a term without its last rows.
pub fn trunc_with(alloc: Global, a: FormDraft, body: Draft) -> Result<Draft, CertRefusal>
    ensures { (x : form.Items) (e : spec.Term) → IsFormed x a → IsDraft e body → IfOk result (IsDraft (tree.trunc_r x e)) }
{
    match joined(a, body) {
        Pair::Both(a, body) => {
            let term = trunc_r(alloc, a, body)?;
            Ok(whole(term))
        }
        Pair::Neither(draft) => Ok(draft),
    }
}
