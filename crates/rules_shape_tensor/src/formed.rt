//! Nodes made of a form and a term, either of which may break limits.

ghost use Rattle.std.specs.Prelude.{◌≡◌, ◌+◌, ◌-◌, ◌^◌, min, IfOk, MatchResult, true};
ghost use Rattle.affine_index.specs.Normal.{Refused, is_normal};
ghost use Rattle.affine_index.specs.declared.form.Items as form;
ghost use Rattle.path_focus.specs.Outcome.{IsDraft};
ghost use Rattle.rules_shape_tensor.specs.Formed.{IsFormed, IsJoined};
ghost use Rattle.term_tree.specs.Syntax as tree;
ghost use Rattle.term_tree.specs.declared.term.Term as spec;

use crate::build::boxed;
use affine_index::{Aff, AffRefusal};
use fact_list::CertRefusal;
use owned_values::spent;
use path_focus::Draft;
use rule_parts::build::{generated, index};
use sqlite_items::Boxed;
use std::alloc::Global;
use term_tree::{Term, told};

/// A form within the limits, or which limit it breaks.
#[derive(Drop)]
pub enum FormDraft {
    Within(Aff),
    TooLarge,
    TooLong,
}

/// A form and a term within the limits, or which limit a node of both breaks.
#[derive(Drop)]
pub enum Pair {
    Both(Aff, Boxed<Term>),
    Neither(Draft),
}

/// A term whose forms are within the limits.
#[tactic(auto, using(rule_parts::proofs::DraftLaws::whole_is))]
pub fn whole(term: Boxed<Term>) -> Draft
    ensures { IsDraft term result }
{
    told(term.get());
    Draft::Whole(term)
}

/// So many nodes and one more.
fn more(nodes: u64) -> Draft
    ensures { result ≡ Draft.TooMany (min (nodes + 1) (2 ^ 64 - 1)) }
{
    Draft::TooMany {
        nodes: nodes.saturating_add(1),
    }
}

/// What index arithmetic has made.
pub fn formed(made: Result<Aff, AffRefusal>) -> Result<FormDraft, CertRefusal>
    ensures { (raw : form.Items) → MatchResult made (λ x. x ≡ raw) (Refused raw) → IfOk result (IsFormed raw) }
{
    match made {
        Ok(form) => Ok(FormDraft::Within(form)),
        Err(AffRefusal::CoefficientTooLarge) => Ok(FormDraft::TooLarge),
        Err(AffRefusal::IndexTooLong) => Ok(FormDraft::TooLong),
        Err(AffRefusal::NotAffine) | Err(AffRefusal::Memory) => Err(CertRefusal::Memory),
    }
}

/// A form within the limits, and a term.
fn beside(form: Aff, body: Draft) -> Pair
    requires { is_normal form ≡ true }
    ensures { (e : spec.Term) → IsDraft e body → IsJoined form e result }
{
    match body {
        Draft::Whole(body) => Pair::Both(form, body),
        Draft::TooLarge => Pair::Neither(Draft::TooLarge),
        Draft::TooLong => Pair::Neither(Draft::TooLong),
        Draft::TooMany { nodes } => Pair::Neither(more(nodes)),
    }
}

/// A form that is too long, and a term.
fn beside_long(body: Draft) -> Draft
    ensures { (x : form.Items) (e : spec.Term) → IsFormed x FormDraft.TooLong → IsDraft e body → IsJoined x e (Pair.Neither result) }
{
    match body {
        Draft::TooLarge => Draft::TooLarge,
        Draft::Whole(body) => {
            spent(body);
            Draft::TooLong
        }
        Draft::TooLong => Draft::TooLong,
        Draft::TooMany { .. } => Draft::TooLong,
    }
}

fn joined(drafted: FormDraft, body: Draft) -> Pair
    ensures { (x : form.Items) (e : spec.Term) → IsFormed x drafted → IsDraft e body → IsJoined x e result }
{
    match drafted {
        FormDraft::Within(form) => {
            form.told();
            beside(form, body)
        }
        FormDraft::TooLarge => Pair::Neither(Draft::TooLarge),
        FormDraft::TooLong => Pair::Neither(beside_long(body)),
    }
}

/// A row of a term at an index, either of which may break limits.
pub fn index_with(alloc: Global, array: Draft, at: FormDraft) -> Result<Draft, CertRefusal>
    ensures { (x : form.Items) (e : spec.Term) → IsFormed x at → IsDraft e array → IfOk result (IsDraft (tree.index e x)) }
{
    match joined(at, array) {
        Pair::Both(at, array) => {
            let term = index(alloc, array, at)?;
            Ok(whole(term))
        }
        Pair::Neither(draft) => Ok(draft),
    }
}

/// A gen of so many rows, each of which may break limits.
pub fn gen_with(alloc: Global, n: Aff, body: Draft) -> Result<Draft, CertRefusal>
    ensures { (e : spec.Term) → IsDraft e body → IfOk result (IsDraft (tree.gen n e)) }
{
    n.told();
    match beside(n, body) {
        Pair::Both(n, body) => {
            let term = generated(alloc, n, body)?;
            Ok(whole(term))
        }
        Pair::Neither(draft) => Ok(draft),
    }
}

#[tactic(auto, using(term_tree::proofs::Forms::term_forms))]
fn pad_r(alloc: Global, a: Aff, body: Boxed<Term>) -> Result<Boxed<Term>, CertRefusal>
    ensures { IfOk result (λ e. e ≡ tree.pad_r a body) }
{
    boxed(alloc, Term::PadR(a, body))
}

/// A term with rows of zeros behind it, whose number and rows may break limits.
pub fn pad_with(alloc: Global, a: FormDraft, body: Draft) -> Result<Draft, CertRefusal>
    ensures { (x : form.Items) (e : spec.Term) → IsFormed x a → IsDraft e body → IfOk result (IsDraft (tree.pad_r x e)) }
{
    match joined(a, body) {
        Pair::Both(a, body) => {
            let term = pad_r(alloc, a, body)?;
            Ok(whole(term))
        }
        Pair::Neither(draft) => Ok(draft),
    }
}
