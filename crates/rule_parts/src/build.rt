//! Terms made of terms.

ghost use Rattle.std.specs.Prelude.{◌≡◌, [], IfOk, IsTrue};
ghost use Rattle.affine_index.specs.Put.{numbers_fit, shifted};
ghost use Rattle.path_focus.specs.Outcome.{IsDraft, IsOutcome, Makes};
ghost use Rattle.term_tree.specs.Syntax as tree;
ghost use Rattle.term_tree.specs.declared.term.Term as spec;

use affine_index::{Aff, Cond};
use fact_list::CertRefusal;
use path_focus::{Condition, Draft, Outcome, Rewrite};
use sqlite_items::{Boxed, Items};
use std::alloc::Global;
use term_tree::{Term, copy, told};

fn boxed(alloc: Global, term: Term) -> Result<Boxed<Term>, CertRefusal>
    ensures { IfOk result (λ e. e ≡ term) }
{
    let term = Boxed::new(alloc, term)?;
    Ok(term)
}

pub fn copied(alloc: Global, term: &Term) -> Result<Boxed<Term>, CertRefusal>
    ensures { IfOk result (λ e. e ≡ term.now) }
{
    match copy(alloc, term) {
        Ok(copy) => boxed(alloc, copy),
        Err(_) => Err(CertRefusal::Memory),
    }
}

pub fn copied_form(alloc: Global, form: &Aff) -> Result<Aff, CertRefusal>
    ensures { IfOk result (λ copy. copy ≡ form.now) }
{
    match form.copy(alloc) {
        Ok(copy) => Ok(copy),
        Err(_) => Err(CertRefusal::Memory),
    }
}

#[tactic(auto, using(term_tree::proofs::Forms::term_forms))]
pub fn index(alloc: Global, array: Boxed<Term>, x: Aff) -> Result<Boxed<Term>, CertRefusal>
    ensures { IfOk result (λ e. e ≡ tree.index array x) }
{
    boxed(alloc, Term::Index(array, x))
}

#[tactic(auto, using(term_tree::proofs::Forms::term_forms))]
pub fn generated(alloc: Global, n: Aff, body: Boxed<Term>) -> Result<Boxed<Term>, CertRefusal>
    ensures { IfOk result (λ e. e ≡ tree.gen n body) }
{
    boxed(alloc, Term::Gen(n, body))
}

#[tactic(auto, using(term_tree::proofs::Forms::term_forms))]
pub fn sum(alloc: Global, n: Aff, body: Boxed<Term>) -> Result<Boxed<Term>, CertRefusal>
    ensures { IfOk result (λ e. e ≡ tree.sum n body) }
{
    boxed(alloc, Term::Sum(n, body))
}

#[tactic(auto, using(term_tree::proofs::Forms::term_forms))]
pub fn guard(alloc: Global, cond: Cond, body: Boxed<Term>) -> Result<Boxed<Term>, CertRefusal>
    ensures { IfOk result (λ e. e ≡ tree.guard cond body) }
{
    boxed(alloc, Term::Guard(cond, body))
}

#[tactic(auto, using(term_tree::proofs::Forms::term_forms))]
pub fn add(alloc: Global, a: Boxed<Term>, b: Boxed<Term>) -> Result<Boxed<Term>, CertRefusal>
    ensures { IfOk result (λ e. e ≡ tree.add a b) }
{
    boxed(alloc, Term::Add(a, b))
}

#[tactic(auto, using(term_tree::proofs::Forms::term_forms))]
pub fn sub(alloc: Global, a: Boxed<Term>, b: Boxed<Term>) -> Result<Boxed<Term>, CertRefusal>
    ensures { IfOk result (λ e. e ≡ tree.sub a b) }
{
    boxed(alloc, Term::Sub(a, b))
}

#[tactic(auto, using(term_tree::proofs::Forms::term_forms))]
pub fn mul(alloc: Global, a: Boxed<Term>, b: Boxed<Term>) -> Result<Boxed<Term>, CertRefusal>
    ensures { IfOk result (λ e. e ≡ tree.mul a b) }
{
    boxed(alloc, Term::Mul(a, b))
}

/// A form under one more gen or sum.
pub fn raised_form(alloc: Global, form: &Aff) -> Result<Aff, CertRefusal>
    requires { IsTrue (numbers_fit 0 1 form.now) }
    ensures { IfOk result (λ x. x ≡ shifted 0 1 form.now) }
{
    match form.shift(alloc, 0, 1) {
        Ok(form) => Ok(form),
        Err(_) => Err(CertRefusal::Memory),
    }
}

/// What a rule has made whose forms are within the limits, under no conditions.
#[tactic(auto, using(crate::proofs::DraftLaws::whole_is))]
pub fn made(alloc: Global, term: Boxed<Term>) -> Outcome
    ensures { IsOutcome (Makes term []) result }
{
    told(term.get());
    Outcome::Made(Rewrite {
        conditions: Items::new(alloc),
        draft: Draft::Whole(term),
    })
}

/// What a rule has made, under no conditions.
pub fn drafted(alloc: Global, draft: Draft) -> Outcome
    ensures { (raw : spec.Term) → IsDraft raw draft → IsOutcome (Makes raw []) result }
{
    Outcome::Made(Rewrite {
        conditions: Items::new(alloc),
        draft,
    })
}

/// What a rule has made whose forms are within the limits, under conditions.
#[tactic(auto, using(crate::proofs::DraftLaws::whole_is))]
pub fn made_under(conditions: Items<Condition>, term: Boxed<Term>) -> Outcome
    ensures { IsOutcome (Makes term conditions) result }
{
    told(term.get());
    Outcome::Made(Rewrite {
        conditions,
        draft: Draft::Whole(term),
    })
}
