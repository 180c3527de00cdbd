//! Terms and forms made of others.

ghost use Rattle.std.specs.Prelude.{◌≡◌, pos, IfOk, MatchResult};
ghost use Rattle.affine_index.specs.Form.{literal_form, var_form};
ghost use Rattle.affine_index.specs.Normal.{Refused};
ghost use Rattle.affine_index.specs.declared.form.Items as form;
ghost use Rattle.fact_list.specs.Facts.{where_normal};
ghost use Rattle.term_tree.specs.Shape.{same_form};
ghost use Rattle.term_tree.specs.Syntax as tree;

use affine_index::{Aff, AffRefusal};
use fact_list::CertRefusal;
use owned_values::two;
use rule_parts::build::{copied, copied_form, index};
use sqlite_items::Boxed;
use std::alloc::Global;
use term_tree::Term;

pub fn boxed(alloc: Global, term: Term) -> Result<Boxed<Term>, CertRefusal>
    ensures { IfOk result (λ e. e ≡ term) }
{
    let term = Boxed::new(alloc, term)?;
    Ok(term)
}

#[tactic(auto, using(term_tree::proofs::Forms::term_forms))]
pub fn concat(alloc: Global, a: Boxed<Term>, b: Boxed<Term>) -> Result<Boxed<Term>, CertRefusal>
    ensures { IfOk result (λ e. e ≡ tree.concat a b) }
{
    boxed(alloc, Term::Concat(a, b))
}

/// The rows of a copy of a term, and behind them those of a copy of another.
pub fn joined(alloc: Global, a: &Term, b: &Term) -> Result<Boxed<Term>, CertRefusal>
    ensures { IfOk result (λ e. e ≡ tree.concat a.now b.now) }
{
    let (a, b) = two(copied(alloc, a), copied(alloc, b))?;
    concat(alloc, a, b)
}

/// A copy of a term at a copy of an index.
pub fn row(alloc: Global, array: &Term, x: &Aff) -> Result<Boxed<Term>, CertRefusal>
    ensures { IfOk result (λ e. e ≡ tree.index array.now x.now) }
{
    let array = copied(alloc, array)?;
    let x = copied_form(alloc, x)?;
    index(alloc, array, x)
}

/// The index variable of a number.
pub fn var(alloc: Global, var: u32) -> Result<Aff, CertRefusal>
    ensures { IfOk result (λ x. x ≡ var_form var) }
{
    match Aff::var(alloc, var) {
        Ok(form) => Ok(form),
        Err(_) => Err(CertRefusal::Memory),
    }
}

/// A number as a form.
pub fn number(alloc: Global, k: u32) -> Result<Aff, CertRefusal>
    ensures { IfOk result (λ x. x ≡ literal_form (pos k)) }
{
    match Aff::literal(alloc, i64::from(k)) {
        Ok(form) => Ok(form),
        Err(_) => Err(CertRefusal::Memory),
    }
}

#[tactic(auto, using(crate::proofs::SameForms::same_is))]
pub fn is_same(x: &Aff, y: &Aff) -> bool
    ensures { result ≡ same_form x.now y.now }
{
    x.same(y)
}

/// Whether a form is this number.
pub fn is_number(alloc: Global, x: &Aff, k: u32) -> Result<bool, CertRefusal>
    ensures { IfOk result (λ b. b ≡ same_form x.now (literal_form (pos k))) }
{
    let number = number(alloc, k)?;
    Ok(is_same(x, &number))
}

/// What index arithmetic has made, where it is within the limits.
pub fn if_normal(made: Result<Aff, AffRefusal>) -> Result<Option<Aff>, CertRefusal>
    ensures { (raw : form.Items) → MatchResult made (λ x. x ≡ raw) (Refused raw) → IfOk result (λ o. o ≡ where_normal raw) }
{
    match made {
        Ok(form) => {
            form.told();
            Ok(Some(form))
        }
        Err(AffRefusal::Memory) => Err(CertRefusal::Memory),
        Err(AffRefusal::CoefficientTooLarge) => Ok(None),
        Err(AffRefusal::IndexTooLong) => Ok(None),
        Err(AffRefusal::NotAffine) => Ok(None),
    }
}
