//! Arithmetic of forms, each of which may be missing.

ghost use Rattle.std.specs.Prelude.{◌≡◌, Some, IfOk, MatchResult};
ghost use Rattle.affine_index.specs.Form.{literal_form, size_form, var_form};
ghost use Rattle.affine_index.specs.Normal.{Refused};
ghost use Rattle.affine_index.specs.declared.form.Items as form;
ghost use Rattle.fact_list.specs.Facts.{normal_product, where_normal};
ghost use Rattle.zeroed_forms.specs.Zeroed as zeroed;

use affine_index::{Aff, AffRefusal};
use fact_list::CertRefusal;
use std::alloc::Global;

/// The largest constant of a form.
const LARGEST: u64 = 1 << 40;

/// What index arithmetic has made, where it is within the limits.
fn if_normal(made: Result<Aff, AffRefusal>) -> Result<Option<Aff>, CertRefusal>
    ensures { (raw : form.Items) → MatchResult made (λ x. x ≡ raw) (Refused raw) → IfOk result (λ o. o ≡ where_normal raw) }
{
    match made {
        Ok(form) => {
            form.told();
            Ok(Some(form))
        }
        Err(AffRefusal::Memory) => Err(CertRefusal::Memory),
        Err(AffRefusal::CoefficientTooLarge) => Ok(None),
        Err(AffRefusal::IndexTooLong) => Ok(None),
        Err(AffRefusal::NotAffine) => Ok(None),
    }
}

/// The size of a number.
pub fn size(alloc: Global, size: u32) -> Result<Option<Aff>, CertRefusal>
    ensures { IfOk result (λ o. o ≡ Some (size_form size)) }
{
    match Aff::size(alloc, size) {
        Ok(form) => Ok(Some(form)),
        Err(_) => Err(CertRefusal::Memory),
    }
}

/// The index variable of a number.
pub fn var(alloc: Global, var: u32) -> Result<Option<Aff>, CertRefusal>
    ensures { IfOk result (λ o. o ≡ Some (var_form var)) }
{
    match Aff::var(alloc, var) {
        Ok(form) => Ok(Some(form)),
        Err(_) => Err(CertRefusal::Memory),
    }
}

/// A number, where it is within the limits.
#[tactic(auto, using(crate::proofs::LiteralLaws::literal_laws))]
pub fn literal(alloc: Global, number: i64) -> Result<Option<Aff>, CertRefusal>
    ensures { IfOk result (λ o. o ≡ where_normal (literal_form number)) }
{
    if number.unsigned_abs() > LARGEST {
        return Ok(None);
    }
    match Aff::literal(alloc, number) {
        Ok(form) => {
            form.told();
            Ok(Some(form))
        }
        Err(_) => Err(CertRefusal::Memory),
    }
}

/// A multiple, where there is one.
pub fn times(alloc: Global, coefficient: i64, form: Option<Aff>) -> Result<Option<Aff>, CertRefusal>
    ensures { IfOk result (λ o. o ≡ zeroed.times coefficient form) }
{
    match form {
        Some(form) => if_normal(form.scale(alloc, coefficient)),
        None => Ok(None),
    }
}

fn sum(alloc: Global, a: &Aff, b: Option<Aff>) -> Result<Option<Aff>, CertRefusal>
    ensures { IfOk result (λ o. o ≡ zeroed.plus (Some a.now) b) }
{
    match b {
        Some(b) => if_normal(a.add(alloc, &b)),
        None => Ok(None),
    }
}

/// The sum, where there is one.
pub fn plus(alloc: Global, a: Option<Aff>, b: Option<Aff>) -> Result<Option<Aff>, CertRefusal>
    ensures { IfOk result (λ o. o ≡ zeroed.plus a b) }
{
    match a {
        Some(a) => sum(alloc, &a, b),
        None => Ok(None),
    }
}

#[tactic(auto, using(fact_list::proofs::CodeLaws::form_laws))]
fn both(alloc: Global, a: &Aff, b: &Aff) -> Result<Option<Aff>, CertRefusal>
    ensures { IfOk result (λ o. o ≡ normal_product a.now b.now) }
{
    match a.mul(alloc, b) {
        Ok(form) => {
            form.told();
            Ok(Some(form))
        }
        Err(AffRefusal::CoefficientTooLarge) => Ok(None),
        Err(AffRefusal::IndexTooLong) => Ok(None),
        Err(AffRefusal::NotAffine) => Ok(None),
        Err(AffRefusal::Memory) => Err(CertRefusal::Memory),
    }
}

fn product_with(alloc: Global, a: &Aff, b: Option<Aff>) -> Result<Option<Aff>, CertRefusal>
    ensures { IfOk result (λ o. o ≡ zeroed.product (Some a.now) b) }
{
    match b {
        Some(b) => both(alloc, a, &b),
        None => Ok(None),
    }
}

/// The product, where there is one.
pub fn product(alloc: Global, a: Option<Aff>, b: Option<Aff>) -> Result<Option<Aff>, CertRefusal>
    ensures { IfOk result (λ o. o ≡ zeroed.product a b) }
{
    match a {
        Some(a) => product_with(alloc, &a, b),
        None => Ok(None),
    }
}

fn floor(alloc: Global, form: &Aff, divisor: u32) -> Result<Option<Aff>, CertRefusal>
    ensures { IfOk result (λ o. o ≡ zeroed.quotient (Some form.now) divisor) }
{
    if divisor == 0 || divisor > 2147483647 {
        return Ok(None);
    }
    if_normal(form.div(alloc, divisor))
}

/// The floor of a quotient, where there is one.
pub fn quotient(alloc: Global, form: Option<Aff>, divisor: u32) -> Result<Option<Aff>, CertRefusal>
    ensures { IfOk result (λ o. o ≡ zeroed.quotient form divisor) }
{
    match form {
        Some(form) => floor(alloc, &form, divisor),
        None => Ok(None),
    }
}
