//! Forms of a range of turns.

ghost use Rattle.std.specs.Prelude.{◌≡◌, ◌+◌, ◌^◌, ◌≤◌, true, IfOk, MatchResult};
ghost use Rattle.affine_index.specs.Normal.{Refused, is_normal, is_ordered};
ghost use Rattle.affine_index.specs.Sum.{difference_of, sum_of};
ghost use Rattle.affine_index.specs.Wide.{norm};
ghost use Rattle.affine_index.specs.declared.form.Items as form;
ghost use Rattle.fact_list.specs.Facts.{where_normal};
ghost use Rattle.rules_narrow.specs.Narrow as narrow;

use affine_index::raw::{Wide, copied, scaled, sum, within_limits};
use affine_index::{Aff, AffRefusal};
use fact_list::CertRefusal;
use std::alloc::{AllocError, Global};

/// What index arithmetic has made, where it is within the limits.
pub fn if_normal(made: Result<Aff, AffRefusal>) -> Result<Option<Aff>, CertRefusal>
    ensures { (raw : form.Items) → MatchResult made (λ x. x ≡ raw) (Refused raw) → IfOk result (λ o. o ≡ where_normal raw) }
{
    match made {
        Ok(form) => {
            form.told();
            Ok(Some(form))
        }
        Err(AffRefusal::Memory) => Err(CertRefusal::Memory),
        Err(AffRefusal::CoefficientTooLarge) => Ok(None),
        Err(AffRefusal::IndexTooLong) => Ok(None),
        Err(AffRefusal::NotAffine) => Ok(None),
    }
}

/// a + b.
fn total(alloc: Global, a: &Aff, b: &Aff) -> Result<Wide, AllocError>
    ensures form { IfOk result (λ form. form ≡ sum_of a.now b.now) }
    ensures normal { (is_normal a.now ≡ true) × (is_normal b.now ≡ true) }
{
    a.told();
    b.told();
    let first = copied(alloc, a)?;
    let second = copied(alloc, b)?;
    sum(alloc, first, second)
}

/// A form less a + b, of which only the whole is to be within the limits.
fn less(alloc: Global, whole: Wide, a: &Aff, b: &Aff) -> Result<Aff, AffRefusal>
    requires small { norm whole ≤ 2 ^ 50 }
    requires ordered { is_ordered whole ≡ true }
    ensures { MatchResult result (λ form. form ≡ difference_of whole (sum_of a.now b.now)) (Refused (difference_of whole (sum_of a.now b.now))) }
{
    let taken = total(alloc, a, b)?;
    let minus = scaled(alloc, -1, taken)?;
    let rest = sum(alloc, whole, minus)?;
    within_limits(alloc, rest)
}

/// n - a - m.
fn rest_behind(alloc: Global, n: &Aff, a: &Aff, m: &Aff) -> Result<Aff, AffRefusal>
    ensures { MatchResult result (λ form. form ≡ narrow.behind n.now a.now m.now) (Refused (narrow.behind n.now a.now m.now)) }
{
    let whole = copied(alloc, n)?;
    less(alloc, whole, a, m)
}

/// x + m - 1 - i, with i the innermost variable.
fn rest_until(alloc: Global, x: &Aff, m: &Aff) -> Result<Aff, AffRefusal>
    ensures { MatchResult result (λ form. form ≡ narrow.until x.now m.now) (Refused (narrow.until x.now m.now)) }
{
    let turn = Aff::var(alloc, 0)?;
    let one = Aff::literal(alloc, 1)?;
    let end = total(alloc, x, m)?;
    less(alloc, end, &turn, &one)
}

/// n - a - m, where its form is within the limits.
pub fn behind(alloc: Global, n: &Aff, a: &Aff, m: &Aff) -> Result<Option<Aff>, CertRefusal>
    ensures { IfOk result (λ o. o ≡ where_normal (narrow.behind n.now a.now m.now)) }
{
    if_normal(rest_behind(alloc, n, a, m))
}

/// x + m - 1 - i, where its form is within the limits.
pub fn until(alloc: Global, x: &Aff, m: &Aff) -> Result<Option<Aff>, CertRefusal>
    ensures { IfOk result (λ o. o ≡ where_normal (narrow.until x.now m.now)) }
{
    if_normal(rest_until(alloc, x, m))
}

/// i - x, where its form is within the limits.
pub fn since(alloc: Global, x: &Aff) -> Result<Option<Aff>, CertRefusal>
    ensures { IfOk result (λ o. o ≡ where_normal (narrow.since x.now)) }
{
    match Aff::var(alloc, 0) {
        Ok(turn) => if_normal(turn.sub(alloc, x)),
        Err(_) => Err(CertRefusal::Memory),
    }
}

/// i + x, where its form is within the limits.
pub fn further(alloc: Global, x: &Aff) -> Result<Option<Aff>, CertRefusal>
    ensures { IfOk result (λ o. o ≡ where_normal (narrow.further x.now)) }
{
    match Aff::var(alloc, 0) {
        Ok(turn) => if_normal(turn.add(alloc, x)),
        Err(_) => Err(CertRefusal::Memory),
    }
}
