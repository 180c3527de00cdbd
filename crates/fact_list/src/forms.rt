//! Forms, some of which are left out where they break a limit.
#![tactic(auto, using(crate::proofs::CodeLaws::form_laws))]

ghost use Rattle.std.specs.Prelude.{true, ◌≡◌, pos, IfOk, IsTrue};
ghost use Rattle.affine_index.specs.Condition.{cmp_form};
ghost use Rattle.affine_index.specs.Normal.{is_normal};
ghost use Rattle.affine_index.specs.Put.{numbers_fit, shifted};
ghost use Rattle.affine_index.specs.Sum.{difference_of};
ghost use Rattle.fact_list.specs.Facts.{NormalAtom, where_normal, normal_product, single};

use crate::items::formed;
use crate::refusal::CertRefusal;
use affine_index::{Aff, AffRefusal, Atom, Cmp, Item, Items};
use std::alloc::Global;

/// The largest constant of a form.
const LARGEST: u128 = 1 << 40;

/// A multiple of an atom and a number.
pub fn single(
    alloc: Global,
    coefficient: i64,
    atom: Atom,
    constant: i64,
) -> Result<Aff, CertRefusal>
    requires { IsTrue (is_normal (single coefficient atom constant)) }
    ensures { IfOk result (λ form. form ≡ single coefficient atom constant) }
{
    let mut terms = sqlite_items::Items::new(alloc);
    terms.push(Item { atom, coefficient })?;
    formed(alloc, &Items { terms, constant })
}

/// A multiple of an atom and a number, if the number is within the limits.
pub fn single_normal(
    alloc: Global,
    coefficient: i64,
    atom: Atom,
    constant: i128,
) -> Result<Option<Aff>, CertRefusal>
    requires { IsTrue (is_normal (single coefficient atom (pos 0))) }
    ensures { IfOk result (λ o. o ≡ where_normal (single coefficient atom constant)) }
{
    if constant.unsigned_abs() > LARGEST {
        return Ok(None);
    }
    let form = single(alloc, coefficient, atom, constant as i64)?;
    Ok(Some(form))
}

/// The difference of two forms.
pub fn difference(alloc: Global, a: &Aff, b: &Aff) -> Result<Option<Aff>, CertRefusal>
    ensures { IfOk result (λ o. o ≡ where_normal (difference_of a.now b.now)) }
{
    match a.sub(alloc, b) {
        Ok(form) => {
            form.told();
            Ok(Some(form))
        }
        Err(AffRefusal::CoefficientTooLarge) => Ok(None),
        Err(AffRefusal::IndexTooLong) => Ok(None),
        Err(AffRefusal::NotAffine) => Ok(None),
        Err(AffRefusal::Memory) => Err(CertRefusal::Memory),
    }
}

/// The product of two forms.
pub fn product(alloc: Global, a: &Aff, b: &Aff) -> Result<Option<Aff>, CertRefusal>
    ensures { IfOk result (λ o. o ≡ normal_product a.now b.now) }
{
    match a.mul(alloc, b) {
        Ok(form) => {
            form.told();
            Ok(Some(form))
        }
        Err(AffRefusal::CoefficientTooLarge) => Ok(None),
        Err(AffRefusal::IndexTooLong) => Ok(None),
        Err(AffRefusal::NotAffine) => Ok(None),
        Err(AffRefusal::Memory) => Err(CertRefusal::Memory),
    }
}

/// An equal form.
pub fn copied(alloc: Global, form: &Aff) -> Result<Aff, CertRefusal>
    ensures { IfOk result (λ copy. copy ≡ form.now) }
{
    match form.copy(alloc) {
        Ok(copy) => Ok(copy),
        Err(_) => Err(CertRefusal::Memory),
    }
}

/// An equal comparison.
pub fn copied_cmp(alloc: Global, cmp: &Cmp) -> Result<Cmp, CertRefusal>
    ensures { IfOk result (λ copy. copy ≡ cmp.now) }
{
    match cmp {
        Cmp::Ge(form) => Ok(Cmp::Ge(copied(alloc, form)?)),
        Cmp::Eq(form) => Ok(Cmp::Eq(copied(alloc, form)?)),
    }
}

/// A form with its variables moved under binders.
pub fn moved(alloc: Global, form: &Aff, by: u32) -> Result<Option<Aff>, CertRefusal>
    requires { IsTrue (numbers_fit 0 by form.now) }
    ensures { IfOk result (λ o. o ≡ where_normal (shifted 0 by form.now)) }
{
    match form.shift(alloc, 0, by) {
        Ok(form) => {
            form.told();
            Ok(Some(form))
        }
        Err(AffRefusal::CoefficientTooLarge) => Ok(None),
        Err(AffRefusal::IndexTooLong) => Ok(None),
        Err(AffRefusal::NotAffine) => Ok(None),
        Err(AffRefusal::Memory) => Err(CertRefusal::Memory),
    }
}

/// The form of a comparison.
pub fn form_of(cmp: &Cmp) -> &Aff
    ensures form { result.now ≡ cmp_form cmp.now }
    ensures normal { is_normal result.now ≡ true }
{
    let form = match cmp {
        Cmp::Ge(form) => form,
        Cmp::Eq(form) => form,
    };
    form.told();
    form
}
