//! Forms made of items.
#![tactic(auto, using(crate::proofs::AtomLaws::item_laws))]

ghost use Rattle.std.specs.Prelude.{true, ◌≡◌, ◌++◌, ◌^◌, ◌<◌, IfOk, IsTrue};
ghost use Rattle.affine_index.specs.Form.{literal_form};
ghost use Rattle.affine_index.specs.Normal.{coefficient_fits, is_normal, none_zero};

use crate::refusal::CertRefusal;
use affine_index::Aff;
use affine_index::raw::{Wide, copied, copy_atom, multiple, within_limits};
use std::alloc::Global;

/// Items of a normal form, to go on with.
pub fn widened(alloc: Global, items: &affine_index::Items) -> Result<Wide, CertRefusal>
    requires { none_zero items.now.terms ≡ true }
    ensures { IfOk result (λ form. form ≡ items.now) }
{
    let mut terms = number(alloc, 0)?.into_terms();
    for term in items.terms.as_slice() {
        let atom = copy_atom(alloc, &term.atom)?;
        let item = multiple(alloc, i128::from(term.coefficient), atom)?;
        terms.append(item.into_terms())?;
    }
    Ok(Wide::new(terms, i128::from(items.constant)))
}

/// A small number, to go on with.
pub fn number(alloc: Global, number: i64) -> Result<Wide, CertRefusal>
    requires { IsTrue (coefficient_fits number) }
    ensures { IfOk result (λ form. form ≡ literal_form number) }
{
    let form = literal(alloc, number)?;
    Ok(copied(alloc, &form)?)
}

/// A small number as a form.
pub fn literal(alloc: Global, number: i64) -> Result<Aff, CertRefusal>
    requires { IsTrue (coefficient_fits number) }
    ensures { IfOk result (λ form. form ≡ literal_form number) }
{
    match Aff::literal(alloc, number) {
        Ok(form) => Ok(form),
        Err(_) => Err(CertRefusal::Memory),
    }
}

/// Items of a normal form as a form.
pub fn formed(alloc: Global, items: &affine_index::Items) -> Result<Aff, CertRefusal>
    requires { is_normal items.now ≡ true }
    ensures { IfOk result (λ form. form ≡ items.now) }
{
    match within_limits(alloc, widened(alloc, items)?) {
        Ok(form) => Ok(form),
        Err(_) => Err(CertRefusal::Memory),
    }
}
