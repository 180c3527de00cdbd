//! Sums and multiples of forms, without limits.
#![tactic(auto, using(crate::proofs::MultipleLaws::multiple_laws))]

ghost use Rattle.std.specs.Prelude.{◌≡◌, ◌+◌, ◌*◌, ◌^◌, ◌<◌, ◌++◌, ◌*ℤ◌, IfOk};
ghost use Rattle.std.specs.Int.RustNames.{unsigned_abs};
ghost use Rattle.affine_index.specs.Form.{of_atom};
ghost use Rattle.affine_index.specs.Sum.{scaled, scaled_terms, sum_of};
ghost use Rattle.affine_index.specs.Wide.{norm, terms_norm};

use crate::copy::copy_atom;
use crate::form::{Atom, Item, Items};
use crate::merge::merge;
use crate::wide::{Wide, WideItem, WideTerms};
use std::alloc::{AllocError, Global};

fn widened_terms(alloc: Global, terms: &[Item<Atom>]) -> Result<WideTerms, AllocError>
    ensures { IfOk result (λ copy. copy ≡ terms.now) }
{
    let mut copies = WideTerms::new(alloc);
    for term in terms {
        let atom = copy_atom(alloc, &term.atom)?;
        copies.push(WideItem::new(atom, i128::from(term.coefficient)))?;
    }
    Ok(copies)
}

/// A copy of a form, to go on with.
pub fn widened(alloc: Global, items: &Items) -> Result<Wide, AllocError>
    ensures { IfOk result (λ copy. copy ≡ items.now) }
{
    let terms = widened_terms(alloc, items.terms.as_slice())?;
    Ok(Wide::new(terms, i128::from(items.constant)))
}

fn copy_terms(alloc: Global, terms: &WideTerms) -> Result<WideTerms, AllocError>
    ensures { IfOk result (λ copy. copy ≡ terms.now) }
{
    let mut copies = WideTerms::new(alloc);
    for at in 0..terms.len() {
        let item = terms.get(at);
        let atom = copy_atom(alloc, item.atom())?;
        copies.push(WideItem::new(atom, item.coefficient()))?;
    }
    Ok(copies)
}

pub fn copy_wide(alloc: Global, form: &Wide) -> Result<Wide, AllocError>
    ensures { IfOk result (λ copy. copy ≡ form.now) }
{
    let terms = copy_terms(alloc, form.terms())?;
    Ok(Wide::new(terms, form.constant()))
}

/// The sum of two forms. Moves the items: linear in their number.
pub fn sum(alloc: Global, a: Wide, b: Wide) -> Result<Wide, AllocError>
    requires { norm a + norm b < 2 ^ 127 }
    ensures { IfOk result (λ form. form ≡ sum_of a b) }
{
    let constant = a.constant() + b.constant();
    let terms = merge(alloc, a.into_terms(), b.into_terms())?;
    Ok(Wide::new(terms, constant))
}

fn times(a: i128, b: i128) -> i128
    requires { unsigned_abs a * unsigned_abs b < 2 ^ 127 }
    ensures { result ≡ a *ℤ b }
{
    a * b
}

fn scaled_terms(alloc: Global, by: i128, terms: WideTerms) -> Result<WideTerms, AllocError>
    requires { unsigned_abs by * terms_norm terms < 2 ^ 127 }
    ensures { IfOk result (λ items. items ≡ scaled_terms by terms) }
{
    let mut rest = terms;
    let mut items = WideTerms::new(alloc);
    while let Some(item) = rest.take_first() {
        let coefficient = times(by, item.coefficient());
        items.push(WideItem::new(item.into_atom(), coefficient))?;
    }
    Ok(items)
}

/// A multiple of a form. Moves the items.
pub fn scaled(alloc: Global, by: i128, form: Wide) -> Result<Wide, AllocError>
    requires { unsigned_abs by * norm form < 2 ^ 127 }
    ensures { IfOk result (λ product. product ≡ scaled by form) }
{
    if by == 0 {
        return Ok(Wide::new(WideTerms::new(alloc), 0));
    }
    let constant = times(by, form.constant());
    let terms = scaled_terms(alloc, by, form.into_terms())?;
    Ok(Wide::new(terms, constant))
}

/// A multiple of an atom, as a form.
pub fn multiple(alloc: Global, by: i128, atom: Atom) -> Result<Wide, AllocError>
    ensures { IfOk result (λ form. form ≡ scaled by (of_atom atom)) }
{
    let mut terms = WideTerms::new(alloc);
    if by != 0 {
        terms.push(WideItem::new(atom, by))?;
    }
    Ok(Wide::new(terms, 0))
}
