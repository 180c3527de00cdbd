//! The limits on coefficients, and forms within them.
#![tactic(auto, using(crate::proofs::LimitLaws::limit_laws))]

ghost use Rattle.std.specs.Prelude.{◌≡◌, IfOk, IsTrue};
ghost use Rattle.affine_index.specs.Normal.{coefficient_fits, coefficients_fit, terms_fit};

use crate::form::{Atom, Item, Items};
use crate::wide::{Wide, WideTerms};
use std::alloc::{AllocError, Global};

const LARGEST: u128 = 1 << 40;

fn coefficient_fits(coefficient: i128) -> bool
    ensures { result ≡ coefficient_fits coefficient }
{
    coefficient.unsigned_abs() <= LARGEST
}

fn terms_fit(terms: &WideTerms) -> bool
    ensures { result ≡ terms_fit terms.now }
{
    for at in 0..terms.len() {
        if !coefficient_fits(terms.get(at).coefficient()) {
            return false;
        }
    }
    true
}

/// Whether each coefficient and the constant are at most 2^40 in size.
pub fn coefficients_fit(form: &Wide) -> bool
    ensures { result ≡ coefficients_fit form.now }
{
    terms_fit(form.terms()) && coefficient_fits(form.constant())
}

fn narrow(number: i128) -> i64
    requires { IsTrue (coefficient_fits number) }
    ensures { result ≡ number }
{
    number as i64
}

fn narrow_terms(
    alloc: Global,
    terms: WideTerms,
) -> Result<sqlite_items::Items<Item<Atom>>, AllocError>
    requires { IsTrue (terms_fit terms) }
    ensures { IfOk result (λ items. items ≡ terms) }
{
    let mut rest = terms;
    let mut items = sqlite_items::Items::new(alloc);
    while let Some(item) = rest.take_first() {
        let coefficient = narrow(item.coefficient());
        let atom = item.into_atom();
        items.push(Item { atom, coefficient })?;
    }
    Ok(items)
}

/// The same form as items. Moves the atoms.
pub fn narrowed(alloc: Global, form: Wide) -> Result<Items, AllocError>
    requires { IsTrue (coefficients_fit form) }
    ensures { IfOk result (λ items. items ≡ form) }
{
    let constant = narrow(form.constant());
    let terms = narrow_terms(alloc, form.into_terms())?;
    Ok(Items { terms, constant })
}
