//! Floor quotients of forms, without limits.
#![tactic(auto, using(crate::proofs::QuotientLaws::quotient_laws))]

ghost use Rattle.std.specs.Prelude.{◌≡◌, ◌+◌, ◌^◌, ◌<◌, ◌++◌, pos, IfOk};
ghost use Rattle.std.specs.Int.{int_div_euclid, int_rem_euclid};
ghost use Rattle.affine_index.specs.Quotient.{quotient_atom, quotient_of, rest_terms, whole_terms};
ghost use Rattle.affine_index.specs.Wide.{norm};

use crate::copy::copy_atom;
use crate::form::{Atom, Item, Items};
use crate::multiple::{multiple, sum};
use crate::wide::{Wide, WideItem, WideTerms};
use sqlite_items::Boxed;
use std::alloc::{AllocError, Global};

fn floor(number: i128, divisor: u32) -> i128
    requires { 0 < divisor }
    ensures { result ≡ int_div_euclid number (pos divisor) }
{
    number.div_euclid(i128::from(divisor))
}

fn remainder(number: i128, divisor: u32) -> i64
    requires { 0 < divisor }
    ensures { result ≡ int_rem_euclid number (pos divisor) }
{
    number.rem_euclid(i128::from(divisor)) as i64
}

/// How often the divisor goes into each coefficient.
fn whole_terms(alloc: Global, terms: &WideTerms, divisor: u32) -> Result<WideTerms, AllocError>
    requires { 0 < divisor }
    ensures { IfOk result (λ items. items ≡ whole_terms divisor terms.now) }
{
    let mut items = WideTerms::new(alloc);
    for at in 0..terms.len() {
        let item = terms.get(at);
        let coefficient = floor(item.coefficient(), divisor);
        if coefficient != 0 {
            let atom = copy_atom(alloc, item.atom())?;
            items.push(WideItem::new(atom, coefficient))?;
        }
    }
    Ok(items)
}

/// What the divisor leaves of each coefficient. Moves the atoms.
fn rest_terms(
    alloc: Global,
    terms: WideTerms,
    divisor: u32,
) -> Result<sqlite_items::Items<Item<Atom>>, AllocError>
    requires { 0 < divisor }
    ensures { IfOk result (λ items. items ≡ rest_terms divisor terms) }
{
    let mut rest = terms;
    let mut items = sqlite_items::Items::new(alloc);
    while let Some(item) = rest.take_first() {
        let coefficient = remainder(item.coefficient(), divisor);
        if coefficient != 0 {
            let atom = item.into_atom();
            items.push(Item { atom, coefficient })?;
        }
    }
    Ok(items)
}

/// A form divided as an atom, which is 0 where the form is a constant.
fn quotient_atom(
    alloc: Global,
    terms: sqlite_items::Items<Item<Atom>>,
    constant: i64,
    divisor: u32,
) -> Result<Wide, AllocError>
    ensures { IfOk result (λ form. form ≡ quotient_atom terms constant divisor) }
{
    if terms.is_empty() {
        return Ok(Wide::new(WideTerms::new(alloc), 0));
    }
    let dividend = Boxed::new(alloc, Items { terms, constant })?;
    multiple(alloc, 1, Atom::Div(dividend, divisor))
}

/// The floor of a form divided by a number.
pub fn quotient(alloc: Global, form: Wide, divisor: u32) -> Result<Wide, AllocError>
    requires positive { 0 < divisor }
    requires room { norm form + 1 < 2 ^ 127 }
    ensures { IfOk result (λ quotient. quotient ≡ quotient_of form divisor) }
{
    let whole = whole_terms(alloc, form.terms(), divisor)?;
    let whole = Wide::new(whole, floor(form.constant(), divisor));
    let constant = remainder(form.constant(), divisor);
    let rest = rest_terms(alloc, form.into_terms(), divisor)?;
    let atom = quotient_atom(alloc, rest, constant, divisor)?;
    sum(alloc, whole, atom)
}
