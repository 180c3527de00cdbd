//! Forms put for variables, all at once, without limits.
#![tactic(auto, using(crate::proofs::PutLaws::put_laws))]

ghost use Rattle.std.specs.Prelude.{true, ◌≡◌, ◌≤◌, ◌<◌, ◌+◌, ◌*◌, ◌^◌, IfOk, IsTrue, map};
ghost use Rattle.std.specs.Int.RustNames.{unsigned_abs};
ghost use Rattle.affine_index.specs.Count.{atom_count, terms_count, total};
ghost use Rattle.affine_index.specs.Every.{terms_every};
ghost use Rattle.affine_index.specs.Form.{literal_form};
ghost use Rattle.affine_index.specs.Normal.{atom_good, atom_is_ordered, is_normal, coefficient_fits, items_good, terms_fit};
ghost use Rattle.affine_index.specs.declared.form.Atom.TheVariants.{Mul};
ghost use Rattle.affine_index.specs.Product.{product_of, product_of_all};
ghost use Rattle.affine_index.specs.Put.{given, moved, one_given, put_all, put_atom, put_terms};
ghost use Rattle.affine_index.specs.Puts.{AllNormal, what_put};
ghost use Rattle.affine_index.specs.Sum.{scaled, sum_of};
ghost use Rattle.affine_index.specs.Wide.{norm};

use crate::aff::Aff;
use crate::form::{Atom, Item, Items};
use crate::multiple::{multiple, scaled, sum, widened};
use crate::product::product;
use crate::quotient::quotient;
use crate::wide::{Wide, WideTerms};
use std::alloc::{AllocError, Global};
use std::cmp::Ordering;

/// What is put for variables: a form for each, one for one of them, or greater numbers from one on.
#[derive(Drop)]
pub enum Put<'a> {
    Given(&'a [Aff]),
    One(u32, &'a Aff),
    Moved(u32, u32),
}

fn put_given(alloc: Global, by: &[Aff], var: u32) -> Result<Wide, AllocError>
    ensures { IfOk result (λ form. form ≡ given by.now var) }
{
    let at = var as usize;
    if at < by.len() {
        return widened(alloc, by[at].items());
    }
    Ok(Wide::new(WideTerms::new(alloc), 0))
}

fn put_one(alloc: Global, at: u32, by: &Aff, var: u32) -> Result<Wide, AllocError>
    ensures { IfOk result (λ form. form ≡ one_given at by.now var) }
{
    match var.cmp(&at) {
        Ordering::Less => multiple(alloc, 1, Atom::Var(var)),
        Ordering::Equal => widened(alloc, by.items()),
        Ordering::Greater => multiple(alloc, 1, Atom::Var(var - 1)),
    }
}

fn put_moved(alloc: Global, from: u32, by: u32, var: u32) -> Result<Wide, AllocError>
    ensures { IfOk result (λ form. form ≡ moved from by var) }
{
    if var < from {
        return multiple(alloc, 1, Atom::Var(var));
    }
    match var.checked_add(by) {
        Some(more) => multiple(alloc, 1, Atom::Var(more)),
        // The condition of `shift` rules this out.
        None => Err(AllocError),
    }
}

fn put_var(alloc: Global, by: &Put, var: u32) -> Result<Wide, AllocError>
    ensures { IfOk result (λ form. form ≡ what_put by.now var) }
{
    match by {
        Put::Given(forms) => put_given(alloc, forms, var),
        Put::One(at, form) => put_one(alloc, *at, form, var),
        Put::Moved(from, more) => put_moved(alloc, *from, *more, var),
    }
}

#[cycle(put)]
fn put_atom(alloc: Global, by: &Put, atom: &Atom) -> Result<Wide, AllocError>
    requires normal { AllNormal by.now }
    requires ordered { atom_is_ordered atom.now ≡ true }
    requires short { atom_count atom.now ≤ 128 }
    ensures { IfOk result (λ form. form ≡ put_atom (what_put by.now) atom.now) }
{
    match atom {
        Atom::Size(size) => multiple(alloc, 1, Atom::Size(*size)),
        Atom::Var(var) => put_var(alloc, by, *var),
        Atom::Div(items, divisor) => {
            let form = put_items(alloc, by, items.get())?;
            quotient(alloc, form, *divisor)
        }
        Atom::Mul(factors) => put_factors(alloc, by, factors.as_slice()),
    }
}

/// A product. Ends both factors.
fn times(alloc: Global, form: Wide, forms: Wide) -> Result<Wide, AllocError>
    requires room { norm form * norm forms < 2 ^ 127 }
    requires second { norm forms < 2 ^ 127 }
    ensures { IfOk result (λ product. product ≡ product_of form forms) }
{
    product(alloc, &form, &forms)
}

/// A sum with a multiple of a form.
fn plus(alloc: Global, total: Wide, coefficient: i64, form: Wide) -> Result<Wide, AllocError>
    requires product { unsigned_abs coefficient * norm form < 2 ^ 127 }
    requires room { norm total + norm (scaled coefficient form) < 2 ^ 127 }
    ensures { IfOk result (λ sum. sum ≡ sum_of total (scaled coefficient form)) }
{
    let product = scaled(alloc, i128::from(coefficient), form)?;
    sum(alloc, total, product)
}

#[cycle(put)]
fn put_factors(alloc: Global, by: &Put, factors: &[Atom]) -> Result<Wide, AllocError>
    requires normal { AllNormal by.now }
    requires ordered { atom_is_ordered (Mul factors.now) ≡ true }
    requires short { total (map atom_count factors.now) ≤ 128 }
    ensures { IfOk result (λ form. form ≡ product_of_all (map (put_atom (what_put by.now)) factors.now)) }
{
    let mut forms = Wide::new(WideTerms::new(alloc), 1);
    let mut left = factors.len();
    while left > 0 {
        left -= 1;
        let form = put_atom(alloc, by, &factors[left])?;
        forms = times(alloc, form, forms)?;
    }
    Ok(forms)
}

#[cycle(put)]
fn put_terms(
    alloc: Global,
    by: &Put,
    terms: &[Item<Atom>],
    constant: i64,
) -> Result<Wide, AllocError>
    requires normal { AllNormal by.now }
    requires ordered { terms_every atom_good items_good terms.now ≡ true }
    requires fits { terms_fit terms.now ≡ true }
    requires constant_fits { coefficient_fits constant ≡ true }
    requires short { terms_count terms.now ≤ 128 }
    ensures { IfOk result (λ form. form ≡ put_terms (what_put by.now) terms.now (literal_form constant)) }
{
    let mut total = Wide::new(WideTerms::new(alloc), i128::from(constant));
    for term in terms {
        let form = put_atom(alloc, by, &term.atom)?;
        total = plus(alloc, total, term.coefficient, form)?;
    }
    Ok(total)
}

/// A form with what is put for its variables.
#[cycle(put)]
pub fn put_items(alloc: Global, by: &Put, items: &Items) -> Result<Wide, AllocError>
    requires normal { AllNormal by.now }
    requires form { is_normal items.now ≡ true }
    ensures { IfOk result (λ form. form ≡ put_all (what_put by.now) items.now) }
{
    put_terms(alloc, by, items.terms.as_slice(), items.constant)
}
