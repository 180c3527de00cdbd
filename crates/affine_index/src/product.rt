//! Products of forms, multiplied out, without limits.
#![tactic(auto, using(crate::proofs::ProductLaws::product_laws))]

ghost use Rattle.std.specs.Prelude.{◌≡◌, ◌+◌, ◌*◌, ◌^◌, ◌<◌, [], ◌∷◌, ◌++◌, IfOk, OnOk};
ghost use Rattle.std.specs.Int.RustNames.{unsigned_abs};
ghost use Rattle.affine_index.specs.Form.{of_atom};
ghost use Rattle.affine_index.specs.Product.{atom_product, atom_times, factors_of, merged_factors, product_of};
ghost use Rattle.affine_index.specs.Sum.{scaled, sum_of};
ghost use Rattle.affine_index.specs.Wide.{norm};

use crate::copy::copy_atom;
use crate::form::Atom;
use crate::multiple::{copy_wide, multiple, scaled, sum};
use crate::order::order_atoms;
use crate::wide::{Wide, WideItem};
use std::alloc::{AllocError, Global};
use std::cmp::Ordering;
use std::slice;

/// The factors of an atom, which is its own where it is no product.
fn factors_of(atom: &Atom) -> &[Atom]
    ensures { result.now ≡ factors_of atom.now }
{
    match atom {
        Atom::Mul(factors) => factors.as_slice(),
        _ => slice::from_ref(atom),
    }
}

fn push_copy(
    alloc: Global,
    atoms: &mut sqlite_items::Items<Atom>,
    atom: &Atom,
) -> Result<(), AllocError>
    ensures { OnOk result (atoms.new ≡ atoms.old ++ atom.now ∷ []) }
{
    let copy = copy_atom(alloc, atom)?;
    atoms.push(copy)
}

fn push_copies(
    alloc: Global,
    atoms: &mut sqlite_items::Items<Atom>,
    more: &[Atom],
) -> Result<(), AllocError>
    ensures { OnOk result (atoms.new ≡ atoms.old ++ more.now) }
{
    for atom in more {
        push_copy(alloc, atoms, atom)?;
    }
    Ok(())
}

/// Both lists of factors, in order.
fn merged_factors(
    alloc: Global,
    a: &[Atom],
    b: &[Atom],
) -> Result<sqlite_items::Items<Atom>, AllocError>
    ensures { IfOk result (λ factors. factors ≡ merged_factors a.now b.now) }
{
    let mut factors = sqlite_items::Items::new(alloc);
    let mut i = 0;
    let mut j = 0;
    while i < a.len() && j < b.len() {
        match order_atoms(&a[i], &b[j]) {
            Ordering::Greater => {
                push_copy(alloc, &mut factors, &b[j])?;
                j += 1;
            }
            Ordering::Less | Ordering::Equal => {
                push_copy(alloc, &mut factors, &a[i])?;
                i += 1;
            }
        }
    }
    push_copies(alloc, &mut factors, &a[i..])?;
    push_copies(alloc, &mut factors, &b[j..])?;
    Ok(factors)
}

/// The product of two atoms.
fn atom_product(alloc: Global, a: &Atom, b: &Atom) -> Result<Atom, AllocError>
    ensures { IfOk result (λ product. product ≡ atom_product a.now b.now) }
{
    let factors = merged_factors(alloc, factors_of(a), factors_of(b))?;
    Ok(Atom::Mul(factors))
}

/// A form and an atom times an item.
fn plus_atom(alloc: Global, total: Wide, atom: &Atom, item: &WideItem) -> Result<Wide, AllocError>
    requires { norm total + unsigned_abs item.now.coefficient < 2 ^ 127 }
    ensures { IfOk result (λ form. form ≡ sum_of total (scaled item.now.coefficient (of_atom (atom_product atom.now item.now.atom)))) }
{
    let atoms = atom_product(alloc, atom, item.atom())?;
    let product = multiple(alloc, item.coefficient(), atoms)?;
    sum(alloc, total, product)
}

/// An atom times a form.
fn atom_times(alloc: Global, atom: &Atom, form: &Wide) -> Result<Wide, AllocError>
    requires { norm form.now < 2 ^ 127 }
    ensures { IfOk result (λ product. product ≡ atom_times atom.now form.now) }
{
    let mut total = multiple(alloc, form.constant(), copy_atom(alloc, atom)?)?;
    for at in 0..form.terms().len() {
        let item = form.terms().get(at);
        total = plus_atom(alloc, total, atom, item)?;
    }
    Ok(total)
}

/// A form and an item times a form.
fn plus_item(alloc: Global, total: Wide, item: &WideItem, form: &Wide) -> Result<Wide, AllocError>
    requires room { norm total + unsigned_abs item.now.coefficient * norm form.now < 2 ^ 127 }
    requires second { norm form.now < 2 ^ 127 }
    ensures { IfOk result (λ sum. sum ≡ sum_of total (scaled item.now.coefficient (atom_times item.now.atom form.now))) }
{
    let times = atom_times(alloc, item.atom(), form)?;
    let product = scaled(alloc, item.coefficient(), times)?;
    sum(alloc, total, product)
}

/// The product of two forms: a sum for each pair of items.
pub fn product(alloc: Global, a: &Wide, b: &Wide) -> Result<Wide, AllocError>
    requires room { norm a.now * norm b.now < 2 ^ 127 }
    requires second { norm b.now < 2 ^ 127 }
    ensures { IfOk result (λ product. product ≡ product_of a.now b.now) }
{
    let mut total = scaled(alloc, a.constant(), copy_wide(alloc, b)?)?;
    for at in 0..a.terms().len() {
        let item = a.terms().get(at);
        total = plus_item(alloc, total, item, b)?;
    }
    Ok(total)
}
