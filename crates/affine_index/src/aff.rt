//! Forms in normal form, within the limits.

ghost use Rattle.std.specs.Prelude.{◌^◌, min, true, ◌≡◌, ◌↔◌, ℕ, length, IfOk, IfSome, IsTrue, MatchResult};
ghost use Rattle.affine_index.specs.Form.{literal_form, of_atom, size_form, var_form};
ghost use Rattle.affine_index.specs.Limited.{items_scoped, limited_value};
ghost use Rattle.affine_index.specs.Magnitude.{magnitude};
ghost use Rattle.affine_index.specs.Normal.{Refused, coefficient_fits, is_normal, is_ordered};
ghost use Rattle.affine_index.specs.Put.{given};
ghost use Rattle.affine_index.specs.Value.{items_value};

use crate::copy::copy_items;
use crate::count::count_items;
use crate::form::{Atom, Item, Items};
use crate::limits::{coefficients_fit, narrowed};
use crate::mag::items_mag;
use crate::refusal::AffRefusal;
use crate::same::same_items;
use crate::scope::items_scoped;
use crate::value::items_value;
use crate::wide::Wide;
use std::alloc::{AllocError, Global};
use std::marker::Model;

/// The most atoms of a form, at all depths together.
const LONGEST: u64 = 128;

/// A form in normal form: equal entries are equal forms.
#[derive(Drop)]
pub struct Aff {
    items: Items,
}

impl Model for Aff {
    ghost use Rattle.std.specs.Prelude.{IsTrue};
    ghost use Rattle.affine_index.specs.Normal.{is_normal};
    ghost use Rattle.affine_index.specs.declared.form.Items.{Items};
    ghost use Rattle.affine_index.specs.contracts.form.Items as e;
    ghost use Rattle.affine_index.specs.contracts.form.Atom as f;
    ghost use Rattle.std.specs.Coded.{codes};

    ghost Value = { Items };

    ghost coded = { Prim.hlevel (codes, e.the_row.coded, f.the_row.coded) };

    ghost view = { λ a. a.items };

    ghost invariant = { λ a. IsTrue (is_normal a.items) };
}

impl Aff {
    /// A number, at most 2^40 in size.
    pub fn literal(alloc: Global, number: i64) -> Result<Aff, AffRefusal>
        requires { IsTrue (coefficient_fits number) }
        ensures { MatchResult result (λ r. r ≡ literal_form number) (λ e. e ≡ AffRefusal.Memory) }
    {
        let terms = sqlite_items::Items::new(alloc);
        Ok(Aff {
            items: Items {
                terms,
                constant: number,
            },
        })
    }

    /// The size of a number.
    pub fn size(alloc: Global, size: u32) -> Result<Aff, AffRefusal>
        ensures { MatchResult result (λ r. r ≡ size_form size) (λ e. e ≡ AffRefusal.Memory) }
    {
        let items = single(alloc, Atom::Size(size))?;
        Ok(Aff { items })
    }

    /// The index variable of a number, counted from the innermost.
    pub fn var(alloc: Global, var: u32) -> Result<Aff, AffRefusal>
        ensures { MatchResult result (λ r. r ≡ var_form var) (λ e. e ≡ AffRefusal.Memory) }
    {
        let items = single(alloc, Atom::Var(var))?;
        Ok(Aff { items })
    }

    /// An equal form.
    pub fn copy(&self, alloc: Global) -> Result<Aff, AffRefusal>
        ensures { MatchResult result (λ copy. copy ≡ self.now) (λ e. e ≡ AffRefusal.Memory) }
    {
        let items = copy_items(alloc, &self.items)?;
        Ok(Aff { items })
    }

    /// Whether the two are equal.
    pub fn same(&self, other: &Aff) -> bool
        ensures { IsTrue result ↔ (self.now ≡ other.now) }
    {
        same_items(&self.items, &other.items)
    }

    /// The items in order and the constant.
    pub fn items(&self) -> &Items
        ensures form { result.now ≡ self.now }
        ensures normal { is_normal result.now ≡ true }
    {
        &self.items
    }

    /// Tells a proof that the form is normal, and does nothing.
    pub fn told(&self)
        ensures { is_normal self.now ≡ true }
    {
        let _ = &self.items;
    }

    /// Whether each number of a size is below `sizes` and each number of a variable below `vars`, at every depth. Linear in the atoms.
    pub fn is_scoped(&self, sizes: usize, vars: usize) -> bool
        ensures { result ≡ items_scoped sizes vars self.now }
    {
        items_scoped(self.items(), sizes, vars)
    }

    /// The value where size s is `sizes[s]` and variable v is `vars[v]`, or None where a partial result, the coefficient of an item before its factors, is 2^120 or more in size.
    pub fn value(&self, sizes: &[u64], vars: &[u64]) -> Option<i128>
        requires { IsTrue (items_scoped (length sizes.now) (length vars.now) self.now) }
        ensures limited { result ≡ limited_value sizes.now vars.now self.now }
        ensures value { IfSome result (λ x. x ≡ items_value sizes.now vars.now self.now) }
    {
        items_value(&self.items, sizes, vars)
    }

    /// The magnitude where size s has `maxima[s]` and variable v has `vars[v]`, which stops at 2^63.
    pub fn mag(&self, maxima: &[u64], vars: &[u64]) -> u64
        requires { IsTrue (items_scoped (length maxima.now) (length vars.now) self.now) }
        ensures { result ≡ min (magnitude maxima.now vars.now self.now) (2 ^ 63) }
    {
        items_mag(&self.items, maxima, vars)
    }
}

/// Tells a proof that each form is normal, and does nothing else.
pub fn all_told(forms: &[Aff])
    ensures { (v : ℕ) → is_normal (given forms.now v) ≡ true }
{
    for form in forms {
        form.told();
    }
}

/// A form of one atom.
fn single(alloc: Global, atom: Atom) -> Result<Items, AllocError>
    ensures { IfOk result (λ r. r ≡ of_atom atom) }
{
    let mut terms = sqlite_items::Items::new(alloc);
    terms.push(Item {
        atom,
        coefficient: 1,
    })?;
    Ok(Items { terms, constant: 0 })
}

/// A form whose numbers and atoms are found within the limits.
pub fn within_limits(alloc: Global, form: Wide) -> Result<Aff, AffRefusal>
    requires { is_ordered form ≡ true }
    ensures { MatchResult result (λ r. r ≡ form) (λ e. Refused form e) }
{
    if !coefficients_fit(&form) {
        return Err(AffRefusal::CoefficientTooLarge);
    }
    let items = narrowed(alloc, form)?;
    if count_items(&items) > LONGEST {
        return Err(AffRefusal::IndexTooLong);
    }
    Ok(Aff { items })
}
