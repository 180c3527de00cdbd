//! Sums, differences, multiples, products and floor quotients of forms.
#![tactic(auto)]

ghost use Rattle.std.specs.Prelude.{true, false, ◌≡◌, ◌&&◌, ◌<◌, ◌≤◌, pos, ◌+ℤ◌, ◌*ℤ◌, ℕ, List, IfOk, OnOk, MatchResult};
ghost use Rattle.affine_index.specs.Normal.{Refused, RefusedProduct, holds_var, is_normal};
ghost use Rattle.std.specs.Int.{int_div_euclid, int_rem_euclid};
ghost use Rattle.affine_index.specs.Product.{product_of};
ghost use Rattle.affine_index.specs.Quotient.{quotient_of, remainder_of};
ghost use Rattle.affine_index.specs.Sum.{difference_of, scaled, sum_of};
ghost use Rattle.affine_index.specs.Value.{items_value};

use crate::aff::{Aff, within_limits};
use crate::multiple::{scaled, sum, widened};
use crate::product::product;
use crate::quotient::quotient;
use crate::refusal::AffRefusal;
use crate::vars::holds_var;
use crate::wide::Wide;
use std::alloc::{AllocError, Global};

/// A copy of a form, to go on with.
pub fn copied(alloc: Global, form: &Aff) -> Result<Wide, AllocError>
    ensures same { IfOk result (λ copy. copy ≡ form.now) }
    ensures normal { is_normal form.now ≡ true }
{
    widened(alloc, form.items())
}

fn both_hold(a: &Aff, b: &Aff) -> bool
    ensures { result ≡ (holds_var a.now && holds_var b.now) }
{
    holds_var(a.items()) && holds_var(b.items())
}

impl Aff {
    /// The form with the sum of the values.
    pub fn add(&self, alloc: Global, other: &Aff) -> Result<Aff, AffRefusal>
        ensures form { MatchResult result (λ r. r ≡ sum_of self.now other.now) (λ e. Refused (sum_of self.now other.now) e) }
        ensures value { IfOk result (λ r. (s v : List ℕ) → items_value s v r ≡ (items_value s v self.now +ℤ items_value s v other.now)) }
    {
        let a = copied(alloc, self)?;
        let b = copied(alloc, other)?;
        let total = sum(alloc, a, b)?;
        within_limits(alloc, total)
    }

    /// The form with the difference of the values.
    pub fn sub(&self, alloc: Global, other: &Aff) -> Result<Aff, AffRefusal>
        ensures form { MatchResult result (λ r. r ≡ difference_of self.now other.now) (λ e. Refused (difference_of self.now other.now) e) }
        ensures value { IfOk result (λ r. (s v : List ℕ) → (items_value s v r +ℤ items_value s v other.now) ≡ items_value s v self.now) }
    {
        let a = copied(alloc, self)?;
        let b = copied(alloc, other)?;
        let minus = scaled(alloc, -1, b)?;
        let total = sum(alloc, a, minus)?;
        within_limits(alloc, total)
    }

    /// The form with the value times a number.
    pub fn scale(&self, alloc: Global, by: i64) -> Result<Aff, AffRefusal>
        ensures form { MatchResult result (λ r. r ≡ scaled by self.now) (λ e. Refused (scaled by self.now) e) }
        ensures value { IfOk result (λ r. (s v : List ℕ) → items_value s v r ≡ (by *ℤ items_value s v self.now)) }
    {
        let form = copied(alloc, self)?;
        let product = scaled(alloc, i128::from(by), form)?;
        within_limits(alloc, product)
    }

    /// The form with the product of the values, or NotAffine where both hold an index variable.
    pub fn mul(&self, alloc: Global, other: &Aff) -> Result<Aff, AffRefusal>
        ensures form { MatchResult result (λ r. r ≡ product_of self.now other.now) (λ e. RefusedProduct self.now other.now (product_of self.now other.now) e) }
        ensures affine { OnOk result ((holds_var self.now && holds_var other.now) ≡ false) }
        ensures value { IfOk result (λ r. (s v : List ℕ) → items_value s v r ≡ (items_value s v self.now *ℤ items_value s v other.now)) }
    {
        if both_hold(self, other) {
            return Err(AffRefusal::NotAffine);
        }
        let a = copied(alloc, self)?;
        let b = copied(alloc, other)?;
        let total = product(alloc, &a, &b)?;
        within_limits(alloc, total)
    }

    /// The form with the floor of the value divided by a number.
    pub fn div(&self, alloc: Global, divisor: u32) -> Result<Aff, AffRefusal>
        requires positive { 0 < divisor }
        requires limit { divisor ≤ 2147483647 }
        ensures form { MatchResult result (λ r. r ≡ quotient_of self.now divisor) (λ e. Refused (quotient_of self.now divisor) e) }
        ensures value { IfOk result (λ r. (s v : List ℕ) → items_value s v r ≡ int_div_euclid (items_value s v self.now) (pos divisor)) }
    {
        let form = copied(alloc, self)?;
        let floor = quotient(alloc, form, divisor)?;
        within_limits(alloc, floor)
    }

    /// The form with what the floor of the value divided by a number leaves, in 0..divisor-1.
    pub fn rem(&self, alloc: Global, divisor: u32) -> Result<Aff, AffRefusal>
        requires positive { 0 < divisor }
        requires limit { divisor ≤ 2147483647 }
        ensures form { MatchResult result (λ r. r ≡ remainder_of self.now divisor) (λ e. Refused (remainder_of self.now divisor) e) }
        ensures value { IfOk result (λ r. (s v : List ℕ) → items_value s v r ≡ int_rem_euclid (items_value s v self.now) (pos divisor)) }
    {
        let form = copied(alloc, self)?;
        let floor = quotient(alloc, copied(alloc, self)?, divisor)?;
        let whole = scaled(alloc, i128::from(divisor), floor)?;
        let minus = scaled(alloc, -1, whole)?;
        let rest = sum(alloc, form, minus)?;
        within_limits(alloc, rest)
    }
}
