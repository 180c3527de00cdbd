//! Forms on the way to a goal, which have no limits of normal forms.

ghost use Rattle.std.specs.Prelude.{◌≡◌, ◌-◌, ◌<◌, ◌≤◌, ◌^◌, false, min, negsuc, pos, true, IfOk};
ghost use Rattle.affine_index.specs.Normal.{holds_var, is_ordered};
ghost use Rattle.affine_index.specs.Product.{product_of};
ghost use Rattle.affine_index.specs.Quotient.{quotient_of, remainder_of};
ghost use Rattle.affine_index.specs.Sum.{difference_of, scaled, sum_of};
ghost use Rattle.affine_index.specs.Wide.{norm};
ghost use Rattle.final_rules.specs.Goals.{kept_goal};
ghost use Rattle.reindexer.specs.Limited.{limited};
ghost use Rattle.std.specs.Int.RustNames.{unsigned_abs};

use crate::reads::kept;
use affine_index::Aff;
use affine_index::raw::{Wide, copied, copy_wide};
use std::alloc::{AllocError, Global};
use std::marker::Model;

/// The most that the numbers of a form make together.
const LARGEST: u128 = 1 << 64;

/// A form in order, whose numbers make at most 2^64 together: a larger one finds no room.
#[derive(Drop)]
pub struct Loose {
    form: Wide,
}

impl Model for Loose {
    ghost use Rattle.std.specs.Prelude.{◌≡◌, ◌≤◌, ◌^◌, true};
    ghost use Rattle.affine_index.specs.Normal.{is_ordered};
    ghost use Rattle.affine_index.specs.Wide.{norm};
    ghost use Rattle.affine_index.specs.declared.form.Items.{Items};
    ghost use Rattle.affine_index.specs.contracts.form.Items as e;
    ghost use Rattle.affine_index.specs.contracts.form.Atom as f;
    ghost use Rattle.std.specs.Coded.{codes};

    ghost Value = { Items };

    ghost coded = { Prim.hlevel (codes, e.the_row.coded, f.the_row.coded) };

    ghost view = { λ a. a.form };

    ghost invariant = { λ a. (is_ordered a.form ≡ true) × (norm a.form ≤ 2 ^ 64) };
}

/// The sizes of all numbers of a form, added. It stops at 2^128 - 1.
fn norm_of(form: &Wide) -> u128
    ensures { result ≡ min (norm form.now) (2 ^ 128 - 1) }
{
    let terms = form.terms();
    let mut total = form.constant().unsigned_abs();
    for at in 0..terms.len() {
        total = total.saturating_add(terms.get(at).coefficient().unsigned_abs());
    }
    total
}

impl Loose {
    /// A form whose numbers are found small enough.
    fn settled(form: Wide) -> Result<Loose, AllocError>
        requires { is_ordered form ≡ true }
        ensures { IfOk result (λ x. x ≡ form) }
    {
        if norm_of(&form) > LARGEST {
            return Err(AllocError);
        }
        Ok(Loose { form })
    }

    /// A normal form, to go on with.
    pub fn new(alloc: Global, form: &Aff) -> Result<Loose, AllocError>
        ensures { IfOk result (λ x. x ≡ form.now) }
    {
        let form = copied(alloc, form)?;
        Loose::settled(form)
    }

    /// The numbers and atoms.
    fn form(&self) -> &Wide
        ensures form { result.now ≡ self.now }
        ensures ordered { is_ordered result.now ≡ true }
        ensures small { norm result.now ≤ 2 ^ 64 }
    {
        &self.form
    }

    /// An equal form.
    pub fn copy(&self, alloc: Global) -> Result<Loose, AllocError>
        ensures { IfOk result (λ x. x ≡ self.now) }
    {
        let form = copy_wide(alloc, self.form())?;
        Loose::settled(form)
    }

    /// The sum.
    pub fn plus(&self, alloc: Global, other: &Loose) -> Result<Loose, AllocError>
        ensures { IfOk result (λ x. x ≡ sum_of self.now other.now) }
    {
        let a = copy_wide(alloc, self.form())?;
        let b = copy_wide(alloc, other.form())?;
        let total = affine_index::raw::sum(alloc, a, b)?;
        Loose::settled(total)
    }

    /// A multiple by a number of at most 2^31.
    fn scaled(&self, alloc: Global, by: i128) -> Result<Loose, AllocError>
        requires { unsigned_abs by ≤ 2 ^ 31 }
        ensures { IfOk result (λ x. x ≡ scaled by self.now) }
    {
        let form = copy_wide(alloc, self.form())?;
        let product = affine_index::raw::scaled(alloc, by, form)?;
        Loose::settled(product)
    }

    /// The difference.
    pub fn less(&self, alloc: Global, other: &Loose) -> Result<Loose, AllocError>
        ensures { IfOk result (λ x. x ≡ difference_of self.now other.now) }
    {
        let minus = other.scaled(alloc, -1)?;
        self.plus(alloc, &minus)
    }

    /// The product by a form without index variables.
    pub fn times(&self, alloc: Global, by: &Aff) -> Result<Loose, AllocError>
        requires { holds_var by.now ≡ false }
        ensures { IfOk result (λ x. x ≡ product_of self.now by.now) }
    {
        let by = copied(alloc, by)?;
        let product = affine_index::raw::product(alloc, self.form(), &by)?;
        Loose::settled(product)
    }

    /// The floor of the quotient.
    pub fn quotient(&self, alloc: Global, by: u32) -> Result<Loose, AllocError>
        requires positive { 0 < by }
        requires limit { by ≤ 2147483647 }
        ensures { IfOk result (λ x. x ≡ quotient_of self.now by) }
    {
        let form = copy_wide(alloc, self.form())?;
        let floor = affine_index::raw::quotient(alloc, form, by)?;
        Loose::settled(floor)
    }

    /// What the quotient leaves.
    pub fn remainder(&self, alloc: Global, by: u32) -> Result<Loose, AllocError>
        requires positive { 0 < by }
        requires limit { by ≤ 2147483647 }
        ensures { IfOk result (λ x. x ≡ remainder_of self.now by) }
    {
        let floor = self.quotient(alloc, by)?;
        let whole = floor.scaled(alloc, i128::from(by))?;
        self.less(alloc, &whole)
    }

    /// The form, where it is within the limits of normal forms.
    pub fn kept(&self, alloc: Global) -> Result<Option<Aff>, AllocError>
        ensures { IfOk result (λ o. o ≡ kept_goal (limited self.now)) }
    {
        let form = copy_wide(alloc, self.form())?;
        kept(alloc, form)
    }
}
