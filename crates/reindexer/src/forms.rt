//! Single forms within the limits: each answers the normal form, or the limit that it breaks.

ghost use Rattle.std.specs.Prelude.{◌≡◌, ◌≤◌, ◌<◌, false, pos};
ghost use Rattle.affine_index.specs.Normal.{holds_var};
ghost use Rattle.affine_index.specs.Product.{product_of};
ghost use Rattle.affine_index.specs.Quotient.{quotient_of, remainder_of};
ghost use Rattle.affine_index.specs.Sum.{scaled, sum_of};
ghost use Rattle.reindexer.specs.Limited.{Answers, limited};
ghost use Rattle.std.specs.Prelude.{Ok};

use affine_index::{Aff, AffRefusal};
use std::alloc::Global;

/// An equal form.
pub fn copy(alloc: Global, form: &Aff) -> Result<Aff, AffRefusal>
    ensures { Answers (Ok form.now) result }
{
    let copy = form.copy(alloc)?;
    Ok(copy)
}

/// The sum.
pub fn sum(alloc: Global, a: &Aff, b: &Aff) -> Result<Aff, AffRefusal>
    ensures { Answers (limited (sum_of a.now b.now)) result }
{
    let form = a.add(alloc, b)?;
    form.told();
    Ok(form)
}

/// The product by a form without index variables.
pub fn product(alloc: Global, a: &Aff, b: &Aff) -> Result<Aff, AffRefusal>
    requires { holds_var b.now ≡ false }
    ensures { Answers (limited (product_of a.now b.now)) result }
{
    let form = a.mul(alloc, b)?;
    form.told();
    Ok(form)
}

/// A multiple.
pub fn multiple(alloc: Global, by: u32, form: &Aff) -> Result<Aff, AffRefusal>
    ensures { Answers (limited (scaled (pos by) form.now)) result }
{
    let form = form.scale(alloc, i64::from(by))?;
    form.told();
    Ok(form)
}

/// The floor of the quotient.
pub fn quotient(alloc: Global, form: &Aff, by: u32) -> Result<Aff, AffRefusal>
    requires positive { 0 < by }
    requires limit { by ≤ 2147483647 }
    ensures { Answers (limited (quotient_of form.now by)) result }
{
    let form = form.div(alloc, by)?;
    form.told();
    Ok(form)
}

/// What the quotient leaves.
pub fn remainder(alloc: Global, form: &Aff, by: u32) -> Result<Aff, AffRefusal>
    requires positive { 0 < by }
    requires limit { by ≤ 2147483647 }
    ensures { Answers (limited (remainder_of form.now by)) result }
{
    let form = form.rem(alloc, by)?;
    form.told();
    Ok(form)
}
