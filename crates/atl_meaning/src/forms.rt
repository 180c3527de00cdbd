//! Extents as forms: those that each operator gives, where they are within the limits of forms.

ghost use Rattle.std.specs.Prelude.{◌≡◌, ◌<◌, ◌≤◌, true, Ok, IfOk, IsOkUnless};
ghost use Rattle.shape_rules.specs.Scopes.{each_free};
ghost use Rattle.atl_meaning.specs.Forms.{chunked_forms, concatenated_forms, each_within, flattened_forms, lengthened_forms, shortened_forms, transposed_forms};
ghost use Rattle.atl_meaning.specs.Lists.{rest_of};

use affine_index::{Aff, AffRefusal};
use shape_rules::extents::{in_front, take_first, tiles};
use sqlite_items::Items;
use std::alloc::{AllocError, Global};

/// A form that is refused for want of memory alone.
fn made(form: Result<Aff, AffRefusal>) -> Result<Aff, AllocError>
    requires { IsOkUnless form AffRefusal.Memory }
    ensures { IfOk result (λ f. form ≡ Ok f) }
{
    match form {
        Ok(form) => Ok(form),
        Err(_) => Err(AllocError),
    }
}

/// The extents of a row.
pub fn without_first(extents: Items<Aff>) -> Items<Aff>
    ensures { result ≡ rest_of extents }
{
    let mut extents = extents;
    let _ = take_first(&mut extents);
    extents
}

/// The extents of rows of a, then of b.
pub fn concatenated(alloc: Global, a: Items<Aff>, b: Items<Aff>) -> Result<Items<Aff>, AllocError>
    requires { each_within (concatenated_forms a b) ≡ true }
    ensures { IfOk result (λ ns. ns ≡ concatenated_forms a b) }
{
    let mut a = a;
    let mut b = b;
    match (take_first(&mut a), take_first(&mut b)) {
        (Some(n), Some(m)) => in_front(alloc, made(n.add(alloc, &m))?, a),
        (Some(_), None) | (None, Some(_)) | (None, None) => Ok(Items::new(alloc)),
    }
}

/// The extents of the rows of the rows.
pub fn flattened(alloc: Global, extents: Items<Aff>) -> Result<Items<Aff>, AllocError>
    requires within { each_within (flattened_forms extents) ≡ true }
    requires free { each_free extents ≡ true }
    ensures { IfOk result (λ ns. ns ≡ flattened_forms extents) }
{
    let mut rest = extents;
    let Some(n) = take_first(&mut rest) else {
        return Ok(Items::new(alloc));
    };
    let Some(m) = take_first(&mut rest) else {
        return Ok(Items::new(alloc));
    };
    in_front(alloc, made(n.mul(alloc, &m))?, rest)
}

/// The extents of the columns.
pub fn transposed(alloc: Global, extents: Items<Aff>) -> Result<Items<Aff>, AllocError>
    ensures { IfOk result (λ ns. ns ≡ transposed_forms extents) }
{
    let mut rest = extents;
    let Some(n) = take_first(&mut rest) else {
        return Ok(Items::new(alloc));
    };
    let Some(m) = take_first(&mut rest) else {
        return Ok(Items::new(alloc));
    };
    let others = in_front(alloc, n, rest)?;
    in_front(alloc, m, others)
}

/// The extents of chunks of k rows.
pub fn chunked(alloc: Global, k: u32, extents: Items<Aff>) -> Result<Items<Aff>, AllocError>
    requires positive { 0 < k }
    requires limit { k ≤ 2147483647 }
    requires within { each_within (chunked_forms k extents) ≡ true }
    ensures { IfOk result (λ ns. ns ≡ chunked_forms k extents) }
{
    let mut rest = extents;
    let Some(n) = take_first(&mut rest) else {
        return Ok(Items::new(alloc));
    };
    let count = made(tiles(alloc, k, &n))?;
    let rows = made(Aff::literal(alloc, i64::from(k)))?;
    let others = in_front(alloc, rows, rest)?;
    in_front(alloc, count, others)
}

/// The extents without so many rows.
pub fn shortened(alloc: Global, count: &Aff, extents: Items<Aff>) -> Result<Items<Aff>, AllocError>
    requires { each_within (shortened_forms count.now extents) ≡ true }
    ensures { IfOk result (λ ns. ns ≡ shortened_forms count.now extents) }
{
    let mut rest = extents;
    let Some(n) = take_first(&mut rest) else {
        return Ok(Items::new(alloc));
    };
    in_front(alloc, made(n.sub(alloc, count))?, rest)
}

/// The extents with so many more rows.
pub fn lengthened(alloc: Global, count: &Aff, extents: Items<Aff>) -> Result<Items<Aff>, AllocError>
    requires { each_within (lengthened_forms count.now extents) ≡ true }
    ensures { IfOk result (λ ns. ns ≡ lengthened_forms count.now extents) }
{
    let mut rest = extents;
    let Some(n) = take_first(&mut rest) else {
        return Ok(Items::new(alloc));
    };
    in_front(alloc, made(n.add(alloc, count))?, rest)
}
