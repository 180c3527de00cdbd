//! Forms that rules make, of which only the whole is within the limits.

ghost use Rattle.std.specs.Prelude.{◌≡◌, ◌<◌, ◌≤◌, MatchResult};
ghost use Rattle.affine_index.specs.Normal.{Refused};
ghost use Rattle.path_focus.specs.Making.{in_tile, rest_below, tile_rest};

use affine_index::raw::{copied, quotient, scaled, sum, within_limits};
use affine_index::{Aff, AffRefusal};
use std::alloc::Global;

/// n - 1 - x.
pub fn rest_below(alloc: Global, n: &Aff, x: &Aff) -> Result<Aff, AffRefusal>
    ensures { MatchResult result (λ form. form ≡ rest_below n.now x.now) (Refused (rest_below n.now x.now)) }
{
    let one = Aff::literal(alloc, 1)?;
    let index = copied(alloc, x)?;
    let next = copied(alloc, &one)?;
    let taken = sum(alloc, index, next)?;
    let minus = scaled(alloc, -1, taken)?;
    let rows = copied(alloc, n)?;
    let total = sum(alloc, rows, minus)?;
    within_limits(alloc, total)
}

/// k*p + q.
pub fn in_tile(alloc: Global, k: u32, p: &Aff, q: &Aff) -> Result<Aff, AffRefusal>
    ensures { MatchResult result (λ form. form ≡ in_tile k p.now q.now) (Refused (in_tile k p.now q.now)) }
{
    let tile = copied(alloc, p)?;
    let begun = scaled(alloc, i128::from(k), tile)?;
    let inside = copied(alloc, q)?;
    let total = sum(alloc, begun, inside)?;
    within_limits(alloc, total)
}

/// k*D - n, where D tiles of k hold n.
pub fn tile_rest(alloc: Global, k: u32, n: &Aff) -> Result<Aff, AffRefusal>
    requires positive { 0 < k }
    requires limit { k ≤ 2147483647 }
    ensures { MatchResult result (λ form. form ≡ tile_rest k n.now) (Refused (tile_rest k n.now)) }
{
    let more = Aff::literal(alloc, i64::from(k - 1))?;
    let a = copied(alloc, n)?;
    let b = copied(alloc, &more)?;
    let last = sum(alloc, a, b)?;
    let tiles = quotient(alloc, last, k)?;
    let rows = scaled(alloc, i128::from(k), tiles)?;
    let c = copied(alloc, n)?;
    let minus = scaled(alloc, -1, c)?;
    let rest = sum(alloc, rows, minus)?;
    within_limits(alloc, rest)
}
