//! How many words count for a node.

ghost use Rattle.std.specs.Prelude.{◌≡◌, length, IsTrue};
ghost use Rattle.affine_index.specs.Condition.{all_scoped, cmp_form};
ghost use Rattle.affine_index.specs.Limited.{items_scoped};
ghost use Rattle.term_tree.specs.Modules.{extents_at, extents_scoped};
ghost use Rattle.atl_meaning.specs.Exact.{all_counted};
ghost use Rattle.atl_meaning.specs.Words.{any_large, any_large_comparison, at_least_one, first_of, is_large, too_big, word_product, words_at, words_of};

use crate::values::extent;
use affine_index::{Aff, Cmp, Cond};

/// From which magnitude on a form is large.
const LARGE: u64 = 1 << 63;

/// The most words of a node.
const MOST_WORDS: u64 = 1 << 24;

/// Whether the magnitude of a form at sizes of at least 1 is 2^63 or more.
pub fn is_large(form: &Aff, sizes: &[u64], vars: &[u64]) -> bool
    requires { IsTrue (items_scoped (length sizes.now) (length vars.now) form.now) }
    ensures { result ≡ is_large sizes.now vars.now form.now }
{
    form.mag(sizes, vars) >= LARGE
}

fn is_large_comparison(comparison: &Cmp, sizes: &[u64], vars: &[u64]) -> bool
    requires { IsTrue (items_scoped (length sizes.now) (length vars.now) (cmp_form comparison.now)) }
    ensures { result ≡ is_large sizes.now vars.now (cmp_form comparison.now) }
{
    match comparison {
        Cmp::Ge(form) | Cmp::Eq(form) => is_large(form, sizes, vars),
    }
}

/// Whether a comparison of the condition is large.
pub fn any_large_comparison(condition: &Cond, sizes: &[u64], vars: &[u64]) -> bool
    requires { IsTrue (all_scoped (length sizes.now) (length vars.now) condition.now.all) }
    ensures { result ≡ any_large_comparison sizes.now vars.now condition.now.all }
{
    for comparison in condition.all.as_slice() {
        if is_large_comparison(comparison, sizes, vars) {
            return true;
        }
    }
    false
}

/// Whether one of the extents is large.
fn any_large(extents: &[Aff], sizes: &[u64]) -> bool
    requires { IsTrue (extents_scoped (length sizes.now) extents.now) }
    ensures { result ≡ any_large sizes.now extents.now }
{
    for form in extents {
        if is_large(form, sizes, &[]) {
            return true;
        }
    }
    false
}

/// The product of the extents, each counted as at least 1, which ends at 2^64 - 1.
fn product(extents: &[Aff], sizes: &[u64]) -> u64
    requires { IsTrue (all_counted sizes.now extents.now) }
    ensures { result ≡ words_of (extents_at extents.now sizes.now) }
{
    let mut words: u64 = 1;
    for form in extents {
        words = words.saturating_mul(extent(form, sizes).max(1));
    }
    words
}

/// The words of a node of these extents, or 2^64 - 1 where one of them, or a form that stands in the node, is large.
/// The second sizes are the first, counted as at least 1.
pub fn words_at(extents: &[Aff], sizes: &[u64], floor: &[u64], large: bool) -> u64
    requires floor { floor.now ≡ at_least_one sizes.now }
    requires scoped { IsTrue (extents_scoped (length sizes.now) extents.now) }
    ensures { result ≡ words_at sizes.now extents.now large }
{
    if large || any_large(extents, floor) {
        return u64::MAX;
    }
    product(extents, sizes)
}

/// The first of two that there is.
pub fn first_of(first: Option<u64>, later: Option<u64>) -> Option<u64>
    ensures { result ≡ first_of first later }
{
    match first {
        Some(words) => Some(words),
        None => later,
    }
}

/// The words, where they are over 2^24; else what comes later.
pub fn too_big(words: u64, later: Option<u64>) -> Option<u64>
    ensures { result ≡ too_big words later }
{
    if words > MOST_WORDS {
        Some(words)
    } else {
        later
    }
}
