//! Values of index expressions at the sizes, where no partial result is 2^120 or more in size and no extent 2^63 or more.

ghost use Rattle.std.specs.Prelude.{◌≡◌, ◌<◌, ◌^◌, IsTrue};
ghost use Rattle.affine_index.specs.Condition.{all_hold, cmp_form, cmp_holds};
ghost use Rattle.affine_index.specs.Value.{items_value};
ghost use Rattle.atl_meaning.specs.Exact.{all_exact, is_counted, is_exact};
ghost use Rattle.term_tree.specs.Meaning.{count_of, extent, word_of};

use affine_index::{Aff, Cmp, Cond};

/// The value at sizes and index variables.
pub fn value(form: &Aff, sizes: &[u64], vars: &[u64]) -> i128
    requires { IsTrue (is_exact sizes.now vars.now form.now) }
    ensures { result ≡ items_value sizes.now vars.now form.now }
{
    form.told();
    match form.value(sizes, vars) {
        Some(value) => value,
        None => unreachable!(),
    }
}

fn comparison_holds(comparison: &Cmp, sizes: &[u64], vars: &[u64]) -> bool
    requires { IsTrue (is_exact sizes.now vars.now (cmp_form comparison.now)) }
    ensures { result ≡ cmp_holds sizes.now vars.now comparison.now }
{
    match comparison {
        Cmp::Ge(form) => value(form, sizes, vars) >= 0,
        Cmp::Eq(form) => value(form, sizes, vars) == 0,
    }
}

/// Whether a condition holds.
pub fn holds(condition: &Cond, sizes: &[u64], vars: &[u64]) -> bool
    requires { IsTrue (all_exact sizes.now vars.now condition.now.all) }
    ensures { result ≡ all_hold sizes.now vars.now condition.now.all }
{
    for comparison in condition.all.as_slice() {
        if !comparison_holds(comparison, sizes, vars) {
            return false;
        }
    }
    true
}

/// A whole number modulo 2^64.
pub fn word(value: i128) -> u64
    ensures { result ≡ word_of value }
{
    value.rem_euclid(1 << 64) as u64
}

/// A whole number, below 0 counted as 0.
fn count(value: i128) -> u64
    requires { count_of value < 2 ^ 63 }
    ensures { result ≡ count_of value }
{
    if value < 0 {
        return 0;
    }
    match u64::try_from(value) {
        Ok(count) => count,
        Err(_) => unreachable!(),
    }
}

/// An extent or amount, in which no index variable stands.
pub fn extent(form: &Aff, sizes: &[u64]) -> u64
    requires { IsTrue (is_counted sizes.now form.now) }
    ensures { result ≡ extent form.now sizes.now }
{
    count(value(form, sizes, &[]))
}
