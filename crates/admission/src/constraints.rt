//! The first constraint that sizes break.

ghost use Rattle.std.specs.Prelude.{◌≡◌, ◌≤◌, ◌+◌, None, length, map, true};
ghost use Rattle.admission.specs.Admission.{assume_holds, broken, first_false, within};
ghost use Rattle.affine_index.specs.Condition.{all_scoped, cmp_form};
ghost use Rattle.affine_index.specs.Limited.{items_scoped};
ghost use Rattle.term_tree.specs.Modules.{Allowed, module_scoped};

use affine_index::Cmp;
use term_tree::{Module, SizeDecl};

/// The number of the first size whose number is not within its bounds, where the first of all has the number 1.
fn broken_bound(declared: &[SizeDecl], sizes: &[u64]) -> Option<u64>
    requires same { length declared.now ≡ length sizes.now }
    ensures { result ≡ first_false 1 (within declared.now sizes.now) }
{
    for at in 0..sizes.len() {
        if sizes[at] < declared[at].low || declared[at].high < sizes[at] {
            return Some(at as u64 + 1);
        }
    }
    None
}

/// Whether an assume holds; where its value is too large, it does not.
fn assume_holds(assume: &Cmp, sizes: &[u64]) -> bool
    requires scoped { items_scoped (length sizes.now) 0 (cmp_form assume.now) ≡ true }
    ensures { result ≡ assume_holds sizes.now assume.now }
{
    match assume {
        Cmp::Ge(form) => match form.value(sizes, &[]) {
            Some(value) => value >= 0,
            None => false,
        },
        Cmp::Eq(form) => match form.value(sizes, &[]) {
            Some(value) => value == 0,
            None => false,
        },
    }
}

/// The number of the first assume that does not hold, where the first of all has this number.
fn broken_assume(first: u64, assumes: &[Cmp], sizes: &[u64]) -> Option<u64>
    requires few { first ≤ 2147483648 }
    requires scoped { all_scoped (length sizes.now) 0 assumes.now ≡ true }
    ensures { result ≡ first_false first (map (assume_holds sizes.now) assumes.now) }
{
    for at in 0..assumes.len() {
        if !assume_holds(&assumes[at], sizes) {
            return Some(first + at as u64);
        }
    }
    None
}

/// The number of the first constraint that sizes break, where the first of all has the number 1: the bounds of the sizes in order, then the
/// assumes.
pub fn broken_constraint(module: &Module, numbers: &[u64]) -> Option<u64>
    requires scoped { module_scoped «module».now ≡ true }
    requires sizes { length «module».now.sizes ≤ 2147483647 }
    requires same { length numbers.now ≡ length «module».now.sizes }
    // Which answer it is.
    ensures first { result ≡ broken «module».now numbers.now }
    // Sizes that break none are allowed.
    ensures allowed { result ≡ None → Allowed «module».now numbers.now }
{
    let sizes = module.sizes.as_slice();
    match broken_bound(sizes, numbers) {
        Some(number) => Some(number),
        None => broken_assume(sizes.len() as u64 + 1, module.assumes.as_slice(), numbers),
    }
}
