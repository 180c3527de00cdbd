//! The extents of inputs, and how many words they have.

ghost use Rattle.std.specs.Prelude.{◌≡◌, ◌-◌, ◌<◌, ◌^◌, IfOk, IsTrue, None, [], false, length, map, min, true};
ghost use Rattle.affine_index.specs.Limited.{items_scoped};
ghost use Rattle.atl_meaning.specs.Exact.{is_counted};
ghost use Rattle.atl_meaning.specs.Words.{any_large, at_least_one, first_big_input, is_large, too_big, words_at};
ghost use Rattle.plain_run.specs.Shapes.{IsShaped, capped_count, found_unless, product_of, wrong_count};
ghost use Rattle.term_tree.specs.Meaning.{count_of, extent};
ghost use Rattle.term_tree.specs.Modules.{extents_at, extents_scoped, inputs_scoped};

use crate::fault::PlainFault;
use affine_index::Aff;
use sqlite_items::Items;
use std::alloc::{AllocError, Global};
use term_tree::InputDecl;

/// From which magnitude on a form is large.
const LARGE: u64 = 1 << 63;

/// The most words of an input.
const MOST_WORDS: u64 = 1 << 24;

/// The sizes, each counted as at least 1.
fn at_least_one(alloc: Global, sizes: &[u64]) -> Result<Items<u64>, AllocError>
    ensures { IfOk result (λ floor. floor ≡ at_least_one sizes.now) }
{
    let mut floor = Items::new(alloc);
    for size in sizes {
        floor.push((*size).max(1))?;
    }
    Ok(floor)
}

/// Whether the magnitude of an extent at these sizes is 2^63 or more.
fn is_large(form: &Aff, floor: &[u64]) -> bool
    requires { IsTrue (items_scoped (length floor.now) 0 form.now) }
    ensures { result ≡ is_large floor.now [] form.now }
{
    form.mag(floor, &[]) >= LARGE
}

/// A whole number, below 0 counted as 0.
fn count(value: i128) -> u64
    requires { count_of value < 2 ^ 63 }
    ensures { result ≡ count_of value }
{
    if value < 0 {
        return 0;
    }
    match u64::try_from(value) {
        Ok(count) => count,
        Err(_) => unreachable!(),
    }
}

/// The value of an extent.
fn extent(form: &Aff, sizes: &[u64]) -> u64
    requires { IsTrue (is_counted sizes.now form.now) }
    ensures { result ≡ extent form.now sizes.now }
{
    form.told();
    match form.value(sizes, &[]) {
        Some(value) => count(value),
        None => unreachable!(),
    }
}

/// The product of numbers, each counted as at least so much, which ends at 2^64 - 1.
pub fn product(numbers: &[u64], least: u64) -> u64
    ensures { result ≡ min (product_of least numbers.now) (2 ^ 64 - 1) }
{
    let mut product: u64 = 1;
    for number in numbers {
        product = product.saturating_mul((*number).max(least));
    }
    product
}

/// The extents at the sizes, or nothing where one is large.
fn extents(
    alloc: Global,
    sizes: &[u64],
    floor: &[u64],
    forms: &[Aff],
) -> Result<Option<Items<u64>>, AllocError>
    requires floor { floor.now ≡ at_least_one sizes.now }
    requires scoped { extents_scoped (length sizes.now) forms.now ≡ true }
    ensures { IfOk result (λ found. found ≡ found_unless (any_large floor.now forms.now) (extents_at forms.now sizes.now)) }
{
    let mut numbers = Items::new(alloc);
    for form in forms {
        if is_large(form, floor) {
            return Ok(None);
        }
        numbers.push(extent(form, sizes))?;
    }
    Ok(Some(numbers))
}

/// The extents of an input, or how many words it has, where they are over 2^24. The second sizes are the first, counted as at least 1.
fn input_shape(
    alloc: Global,
    sizes: &[u64],
    floor: &[u64],
    forms: &[Aff],
) -> Result<Items<u64>, PlainFault>
    requires floor { floor.now ≡ at_least_one sizes.now }
    requires scoped { extents_scoped (length sizes.now) forms.now ≡ true }
    ensures { IsShaped (too_big (words_at sizes.now forms.now false) None) (extents_at forms.now sizes.now) result }
{
    match extents(alloc, sizes, floor, forms)? {
        None => Err(PlainFault::TooBigToRun { words: u64::MAX }),
        Some(shape) => {
            let words = product(shape.as_slice(), 1);
            if words > MOST_WORDS {
                return Err(PlainFault::TooBigToRun { words });
            }
            Ok(shape)
        }
    }
}

/// The extents of the inputs, or how many words the first has that has over 2^24.
pub fn input_shapes(
    alloc: Global,
    sizes: &[u64],
    inputs: &[InputDecl],
) -> Result<Items<Items<u64>>, PlainFault>
    requires { inputs_scoped (length sizes.now) inputs.now ≡ true }
    ensures { IsShaped (first_big_input inputs.now sizes.now) (map (λ d. extents_at d.extents sizes.now) inputs.now) result }
{
    let floor = at_least_one(alloc, sizes)?;
    let mut shapes = Items::new(alloc);
    for input in inputs {
        let forms = input.extents.as_slice();
        let shape = input_shape(alloc, sizes, floor.as_slice(), forms)?;
        shapes.push(shape)?;
    }
    Ok(shapes)
}

/// The first input with another number of words than its extents say, a number which ends at 2^64 - 1.
pub fn wrong_count(shapes: &[Items<u64>], inputs: &[Items<u64>]) -> Option<PlainFault>
    requires { length inputs.now < 4294967296 }
    ensures { result ≡ wrong_count 0 (map capped_count shapes.now) inputs.now }
{
    for at in 0..shapes.len().min(inputs.len()) {
        let want = product(shapes[at].as_slice(), 0);
        let got = inputs[at].len() as u64;
        if want != got {
            return Some(PlainFault::WrongCount {
                input: at as u32,
                want,
                got,
            });
        }
    }
    None
}
