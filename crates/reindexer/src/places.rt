//! The form of a place.

ghost use Rattle.std.specs.Prelude.{◌≡◌, ◌<◌, ◌≤◌, true, false, [], ◌∷◌, pos, IfOk, MatchOption, Ok};
ghost use Rattle.affine_index.specs.Form.{literal_form};
ghost use Rattle.affine_index.specs.Normal.{holds_var};
ghost use Rattle.reindexer.specs.Limited.{Answers};
ghost use Rattle.reindexer.specs.Places.{HasPlace, limited_frame, limited_indices, limited_place, one_of_two, row_place, row_place_from, two_of_one};
ghost use Rattle.reindexer.specs.Ready.{extents_ready, frame_ready, frames_ready};

use crate::forms::{copy, multiple, product, quotient, remainder, sum};
use crate::frame::Frame;
use affine_index::{Aff, AffRefusal};
use sqlite_items::Items;
use std::alloc::Global;

/// Takes the first index, where there is one.
fn take_first(indices: &mut Items<Aff>) -> Option<Aff>
    ensures { MatchOption result ((indices.old ≡ []) × (indices.new ≡ [])) (λ x. indices.old ≡ x ∷ indices.new) }
{
    if indices.is_empty() {
        None
    } else {
        Some(indices.remove(0))
    }
}

/// An index in front of others.
fn in_front(alloc: Global, first: Aff, rest: Items<Aff>) -> Result<Items<Aff>, AffRefusal>
    ensures { Answers (Ok (first ∷ rest)) result }
{
    let mut indices = Items::new(alloc);
    indices.push(first)?;
    indices.append(rest)?;
    Ok(indices)
}

/// x*m + y.
fn one_of_two(alloc: Global, x: &Aff, m: &Aff, y: &Aff) -> Result<Aff, AffRefusal>
    requires { holds_var m.now ≡ false }
    ensures { Answers (one_of_two x.now m.now y.now) result }
{
    let rows = product(alloc, x, m)?;
    sum(alloc, &rows, y)
}

/// x/k and x%k in front of others.
fn two_of_one(alloc: Global, k: u32, x: &Aff, rest: Items<Aff>) -> Result<Items<Aff>, AffRefusal>
    requires positive { 0 < k }
    requires limit { k ≤ 2147483647 }
    ensures { Answers (two_of_one k x.now rest) result }
{
    let whole = quotient(alloc, x, k)?;
    let _ = multiple(alloc, k, &whole)?;
    let left = remainder(alloc, x, k)?;
    let rest = in_front(alloc, left, rest)?;
    in_front(alloc, whole, rest)
}

/// The first two indices change places.
fn swapped(alloc: Global, indices: Items<Aff>) -> Result<Items<Aff>, AffRefusal>
    ensures { Answers (limited_frame Frame.Transpose indices) result }
{
    let mut rest = indices;
    let Some(x) = take_first(&mut rest) else {
        return Ok(Items::new(alloc));
    };
    let Some(y) = take_first(&mut rest) else {
        return Ok(Items::new(alloc));
    };
    let rest = in_front(alloc, x, rest)?;
    in_front(alloc, y, rest)
}

/// The first two indices make one.
fn flattened(alloc: Global, m: &Aff, indices: Items<Aff>) -> Result<Items<Aff>, AffRefusal>
    requires { holds_var m.now ≡ false }
    ensures { Answers (limited_frame (Frame.Flatten m.now) indices) result }
{
    let mut rest = indices;
    let Some(x) = take_first(&mut rest) else {
        return Ok(Items::new(alloc));
    };
    let Some(y) = take_first(&mut rest) else {
        return Ok(Items::new(alloc));
    };
    let form = one_of_two(alloc, &x, m, &y)?;
    in_front(alloc, form, rest)
}

/// The first index makes two.
fn spread(alloc: Global, k: u32, indices: Items<Aff>) -> Result<Items<Aff>, AffRefusal>
    requires positive { 0 < k }
    requires limit { k ≤ 2147483647 }
    ensures { Answers (limited_frame (Frame.Split k) indices) result }
{
    let mut rest = indices;
    match take_first(&mut rest) {
        Some(x) => two_of_one(alloc, k, &x, rest),
        None => Ok(Items::new(alloc)),
    }
}

/// The first index is moved.
fn moved(alloc: Global, amount: &Aff, indices: Items<Aff>) -> Result<Items<Aff>, AffRefusal>
    ensures { Answers (limited_frame (Frame.Shift amount.now) indices) result }
{
    let mut rest = indices;
    match take_first(&mut rest) {
        Some(x) => {
            let form = sum(alloc, &x, amount)?;
            in_front(alloc, form, rest)
        }
        None => Ok(Items::new(alloc)),
    }
}

/// An index in front.
fn fixed(alloc: Global, index: &Aff, indices: Items<Aff>) -> Result<Items<Aff>, AffRefusal>
    ensures { Answers (limited_frame (Frame.Fix index.now) indices) result }
{
    let index = copy(alloc, index)?;
    in_front(alloc, index, indices)
}

/// What one frame makes of the indices, where it finds what it needs, else none.
pub fn limited_frame(
    alloc: Global,
    frame: &Frame,
    indices: Items<Aff>,
) -> Result<Items<Aff>, AffRefusal>
    requires { frame_ready frame.now ≡ true }
    ensures { Answers (limited_frame frame.now indices) result }
{
    match frame {
        Frame::Fix(index) => fixed(alloc, index, indices),
        Frame::Transpose => swapped(alloc, indices),
        Frame::Flatten(m) => flattened(alloc, m, indices),
        Frame::Split(k) => spread(alloc, *k, indices),
        Frame::Shift(amount) => moved(alloc, amount, indices),
        Frame::Keep(_) => Ok(indices),
    }
}

/// What all frames make of no index.
fn limited_indices(alloc: Global, frames: &[Frame]) -> Result<Items<Aff>, AffRefusal>
    requires { frames_ready frames.now ≡ true }
    ensures { Answers (limited_indices frames.now []) result }
{
    let mut indices = Items::new(alloc);
    for frame in frames {
        indices = limited_frame(alloc, frame, indices)?;
    }
    Ok(indices)
}

/// A place so far, and more indices in more extents.
fn row_place_from(
    alloc: Global,
    first: Aff,
    extents: &[Aff],
    indices: &[Aff],
) -> Result<Aff, AffRefusal>
    requires { extents_ready extents.now ≡ true }
    ensures { Answers (row_place_from first extents.now indices.now) result }
{
    let mut place = first;
    for i in 0..extents.len() {
        if i >= indices.len() {
            return Ok(place);
        }
        place = one_of_two(alloc, &place, &extents[i], &indices[i])?;
    }
    Ok(place)
}

fn zero(alloc: Global) -> Result<Aff, AffRefusal>
    ensures { Answers (Ok (literal_form (pos 0))) result }
{
    let form = Aff::literal(alloc, 0)?;
    Ok(form)
}

/// The row-order place of indices in extents: 0 where there are none of either. Two forms for each extent after the first.
pub fn row_place(alloc: Global, extents: &[Aff], indices: &[Aff]) -> Result<Aff, AffRefusal>
    requires { extents_ready extents.now ≡ true }
    ensures { Answers (row_place extents.now indices.now) result }
{
    match (extents, indices) {
        ([], _) => zero(alloc),
        (_, []) => zero(alloc),
        ([_, extents @ ..], [first, indices @ ..]) => {
            let first = copy(alloc, first)?;
            row_place_from(alloc, first, extents, indices)
        }
    }
}

/// The place of a leaf in a buffer of these extents, in row order: its frames from the leaf outward, beginning without
/// indices. Forms are taken frame by frame and then over the extents from the first; the first that breaks a limit decides a
/// refusal, which is never NotAffine. At most three forms a frame and two an extent.
pub fn place(alloc: Global, frames: &[Frame], extents: &[Aff]) -> Result<Aff, AffRefusal>
    requires frames { frames_ready frames.now ≡ true }
    requires extents { extents_ready extents.now ≡ true }
    ensures place { Answers (limited_place frames.now extents.now) result }
    ensures value { IfOk result (HasPlace frames.now extents.now) }
{
    let indices = limited_indices(alloc, frames)?;
    row_place(alloc, extents, indices.as_slice())
}
