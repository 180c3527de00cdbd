//! Places of leaves under frames.

ghost use Rattle.std.specs.Prelude.{◌≡◌, IfOk, not, true};
ghost use Rattle.affine_index.specs.Normal.{holds_var};
ghost use Rattle.reindexer.specs.Ready.{extents_ready, frames_ready};

use affine_index::{Aff, AffRefusal};
use owned_values::two;
use reindexer::{Frame, place};
use sqlite_items::Items;
use std::alloc::Global;
use std::test::Fail;

fn sum(
    alloc: Global,
    a: Result<Aff, AffRefusal>,
    b: Result<Aff, AffRefusal>,
) -> Result<Aff, AffRefusal> {
    let (a, b) = two(a, b)?;
    a.add(alloc, &b)
}

fn product(
    alloc: Global,
    a: Result<Aff, AffRefusal>,
    b: Result<Aff, AffRefusal>,
) -> Result<Aff, AffRefusal> {
    let (a, b) = two(a, b)?;
    a.mul(alloc, &b)
}

/// A form over the sizes N and M, found to hold no index variable.
fn over_sizes(form: Result<Aff, AffRefusal>) -> Result<Aff, Fail>
    ensures { IfOk result (λ n. not (holds_var n) ≡ true) }
{
    let form = form?;
    if form.is_scoped(2, 0) {
        Ok(form)
    } else {
        Err(Fail::new("a variable in an amount"))
    }
}

/// The frames of `flatten(gen i < N. gen j < M. ..)`, from the leaf outward: i is variable 1, j variable 0.
fn joined(alloc: Global) -> Result<Items<Frame>, Fail>
    ensures { IfOk result (λ fs. frames_ready fs ≡ true) }
{
    let columns = over_sizes(Aff::size(alloc, 1))?;
    let mut frames = Items::new(alloc);
    frames.push(Frame::Fix(Aff::var(alloc, 0)?))?;
    frames.push(Frame::Fix(Aff::var(alloc, 1)?))?;
    frames.push(Frame::Flatten(columns))?;
    Ok(frames)
}

/// The frames of `truncl(1, gen i < N. ..)`.
fn moved(alloc: Global) -> Result<Items<Frame>, Fail>
    ensures { IfOk result (λ fs. frames_ready fs ≡ true) }
{
    let back = over_sizes(Aff::literal(alloc, -1))?;
    let mut frames = Items::new(alloc);
    frames.push(Frame::Fix(Aff::var(alloc, 0)?))?;
    frames.push(Frame::Shift(back))?;
    Ok(frames)
}

/// The frames of `split(4, gen i < N. ..)`.
fn chunked(alloc: Global) -> Result<Items<Frame>, Fail>
    ensures { IfOk result (λ fs. frames_ready fs ≡ true) }
{
    let mut frames = Items::new(alloc);
    frames.push(Frame::Fix(Aff::var(alloc, 0)?))?;
    frames.push(Frame::Split(4))?;
    Ok(frames)
}

/// Whether this is the place in a buffer of one extent, or of it and 4 columns.
fn is_place(
    alloc: Global,
    frames: &Items<Frame>,
    rows: Result<Aff, AffRefusal>,
    columns: bool,
    want: Result<Aff, AffRefusal>,
) -> Result<bool, Fail>
    requires { frames_ready frames.now ≡ true }
{
    let want = want?;
    let extents = extents(alloc, rows, columns)?;
    match place(alloc, frames.as_slice(), extents.as_slice()) {
        Ok(form) => Ok(form.same(&want)),
        Err(_) => Ok(false),
    }
}

fn extents(alloc: Global, rows: Result<Aff, AffRefusal>, columns: bool) -> Result<Items<Aff>, Fail>
    ensures { IfOk result (λ ds. extents_ready ds ≡ true) }
{
    let rows = over_sizes(rows)?;
    let mut extents = Items::new(alloc);
    extents.push(rows)?;
    if columns {
        let four = over_sizes(Aff::literal(alloc, 4))?;
        extents.push(four)?;
    }
    Ok(extents)
}

#[test]
fn two_indices_make_one(rt: HostRuntime) -> Result<(), Fail> {
    let alloc = rt.alloc();
    let frames = joined(alloc)?;
    let whole = product(alloc, Aff::size(alloc, 0), Aff::size(alloc, 1));
    let row = product(alloc, Aff::var(alloc, 1), Aff::size(alloc, 1));
    let want = sum(alloc, row, Aff::var(alloc, 0));
    assert!(rt; is_place(alloc, &frames, whole, false, want)?);
    Ok(())
}

#[test]
fn rows_in_front_are_left_out(rt: HostRuntime) -> Result<(), Fail> {
    let alloc = rt.alloc();
    let frames = moved(alloc)?;
    let rows = sum(alloc, Aff::size(alloc, 0), Aff::literal(alloc, -1));
    let want = sum(alloc, Aff::var(alloc, 0), Aff::literal(alloc, -1));
    assert!(rt; is_place(alloc, &frames, rows, false, want)?);
    Ok(())
}

#[test]
fn chunks_of_rows_keep_the_place(rt: HostRuntime) -> Result<(), Fail> {
    let alloc = rt.alloc();
    let frames = chunked(alloc)?;
    let rows = Aff::size(alloc, 0);
    assert!(rt; is_place(alloc, &frames, rows, true, Aff::var(alloc, 0))?);
    Ok(())
}
