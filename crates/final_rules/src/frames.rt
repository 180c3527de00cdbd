//! The frames around a leaf.

ghost use Rattle.std.specs.Prelude.{◌≡◌, ◌≤◌, negsuc, length, IfOk};
ghost use Rattle.std.specs.Prelude.{◌-◌};
ghost use Rattle.affine_index.specs.Form.{var_form};
ghost use Rattle.affine_index.specs.Sum.{scaled};
ghost use Rattle.final_rules.specs.Places.{frame_of, frames_of};

use crate::spot::{Around, Spot, binders};
use affine_index::{Aff, AffRefusal};
use reindexer::Frame;
use shape_rules::extents::copy;
use sqlite_items::Items;
use std::alloc::{AllocError, Global};

/// The form with the opposite value.
#[tactic(auto, using(crate::proofs::OppositeLaws::opposite_laws))]
fn negated(alloc: Global, form: &Aff) -> Result<Aff, AllocError>
    ensures { IfOk result (λ n. n ≡ scaled (negsuc 0) form.now) }
{
    form.told();
    match form.scale(alloc, -1) {
        Ok(negated) => Ok(negated),
        Err(AffRefusal::Memory) => Err(AllocError),
        Err(AffRefusal::CoefficientTooLarge)
        | Err(AffRefusal::IndexTooLong)
        | Err(AffRefusal::NotAffine) => unreachable!(),
    }
}

/// The loop variable of a gen at a depth, seen from under so many loops.
fn variable(alloc: Global, loops: u32, depth: u32) -> Result<Aff, AllocError>
    ensures { IfOk result (λ x. x ≡ var_form (loops - 1 - depth)) }
{
    match Aff::var(alloc, loops.saturating_sub(1).saturating_sub(depth)) {
        Ok(variable) => Ok(variable),
        Err(_) => Err(AllocError),
    }
}

/// The frame of a node around a leaf, seen from under so many loops.
pub fn frame_of(alloc: Global, loops: u32, around: &Around) -> Result<Frame, AllocError>
    ensures { IfOk result (λ frame. frame ≡ frame_of loops around.now) }
{
    match around {
        Around::Loop(depth) => Ok(Frame::Fix(variable(alloc, loops, *depth)?)),
        Around::Swapped => Ok(Frame::Transpose),
        Around::Joined(extent) => Ok(Frame::Flatten(copy(alloc, extent)?)),
        Around::Tiled(rows) => Ok(Frame::Split(*rows)),
        Around::Later(amount) => Ok(Frame::Shift(copy(alloc, amount)?)),
        Around::Without(amount) => Ok(Frame::Shift(negated(alloc, amount)?)),
        Around::Before(rows) => Ok(Frame::Keep(copy(alloc, rows)?)),
    }
}

/// The frames around a leaf, from the leaf outward.
pub fn frames_of(alloc: Global, spot: &Spot) -> Result<Items<Frame>, AllocError>
    requires { length spot.now.path ≤ 2147483647 }
    ensures { IfOk result (λ frames. frames ≡ frames_of spot.now) }
{
    let loops = binders(spot.path.as_slice()) as u32;
    let mut frames = Items::new(alloc);
    for around in spot.around.as_slice() {
        frames.push(frame_of(alloc, loops, around)?)?;
    }
    Ok(frames)
}
