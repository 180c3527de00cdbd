//! Printed forms, which break no limit.

ghost use Rattle.std.specs.Prelude.{◌≡◌, ◌<◌, ◌≤◌, [], IfOk, MatchResult, Ok, get_or, length, pos, true};
ghost use Rattle.affine_index.specs.Form.{literal_form};
ghost use Rattle.fact_list.specs.Facts.{binders};
ghost use Rattle.index_trees.specs.Tree.{index_tree};
ghost use Rattle.reindexer.specs.Limited.{Answers, limited};
ghost use Rattle.reindexer.specs.Places.{limited_place, row_place};
ghost use Rattle.reindexer.specs.Ready.{extents_ready, frames_ready};
ghost use Rattle.region_plan.specs.Needed.{words_form};
ghost use Rattle.shape_rules.specs.Scopes.{each_free, given};
ghost use Rattle.final_rules.specs.Places.{length_form, nowhere, place_form};
ghost use Rattle.final_rules.specs.Printed.{behind};
ghost use Rattle.final_rules.specs.Printing.{scene_sites, sited};
ghost use Rattle.lowering.specs.Leaves.{stored_form};
ghost use Rattle.lowering.specs.Made.{HasForm, IsMade, ReadMade, StoreMade};
ghost use Rattle.lowering.specs.Nodes.{around_ready, free_of};

use crate::node::{Room, Target};
use affine_index::{Aff, AffRefusal};
use final_rules::frames::frames_of;
use final_rules::printing::{Scene, extents_at};
use final_rules::spot::binders;
use final_rules::{Read, Spot};
use index_trees::index_tree;
use loop_lang::Iexp;
use region_plan::extents::words_form;
use reindexer::forms::sum;
use reindexer::{Frame, place, row_place};
use std::alloc::{AllocError, Global};

/// The form, where it is one that breaks no limit.
pub fn made(form: Result<Aff, AffRefusal>) -> Result<Aff, AllocError>
    requires { HasForm form }
    ensures { IfOk result (λ x. form ≡ Ok x) }
{
    match form {
        Ok(form) => Ok(form),
        Err(AffRefusal::Memory) => Err(AllocError),
        Err(AffRefusal::CoefficientTooLarge)
        | Err(AffRefusal::IndexTooLong)
        | Err(AffRefusal::NotAffine) => unreachable!(),
    }
}

/// The offset of a tensor variable: that of a let, and 0 for an input.
fn offset_at(alloc: Global, scene: &Scene, var: u32) -> Result<Aff, AffRefusal>
    ensures { MatchResult result (λ x. x ≡ get_or scene.now.offsets var (literal_form (pos 0))) (λ e. e ≡ AffRefusal.Memory) }
{
    match scene.offsets.as_slice().get(var as usize) {
        Some(offset) => {
            let offset = offset.copy(alloc)?;
            Ok(offset)
        }
        None => {
            let zero = Aff::literal(alloc, 0)?;
            Ok(zero)
        }
    }
}

/// The place of indices in a tensor, behind its offset.
fn behind(alloc: Global, offset: &Aff, extents: &[Aff], indices: &[Aff]) -> Result<Aff, AffRefusal>
    requires { extents_ready extents.now ≡ true }
    ensures { Answers (behind offset.now (row_place extents.now indices.now)) result }
{
    let place = row_place(alloc, extents, indices)?;
    sum(alloc, &place, offset)
}

/// The place of indices in a tensor variable.
fn sited(alloc: Global, scene: &Scene, var: u32, indices: &[Aff]) -> Result<Aff, AffRefusal>
    requires there { var < length (given scene.now.shapes) }
    requires ready { extents_ready (get_or (given scene.now.shapes) var []) ≡ true }
    ensures { Answers (sited scene.now var indices.now) result }
{
    let offset = offset_at(alloc, scene, var)?;
    let extents = extents_at(&scene.shapes, var);
    behind(alloc, &offset, extents, indices)
}

/// The tree of the place of a read, under so many loops.
pub fn read_tree(alloc: Global, scene: &Scene, loops: u32, read: &Read) -> Result<Iexp, AllocError>
    requires { ReadMade scene.now read.now }
    ensures { IfOk result (λ t. t ≡ index_tree loops (place_form (get_or (scene_sites scene.now) read.now.var nowhere) read.now.indices)) }
{
    let place = sited(alloc, scene, read.var, read.indices.as_slice());
    let place = made(place)?;
    index_tree(alloc, loops, &place)
}

/// The place that frames give a leaf in a buffer of these extents, behind an offset.
fn stored_at(
    alloc: Global,
    offset: &Aff,
    extents: &[Aff],
    frames: &[Frame],
) -> Result<Aff, AffRefusal>
    requires frames { frames_ready frames.now ≡ true }
    requires extents { extents_ready extents.now ≡ true }
    ensures { Answers (behind offset.now (limited_place frames.now extents.now)) result }
{
    let place = place(alloc, frames, extents)?;
    sum(alloc, &place, offset)
}

/// The tree of the place of a leaf.
pub fn store_tree(alloc: Global, target: &Target, spot: &Spot) -> Result<Iexp, AllocError>
    requires few { length spot.now.path ≤ 2147483647 }
    requires around { around_ready spot.now.around ≡ true }
    requires extents { extents_ready target.now.extents ≡ true }
    requires made { StoreMade target.now spot.now }
    ensures { IfOk result (λ t. t ≡ index_tree (binders spot.now.path) (stored_form target.now spot.now)) }
{
    let frames = frames_of(alloc, spot)?;
    let place = stored_at(
        alloc,
        &target.offset,
        target.extents.as_slice(),
        frames.as_slice(),
    );
    let place = made(place)?;
    let loops = binders(spot.path.as_slice()) as u32;
    index_tree(alloc, loops, &place)
}

/// How many words a tensor of these extents has.
pub fn tensor_words(alloc: Global, extents: &[Aff]) -> Result<Aff, AllocError>
    requires free { each_free extents.now ≡ true }
    requires made { IsMade (words_form extents.now) }
    ensures { IfOk result (λ x. x ≡ length_form extents.now) }
{
    let words = words_form(alloc, extents);
    made(words)
}

/// Where scratch is free.
pub fn free_place(alloc: Global, room: &Room) -> Result<Aff, AllocError>
    requires { IsMade (limited (free_of room.now)) }
    ensures { IfOk result (λ x. x ≡ free_of room.now) }
{
    let offset = sum(alloc, &room.base, &room.above);
    made(offset)
}
