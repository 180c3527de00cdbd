//! The printed indices of leaves and of reads that are stored whole.

ghost use Rattle.std.specs.Prelude.{◌≡◌, ◌≤◌, [], IfOk, Some, length, true};
ghost use Rattle.affine_index.specs.Put.{numbers_fit, shifted};
ghost use Rattle.reindexer.specs.Limited.{Answers};
ghost use Rattle.reindexer.specs.Places.{limited_place};
ghost use Rattle.reindexer.specs.Ready.{extents_ready, frames_ready};
ghost use Rattle.region_plan.specs.Length.{zero_form};
ghost use Rattle.region_plan.specs.Shaped.{IsShaped};
ghost use Rattle.shape_rules.specs.Scopes.{all_free, given};
ghost use Rattle.final_rules.specs.Form.{each_shifted, one_deeper, read_under};
ghost use Rattle.final_rules.specs.Places.{extents_under};
ghost use Rattle.final_rules.specs.Printed.{behind, form_small, full_read_printed, full_read_printed_if, leaf_printed};
ghost use Rattle.final_rules.specs.Printing.{Counts, ReadReady, next, read_sized, sized};
ghost use Rattle.index_limits.specs.Places.{place_at, stored_at};
ghost use Rattle.index_limits.specs.Ready.{FullReady, FullReadyIf, LeafReady, StoreReady, indices_move};

use crate::forms::bound;
use affine_index::{Aff, AffRefusal};
use final_rules::form::extents_under;
use final_rules::frames::frames_of;
use final_rules::printing::{Scene, Stop, measured, sited, word_indices};
use final_rules::read::reading;
use final_rules::spot::one_gen;
use final_rules::{Read, Spot};
use owned_values::two;
use reindexer::forms::sum;
use reindexer::{Frame, place};
use sqlite_items::Items;
use std::alloc::{AllocError, Global};
use term_tree::Term;

/// The buffer that is stored in: its extents, and where it begins.
#[derive(Drop)]
pub struct Target {
    pub extents: Items<Aff>,
    pub offset: Aff,
}

/// Where scratch is free: behind so many words at an offset. The sum may break the limits until a let stands there.
#[derive(Drop)]
pub struct Room {
    pub base: Aff,
    pub above: Aff,
}

/// The place of a leaf under these frames.
fn stored(alloc: Global, target: &Target, frames: &[Frame]) -> Result<Aff, AffRefusal>
    requires frames { frames_ready frames.now ≡ true }
    requires extents { extents_ready target.now.extents ≡ true }
    ensures { Answers (behind target.now.offset (limited_place frames.now target.now.extents)) result }
{
    let place = place(alloc, frames, target.extents.as_slice())?;
    sum(alloc, &place, &target.offset)
}

/// The place at which a leaf is stored.
fn store_index(
    alloc: Global,
    maxima: &[u64],
    vars: &[u64],
    target: &Target,
    spot: &Spot,
    number: u64,
) -> Result<u64, Stop>
    requires few { length spot.now.path ≤ 2147483647 }
    requires ready { StoreReady maxima.now vars.now target.now spot.now }
    ensures { Counts (next (form_small maxima.now vars.now (stored_at target.now spot.now)) number) result }
{
    let frames = frames_of(alloc, spot)?;
    let place = stored(alloc, target, frames.as_slice());
    measured(maxima, vars, place, number)
}

/// The printed indices of a leaf: its place, and then those of its word.
pub fn leaf_indices(
    alloc: Global,
    maxima: &[u64],
    vars: &[u64],
    scene: &Scene,
    target: &Target,
    spot: &Spot,
    term: &Term,
    number: u64,
) -> Result<u64, Stop>
    requires few { length spot.now.path ≤ 2147483647 }
    requires ready { LeafReady maxima.now vars.now scene.now target.now spot.now term.now }
    ensures { (free : Aff) → Counts (sized maxima.now (leaf_printed term.now (place_at scene.now target.now free spot.now)) number) result }
{
    let number = store_index(alloc, maxima, vars, target, spot, number)?;
    word_indices(alloc, maxima, vars, scene, term, number)
}

/// The place of a read.
fn read_index(
    alloc: Global,
    maxima: &[u64],
    vars: &[u64],
    scene: &Scene,
    read: &Read,
    number: u64,
) -> Result<u64, Stop>
    requires ready { ReadReady maxima.now vars.now scene.now (Some read.now) }
    ensures { Counts (read_sized maxima.now vars.now scene.now (Some read.now) number) result }
{
    let place = sited(alloc, scene, read.var, read.indices.as_slice());
    measured(maxima, vars, place, number)
}

/// An index seen from under one more binder.
fn moved(alloc: Global, index: &Aff) -> Result<Aff, AllocError>
    requires { numbers_fit 0 1 index.now ≡ true }
    ensures { IfOk result (λ x. x ≡ shifted 0 1 index.now) }
{
    match index.shift(alloc, 0, 1) {
        Ok(index) => Ok(index),
        Err(_) => Err(AllocError),
    }
}

/// Each index seen from under one more binder.
fn all_moved(alloc: Global, indices: &[Aff]) -> Result<Items<Aff>, AllocError>
    requires { indices_move indices.now ≡ true }
    ensures { IfOk result (λ xs. xs ≡ each_shifted indices.now) }
{
    let mut all = Items::new(alloc);
    for index in indices {
        all.push(moved(alloc, index)?)?;
    }
    Ok(all)
}

/// The read with one more index, that of one more binder.
fn one_deeper(alloc: Global, read: &Read) -> Result<Read, AllocError>
    requires { indices_move read.now.indices ≡ true }
    ensures { IfOk result (λ d. d ≡ one_deeper read.now) }
{
    let mut indices = all_moved(alloc, read.indices.as_slice())?;
    match Aff::var(alloc, 0) {
        Ok(innermost) => indices.push(innermost)?,
        Err(_) => return Err(AllocError),
    }
    Ok(Read {
        var: read.var,
        indices,
    })
}

/// The places of a read that is stored at once.
fn read_leaf(
    alloc: Global,
    maxima: &[u64],
    vars: &[u64],
    scene: &Scene,
    target: &Target,
    read: &Read,
    spot: &Spot,
    number: u64,
) -> Result<u64, Stop>
    requires few { length spot.now.path ≤ 2147483647 }
    requires ready { FullReady maxima.now vars.now scene.now target.now [] read.now spot.now }
    ensures { Counts (sized maxima.now (full_read_printed [] read.now (place_at scene.now target.now zero_form spot.now)) number) result }
{
    let number = store_index(alloc, maxima, vars, target, spot, number)?;
    read_index(alloc, maxima, vars, scene, read, number)
}

/// A read that is stored whole: as many gens around it as there are extents.
fn full_read(
    alloc: Global,
    maxima: &[u64],
    vars: &[u64],
    scene: &Scene,
    target: &Target,
    extents: &[Aff],
    read: &Read,
    spot: &Spot,
    number: u64,
) -> Result<u64, Stop>
    requires few { length spot.now.path ≤ 2147483647 }
    requires ready { FullReady maxima.now vars.now scene.now target.now extents.now read.now spot.now }
    ensures { Counts (sized maxima.now (full_read_printed extents.now read.now (place_at scene.now target.now zero_form spot.now)) number) result }
{
    match extents {
        [] => read_leaf(alloc, maxima, vars, scene, target, read, spot, number),
        [extent, rest @ ..] => {
            let inner = bound(alloc, maxima, vars, extent, number)?;
            let (deeper, below) = two(one_deeper(alloc, read), one_gen(alloc, spot, extent))?;
            let vars = inner.vars.as_slice();
            full_read(
                alloc,
                maxima,
                vars,
                scene,
                target,
                rest,
                &deeper,
                &below,
                inner.number,
            )
        }
    }
}

/// The same, if there is a read.
fn full_read_if(
    alloc: Global,
    maxima: &[u64],
    vars: &[u64],
    scene: &Scene,
    target: &Target,
    extents: &[Aff],
    read: Option<Read>,
    spot: &Spot,
    number: u64,
) -> Result<u64, Stop>
    requires few { length spot.now.path ≤ 2147483647 }
    requires ready { FullReadyIf maxima.now vars.now scene.now target.now extents.now read spot.now }
    ensures { Counts (sized maxima.now (full_read_printed_if extents.now read (place_at scene.now target.now zero_form spot.now)) number) result }
{
    match read {
        None => Ok(number),
        Some(read) => {
            full_read(
                alloc, maxima, vars, scene, target, extents, &read, spot, number,
            )
        }
    }
}

/// The printed indices of a tensor variable under indices that is stored whole.
pub fn read_indices(
    alloc: Global,
    maxima: &[u64],
    vars: &[u64],
    scene: &Scene,
    target: &Target,
    spot: &Spot,
    term: &Term,
    number: u64,
) -> Result<u64, Stop>
    requires few { length spot.now.path ≤ 2147483647 }
    requires shaped { IsShaped scene.now.shapes term.now }
    requires free { all_free (given scene.now.shapes) ≡ true }
    requires ready { FullReadyIf maxima.now vars.now scene.now target.now (extents_under term.now (given scene.now.shapes)) (read_under term.now []) spot.now }
    ensures { Counts (sized maxima.now (full_read_printed_if (extents_under term.now (given scene.now.shapes)) (read_under term.now []) (place_at scene.now target.now zero_form spot.now)) number) result }
{
    let extents = extents_under(alloc, &scene.shapes, term)?;
    let read = reading(alloc, term, Items::new(alloc))?;
    full_read_if(
        alloc,
        maxima,
        vars,
        scene,
        target,
        extents.as_slice(),
        read,
        spot,
        number,
    )
}
