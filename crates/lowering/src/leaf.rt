//! Leaves, and reads that are stored whole.

ghost use Rattle.std.specs.Prelude.{◌≡◌, ◌≤◌, ◌++◌, ◌∷◌, [], IfOk, List, OnOk, drop, false, length, true};
ghost use Rattle.affine_index.specs.Put.{shifted};
ghost use Rattle.fact_list.specs.Facts.{binders};
ghost use Rattle.loop_lang.specs.declared.stmt.Stmt.TheVariants.{For, Seq};
ghost use Rattle.reindexer.specs.Ready.{extents_ready};
ghost use Rattle.final_rules.specs.Form.{each_shifted, one_deeper};
ghost use Rattle.final_rules.specs.Places.{one_gen};
ghost use Rattle.lowering_laws.specs.Lowered.{stored_by};
ghost use Rattle.lowering.specs.Leaves.{full_read_if_in, full_read_in, leaf_in, stored_in};
ghost use Rattle.lowering.specs.Made.{FullReadMade, FullReadMadeIf, ReadMade, StoreMade, WordMade};
ghost use Rattle.lowering.specs.Nodes.{around_ready, mode_of};

use crate::forms::store_tree;
use crate::node::Target;
use crate::words::{load, word};
use affine_index::Aff;
use final_rules::printing::Scene;
use final_rules::spot::{binders, one_gen};
use final_rules::{Read, Spot};
use index_trees::index_tree;
use loop_lang::{Buf, Iexp, Stmt, Wexp};
use owned_values::two;
use sqlite_items::{Boxed, Items};
use std::alloc::{AllocError, Global};
use term_tree::Term;

/// The most sizes and index variables of a form.
const MOST: usize = 2147483647;

/// A store that adds or puts.
fn store_by(adds: bool, buffer: Buf, place: Iexp, word: Wexp) -> Stmt
    ensures { result ≡ stored_by (mode_of adds) buffer place word }
{
    if adds {
        Stmt::AddTo(buffer, place, word)
    } else {
        Stmt::Put(buffer, place, word)
    }
}

/// Adds the store of a word at the place of a leaf.
fn store(
    alloc: Global,
    all: &mut Items<Stmt>,
    target: &Target,
    adds: bool,
    spot: &Spot,
    word: Boxed<Wexp>,
) -> Result<(), AllocError>
    requires few { length spot.now.path ≤ 2147483647 }
    requires around { around_ready spot.now.around ≡ true }
    requires extents { extents_ready target.now.extents ≡ true }
    requires made { StoreMade target.now spot.now }
    ensures { OnOk result (all.new ≡ all.old ++ stored_in target.now adds spot.now word) }
{
    let tree = store_tree(alloc, target, spot)?;
    all.push(store_by(adds, target.buffer, tree, word.into_inner()))
}

/// Adds the store of a term in a scalar position.
pub fn leaf(
    alloc: Global,
    all: &mut Items<Stmt>,
    scene: &Scene,
    target: &Target,
    adds: bool,
    spot: &Spot,
    term: &Term,
) -> Result<(), AllocError>
    requires few { length spot.now.path ≤ 2147483647 }
    requires around { around_ready spot.now.around ≡ true }
    requires extents { extents_ready target.now.extents ≡ true }
    requires made { StoreMade target.now spot.now }
    requires word { WordMade scene.now term.now }
    ensures { OnOk result (all.new ≡ all.old ++ leaf_in scene.now target.now adds spot.now term.now) }
{
    let loops = binders(spot.path.as_slice()) as u32;
    let word = word(alloc, scene, loops, term)?;
    store(alloc, all, target, adds, spot, word)
}

/// Adds the store of a read with no extents left.
fn read_leaf(
    alloc: Global,
    all: &mut Items<Stmt>,
    scene: &Scene,
    target: &Target,
    adds: bool,
    spot: &Spot,
    read: &Read,
) -> Result<(), AllocError>
    requires few { length spot.now.path ≤ 2147483647 }
    requires around { around_ready spot.now.around ≡ true }
    requires extents { extents_ready target.now.extents ≡ true }
    requires made { StoreMade target.now spot.now }
    requires read { ReadMade scene.now read.now }
    ensures { OnOk result (all.new ≡ all.old ++ full_read_in scene.now target.now adds spot.now [] read.now) }
{
    let loops = binders(spot.path.as_slice()) as u32;
    let word = load(alloc, scene, loops, read)?;
    store(alloc, all, target, adds, spot, word)
}

/// An index seen from under one more binder. A variable of a number from 2,147,483,647 on finds no room.
fn moved(alloc: Global, index: &Aff) -> Result<Aff, AllocError>
    ensures { IfOk result (λ x. x ≡ shifted 0 1 index.now) }
{
    if !index.is_scoped(MOST, MOST) {
        return Err(AllocError);
    }
    match index.shift(alloc, 0, 1) {
        Ok(index) => Ok(index),
        Err(_) => Err(AllocError),
    }
}

/// Each index seen from under one more binder.
fn all_moved(alloc: Global, indices: &[Aff]) -> Result<Items<Aff>, AllocError>
    ensures { IfOk result (λ xs. xs ≡ each_shifted indices.now) }
{
    let mut all = Items::new(alloc);
    for index in indices {
        all.push(moved(alloc, index)?)?;
    }
    Ok(all)
}

/// The read with one more index, that of one more binder.
fn one_deeper(alloc: Global, read: &Read) -> Result<Read, AllocError>
    ensures { IfOk result (λ d. d ≡ one_deeper read.now) }
{
    let mut indices = all_moved(alloc, read.indices.as_slice())?;
    match Aff::var(alloc, 0) {
        Ok(innermost) => indices.push(innermost)?,
        Err(_) => return Err(AllocError),
    }
    Ok(Read {
        var: read.var,
        indices,
    })
}

/// Adds a loop around statements.
pub fn row(
    alloc: Global,
    all: &mut Items<Stmt>,
    bound: Iexp,
    parallel: bool,
    body: Items<Stmt>,
) -> Result<(), AllocError>
    ensures { OnOk result (all.new ≡ all.old ++ For bound parallel (Seq body) ∷ []) }
{
    let body = Boxed::new(alloc, Stmt::Seq(body))?;
    all.push(Stmt::For {
        bound,
        parallel,
        body,
    })
}

/// Adds a loop around statements, where there are both.
fn looped(
    alloc: Global,
    all: &mut Items<Stmt>,
    bound: Result<Iexp, AllocError>,
    body: Result<Items<Stmt>, AllocError>,
) -> Result<(), AllocError>
    ensures { (n : Iexp) (ss : List Stmt) → IfOk bound (λ t. t ≡ n) → IfOk body (λ b. b ≡ ss) → OnOk result (all.new ≡ all.old ++ For n false (Seq ss) ∷ []) }
{
    let (bound, body) = two(bound, body)?;
    row(alloc, all, bound, false, body)
}

/// A read under one more loop, of this extent.
#[cycle(full_read)]
fn inside(
    alloc: Global,
    scene: &Scene,
    target: &Target,
    adds: bool,
    spot: &Spot,
    extent: &Aff,
    extents: &[Aff],
    from: usize,
    read: &Read,
) -> Result<Items<Stmt>, AllocError>
    requires few { length spot.now.path ≤ 2147483647 }
    requires around { around_ready spot.now.around ≡ true }
    requires extents { extents_ready target.now.extents ≡ true }
    requires made { FullReadMade scene.now target.now (one_gen extent.now spot.now) (drop from extents.now) (one_deeper read.now) }
    ensures { IfOk result (λ body. body ≡ full_read_in scene.now target.now adds (one_gen extent.now spot.now) (drop from extents.now) (one_deeper read.now)) }
{
    let (inner, read) = two(one_gen(alloc, spot, extent), one_deeper(alloc, read))?;
    let mut body = Items::new(alloc);
    full_read(
        alloc, &mut body, scene, target, adds, &inner, extents, from, &read,
    )?;
    Ok(body)
}

/// Adds a read of these extents from one on: a loop for each, and a store of the full read inside.
#[cycle(full_read)]
pub fn full_read(
    alloc: Global,
    all: &mut Items<Stmt>,
    scene: &Scene,
    target: &Target,
    adds: bool,
    spot: &Spot,
    extents: &[Aff],
    from: usize,
    read: &Read,
) -> Result<(), AllocError>
    requires few { length spot.now.path ≤ 2147483647 }
    requires around { around_ready spot.now.around ≡ true }
    requires extents { extents_ready target.now.extents ≡ true }
    requires made { FullReadMade scene.now target.now spot.now (drop from extents.now) read.now }
    ensures { OnOk result (all.new ≡ all.old ++ full_read_in scene.now target.now adds spot.now (drop from extents.now) read.now) }
{
    if from >= extents.len() {
        return read_leaf(alloc, all, scene, target, adds, spot, read);
    }
    let extent = &extents[from];
    let loops = binders(spot.path.as_slice()) as u32;
    looped(
        alloc,
        all,
        index_tree(alloc, loops, extent),
        inside(
            alloc,
            scene,
            target,
            adds,
            spot,
            extent,
            extents,
            from + 1,
            read,
        ),
    )
}
