//! Lists of extents, the extent that chunks have, and the shapes of tensor variables.

ghost use Rattle.std.specs.Prelude.{◌≡◌, ◌<◌, ◌≤◌, ◌∷◌, [], List, map, IfOk, MatchOption, MatchResult, OnErr, OnOk};
ghost use Rattle.affine_index.specs.Normal.{Refused};
ghost use Rattle.term_tree.specs.Shape.{Extents, tiles};

use crate::shapes::Shapes;
use affine_index::raw::{copied, quotient, sum, within_limits};
use affine_index::{Aff, AffRefusal};
use sqlite_items::Items;
use std::alloc::{AllocError, Global};
use std::mem;
use term_tree::InputDecl;

/// An equal form.
pub fn copy(alloc: Global, form: &Aff) -> Result<Aff, AllocError>
    ensures { IfOk result (λ copy. copy ≡ form.now) }
{
    match form.copy(alloc) {
        Ok(copy) => Ok(copy),
        Err(_) => Err(AllocError),
    }
}

/// Equal extents.
pub fn copies(alloc: Global, extents: &[Aff]) -> Result<Items<Aff>, AllocError>
    ensures { IfOk result (λ copies. copies ≡ extents.now) }
{
    let mut copies = Items::new(alloc);
    for form in extents {
        copies.push(copy(alloc, form)?)?;
    }
    Ok(copies)
}

/// Takes the first item, as of extents the outermost, where there is one.
pub fn take_first<T: Drop>(items: &mut Items<T>) -> Option<T>
    ensures { MatchOption result ((items.old ≡ []) × (items.new ≡ [])) (λ first. items.old ≡ first ∷ items.new) }
{
    if items.is_empty() {
        None
    } else {
        Some(items.remove(0))
    }
}

/// An item in front of others.
pub fn in_front<T: Drop>(alloc: Global, first: T, rest: Items<T>) -> Result<Items<T>, AllocError>
    ensures { IfOk result (λ all. all ≡ first ∷ rest) }
{
    let mut all = Items::new(alloc);
    all.push(first)?;
    all.append(rest)?;
    Ok(all)
}

/// How many chunks of k rows hold n rows, the last perhaps in part. The forms on the way have no limits.
pub fn tiles(alloc: Global, k: u32, n: &Aff) -> Result<Aff, AffRefusal>
    requires positive { 0 < k }
    requires limit { k ≤ 2147483647 }
    ensures { MatchResult result (λ form. form ≡ tiles k n.now) (Refused (tiles k n.now)) }
{
    let more = Aff::literal(alloc, i64::from(k - 1))?;
    let a = copied(alloc, n)?;
    let b = copied(alloc, &more)?;
    let total = sum(alloc, a, b)?;
    let chunks = quotient(alloc, total, k)?;
    within_limits(alloc, chunks)
}

/// The declared extents of each input, in order.
pub fn input_shapes(alloc: Global, inputs: &[InputDecl]) -> Result<Items<Items<Aff>>, AllocError>
    ensures { IfOk result (λ ts. ts ≡ map (λ d. d.extents) inputs.now) }
{
    let mut shapes = Items::new(alloc);
    for input in inputs {
        shapes.push(copies(alloc, input.extents.as_slice())?)?;
    }
    Ok(shapes)
}

/// Enters a let of these extents, which is then the innermost; for want of memory the lets are gone. Cost: the lets around.
pub fn enter(alloc: Global, shapes: &mut Shapes, extents: Items<Aff>) -> Result<(), AllocError>
    ensures entered { OnOk result (shapes.new ≡ record { lets = extents ∷ shapes.old.lets; inputs = shapes.old.inputs }) }
    ensures refused { OnErr result (shapes.new ≡ record { lets = []; inputs = shapes.old.inputs }) }
{
    let outer = mem::replace(&mut shapes.lets, Items::new(alloc));
    shapes.lets = in_front(alloc, extents, outer)?;
    Ok(())
}

/// Leaves the innermost let, where there is one.
pub fn leave(shapes: &mut Shapes)
    ensures left { (ns : Extents) (rest : List Extents) → shapes.old.lets ≡ ns ∷ rest → shapes.new ≡ record { lets = rest; inputs = shapes.old.inputs } }
    ensures none { shapes.old.lets ≡ [] → shapes.new ≡ shapes.old }
{
    let _ = take_first(&mut shapes.lets);
}
