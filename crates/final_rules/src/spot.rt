//! Where a node stands within its buffer.

ghost use Rattle.std.specs.Prelude.{◌≡◌, ◌∷◌, ◌++◌, ◌≤◌, [], length, IfOk};
ghost use Rattle.fact_list.specs.Facts.{binders};
ghost use Rattle.final_rules.specs.Places.{alone, inside, on_path, one_gen};

use affine_index::Aff;
use fact_list::{PathFact, copy_path};
use owned_values::two;
use shape_rules::extents::{copy, in_front};
use sqlite_items::Items;
use std::alloc::{AllocError, Global};

/// A node around a place, within the same buffer. Extents and amounts are forms over sizes alone.
#[derive(Drop)]
pub enum Around {
    /// A gen, by the depth of its loop from the outside.
    Loop(u32),
    /// The first two indices change places.
    Swapped,
    /// The first two indices become one, by the second extent.
    Joined(Aff),
    /// The first index becomes two.
    Tiled(u32),
    /// Rows before: a pad, or the right part of a concat.
    Later(Aff),
    /// The first rows are left out.
    Without(Aff),
    /// So many rows are kept, and the last ones are left out.
    Before(Aff),
}

/// What is known at a node, from the outside, and what stands around it within its buffer, from the node outward.
#[derive(Drop)]
pub struct Spot {
    pub path: Items<PathFact>,
    pub around: Items<Around>,
}

/// The most facts of a path.
const LONGEST_PATH: usize = 2147483647;

fn copy_around(alloc: Global, around: &Around) -> Result<Around, AllocError>
    ensures { IfOk result (λ copy. copy ≡ around.now) }
{
    match around {
        Around::Loop(depth) => Ok(Around::Loop(*depth)),
        Around::Swapped => Ok(Around::Swapped),
        Around::Joined(extent) => Ok(Around::Joined(copy(alloc, extent)?)),
        Around::Tiled(rows) => Ok(Around::Tiled(*rows)),
        Around::Later(amount) => Ok(Around::Later(copy(alloc, amount)?)),
        Around::Without(amount) => Ok(Around::Without(copy(alloc, amount)?)),
        Around::Before(rows) => Ok(Around::Before(copy(alloc, rows)?)),
    }
}

fn copy_all(alloc: Global, all: &[Around]) -> Result<Items<Around>, AllocError>
    ensures { IfOk result (λ copies. copies ≡ all.now) }
{
    let mut copies = Items::new(alloc);
    for around in all {
        copies.push(copy_around(alloc, around)?)?;
    }
    Ok(copies)
}

fn path_of(alloc: Global, spot: &Spot) -> Result<Items<PathFact>, AllocError>
    ensures { IfOk result (λ path. path ≡ spot.now.path) }
{
    match copy_path(alloc, spot.path.as_slice()) {
        Ok(path) => Ok(path),
        Err(_) => Err(AllocError),
    }
}

/// One fact further in. A path over 2,147,483,647 facts finds no room.
fn longer(alloc: Global, spot: &Spot, fact: PathFact) -> Result<Items<PathFact>, AllocError>
    ensures path { IfOk result (λ path. path ≡ spot.now.path ++ fact ∷ []) }
    ensures few { IfOk result (λ path. length path ≤ 2147483647) }
{
    if spot.path.len() >= LONGEST_PATH {
        return Err(AllocError);
    }
    let mut path = path_of(alloc, spot)?;
    path.push(fact)?;
    Ok(path)
}

/// Inside one more binder or guard.
pub fn on_path(alloc: Global, spot: &Spot, fact: PathFact) -> Result<Spot, AllocError>
    ensures spot { IfOk result (λ q. q ≡ on_path fact spot.now) }
    ensures few { IfOk result (λ q. length q.path ≤ 2147483647) }
{
    let (path, around) = two(
        longer(alloc, spot, fact),
        copy_all(alloc, spot.around.as_slice()),
    )?;
    Ok(Spot { path, around })
}

/// Inside one more node of the same buffer.
pub fn inside(alloc: Global, spot: &Spot, node: Around) -> Result<Spot, AllocError>
    ensures { IfOk result (λ q. q ≡ inside node spot.now) }
{
    let around = copy_all(alloc, spot.around.as_slice())?;
    let around = in_front(alloc, node, around)?;
    let path = path_of(alloc, spot)?;
    Ok(Spot { path, around })
}

/// In the definition of a let, whose tensor is a buffer of its own.
pub fn alone(alloc: Global, spot: &Spot) -> Result<Spot, AllocError>
    ensures { IfOk result (λ q. q ≡ alone spot.now) }
{
    let path = path_of(alloc, spot)?;
    let around = Items::new(alloc);
    Ok(Spot { path, around })
}

/// One for a binder, and none for a guard.
fn binder_count(fact: &PathFact) -> usize
    ensures { result ≡ binders (fact.now ∷ []) }
{
    match fact {
        PathFact::Bound(_) => 1,
        PathFact::Holds(_) => 0,
    }
}

/// The number of binders on a path.
pub fn binders(path: &[PathFact]) -> usize
    ensures count { result ≡ binders path.now }
    ensures few { result ≤ length path.now }
{
    let mut count = 0;
    for fact in path {
        count += binder_count(fact);
    }
    count
}

/// Inside a gen, whose variable comes in front of the indices.
pub fn one_gen(alloc: Global, spot: &Spot, extent: &Aff) -> Result<Spot, AllocError>
    requires { length spot.now.path ≤ 2147483647 }
    ensures spot { IfOk result (λ q. q ≡ one_gen extent.now spot.now) }
    ensures few { IfOk result (λ q. length q.path ≤ 2147483647) }
{
    let depth = binders(spot.path.as_slice());
    let bound = PathFact::Bound(copy(alloc, extent)?);
    let node = Around::Loop(depth as u32);
    let inner = inside(alloc, spot, node)?;
    let path = longer(alloc, spot, bound)?;
    let Spot { around, .. } = inner;
    Ok(Spot { path, around })
}

/// An equal spot.
pub fn same(alloc: Global, spot: &Spot) -> Result<Spot, AllocError>
    ensures { IfOk result (λ q. q ≡ spot.now) }
{
    let path = path_of(alloc, spot)?;
    let around = copy_all(alloc, spot.around.as_slice())?;
    Ok(Spot { path, around })
}
