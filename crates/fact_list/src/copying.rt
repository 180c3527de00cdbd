//! Copies of what is known at a place. Each allocates as much as what it copies.

ghost use Rattle.std.specs.Prelude.{◌≡◌, IfOk};

use crate::facts::{Facts, PathFact, SizeBounds};
use crate::forms::{copied, copied_cmp};
use crate::refusal::CertRefusal;
use affine_index::{Cmp, Cond};
use sqlite_items::Items;
use std::alloc::Global;

/// Equal bounds of sizes.
pub fn copy_bounds(alloc: Global, sizes: &[SizeBounds]) -> Result<Items<SizeBounds>, CertRefusal>
    ensures { IfOk result (λ copy. copy ≡ sizes.now) }
{
    let mut copies = Items::new(alloc);
    for bounds in sizes {
        copies.push(SizeBounds {
            low: bounds.low,
            high: bounds.high,
        })?;
    }
    Ok(copies)
}

/// Equal comparisons.
pub fn copy_cmps(alloc: Global, cmps: &[Cmp]) -> Result<Items<Cmp>, CertRefusal>
    ensures { IfOk result (λ copy. copy ≡ cmps.now) }
{
    let mut copies = Items::new(alloc);
    for cmp in cmps {
        copies.push(copied_cmp(alloc, cmp)?)?;
    }
    Ok(copies)
}

/// An equal fact of a path.
pub fn copy_path_fact(alloc: Global, fact: &PathFact) -> Result<PathFact, CertRefusal>
    ensures { IfOk result (λ copy. copy ≡ fact.now) }
{
    match fact {
        PathFact::Bound(extent) => Ok(PathFact::Bound(copied(alloc, extent)?)),
        PathFact::Holds(cond) => Ok(PathFact::Holds(Cond {
            all: copy_cmps(alloc, cond.all.as_slice())?,
        })),
    }
}

/// An equal path.
pub fn copy_path(alloc: Global, path: &[PathFact]) -> Result<Items<PathFact>, CertRefusal>
    ensures { IfOk result (λ copy. copy ≡ path.now) }
{
    let mut copies = Items::new(alloc);
    for fact in path {
        copies.push(copy_path_fact(alloc, fact)?)?;
    }
    Ok(copies)
}

/// The same facts.
pub fn copy_facts(alloc: Global, facts: &Facts) -> Result<Facts, CertRefusal>
    ensures { IfOk result (λ copy. copy ≡ facts.now) }
{
    let sizes = copy_bounds(alloc, facts.sizes.as_slice())?;
    let assumes = copy_cmps(alloc, facts.assumes.as_slice())?;
    let path = copy_path(alloc, facts.path.as_slice())?;
    Ok(Facts {
        sizes,
        assumes,
        path,
    })
}
