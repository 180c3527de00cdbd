//! Substitution: the whole term with the replacement of each variable, within the limits.

ghost use Rattle.std.specs.Prelude.{◌≡◌, ◌-◌, ◌^◌, ◌<◌, ◌≤◌, IfOk, min};
ghost use Rattle.term_tree.specs.Counts.{node_count, node_depth};
ghost use Rattle.binders.specs.Answers.{IsMapped, IsWithinLimits, IsWithinReach, NeverRefuses, refused};
ghost use Rattle.binders.specs.Maps.{Keeps, mapped};
ghost use Rattle.binders.specs.Scoped.{KeepsScope};

use crate::counting::count;
use crate::hollow::Hollow;
use crate::mapping::part;
use crate::refusal::MapRefusal;
use crate::var_map::VarMap;
use owned_values::spent;
use std::alloc::Global;
use term_tree::{Depths, Term, told};

/// The most nodes of a term.
const MOST_NODES: u64 = 20_000;

/// Why a term that has too many nodes is refused, for the limits of its forms first. It is not made.
fn over<M: VarMap>(alloc: Global, map: &M, term: &Term, nodes: u64) -> Result<Term, MapRefusal>
    requires deep { node_depth term.now ≤ 2147483647 }
    requires within { IsWithinReach (M.reach map.now) term.now }
    requires count { nodes ≡ min (node_count (mapped (M.meaning map.now) 0 0 term.now)) (2 ^ 64 - 1) }
    requires many { 20000 < nodes }
    ensures { IsMapped (mapped (M.meaning map.now) 0 0 term.now) (refused (M.refusals map.now) term.now) result }
{
    let outside = Depths {
        index: 0,
        tensor: 0,
    };
    let hollow = Hollow { map };
    match part(alloc, &hollow, outside, term) {
        Ok(Some(spare)) => {
            spent(spare);
            Err(MapRefusal::TooManyNodes { nodes })
        }
        Ok(None) => Err(MapRefusal::IndexTooLong),
        Err(refusal) => Err(refusal),
    }
}

/// The mapped term, which has few enough nodes, or why there is none.
fn made<M: VarMap>(alloc: Global, map: &M, term: &Term, nodes: u64) -> Result<Term, MapRefusal>
    requires deep { node_depth term.now ≤ 2147483647 }
    requires within { IsWithinReach (M.reach map.now) term.now }
    requires count { nodes ≡ min (node_count (mapped (M.meaning map.now) 0 0 term.now)) (2 ^ 64 - 1) }
    requires few { nodes ≤ 20000 }
    ensures { IsMapped (mapped (M.meaning map.now) 0 0 term.now) (refused (M.refusals map.now) term.now) result }
{
    let outside = Depths {
        index: 0,
        tensor: 0,
    };
    match part(alloc, map, outside, term) {
        Ok(Some(mapped)) => Ok(mapped),
        Ok(None) => Err(MapRefusal::IndexTooLong),
        Err(refusal) => Err(refusal),
    }
}

/// The mapped term, or why there is none.
fn whole<M: VarMap>(alloc: Global, map: &M, term: &Term) -> Result<Term, MapRefusal>
    requires deep { node_depth term.now ≤ 2147483647 }
    requires within { IsWithinReach (M.reach map.now) term.now }
    ensures { IsMapped (mapped (M.meaning map.now) 0 0 term.now) (refused (M.refusals map.now) term.now) result }
{
    let outside = Depths {
        index: 0,
        tensor: 0,
    };
    match count(alloc, map, outside, term) {
        Ok(nodes) => {
            if nodes > MOST_NODES {
                over(alloc, map, term, nodes)
            } else {
                made(alloc, map, term, nodes)
            }
        }
        Err(refusal) => Err(refusal),
    }
}

/// The term with the replacement of each free variable. The map numbers a replacement as under the binders around
/// the variable. Asks the map once for each index variable of each form, and twice for each tensor variable, since the
/// nodes are counted before the term is made: beside the result, or the nodes of the term where they are too many, one
/// replacement is kept at a time. Copies what stays. A form that is a variable alone is what is put for it; in any other
/// form every number up to its largest variable is looked for.
pub fn map_term<M: VarMap>(alloc: Global, map: &M, term: &Term) -> Result<Term, MapRefusal>
    requires deep { node_depth term.now ≤ 2147483647 }
    requires within { IsWithinReach (M.reach map.now) term.now }
    ensures term { IsMapped (mapped (M.meaning map.now) 0 0 term.now) (refused (M.refusals map.now) term.now) result }
    ensures limits { NeverRefuses (M.refusals map.now) → IsWithinLimits (mapped (M.meaning map.now) 0 0 term.now) result }
    ensures keeps { IfOk result (λ e. Keeps (M.meaning map.now) term.now e) }
    ensures scope { IfOk result (λ e. KeepsScope (M.meaning map.now) term.now e) }
{
    told(term);
    whole(alloc, map, term)
}
