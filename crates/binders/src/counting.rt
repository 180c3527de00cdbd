//! The nodes of a mapped term, counted before it is made.

ghost use Rattle.std.specs.Prelude.{◌≡◌, ◌+◌, ◌^◌, ◌<◌, false, not, true};
ghost use Rattle.term_tree.specs.Counts.{depth_fold, node_count};
ghost use Rattle.binders.specs.Answers.{form_beyond, part_causes, place_fold, tensor_refused};
ghost use Rattle.binders.specs.Counting.{IsCount, counts_together, mapped_nodes};

use crate::mapping::{under_index, under_tensor};
use crate::refusal::MapRefusal;
use crate::var_map::VarMap;
use owned_values::spent;
use sqlite_items::Boxed;
use std::alloc::Global;
use term_tree::{Depths, Term, nodes};

/// The nodes of what stands for a tensor variable.
fn replaced<M: VarMap>(alloc: Global, map: &M, depths: Depths, var: u32) -> Result<u64, MapRefusal>
    requires within { (M.reach map.now).has_tensor depths.index depths.tensor var ≡ true }
    ensures { IsCount (node_count ((M.meaning map.now).for_tensor depths.index depths.tensor var)) (λ e. tensor_refused (M.refusals map.now) e depths.index depths.tensor var) result }
{
    match map.tensor(alloc, depths, var) {
        Ok(term) => {
            let count = nodes(&term);
            spent(term);
            Ok(count)
        }
        Err(refusal) => Err(refusal),
    }
}

/// The nodes of a node of one child.
#[cycle(count)]
fn more<M: VarMap>(
    alloc: Global,
    map: &M,
    depths: Depths,
    term: &Boxed<Term>,
) -> Result<u64, MapRefusal>
    requires index { depths.index + depth_fold term.now < 2 ^ 32 }
    requires tensor { depths.tensor + depth_fold term.now < 2 ^ 32 }
    requires within { place_fold (form_beyond (M.reach map.now)) (λ i j q. not ((M.reach map.now).has_tensor i j q)) term.now depths.index depths.tensor ≡ false }
    ensures { IsCount (mapped_nodes (M.meaning map.now) term.now depths.index depths.tensor + 1) (part_causes (M.meaning map.now) (M.refusals map.now) term.now depths.index depths.tensor) result }
{
    match count(alloc, map, depths, term.get()) {
        Ok(nodes) => Ok(nodes.saturating_add(1)),
        Err(refusal) => Err(refusal),
    }
}

#[cycle(count)]
fn inner<M: VarMap>(
    alloc: Global,
    map: &M,
    depths: Depths,
    term: &Boxed<Term>,
) -> Result<u64, MapRefusal>
    requires index { depths.index + depth_fold term.now < 2 ^ 32 }
    requires tensor { depths.tensor + depth_fold term.now < 2 ^ 32 }
    requires within { place_fold (form_beyond (M.reach map.now)) (λ i j q. not ((M.reach map.now).has_tensor i j q)) term.now depths.index depths.tensor ≡ false }
    ensures { IsCount (mapped_nodes (M.meaning map.now) term.now depths.index depths.tensor) (part_causes (M.meaning map.now) (M.refusals map.now) term.now depths.index depths.tensor) result }
{
    count(alloc, map, depths, term.get())
}

fn together(
    first: Result<u64, MapRefusal>,
    second: Result<u64, MapRefusal>,
) -> Result<u64, MapRefusal>
    ensures { result ≡ counts_together first second }
{
    match first {
        Ok(nodes) => match second {
            Ok(rest) => Ok(nodes.saturating_add(rest)),
            Err(refusal) => Err(refusal),
        },
        Err(refusal) => Err(refusal),
    }
}

/// The nodes of the mapped term, where the map has no refusal at a tensor variable. Makes each replacement of a
/// tensor variable and lets it go.
#[cycle(count)]
pub fn count<M: VarMap>(
    alloc: Global,
    map: &M,
    depths: Depths,
    term: &Term,
) -> Result<u64, MapRefusal>
    requires index { depths.index + depth_fold term.now < 2 ^ 32 }
    requires tensor { depths.tensor + depth_fold term.now < 2 ^ 32 }
    requires within { place_fold (form_beyond (M.reach map.now)) (λ i j q. not ((M.reach map.now).has_tensor i j q)) term.now depths.index depths.tensor ≡ false }
    ensures { IsCount (mapped_nodes (M.meaning map.now) term.now depths.index depths.tensor) (part_causes (M.meaning map.now) (M.refusals map.now) term.now depths.index depths.tensor) result }
{
    match term {
        Term::Lit(_) => Ok(1),
        Term::TVar(q) => replaced(alloc, map, depths, *q),
        Term::WordOf(_) => Ok(1),
        Term::Index(e, _) => more(alloc, map, depths, e),
        Term::Gen(_, e) => more(alloc, map, under_index(depths), e),
        Term::Sum(_, e) => more(alloc, map, under_index(depths), e),
        Term::Guard(_, e) => more(alloc, map, depths, e),
        Term::Let(a, b) => together(
            more(alloc, map, depths, a),
            inner(alloc, map, under_tensor(depths), b),
        ),
        Term::Add(a, b) => together(more(alloc, map, depths, a), inner(alloc, map, depths, b)),
        Term::Sub(a, b) => together(more(alloc, map, depths, a), inner(alloc, map, depths, b)),
        Term::Mul(a, b) => together(more(alloc, map, depths, a), inner(alloc, map, depths, b)),
        Term::Concat(a, b) => together(more(alloc, map, depths, a), inner(alloc, map, depths, b)),
        Term::Flatten(e) => more(alloc, map, depths, e),
        Term::Split(_, e) => more(alloc, map, depths, e),
        Term::Transpose(e) => more(alloc, map, depths, e),
        Term::TruncL(_, e) => more(alloc, map, depths, e),
        Term::TruncR(_, e) => more(alloc, map, depths, e),
        Term::PadL(_, e) => more(alloc, map, depths, e),
        Term::PadR(_, e) => more(alloc, map, depths, e),
    }
}
