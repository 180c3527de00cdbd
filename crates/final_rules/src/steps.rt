//! Where the parts of nodes stand.

ghost use Rattle.std.specs.Prelude.{◌≡◌, ◌≤◌, true, length, IfOk};
ghost use Rattle.shape_rules.specs.Scopes.{all_free, given};
ghost use Rattle.region_plan.specs.Shaped.{IsShaped};
ghost use Rattle.fact_list.specs.declared.facts.PathFact.TheVariants.{Holds};
ghost use Rattle.final_rules.specs.declared.spot.Around.TheVariants.{Before};
ghost use Rattle.final_rules.specs.Places.{extents_under, first_of, inside, joined_by, on_path, rest_of, right_of};
ghost use Rattle.final_rules.specs.Steps.{child_spot};

use crate::form::extents_under;
use crate::spot::{Around, Spot, inside, on_path, one_gen, same};
use affine_index::{Aff, Cond};
use fact_list::{PathFact, copy_cmps};
use shape_rules::Shapes;
use shape_rules::extents::{copy, take_first};
use sqlite_items::Items;
use std::alloc::{AllocError, Global};
use term_tree::Term;

/// The first extent, or 0 where there is none.
pub fn first_of(alloc: Global, extents: Items<Aff>) -> Result<Aff, AllocError>
    ensures { IfOk result (λ n. n ≡ first_of extents) }
{
    let mut extents = extents;
    match take_first(&mut extents) {
        Some(first) => Ok(first),
        None => match Aff::literal(alloc, 0) {
            Ok(zero) => Ok(zero),
            Err(_) => Err(AllocError),
        },
    }
}

/// All extents but the first.
pub fn rest_of(extents: Items<Aff>) -> Items<Aff>
    ensures { result ≡ rest_of extents }
{
    let mut extents = extents;
    let _ = take_first(&mut extents);
    extents
}

/// Inside the guard of these comparisons.
pub fn guarded(alloc: Global, spot: &Spot, cond: &Cond) -> Result<Spot, AllocError>
    ensures spot { IfOk result (λ q. q ≡ on_path (Holds cond.now) spot.now) }
    ensures few { IfOk result (λ q. length q.path ≤ 2147483647) }
{
    match copy_cmps(alloc, cond.all.as_slice()) {
        Ok(all) => on_path(alloc, spot, PathFact::Holds(Cond { all })),
        Err(_) => Err(AllocError),
    }
}

/// Inside a flatten, by the second extent of what it joins.
fn joined(alloc: Global, shapes: &Shapes, spot: &Spot, part: &Term) -> Result<Spot, AllocError>
    requires shaped { IsShaped shapes.now part.now }
    requires free { all_free (given shapes.now) ≡ true }
    ensures { IfOk result (λ q. q ≡ inside (joined_by part.now (given shapes.now)) spot.now) }
{
    let extents = extents_under(alloc, shapes, part)?;
    let second = first_of(alloc, rest_of(extents))?;
    inside(alloc, spot, Around::Joined(second))
}

/// Inside a truncation of the last rows, which keeps as many as its own first extent.
fn kept(alloc: Global, shapes: &Shapes, spot: &Spot, term: &Term) -> Result<Spot, AllocError>
    requires shaped { IsShaped shapes.now term.now }
    requires free { all_free (given shapes.now) ≡ true }
    ensures { IfOk result (λ q. q ≡ inside (Before (first_of (extents_under term.now (given shapes.now)))) spot.now) }
{
    let extents = extents_under(alloc, shapes, term)?;
    let rows = first_of(alloc, extents)?;
    inside(alloc, spot, Around::Before(rows))
}

/// Where the right part of a concat stands: behind as many rows as the left part has.
pub fn on_right(
    alloc: Global,
    shapes: &Shapes,
    spot: &Spot,
    left: &Term,
) -> Result<Spot, AllocError>
    requires shaped { IsShaped shapes.now left.now }
    requires free { all_free (given shapes.now) ≡ true }
    ensures { IfOk result (λ q. q ≡ inside (right_of left.now (given shapes.now)) spot.now) }
{
    let extents = extents_under(alloc, shapes, left)?;
    let rows = first_of(alloc, extents)?;
    inside(alloc, spot, Around::Later(rows))
}

/// Where the part of a node with one part stands. The cost is that of the spot, and for a flatten or a truncation of the last rows that of a shape.
#[tactic(auto, using(crate::proofs::StepForms::step_forms))]
pub fn child_spot(
    alloc: Global,
    shapes: &Shapes,
    spot: &Spot,
    term: &Term,
) -> Result<Spot, AllocError>
    requires few { length spot.now.path ≤ 2147483647 }
    requires shaped { IsShaped shapes.now term.now }
    requires free { all_free (given shapes.now) ≡ true }
    ensures spot { IfOk result (λ q. q ≡ child_spot term.now (given shapes.now) spot.now) }
    ensures few { IfOk result (λ q. length q.path ≤ 2147483647) }
{
    match term {
        Term::Gen(extent, _) => one_gen(alloc, spot, extent),
        Term::Sum(extent, _) => on_path(alloc, spot, PathFact::Bound(copy(alloc, extent)?)),
        Term::Guard(cond, _) => guarded(alloc, spot, cond),
        Term::Flatten(part) => joined(alloc, shapes, spot, part.get()),
        Term::Split(rows, _) => inside(alloc, spot, Around::Tiled(*rows)),
        Term::Transpose(_) => inside(alloc, spot, Around::Swapped),
        Term::TruncL(amount, _) => inside(alloc, spot, Around::Without(copy(alloc, amount)?)),
        Term::TruncR(_, _) => kept(alloc, shapes, spot, term),
        Term::PadL(amount, _) => inside(alloc, spot, Around::Later(copy(alloc, amount)?)),
        Term::Lit(_)
        | Term::TVar(_)
        | Term::WordOf(_)
        | Term::Index(_, _)
        | Term::Let(_, _)
        | Term::Add(_, _)
        | Term::Sub(_, _)
        | Term::Mul(_, _)
        | Term::Concat(_, _)
        | Term::PadR(_, _) => same(alloc, spot),
    }
}
