//! Goals of leaves.

ghost use Rattle.std.specs.Prelude.{◌≡◌, ◌≤◌, ◌++◌, [], IfOk, OnOk, length, true};
ghost use Rattle.affine_index.specs.Put.{numbers_fit, shifted};
ghost use Rattle.shape_rules.specs.Scopes.{given};
ghost use Rattle.final_rules.specs.Form.{each_shifted, one_deeper};
ghost use Rattle.final_rules.specs.Goals.{drops, full_read_claims, leaf_claims};
ghost use Rattle.final_rules.specs.Rules.{goals_with};
ghost use Rattle.final_judge.specs.Ready.{EachMoves, ReadStands, all_ready};

use crate::drops::drop_goals;
use crate::reads::{read_goals, word_goals};
use affine_index::Aff;
use fact_list::{Facts, copy_bounds, copy_cmps, copy_path};
use final_rules::spot::one_gen;
use final_rules::{Around, Goal, Read, Spot};
use shape_rules::Shapes;
use sqlite_items::Items;
use std::alloc::{AllocError, Global};
use term_tree::Term;

/// The facts of a module along the path of a node.
fn facts_at(alloc: Global, facts: &Facts, spot: &Spot) -> Result<Facts, AllocError>
    ensures { IfOk result (λ f. f ≡ record { sizes = facts.now.sizes; assumes = facts.now.assumes; path = spot.now.path }) }
{
    let Ok(sizes) = copy_bounds(alloc, facts.sizes.as_slice()) else {
        return Err(AllocError);
    };
    let Ok(assumes) = copy_cmps(alloc, facts.assumes.as_slice()) else {
        return Err(AllocError);
    };
    let Ok(path) = copy_path(alloc, spot.path.as_slice()) else {
        return Err(AllocError);
    };
    Ok(Facts {
        sizes,
        assumes,
        path,
    })
}

/// The goals of the truncations around a leaf.
fn truncations(
    alloc: Global,
    goals: &mut Items<Goal>,
    here: &Facts,
    around: &[Around],
) -> Result<(), AllocError>
    requires few { length here.now.path ≤ 2147483647 }
    requires ready { all_ready around.now ≡ true }
    ensures { OnOk result (goals.new ≡ goals.old ++ goals_with here.now (drops here.now.path around.now [])) }
{
    let drops = drop_goals(alloc, here, around)?;
    goals.append(drops)
}

/// Adds the goals of a leaf: what the truncations around it keep, and then the indices of its reads.
pub fn leaf_goals(
    alloc: Global,
    goals: &mut Items<Goal>,
    facts: &Facts,
    shapes: &Shapes,
    spot: &Spot,
    term: &Term,
) -> Result<(), AllocError>
    requires few { length spot.now.path ≤ 2147483647 }
    requires ready { all_ready spot.now.around ≡ true }
    ensures { OnOk result (goals.new ≡ goals.old ++ goals_with facts.now (leaf_claims term.now spot.now (given shapes.now))) }
{
    let here = facts_at(alloc, facts, spot)?;
    truncations(alloc, goals, &here, spot.around.as_slice())?;
    word_goals(alloc, goals, &here, shapes, term)
}

/// The same of a read.
fn read_leaf(
    alloc: Global,
    goals: &mut Items<Goal>,
    facts: &Facts,
    shapes: &Shapes,
    spot: &Spot,
    read: &Read,
) -> Result<(), AllocError>
    requires { ReadStands [] read.now spot.now }
    ensures { OnOk result (goals.new ≡ goals.old ++ goals_with facts.now (full_read_claims [] read.now spot.now (given shapes.now))) }
{
    let here = facts_at(alloc, facts, spot)?;
    truncations(alloc, goals, &here, spot.around.as_slice())?;
    read_goals(alloc, goals, &here, shapes, read)
}

/// An index seen from under one more binder.
fn moved(alloc: Global, index: &Aff) -> Result<Aff, AllocError>
    requires { numbers_fit 0 1 index.now ≡ true }
    ensures { IfOk result (λ x. x ≡ shifted 0 1 index.now) }
{
    match index.shift(alloc, 0, 1) {
        Ok(index) => Ok(index),
        Err(_) => Err(AllocError),
    }
}

/// Each index seen from under one more binder.
fn all_moved(alloc: Global, indices: &[Aff]) -> Result<Items<Aff>, AllocError>
    requires { EachMoves indices.now }
    ensures { IfOk result (λ xs. xs ≡ each_shifted indices.now) }
{
    let mut all = Items::new(alloc);
    for index in indices {
        all.push(moved(alloc, index)?)?;
    }
    Ok(all)
}

/// The read with one more index, that of one more binder.
fn one_deeper(alloc: Global, read: &Read) -> Result<Read, AllocError>
    requires { EachMoves read.now.indices }
    ensures { IfOk result (λ d. d ≡ one_deeper read.now) }
{
    let mut indices = all_moved(alloc, read.indices.as_slice())?;
    match Aff::var(alloc, 0) {
        Ok(innermost) => indices.push(innermost)?,
        Err(_) => return Err(AllocError),
    }
    Ok(Read {
        var: read.var,
        indices,
    })
}

/// Adds the goals of a read that is stored whole: those of as many gens around it as there are extents.
pub fn full_read_goals(
    alloc: Global,
    goals: &mut Items<Goal>,
    facts: &Facts,
    shapes: &Shapes,
    extents: &[Aff],
    read: Read,
    spot: Spot,
) -> Result<(), AllocError>
    requires { ReadStands extents.now read spot }
    ensures { OnOk result (goals.new ≡ goals.old ++ goals_with facts.now (full_read_claims extents.now read spot (given shapes.now))) }
{
    let mut read = read;
    let mut spot = spot;
    for extent in extents {
        read = one_deeper(alloc, &read)?;
        spot = one_gen(alloc, &spot, extent)?;
    }
    read_leaf(alloc, goals, facts, shapes, &spot, &read)
}
