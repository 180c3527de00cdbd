//! What is known at a place, and what is asked there, where the conditions of the calls are found to hold.

ghost use Rattle.std.specs.Prelude.{true, ◌≡◌, ◌≤◌, length, IsTrue};
ghost use Rattle.fact_list.specs.Facts.{moves_fit};

use crate::steps::{Step, made};
use affine_index::{Aff, Cmp, Cond};
use fact_list::laws::scoped_facts_move;
use fact_list::{Facts, PathFact, SizeBounds};
use linear_cert::{Line, Lines, default_lines, shown};
use sqlite_items::Items;
use std::alloc::Global;
use std::test::Fail;

/// A node on a path.
#[derive(Drop, Clone, Copy)]
pub enum Node<'a> {
    /// A gen or sum with this extent.
    Binder(&'a [Step]),
    /// A guard, by a form that is at least 0, or is 0.
    AtLeastZero(&'a [Step]),
    Zero(&'a [Step]),
}

fn bounds(alloc: Global, sizes: &[(u64, u64)]) -> Result<Items<SizeBounds>, Fail> {
    let mut bounds = Items::new(alloc);
    for (low, high) in sizes {
        bounds.push(SizeBounds {
            low: *low,
            high: *high,
        })?;
    }
    Ok(bounds)
}

fn guard(alloc: Global, cmp: Cmp) -> Result<PathFact, Fail> {
    let mut all = Items::new(alloc);
    all.push(cmp)?;
    Ok(PathFact::Holds(Cond { all }))
}

fn path_fact(alloc: Global, node: Node) -> Result<PathFact, Fail> {
    match node {
        Node::Binder(extent) => Ok(PathFact::Bound(made(alloc, extent)?)),
        Node::AtLeastZero(form) => guard(alloc, Cmp::Ge(made(alloc, form)?)),
        Node::Zero(form) => guard(alloc, Cmp::Eq(made(alloc, form)?)),
    }
}

fn path(alloc: Global, nodes: &[Node]) -> Result<Items<PathFact>, Fail> {
    let mut path = Items::new(alloc);
    for node in nodes {
        path.push(path_fact(alloc, *node)?)?;
    }
    Ok(path)
}

fn assumes(alloc: Global, forms: &[&[Step]]) -> Result<Items<Cmp>, Fail> {
    let mut assumes = Items::new(alloc);
    for form in forms {
        assumes.push(Cmp::Ge(made(alloc, form)?))?;
    }
    Ok(assumes)
}

/// What is known at a place: the bounds of the sizes, forms that are assumed to be at least 0, and the path from outside.
pub fn facts(
    alloc: Global,
    sizes: &[(u64, u64)],
    forms: &[&[Step]],
    nodes: &[Node],
) -> Result<Facts, Fail> {
    let sizes = bounds(alloc, sizes)?;
    let assumes = assumes(alloc, forms)?;
    let path = path(alloc, nodes)?;
    Ok(Facts {
        sizes,
        assumes,
        path,
    })
}

/// Whether facts are well scoped, and of at most 10,000 sizes and nodes.
fn is_ready(facts: &Facts) -> bool
    ensures sizes { IsTrue result → length facts.now.sizes ≤ 2147483647 }
    ensures path { IsTrue result → length facts.now.path ≤ 2147483647 }
    ensures fit { IsTrue result → moves_fit facts.now.path ≡ true }
{
    scoped_facts_move();
    facts.sizes.len() <= 10000 && facts.path.len() <= 10000 && facts.is_scoped()
}

/// The facts of a goal.
pub fn list(alloc: Global, facts: &Facts, goal: &Aff) -> Result<Items<Cmp>, Fail> {
    if !is_ready(facts) {
        return Ok(Items::new(alloc));
    }
    Ok(facts.list(alloc, goal)?)
}

fn given(alloc: Global, pairs: &[(u32, i64)]) -> Result<Lines, Fail> {
    let mut lines = Items::new(alloc);
    for (fact, multiplier) in pairs {
        lines.push(Line {
            fact: *fact,
            multiplier: *multiplier,
        })?;
    }
    Ok(Lines::Given(lines))
}

/// Whether lines of these numbers and multipliers show a goal.
pub fn shows(
    alloc: Global,
    facts: &Facts,
    goal: &Aff,
    pairs: &[(u32, i64)],
) -> Result<Option<bool>, Fail> {
    if !is_ready(facts) {
        return Ok(None);
    }
    let lines = given(alloc, pairs)?;
    Ok(Some(shown(alloc, facts, goal, &lines)?))
}

/// The lines that the procedure finds for a goal, none where it finds none.
pub fn found(alloc: Global, facts: &Facts, goal: &Aff) -> Result<Items<Line>, Fail> {
    if !is_ready(facts) {
        return Ok(Items::new(alloc));
    }
    match default_lines(alloc, facts, goal)? {
        Some(Lines::Given(lines)) => Ok(lines),
        _ => Ok(Items::new(alloc)),
    }
}
