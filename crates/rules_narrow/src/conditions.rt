//! The conditions under which a sum has no turn outside a range.

ghost use Rattle.std.specs.Prelude.{◌≡◌, ◌++◌, IfOk};
ghost use Rattle.rules_narrow.specs.Narrow as narrow;

use crate::range::{behind, since, until};
use affine_index::{Aff, Cond};
use fact_list::{CertRefusal, Facts, PathFact, copy_bounds, copy_cmps, copy_path};
use path_focus::Condition;
use path_focus::making::{condition, not_negative};
use rule_parts::build::copied_form;
use rule_parts::conds::copied_cond;
use sqlite_items::Items;
use std::alloc::Global;

/// What is known of sizes alone.
fn outside(alloc: Global, facts: &Facts) -> Result<Facts, CertRefusal>
    ensures { IfOk result (λ known. known ≡ narrow.outside facts.now) }
{
    let sizes = copy_bounds(alloc, facts.sizes.as_slice())?;
    let assumes = copy_cmps(alloc, facts.assumes.as_slice())?;
    Ok(Facts {
        sizes,
        assumes,
        path: Items::new(alloc),
    })
}

/// What is known of a term within a guard within a sum.
fn inside(alloc: Global, facts: &Facts, n: &Aff, cond: &Cond) -> Result<Facts, CertRefusal>
    ensures { IfOk result (λ known. known ≡ narrow.inside facts.now n.now cond.now) }
{
    let mut path = copy_path(alloc, facts.path.as_slice())?;
    path.push(PathFact::Bound(copied_form(alloc, n)?))?;
    path.push(PathFact::Holds(copied_cond(alloc, cond)?))?;
    let sizes = copy_bounds(alloc, facts.sizes.as_slice())?;
    let assumes = copy_cmps(alloc, facts.assumes.as_slice())?;
    Ok(Facts {
        sizes,
        assumes,
        path,
    })
}

/// That m is at least 0, by what is known of sizes alone.
fn some_turns(alloc: Global, facts: &Facts, m: &Aff) -> Result<Condition, CertRefusal>
    ensures { IfOk result (λ c. c ≡ narrow.some_turns facts.now m.now) }
{
    let known = outside(alloc, facts)?;
    not_negative(alloc, &known, m)
}

/// That the turns of a range end within the sum.
fn ends_within(
    alloc: Global,
    facts: &Facts,
    n: &Aff,
    a: &Aff,
    m: &Aff,
) -> Result<Condition, CertRefusal>
    ensures { IfOk result (λ c. c ≡ narrow.ends_within facts.now n.now a.now m.now) }
{
    let goal = behind(alloc, n, a, m)?;
    condition(alloc, facts, goal)
}

fn range_within(
    alloc: Global,
    facts: &Facts,
    n: &Aff,
    a: &Aff,
    m: &Aff,
) -> Result<Items<Condition>, CertRefusal>
    ensures { IfOk result (λ all. all ≡ narrow.range_within facts.now n.now a.now m.now) }
{
    let mut all = Items::new(alloc);
    all.push(not_negative(alloc, facts, a)?)?;
    all.push(some_turns(alloc, facts, m)?)?;
    all.push(ends_within(alloc, facts, n, a, m)?)?;
    Ok(all)
}

/// That the turns at which the guard holds are at or after the start, and before the end.
fn turns_within(
    alloc: Global,
    known: &Facts,
    x: &Aff,
    m: &Aff,
) -> Result<Items<Condition>, CertRefusal>
    ensures { IfOk result (λ all. all ≡ narrow.turns_within known.now x.now m.now) }
{
    let begun = since(alloc, x)?;
    let mut all = Items::new(alloc);
    all.push(condition(alloc, known, begun)?)?;
    let left = until(alloc, x, m)?;
    all.push(condition(alloc, known, left)?)?;
    Ok(all)
}

/// The conditions in order, for the turns from a on, which is x within the sum.
pub fn narrowing(
    alloc: Global,
    facts: &Facts,
    n: &Aff,
    cond: &Cond,
    a: &Aff,
    x: &Aff,
    m: &Aff,
) -> Result<Items<Condition>, CertRefusal>
    ensures { IfOk result (λ all. all ≡ narrow.range_within facts.now n.now a.now m.now ++ narrow.turns_within (narrow.inside facts.now n.now cond.now) x.now m.now) }
{
    let known = inside(alloc, facts, n, cond)?;
    let turns = turns_within(alloc, &known, x, m)?;
    let mut all = range_within(alloc, facts, n, a, m)?;
    all.append(turns)?;
    Ok(all)
}
