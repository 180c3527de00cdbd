//! The plan of a module.

ghost use Rattle.std.specs.Prelude.{◌≡◌, ◌≤◌, ◌+◌, [], drop, length, map, take, true, IfOk, MatchResult, Ok, OnOk};
ghost use Rattle.reindexer.specs.Limited.{Answers};
ghost use Rattle.shape_rules.specs.Scopes.{all_free, given};
ghost use Rattle.term_tree.specs.Modules.{IsSound};
ghost use Rattle.region_plan.specs.Correct.{IsNeed, IsPlan, IsRight};
ghost use Rattle.region_plan.specs.Needed.{by_halves, largest_of, module_needed, needs_after};
ghost use Rattle.region_plan.specs.Planned.{module_planned, no_outputs, outputs_after, with_output};
ghost use Rattle.region_plan.specs.Shaped.{EachShaped};

use crate::extents::outside;
use crate::length::{Length, larger_of, length_tree, zero};
use crate::needs::{need, nothing};
use crate::planned::{Outputs, Planned};
use crate::refusal::PlanRefusal;
use crate::region::Plan;
use crate::walk::walk;
use affine_index::{Aff, AffRefusal};
use shape_rules::Shapes;
use sqlite_items::Items;
use std::alloc::Global;
use term_tree::{Module, OutputDecl};

/// One more output.
fn with_output(all: Outputs, plan: Planned) -> Result<Outputs, AffRefusal>
    ensures { MatchResult result (λ r. r ≡ with_output all plan) (λ e. e ≡ AffRefusal.Memory) }
{
    let Outputs {
        mut offsets,
        mut needs,
    } = all;
    let Planned {
        offsets: more,
        need,
    } = plan;
    offsets.append(more)?;
    needs.push(need)?;
    Ok(Outputs { offsets, needs })
}

/// The offsets of the lets of the outputs, and what each output needs.
fn outputs(
    alloc: Global,
    shapes: &mut Shapes,
    outputs: &[OutputDecl],
) -> Result<Outputs, AffRefusal>
    requires shaped { EachShaped shapes.old outputs.now }
    requires free { all_free (given shapes.old) ≡ true }
    ensures { Answers (outputs_after no_outputs outputs.now (given shapes.old)) result }
{
    let mut all = Outputs {
        offsets: Items::new(alloc),
        needs: Items::new(alloc),
    };
    let none = zero(alloc)?;
    for output in outputs {
        let plan = walk(alloc, shapes, &output.term, &none, &none)?;
        all = with_output(all, plan)?;
    }
    Ok(all)
}

/// What each of the outputs needs.
fn needs(
    alloc: Global,
    shapes: &mut Shapes,
    outputs: &[OutputDecl],
) -> Result<Items<Length>, AffRefusal>
    requires shaped { EachShaped shapes.old outputs.now }
    requires free { all_free (given shapes.old) ≡ true }
    ensures { Answers (needs_after [] outputs.now (given shapes.old)) result }
{
    let mut all = Items::new(alloc);
    for output in outputs {
        let length = need(alloc, shapes, &output.term)?;
        all.push(length)?;
    }
    Ok(all)
}

/// The larger of so many lengths from the front on, by halves, which are halved at most so often.
fn by_halves(
    alloc: Global,
    lengths: &mut Items<Length>,
    count: usize,
    room: usize,
) -> Result<Length, AffRefusal>
    requires there { count ≤ length lengths.old }
    requires room { count ≤ room + 1 }
    ensures larger { MatchResult result (λ l. l ≡ by_halves room (take count lengths.old)) (λ e. e ≡ AffRefusal.Memory) }
    ensures rest { OnOk result (lengths.new ≡ drop count lengths.old) }
{
    if count == 0 {
        return nothing(alloc);
    }
    if count == 1 {
        return Ok(lengths.remove(0));
    }
    let half = count / 2 + count % 2;
    let first = by_halves(alloc, lengths, half, room - 1)?;
    let second = by_halves(alloc, lengths, count - half, room - 1)?;
    larger_of(alloc, first, second)
}

/// The larger of all lengths.
fn largest_of(alloc: Global, lengths: Items<Length>) -> Result<Length, AffRefusal>
    ensures { MatchResult result (λ l. l ≡ largest_of lengths) (λ e. e ≡ AffRefusal.Memory) }
{
    let mut rest = lengths;
    let count = rest.len();
    by_halves(alloc, &mut rest, count, count)
}

fn planned(alloc: Global, module: &Module) -> Result<Planned, AffRefusal>
    requires { IsSound «module».now }
    ensures { Answers (module_planned «module».now) result }
{
    let mut shapes = outside(alloc, module.inputs.as_slice())?;
    let Outputs { offsets, needs } = outputs(alloc, &mut shapes, module.outputs.as_slice())?;
    let need = largest_of(alloc, needs)?;
    Ok(Planned { offsets, need })
}

fn printed(alloc: Global, planned: Planned) -> Result<Plan, PlanRefusal>
    ensures { IsPlan (Ok planned) result }
{
    let Planned { offsets, need } = planned;
    match length_tree(alloc, &need) {
        Ok(length) => Ok(Plan { offsets, length }),
        Err(_) => Err(PlanRefusal::Memory),
    }
}

/// How long the region of scratch is that serves all lets: the largest need of the outputs, by halves. A let needs the words of
/// its tensor and the larger need of its definition and its body. The first form on the way that breaks a limit decides a
/// refusal, which is never NotAffine: of each let the words of its tensor over the extents from the first, its definition, its
/// body, and last what it needs.
pub fn scratch_length(alloc: Global, module: &Module) -> Result<Length, AffRefusal>
    requires { IsSound «module».now }
    ensures length { Answers (module_needed «module».now) result }
    ensures need { IfOk result (IsNeed «module».now) }
{
    let mut shapes = outside(alloc, module.inputs.as_slice())?;
    let needs = needs(alloc, &mut shapes, module.outputs.as_slice())?;
    let length = largest_of(alloc, needs)?;
    Ok(length)
}

/// Where the tensors of the lets stand in one region of scratch, in preorder over the outputs in order, and how long the
/// region is: 0 where there is no let. The first form on the way that breaks a limit decides a refusal: of each let its offset,
/// the words of its tensor over the extents from the first, its definition, its body, and last what it needs. Linear in the
/// term, and in the shapes of the definitions at each let around them.
pub fn plan(alloc: Global, module: &Module) -> Result<Plan, PlanRefusal>
    requires { IsSound «module».now }
    ensures plan { IsPlan (module_planned «module».now) result }
    ensures right { IfOk result (IsRight «module».now) }
{
    match planned(alloc, module) {
        Ok(planned) => printed(alloc, planned),
        Err(AffRefusal::CoefficientTooLarge) => Err(PlanRefusal::CoefficientTooLarge),
        Err(AffRefusal::IndexTooLong) => Err(PlanRefusal::IndexTooLong),
        Err(AffRefusal::Memory) => Err(PlanRefusal::Memory),
        Err(AffRefusal::NotAffine) => unreachable!(),
    }
}
