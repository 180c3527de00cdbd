//! The extent goals of a module.

ghost use Rattle.std.specs.Prelude.{◌≡◌, ◌++◌, ◌≤◌, length, map, true, All, IfErr, IfOk, MatchOption, MatchResult, OnOk};
ghost use Rattle.shape_rules.specs.Admitted.{SoundByLines, each_normal};
ghost use Rattle.shape_rules.specs.Faults.{FailsFirst, HasOne, IsFault, IsHigh, IsModuleFault, RankFits, ShapesHold};
ghost use Rattle.shape_rules.specs.Meant.{SoundByGoals};
ghost use Rattle.shape_rules.specs.Plain.{all_plain, is_plain};
ghost use Rattle.shape_rules.specs.Scopes.{all_free, scope};
ghost use Rattle.term_tree.specs.Goals.{term_goals};
ghost use Rattle.term_tree.specs.Modules as m;
ghost use Rattle.term_tree.specs.Shape.{shape_of};

use crate::extents::{copies, input_shapes};
use crate::fault::{ShapeFault, fault};
use crate::rules::LARGEST_RANK;
use crate::shapes::Shapes;
use crate::walk::{Progress, walk};
use affine_index::Aff;
use sqlite_items::Items;
use std::alloc::Global;
use term_tree::{InputDecl, Module, OutputDecl};

/// The first input of a rank over the limit.
fn high_input(inputs: &[InputDecl]) -> Option<usize>
    ensures { MatchOption result (All RankFits inputs.now) (IsHigh inputs.now) }
{
    for i in 0..inputs.len() {
        if inputs[i].extents.len() > LARGEST_RANK {
            return Some(i);
        }
    }
    None
}

/// The extents of the inputs, one behind another.
fn input_goals(alloc: Global, inputs: &[InputDecl]) -> Result<Items<Aff>, ShapeFault>
    ensures { MatchResult result (λ goals. goals ≡ m.input_goals inputs.now) (λ e. e ≡ ShapeFault.Memory) }
{
    let mut goals = Items::new(alloc);
    for input in inputs {
        goals.append(copies(alloc, input.extents.as_slice())?)?;
    }
    Ok(goals)
}

/// Walks one output.
fn walk_output(
    alloc: Global,
    shapes: &Shapes,
    progress: &mut Progress,
    number: u32,
    output: &OutputDecl,
) -> Result<(), ShapeFault>
    requires plain { is_plain output.now.term ≡ true }
    requires free { all_free (scope shapes.now progress.old.bound) ≡ true }
    ensures shaped { OnOk result (HasOne (scope shapes.now progress.old.bound) output.now) }
    ensures bound { progress.new.bound ≡ progress.old.bound }
    ensures goals { OnOk result (progress.new.goals ≡ progress.old.goals ++ term_goals output.now.term (scope shapes.now progress.old.bound)) }
    ensures fault { IfErr result (IsFault number (shape_of output.now.term (scope shapes.now progress.old.bound))) }
{
    match walk(alloc, shapes, progress, &output.term) {
        Ok(_) => Ok(()),
        Err(trouble) => Err(fault(alloc, number, trouble)),
    }
}

/// Walks the outputs in order, up to the first without a shape.
fn walk_outputs(
    alloc: Global,
    shapes: &Shapes,
    progress: &mut Progress,
    outputs: &[OutputDecl],
) -> Result<(), ShapeFault>
    requires few { length outputs.now ≤ 2147483647 }
    requires plain { all_plain outputs.now ≡ true }
    requires free { all_free (scope shapes.now progress.old.bound) ≡ true }
    ensures shaped { OnOk result (All (HasOne (scope shapes.now progress.old.bound)) outputs.now) }
    ensures goals { OnOk result (progress.new.goals ≡ progress.old.goals ++ m.outputs_goals outputs.now (scope shapes.now progress.old.bound)) }
    ensures fault { IfErr result (FailsFirst (scope shapes.now progress.old.bound) outputs.now) }
{
    for i in 0..outputs.len() {
        match walk_output(alloc, shapes, progress, i as u32, &outputs[i]) {
            Ok(()) => {}
            Err(fault) => return Err(fault),
        }
    }
    Ok(())
}

/// Tells a proof that each goal is a normal form, and does nothing.
fn normal_told(goals: &[Aff])
    ensures { each_normal goals.now ≡ true }
{
    for goal in goals {
        goal.told();
    }
}

/// The numbers that must not be negative at allowed sizes: the extents of the inputs, then in preorder of each output in
/// order the extents of gens and sums, the amounts of truncations with what they leave, and the amounts of pads. Linear
/// in the size of the module: one walk gives shapes and goals.
pub fn extent_goals(alloc: Global, module: &Module) -> Result<Items<Aff>, ShapeFault>
    requires scoped { m.module_scoped «module».now ≡ true }
    requires inputs { length «module».now.inputs ≤ 2147483647 }
    requires outputs { length «module».now.outputs ≤ 2147483647 }
    ensures goals { MatchResult result (λ goals. goals ≡ m.extent_goals «module».now) (IsModuleFault «module».now) }
    ensures shaped { OnOk result (ShapesHold «module».now) }
    ensures sound { IfOk result (SoundByGoals «module».now) }
    ensures admitted { IfOk result (SoundByLines «module».now) }
{
    let inputs = module.inputs.as_slice();
    if let Some(input) = high_input(inputs) {
        return Err(ShapeFault::InputRank(input as u32));
    }
    let shapes = Shapes {
        lets: Items::new(alloc),
        inputs: input_shapes(alloc, inputs)?,
    };
    let mut progress = Progress {
        bound: Items::new(alloc),
        goals: input_goals(alloc, inputs)?,
    };
    walk_outputs(alloc, &shapes, &mut progress, module.outputs.as_slice())?;
    normal_told(progress.goals.as_slice());
    Ok(progress.goals)
}
