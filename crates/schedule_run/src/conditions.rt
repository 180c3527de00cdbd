//! The conditions of one step.

ghost use Rattle.std.specs.Prelude.{◌≡◌, Some};
ghost use Rattle.path_focus.specs.Focus.{IsProper, focus_of};
ghost use Rattle.path_focus.specs.Outcome.{conditions_of};
ghost use Rattle.rules_loop.specs.Rules.{IsConditions};
ghost use Rattle.schedule_run.specs.Conditions.{AnswersOwed, conditions_of_step, owed_at, owed_of};
ghost use Rattle.schedule_run.specs.Names.{meant_by};
ghost use Rattle.schedule_run.specs.Versions.{MayRun};

use crate::fault::StepKind;
use crate::names::{Rule, rule_named};
use crate::stepping::kind_of;
use path_focus::{Arg, Condition, Focus, PathRefusal, RuleFault, focus};
use schedule_script::Step;
use script_arguments::resolve_all;
use sqlite_items::Items;
use std::alloc::Global;
use term_tree::Module;

/// The conditions of a rule at a focus, or that pattern or arguments do not fit.
fn conditions(
    alloc: Global,
    focus: &Focus,
    rule: Rule,
    args: &[Arg],
) -> Result<Items<Condition>, RuleFault>
    requires { IsProper focus.now }
    ensures { IsConditions (conditions_of (meant_by rule focus.now args.now)) result }
{
    match rule {
        Rule::Loop(rule) => rules_loop::conditions(alloc, focus, rule, args),
        Rule::Let(rule) => rules_let::conditions(alloc, focus, rule, args),
        Rule::Guard(rule) => rules_guard::conditions(alloc, focus, rule, args),
        Rule::Shape(rule) => rules_shape::conditions(alloc, focus, rule, args),
    }
}

/// The conditions of the rule of a step at its place.
fn owed_at_place(
    alloc: Global,
    module: &Module,
    step: &Step,
    rule: Rule,
    focus: &Focus,
) -> Result<Items<Condition>, StepKind>
    requires may { MayRun «module».now }
    requires there { focus_of «module».now step.now.path ≡ Some focus.now }
    requires proper { IsProper focus.now }
    ensures { AnswersOwed (owed_at «module».now step.now rule (Some focus.now)) result }
{
    let sizes = module.sizes.as_slice();
    let args = resolve_all(
        alloc,
        sizes,
        focus,
        step.rule.as_str(),
        step.args.as_slice(),
    )?;
    match conditions(alloc, focus, rule, args.as_slice()) {
        Ok(conditions) => Ok(conditions),
        Err(fault) => Err(kind_of(fault, 0)),
    }
}

/// The conditions of the rule of a step, where its place is there.
fn owed(
    alloc: Global,
    module: &Module,
    step: &Step,
    rule: Rule,
) -> Result<Items<Condition>, StepKind>
    requires { MayRun «module».now }
    ensures { AnswersOwed (owed_of «module».now step.now (Some rule)) result }
{
    match focus(alloc, module, &step.path) {
        Ok(focus) => owed_at_place(alloc, module, step, rule, &focus),
        Err(PathRefusal::NoSuchPath) => Err(StepKind::NoSuchPath),
        Err(PathRefusal::Memory) => Err(StepKind::Memory),
    }
}

/// The conditions of a step in order, each with its facts; or that its rule or its path is none, or that pattern or arguments
/// do not fit, as in `run_script`.
#[tactic(auto, unfolding(crate::specs::Conditions::conditions_of_step))]
pub fn step_conditions(
    alloc: Global,
    module: &Module,
    step: &Step,
) -> Result<Items<Condition>, StepKind>
    requires { MayRun «module».now }
    ensures { AnswersOwed (conditions_of_step «module».now step.now) result }
{
    match rule_named(step.rule.as_str()) {
        Some(rule) => owed(alloc, module, step, rule),
        None => Err(StepKind::NoSuchRule),
    }
}
