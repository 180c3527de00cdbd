//! One step of a script.

ghost use Rattle.std.specs.Prelude.{◌≡◌, ◌-◌, ◌≤◌, All, IfOk, Some};
ghost use Rattle.path_focus.specs.Focus.{IsProper, KeepsMeaning, KeepsShape, focus_of, plugged_in};
ghost use Rattle.path_focus.specs.Laws.{HasOrdered};
ghost use Rattle.path_focus.specs.Outcome as verdict;
ghost use Rattle.schedule_run.specs.Names.{meant_by};
ghost use Rattle.schedule_run.specs.Verdict as spec;
ghost use Rattle.schedule_run.specs.Verdict.{Answers, step_fault, version_after};
ghost use Rattle.schedule_run.specs.Versions.{IsVersion, MayPlace, MayRun};
ghost use Rattle.source_grammar.specs.Source.{nodes};
ghost use Rattle.term_tree.specs.Counts.{node_count};

use crate::fault::StepKind;
use crate::limits::{all_nodes, within};
use crate::names::{Rule, rule_named};
use linear_cert::Lines;
use path_focus::{Arg, Focus, PathRefusal, RuleFault, focus, plug};
use schedule_script::Step;
use script_arguments::resolve_all;
use sqlite_items::Boxed;
use std::alloc::Global;
use term_tree::{Module, OutputDecl, Path, Term, nodes, told};

/// Tells a proof that the forms of the terms are in order, and does nothing else.
pub fn told_outputs(outputs: &[OutputDecl])
    ensures { All HasOrdered outputs.now }
{
    for output in outputs {
        told(&output.term);
    }
}

/// The term with a rule applied, or the first fault.
fn apply(
    alloc: Global,
    focus: &Focus,
    rule: Rule,
    args: &[Arg],
    lines: &[Lines],
) -> Result<Boxed<Term>, RuleFault>
    requires { IsProper focus.now }
    ensures table { verdict.Answers (verdict.answer (meant_by rule focus.now args.now) lines.now) result }
    ensures keeps { IfOk result (λ e. KeepsMeaning focus.now e × KeepsShape focus.now e) }
{
    match rule {
        Rule::Loop(rule) => rules_loop::apply(alloc, focus, rule, args, lines),
        Rule::Let(rule) => rules_let::apply(alloc, focus, rule, args, lines),
        Rule::Guard(rule) => rules_guard::apply(alloc, focus, rule, args, lines),
        Rule::Shape(rule) => rules_shape::apply(alloc, focus, rule, args, lines),
    }
}

/// How many nodes of the module stand outside the place.
fn outside(module: &Module, focus: &Focus) -> u64
    requires few { nodes «module».now.outputs ≤ 20000 }
    requires within { node_count focus.now.term ≤ nodes «module».now.outputs }
    ensures { result ≡ nodes «module».now.outputs - node_count focus.now.term }
{
    all_nodes(module.outputs.as_slice()) - nodes(focus.term.get())
}

pub fn kind_of(fault: RuleFault, outside: u64) -> StepKind
    ensures { result ≡ step_fault outside fault }
{
    match fault {
        RuleFault::TooManyNodes { nodes } => StepKind::TooManyNodes {
            nodes: outside.saturating_add(nodes),
        },
        RuleFault::CoefficientTooLarge => StepKind::CoefficientTooLarge,
        RuleFault::IndexTooLong => StepKind::IndexTooLong,
        RuleFault::Memory => StepKind::Memory,
        RuleFault::PatternMismatch => StepKind::Rule(RuleFault::PatternMismatch),
        RuleFault::BadArgument => StepKind::Rule(RuleFault::BadArgument),
        RuleFault::ExtraLines => StepKind::Rule(RuleFault::ExtraLines),
        RuleFault::ConditionNotShown { condition } => {
            StepKind::Rule(RuleFault::ConditionNotShown { condition })
        }
    }
}

/// The module with what a rule made at its place, where it is within the limits.
fn placed(
    alloc: Global,
    module: &Module,
    path: &Path,
    term: Boxed<Term>,
) -> Result<Module, StepKind>
    requires may { MayRun «module».now }
    requires place { MayPlace «module».now path.now term }
    ensures answers { Answers (spec.placed (plugged_in «module».now path.now term)) result }
    ensures version { IfOk result (IsVersion «module».now) }
{
    match plug(alloc, module, path, term) {
        Ok(version) => {
            told_outputs(version.outputs.as_slice());
            match within(alloc, &version) {
                Ok(()) => Ok(version),
                Err(kind) => Err(kind),
            }
        }
        Err(PathRefusal::NoSuchPath) => Err(StepKind::NoSuchPath),
        Err(PathRefusal::Memory) => Err(StepKind::Memory),
    }
}

/// The rule applied at its place.
fn applied(
    alloc: Global,
    module: &Module,
    step: &Step,
    rule: Rule,
    focus: &Focus,
) -> Result<Module, StepKind>
    requires may { MayRun «module».now }
    requires there { focus_of «module».now step.now.path ≡ Some focus.now }
    requires proper { IsProper focus.now }
    ensures answers { Answers (spec.applied «module».now step.now rule (Some focus.now)) result }
    ensures version { IfOk result (IsVersion «module».now) }
{
    let sizes = module.sizes.as_slice();
    let args = resolve_all(
        alloc,
        sizes,
        focus,
        step.rule.as_str(),
        step.args.as_slice(),
    )?;
    match apply(alloc, focus, rule, args.as_slice(), step.lines.as_slice()) {
        Ok(term) => placed(alloc, module, &step.path, term),
        Err(fault) => Err(kind_of(fault, outside(module, focus))),
    }
}

/// The rule applied at its place, if it is there.
fn ruled(alloc: Global, module: &Module, step: &Step, rule: Rule) -> Result<Module, StepKind>
    requires { MayRun «module».now }
    ensures answers { Answers (spec.ruled «module».now step.now (Some rule)) result }
    ensures version { IfOk result (IsVersion «module».now) }
{
    match focus(alloc, module, &step.path) {
        Ok(focus) => applied(alloc, module, step, rule, &focus),
        Err(PathRefusal::NoSuchPath) => Err(StepKind::NoSuchPath),
        Err(PathRefusal::Memory) => Err(StepKind::Memory),
    }
}

/// The version after a step, or the first rule that the step breaks. The module stays as it is.
#[tactic(auto, unfolding(crate::specs::Verdict::version_after))]
pub fn version_after(alloc: Global, module: &Module, step: &Step) -> Result<Module, StepKind>
    requires { MayRun «module».now }
    ensures answers { Answers (version_after «module».now step.now) result }
    ensures version { IfOk result (IsVersion «module».now) }
{
    match rule_named(step.rule.as_str()) {
        Some(rule) => ruled(alloc, module, step, rule),
        None => Err(StepKind::NoSuchRule),
    }
}
