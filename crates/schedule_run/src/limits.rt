//! The limits of a version.

ghost use Rattle.std.specs.Prelude.{◌≡◌, ◌-◌, ◌^◌, ◌≤◌, length, min, true, MatchResult, Ok, OnOk};
ghost use Rattle.schedule_run.specs.Verdict as spec;
ghost use Rattle.path_focus.specs.Laws.{IsLimitFault};
ghost use Rattle.schedule_run.specs.Verdict.{BreaksLimits, Tells, version_within};
ghost use Rattle.shape_rules.specs.Faults.{ShapesHold};
ghost use Rattle.source_grammar.specs.Source.{nodes};
ghost use Rattle.term_tree.specs.Modules.{module_scoped};

use crate::fault::StepKind;
use shape_rules::{ShapeFault, extent_goals};
use std::alloc::Global;
use term_tree::{Module, OutputDecl, depth, nodes};

/// How deep a term may be; a leaf has depth 0.
const DEEPEST: u64 = 200;

/// How many nodes the terms of a module may have together.
const MOST_NODES: u64 = 20_000;

fn are_shallow(mut outputs: &[OutputDecl]) -> bool
    ensures { result ≡ spec.are_shallow outputs.entry.now }
{
    while let [first, rest @ ..] = outputs {
        if depth(&first.term) > DEEPEST {
            return false;
        }
        outputs = rest;
    }
    true
}

/// The nodes of all terms, or 2^64 - 1 where there are more.
#[tactic(auto, using(crate::proofs::CountLaws::saturated))]
pub fn all_nodes(mut outputs: &[OutputDecl]) -> u64
    ensures { result ≡ min (nodes outputs.entry.now) (2 ^ 64 - 1) }
{
    let mut total = 0u64;
    while let [first, rest @ ..] = outputs {
        total = total.saturating_add(nodes(&first.term));
        outputs = rest;
    }
    total
}

fn limit_of(fault: ShapeFault) -> StepKind
    requires { IsLimitFault fault }
    ensures { result ≡ spec.told_kind fault }
{
    match fault {
        ShapeFault::RankTooLarge(_) => StepKind::RankTooLarge,
        ShapeFault::CoefficientTooLarge(_) => StepKind::CoefficientTooLarge,
        ShapeFault::IndexTooLong(_) => StepKind::IndexTooLong,
        ShapeFault::Memory => StepKind::Memory,
        ShapeFault::InputRank(_) | ShapeFault::RankMismatch(_) | ShapeFault::ShapesDiffer(_) => {
            unreachable!()
        }
    }
}

/// Whether the shape rules hold in a module.
fn shaped(alloc: Global, version: &Module) -> Result<(), StepKind>
    requires scoped { module_scoped version.now ≡ true }
    requires inputs { length version.now.inputs ≤ 2147483647 }
    requires outputs { length version.now.outputs ≤ 2147483647 }
    requires limits { BreaksLimits version.now }
    ensures answers { MatchResult result (λ _. spec.shaped version.now ≡ Ok version.now) (Tells (spec.shaped version.now)) }
    ensures shapes { OnOk result (ShapesHold version.now) }
{
    match extent_goals(alloc, version) {
        Ok(_) => Ok(()),
        Err(fault) => Err(limit_of(fault)),
    }
}

/// Whether a module may be a version, or which limit it breaks first: nodes, depth, and those of shapes. Linear in the module.
#[tactic(auto, using(crate::proofs::CountLaws::fewer_outputs))]
pub fn within(alloc: Global, version: &Module) -> Result<(), StepKind>
    requires scoped { module_scoped version.now ≡ true }
    requires inputs { length version.now.inputs ≤ 2147483647 }
    requires limits { BreaksLimits version.now }
    ensures answers { MatchResult result (λ _. version_within version.now ≡ Ok version.now) (Tells (version_within version.now)) }
    ensures few { OnOk result (nodes version.now.outputs ≤ 20000) }
    ensures shallow { OnOk result (spec.are_shallow version.now.outputs ≡ true) }
    ensures shapes { OnOk result (ShapesHold version.now) }
{
    let outputs = version.outputs.as_slice();
    let nodes = all_nodes(outputs);
    if nodes > MOST_NODES {
        return Err(StepKind::TooManyNodes { nodes });
    }
    if !are_shallow(outputs) {
        return Err(StepKind::TooDeep);
    }
    shaped(alloc, version)
}
