//! The rules of the final form in order, and what they accept.

ghost use Rattle.std.specs.Prelude.{◌≡◌, ◌≢◌, ◌≤◌, [], All, IfOk, MatchResult, None, length};
ghost use Rattle.term_tree.specs.Counts.{node_count};
ghost use Rattle.term_tree.specs.Modules.{IsSound, input_shapes};
ghost use Rattle.final_rules.specs.Accepted.{FormsNormal, IsLowerable};
ghost use Rattle.final_rules.specs.Rules.{final_fault, form_fault, goal_fault, large_fault, line_fault, mark_fault, maxima, module_goals, or_else, printed};
ghost use Rattle.final_rules.specs.declared.fault.FinalFault.TheVariants.{Memory};
ghost use Rattle.final_verdict.specs.Verdict.{Tells, claimed, printed_and_marked};

use crate::copying::{copy_finals, copy_module, copy_paths};
use final_judge::met::claims_fault;
use final_rules::lowerable::form_fault;
use final_rules::marks::mark_fault;
use final_rules::{Final, FinalFault};
use index_limits::first_large;
use linear_cert::FinalLine;
use std::alloc::{AllocError, Global};
use term_tree::{Module, OutputDecl, Path, told};

/// The fault of the printed indices, and else of the marks.
fn last_fault(
    alloc: Global,
    module: &Module,
    parallel: &[Path],
) -> Result<Option<FinalFault>, AllocError>
    requires { IsSound «module».now }
    ensures { IfOk result (λ fault. fault ≡ printed_and_marked «module».now parallel.now) }
{
    match first_large(alloc, module)? {
        Some(number) => Ok(Some(FinalFault::IndexTooLarge(number))),
        None => mark_fault(alloc, module, parallel),
    }
}

/// The fault of the lines and the goals, and else of what comes after them.
fn claimed_fault(
    alloc: Global,
    module: &Module,
    finals: &[FinalLine],
    parallel: &[Path],
) -> Result<Option<FinalFault>, AllocError>
    requires sound { IsSound «module».now }
    requires sizes { length «module».now.sizes ≤ 2147483647 }
    requires nodes { All (λ o. node_count o.term ≤ 20000) «module».now.outputs }
    ensures { IfOk result (λ fault. fault ≡ claimed «module».now finals.now parallel.now) }
{
    let Ok(claims) = claims_fault(alloc, module, finals) else {
        return Err(AllocError);
    };
    match claims {
        Some(fault) => Ok(Some(fault)),
        None => last_fault(alloc, module, parallel),
    }
}

/// The first fault.
fn fault(
    alloc: Global,
    module: &Module,
    finals: &[FinalLine],
    parallel: &[Path],
) -> Result<Option<FinalFault>, AllocError>
    requires sound { IsSound «module».now }
    requires sizes { length «module».now.sizes ≤ 2147483647 }
    requires few { length «module».now.outputs ≤ 2147483647 }
    requires nodes { All (λ o. node_count o.term ≤ 20000) «module».now.outputs }
    ensures { IfOk result (λ fault. fault ≡ final_fault «module».now finals.now parallel.now) }
{
    match form_fault(alloc, module)? {
        Some(fault) => Ok(Some(fault)),
        None => claimed_fault(alloc, module, finals, parallel),
    }
}

/// Tells a proof that the forms of the outputs are normal, and does nothing else.
fn told_outputs(outputs: &[OutputDecl])
    ensures { FormsNormal outputs.now }
{
    for output in outputs {
        told(&output.term);
    }
}

/// What was accepted.
fn kept(
    alloc: Global,
    module: &Module,
    finals: &[FinalLine],
    parallel: &[Path],
) -> Result<Final, FinalFault>
    requires { IsLowerable «module».now finals.now parallel.now }
    ensures { MatchResult result (λ f. f ≡ («module».now, finals.now, parallel.now)) (λ e. e ≡ Memory) }
{
    let finals = copy_finals(alloc, finals)?;
    let parallel = copy_paths(alloc, parallel)?;
    let last = copy_module(alloc, module)?;
    Ok(Final::new(last, finals, parallel))
}

/// A sound module with its final lines and its parallel marks, where they keep all rules of the final form, and else the first that they break: the
/// first node outside the form, the first final line that names no goal or not one above the line before, the first goal that is not shown, the
/// first printed index that is too large, the first mark that is not at a gen without lets or at, inside or around one that is marked before.
/// The time is that of the lines of the goals, and beside them of a shape for each let, leaf and reshape operator; the three are copied once.
pub fn judge(
    alloc: Global,
    module: &Module,
    finals: &[FinalLine],
    parallel: &[Path],
) -> Result<Final, FinalFault>
    requires sound { IsSound «module».now }
    requires some { «module».now.outputs ≢ [] }
    requires sizes { length «module».now.sizes ≤ 2147483647 }
    requires few { length «module».now.outputs ≤ 2147483647 }
    requires nodes { All (λ o. node_count o.term ≤ 20000) «module».now.outputs }
    ensures held { IfOk result (λ f. f ≡ («module».now, finals.now, parallel.now)) }
    ensures answers { MatchResult result (λ _. final_fault «module».now finals.now parallel.now ≡ None) (Tells (final_fault «module».now finals.now parallel.now)) }
{
    told_outputs(module.outputs.as_slice());
    match fault(alloc, module, finals, parallel)? {
        Some(fault) => Err(fault),
        None => kept(alloc, module, finals, parallel),
    }
}
