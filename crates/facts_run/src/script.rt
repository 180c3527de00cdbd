//! The facts of a whole script.

ghost use Rattle.std.specs.Prelude.{◌≡◌, ◌++◌, IfErr, IfOk, MatchResult, None, OnOk};
ghost use Rattle.facts_run.specs.Claims.{facts_text, step_claims};
ghost use Rattle.facts_run.specs.Verdict.{Answers, IsStep, MayTell, Tells, facts_of, refusal};
ghost use Rattle.facts_text.specs.Block.{blocks};
ghost use Rattle.schedule_run.specs.Verdict.{version_after};
ghost use Rattle.std.specs.Prelude.{Some, IfSome};
ghost use Rattle.schedule_run.specs.Versions.{IsVersion};

use crate::conditions::put_owed;
use crate::fault::FactsFault;
use crate::goals::put_last;
use facts_text::Writer;
use owned_values::spent;
use path_focus::RuleFault;
use schedule_run::{StepFault, StepKind, version_after};
use schedule_script::{Script, Step};
use std::alloc::Global;
use term_tree::Module;

/// A version, behind a text that was written.
fn behind(told: Result<(), FactsFault>, next: Module) -> Result<Option<Module>, FactsFault>
    ensures { MatchResult told (λ _. result ≡ Ok (Some next)) (λ e. result ≡ Err e) }
{
    match told {
        Ok(()) => Ok(Some(next)),
        Err(fault) => {
            spent(next);
            Err(fault)
        }
    }
}

/// The version after the step with this number, behind the blocks of its conditions; none where one of them is not shown; or why the step fails.
fn next_version(
    alloc: Global,
    text: &mut Writer,
    module: &Module,
    step: &Step,
    number: u64,
) -> Result<Option<Module>, FactsFault>
    requires { MayTell «module».now }
    ensures told { OnOk result (text.new ≡ text.old ++ blocks «module».now.sizes (step_claims number «module».now step.now)) }
    ensures verdict { IsStep «module».now step.now number result }
    ensures version { IfOk result (λ next. IfSome next (IsVersion «module».now)) }
{
    match version_after(alloc, module, step) {
        Ok(next) => behind(put_owed(alloc, text, module, step, number), next),
        Err(StepKind::Rule(RuleFault::ConditionNotShown { condition: _ })) => {
            put_owed(alloc, text, module, step, number)?;
            Ok(None)
        }
        Err(StepKind::Memory) => Err(FactsFault::Memory),
        Err(kind) => Err(FactsFault::Step(StepFault { step: number, kind })),
    }
}

/// The blocks of a script.
fn put_script(
    alloc: Global,
    text: &mut Writer,
    module: Module,
    script: &Script,
) -> Result<(), FactsFault>
    requires { MayTell «module» }
    ensures told { OnOk result (text.new ≡ text.old ++ facts_text «module» script.now) }
    ensures verdict { MatchResult result (λ _. refusal «module» script.now ≡ None) (Tells (refusal «module» script.now)) }
{
    let mut version = module;
    let steps = script.steps.as_slice();
    for at in 0..steps.len() {
        match next_version(alloc, text, &version, &steps[at], at as u64 + 1) {
            Ok(Some(next)) => version = next,
            Ok(None) => return Ok(()),
            Err(fault) => return Err(fault),
        }
    }
    let finals = script.finals.as_slice();
    put_last(alloc, text, &version, finals, script.parallel.as_slice())
}

/// The text of the facts that a script on a module stands on: a block for each condition of each step in order, then for each goal of the last version, up
/// to and with the first that its lines do not show. It is refused where a step fails, or the last version breaks a rule of the final form, for another
/// reason than a condition or a goal that is not shown; this comes before any text. At most two versions stand at a time. Each condition and each goal
/// is shown twice: for the verdict and for its block.
#[tactic(auto, unfolding(crate::specs::Verdict::facts_of))]
pub fn facts(alloc: Global, module: Module, script: &Script) -> Result<Vec<u8>, FactsFault>
    requires { MayTell «module» }
    ensures { Answers (facts_of «module» script.now) result }
{
    let mut text = Writer::new(alloc);
    match put_script(alloc, &mut text, module, script) {
        Ok(()) => Ok(text.into_bytes()),
        Err(fault) => Err(fault),
    }
}
