//! Whole scripts.

ghost use Rattle.std.specs.Prelude.{◌≡◌, ◌∷◌, ◌++◌, [], All, IfOk, OnOk, IfErr};
ghost use Rattle.schedule_run.specs.Versions.{Answers, AnswersAll, IsVersion, MayRun, last_version_of, versions_of};
ghost use Rattle.schedule_run.specs.declared.fault.StepKind.TheVariants.{Memory};

use crate::fault::{StepFault, StepKind};
use crate::stepping::{told_outputs, version_after};
use schedule_script::{Script, Step};
use sqlite_items::Items;
use std::alloc::Global;
use term_tree::Module;

/// The versions of a module: itself, and then one after each step.
#[derive(Drop)]
pub struct Staged {
    pub versions: Items<Module>,
}

/// The fault of the step with this number.
fn failed(step: u64, kind: StepKind) -> StepFault
    ensures { result ≡ record { step = step; kind = kind } }
{
    StepFault { step, kind }
}

/// One more version, at this step.
fn keep(versions: &mut Items<Module>, version: Module, step: u64) -> Result<(), StepFault>
    ensures kept { OnOk result (versions.new ≡ versions.old ++ version ∷ []) }
    ensures refused { IfErr result (λ fault. fault.kind ≡ Memory) }
{
    match versions.push(version) {
        Ok(()) => Ok(()),
        Err(_) => Err(failed(step, StepKind::Memory)),
    }
}

/// The last version.
fn last_after(alloc: Global, module: Module, mut steps: &[Step]) -> Result<Module, StepFault>
    requires { MayRun «module» }
    ensures answers { Answers (last_version_of «module» steps.entry.now) result }
    ensures version { IfOk result (IsVersion «module») }
{
    told_outputs(module.outputs.as_slice());
    let mut version = module;
    let mut number = 0u64;
    while let [step, rest @ ..] = steps {
        number += 1;
        match version_after(alloc, &version, step) {
            Ok(next) => version = next,
            Err(kind) => return Err(failed(number, kind)),
        }
        steps = rest;
    }
    Ok(version)
}

/// All versions.
fn all_after(alloc: Global, module: Module, steps: &[Step]) -> Result<Staged, StepFault>
    requires { MayRun «module» }
    ensures answers { AnswersAll (versions_of «module» steps.now) result }
    ensures versions { IfOk result (λ staged. All (IsVersion «module») staged.versions) }
{
    told_outputs(module.outputs.as_slice());
    let mut versions = Items::new(alloc);
    let mut version = module;
    for at in 0..steps.len() {
        let number = at as u64 + 1;
        let after = version_after(alloc, &version, &steps[at]);
        let next = match after {
            Ok(next) => next,
            Err(kind) => return Err(failed(number, kind)),
        };
        keep(&mut versions, version, number)?;
        version = next;
    }
    keep(&mut versions, version, steps.len() as u64)?;
    Ok(Staged { versions })
}

/// The last version of a module under a script, which denotes what the module does; or the first step that fails. At most two
/// versions stand at a time. Each step takes the time of its rule and of its conditions, and is linear in the module beside.
pub fn last_version(alloc: Global, module: Module, script: &Script) -> Result<Module, StepFault>
    requires { MayRun «module» }
    ensures answers { Answers (last_version_of «module» script.now.steps) result }
    ensures version { IfOk result (IsVersion «module») }
{
    last_after(alloc, module, script.steps.as_slice())
}

/// The versions of a module under a script, the module first, each denoting what the module does; or the first step that fails.
/// The verdict is that of `last_version`.
pub fn run_script(alloc: Global, module: Module, script: &Script) -> Result<Staged, StepFault>
    requires { MayRun «module» }
    ensures answers { AnswersAll (versions_of «module» script.now.steps) result }
    ensures versions { IfOk result (λ staged. All (IsVersion «module») staged.versions) }
{
    all_after(alloc, module, script.steps.as_slice())
}
