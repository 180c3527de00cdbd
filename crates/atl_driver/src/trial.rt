// The trial of so many steps.
ghost use Rattle.std.specs.Prelude.{◌≤◌, IfOk, IsErrOf, Some, length};
ghost use Rattle.trial_text.specs.TrialText.{trial_script as script_of_trial, trial_source as source_of_trial};
ghost use Rattle.atl_driver.specs.Asked.{OfTrial, Run};
ghost use Rattle.atl_driver.specs.Compile.{Answers, compiled};
ghost use Rattle.atl_driver.specs.Correct.{IsCompiled, IsRefusedSource};
ghost use Rattle.atl_driver.specs.declared.fault.Fault.{Fault as FaultValue};

use crate::compile::{CompileRefusal, emit_bytes};
use crate::emit::Emit;
use crate::task::Task;
use std::alloc::Global;
use trial_text::{trial_script, trial_source};

/// The line of the trial on the source that was made.
fn trial_on(alloc: Global, steps: u64, source: &[u8]) -> Result<Vec<u8>, CompileRefusal>
    requires range { steps ≤ 16 }
    requires source { length source.now ≤ 1048576 }
    ensures answers { Answers (compiled (Run (OfTrial steps)) source.now (Some (script_of_trial steps))) result }
    ensures correct { IfOk result (λ text. IsCompiled (Run (OfTrial steps)) source.now (Some (script_of_trial steps)) text.items) }
    ensures refused { (fault : FaultValue) → IsErrOf result (CompileRefusal.Refused fault) → IsRefusedSource (Run (OfTrial steps)) source.now (Some (script_of_trial steps)) fault }
{
    match trial_script(alloc, steps) {
        Ok(script) => {
            emit_bytes(
                alloc,
                Emit::Run(Task::OfTrial(steps)),
                source,
                Some(script.as_slice()),
            )
        }
        Err(_) => Err(CompileRefusal::Memory),
    }
}

/// The line of the trial of so many steps: its source under its script, run on its given text; or the first fault. Time is that of
/// `compile_bytes`, and of the run.
pub fn trial_bytes(alloc: Global, steps: u64) -> Result<Vec<u8>, CompileRefusal>
    requires { steps ≤ 16 }
    // Which answer it is.
    ensures answers { Answers (compiled (Run (OfTrial steps)) (source_of_trial steps) (Some (script_of_trial steps))) result }
    // The line tells what the source denotes.
    ensures correct { IfOk result (λ text. IsCompiled (Run (OfTrial steps)) (source_of_trial steps) (Some (script_of_trial steps)) text.items) }
    // A fault has its cause.
    ensures refused { (fault : FaultValue) → IsErrOf result (CompileRefusal.Refused fault) → IsRefusedSource (Run (OfTrial steps)) (source_of_trial steps) (Some (script_of_trial steps)) fault }
{
    match trial_source(alloc, steps) {
        Ok(source) => trial_on(alloc, steps, source.as_slice()),
        Err(_) => Err(CompileRefusal::Memory),
    }
}
