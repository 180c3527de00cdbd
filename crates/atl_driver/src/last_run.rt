// From a last version to what a run of its loops tells.
ghost use Rattle.std.specs.Prelude.{◌≡◌, ◌≢◌, ◌≤◌, [], All, None, length, true, IfErr, IfOk, IsErrOf};
ghost use Rattle.final_rules.specs.Rules.{final_fault};
ghost use Rattle.loop_lang.specs.Form.{IsWellFormed};
ghost use Rattle.lowering_laws.specs.Correct.{HasLengths, IsCorrect};
ghost use Rattle.lowering_laws.specs.Lowered.{loops_of};
ghost use Rattle.run_text.specs.Told.{Answers as Runs};
ghost use Rattle.term_tree.specs.Counts.{node_count, node_depth};
ghost use Rattle.term_tree.specs.Modules.{IsSound, module_scoped};
ghost use Rattle.version_run.specs.VersionRun.{AreBounded, IsVersionFault};
ghost use Rattle.atl_driver.specs.Asked.{IsShortText, errand_of, given_to};
ghost use Rattle.atl_driver.specs.Compile.{Answers, errand_run, loops_run, ran_as, unless_broken};
ghost use Rattle.atl_driver.specs.Correct.{IsToldOf, IsUnran};
ghost use Rattle.atl_driver.specs.declared.fault.Fault.{Fault as FaultValue};

use crate::compile::CompileRefusal;
use crate::faults::unlowerable;
use crate::run_faults::unran;
use crate::task::Task;
use final_rules::Final;
use final_verdict::judge;
use linear_cert::FinalLine;
use loop_lang::Prog;
use lowering::lower;
use owned_values::spent;
use run_text::RunFault;
use std::alloc::Global;
use term_tree::{Module, Path};
use trial_run::run_trial;
use version_run::run_version;

/// What a run of a program of a module tells.
fn program_run(
    alloc: Global,
    module: &Module,
    program: &Prog,
    task: Task<'_>,
) -> Result<Vec<u8>, RunFault>
    requires formed { IsWellFormed program.now }
    requires scoped { module_scoped «module».now ≡ true }
    requires sizes { length «module».now.sizes ≤ 2147483647 }
    requires bounded { AreBounded «module».now.sizes }
    requires inputs { program.now.inputs ≡ length «module».now.inputs }
    requires outputs { length «module».now.outputs ≤ 2147483647 }
    requires nodes { All (λ o. node_count o.term ≤ 20000) «module».now.outputs }
    requires lengths { HasLengths «module».now program.now }
    requires correct { IsCorrect «module».now program.now }
    requires given { IsShortText (errand_of task) }
    ensures answer { Runs (errand_run (errand_of task.entry) «module».now program.now) result }
    ensures told { IfOk result (λ text. IsToldOf (errand_of task.entry) «module».now program.now «module».now text.items) }
    ensures refused { IfErr result (λ fault. IsVersionFault «module».now program.now (given_to (errand_of task.entry)) fault) }
{
    match task {
        Task::OnText(given) => run_version(alloc, module, program, given),
        Task::OfTrial(steps) => run_trial(alloc, steps, module, program),
    }
}

/// What a run of a program of a module tells, or the first fault.
fn program_text(
    alloc: Global,
    module: &Module,
    program: &Prog,
    task: Task<'_>,
) -> Result<Vec<u8>, CompileRefusal>
    requires formed { IsWellFormed program.now }
    requires scoped { module_scoped «module».now ≡ true }
    requires sizes { length «module».now.sizes ≤ 2147483647 }
    requires bounded { AreBounded «module».now.sizes }
    requires inputs { program.now.inputs ≡ length «module».now.inputs }
    requires outputs { length «module».now.outputs ≤ 2147483647 }
    requires nodes { All (λ o. node_count o.term ≤ 20000) «module».now.outputs }
    requires lengths { HasLengths «module».now program.now }
    requires correct { IsCorrect «module».now program.now }
    requires given { IsShortText (errand_of task) }
    ensures answers { Answers (ran_as (errand_run (errand_of task.entry) «module».now program.now)) result }
    ensures told { IfOk result (λ text. IsToldOf (errand_of task.entry) «module».now program.now «module».now text.items) }
    ensures refused { (fault : FaultValue) → IsErrOf result (CompileRefusal.Refused fault) → IsUnran «module».now program.now (given_to (errand_of task.entry)) fault }
{
    match program_run(alloc, module, program, task) {
        Ok(text) => Ok(text),
        Err(fault) => Err(unran(alloc, fault)),
    }
}

/// What a run of the loops of a module that may be lowered tells.
fn run_of(alloc: Global, last: &Final, task: Task<'_>) -> Result<Vec<u8>, CompileRefusal>
    requires sizes { length «last».now.0.sizes ≤ 2147483647 }
    requires bounded { AreBounded «last».now.0.sizes }
    requires inputs { length «last».now.0.inputs ≤ 2147483647 }
    requires outputs { length «last».now.0.outputs ≤ 2147483647 }
    requires nodes { All (λ o. node_count o.term ≤ 20000) «last».now.0.outputs }
    requires given { IsShortText (errand_of task) }
    ensures answers { Answers (loops_run (errand_of task.entry) «last».now.2 «last».now.0) result }
    ensures told { IfOk result (λ text. IsToldOf (errand_of task.entry) «last».now.0 (loops_of «last».now.0 «last».now.2) «last».now.0 text.items) }
    ensures refused { (fault : FaultValue) → IsErrOf result (CompileRefusal.Refused fault) → IsUnran «last».now.0 (loops_of «last».now.0 «last».now.2) (given_to (errand_of task.entry)) fault }
{
    last.told();
    match lower(alloc, last) {
        Ok(program) => {
            let text = program_text(alloc, last.last(), program.get(), task);
            spent(program);
            text
        }
        Err(_) => Err(CompileRefusal::Memory),
    }
}

/// What a run of the loops of a last version with these final lines and marks tells, or the first fault: of the rules of the final form that the version
/// breaks, of the given text, of the run.
pub fn last_run(
    alloc: Global,
    module: &Module,
    finals: &[FinalLine],
    marks: &[Path],
    task: Task<'_>,
) -> Result<Vec<u8>, CompileRefusal>
    requires sound { IsSound «module».now }
    requires some { «module».now.outputs ≢ [] }
    requires sizes { length «module».now.sizes ≤ 2147483647 }
    requires bounded { AreBounded «module».now.sizes }
    requires outputs { length «module».now.outputs ≤ 2147483647 }
    requires nodes { All (λ o. node_count o.term ≤ 20000) «module».now.outputs }
    requires depths { All (λ o. node_depth o.term ≤ 200) «module».now.outputs }
    requires inputs { length «module».now.inputs ≤ 2147483647 }
    requires given { IsShortText (errand_of task) }
    ensures answers { Answers (unless_broken (final_fault «module».now finals.now marks.now) (loops_run (errand_of task.entry) marks.now «module».now)) result }
    ensures accepted { IfOk result (λ _. final_fault «module».now finals.now marks.now ≡ None) }
    ensures told { IfOk result (λ text. IsToldOf (errand_of task.entry) «module».now (loops_of «module».now marks.now) «module».now text.items) }
    ensures refused { (fault : FaultValue) → IsErrOf result (CompileRefusal.Refused fault) → final_fault «module».now finals.now marks.now ≡ None
        → IsUnran «module».now (loops_of «module».now marks.now) (given_to (errand_of task.entry)) fault }
{
    match judge(alloc, module, finals, marks) {
        Ok(last) => {
            let text = run_of(alloc, &last, task);
            spent(last);
            text
        }
        Err(fault) => Err(unlowerable(alloc, fault)),
    }
}
