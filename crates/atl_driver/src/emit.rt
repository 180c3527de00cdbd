// What is made of a sound module under a schedule.
ghost use Rattle.std.specs.Prelude.{◌≡◌, ◌≢◌, ◌≤◌, [], All, length, IfOk, IsErrOf, MatchResult};
ghost use Rattle.atl_printer.specs.PrintableModule.{IsPrintableModule};
ghost use Rattle.schedule_run.specs.Versions.{MayRun, last_version_of, versions_of};
ghost use Rattle.source_grammar.specs.Source.{AreShallow};
ghost use Rattle.stages_text.specs.Stages.{AreBlocks, stages};
ghost use Rattle.facts_run.specs.Claims.{facts_text};
ghost use Rattle.atl_driver.specs.Asked.{Facts, IsShort, IsShortText, Run, asked_for, errand_of};
ghost use Rattle.atl_driver.specs.Compile.{Answers, emitted_as, left_as, loops_run, staged_as, versions_as};
ghost use Rattle.atl_driver.specs.Correct.{AreVersions, IsEmitted, IsLeft, IsScheduled, IsUnemitted};
ghost use Rattle.atl_driver.specs.declared.compile.CompileRefusal.TheVariants.{Memory};
ghost use Rattle.atl_driver.specs.declared.fault.Fault.{Fault as FaultValue};

use crate::compile::CompileRefusal;
use crate::faults::{unlowerable, unstaged};
use crate::last_run::last_run;
use crate::last_text::last_text;
use crate::task::Task;
use facts_run::{FactsFault, facts};
use owned_values::spent;
use printable_versions::versions_told;
use schedule_run::{last_version, run_script};
use schedule_script::Script;
use stages_text::print_stages;
use std::alloc::Global;
use term_tree::Module;

/// What a command asks for.
#[derive(Drop, Clone, Copy)]
pub enum Emit<'a> {
    /// The C text of the last version.
    Loops,
    /// The canonical texts of all versions.
    Versions,
    /// What the script has to show, and the facts that may show it.
    Facts,
    /// What a run of the loops of the last version tells.
    Run(Task<'a>),
}

/// The text of the last version of a schedule, or its first fault.
fn staged_text(alloc: Global, origin: Module, schedule: &Script) -> Result<Vec<u8>, CompileRefusal>
    requires may { MayRun origin }
    requires some { origin.outputs ≢ [] }
    requires shallow { AreShallow origin.outputs }
    requires outputs { length origin.outputs ≤ 2147483647 }
    ensures answers { Answers (staged_as (last_version_of origin schedule.now.steps) schedule.now) result }
    ensures loops { IfOk result (λ text. IsScheduled origin schedule.now text.items) }
{
    match last_version(alloc, origin, schedule) {
        Ok(last) => {
            let finals = schedule.finals.as_slice();
            let text = last_text(alloc, &last, finals, schedule.parallel.as_slice());
            spent(last);
            text
        }
        Err(fault) => Err(unstaged(alloc, fault)),
    }
}

/// The text of versions.
fn printed(alloc: Global, versions: &[Module]) -> Result<Vec<u8>, CompileRefusal>
    requires { All IsPrintableModule versions.now }
    ensures { MatchResult result (λ text. (text.items ≡ stages versions.now) × AreBlocks 0 versions.now text.items) (λ refusal. refusal ≡ Memory) }
{
    match print_stages(alloc, versions) {
        Ok(text) => Ok(text),
        Err(_) => Err(CompileRefusal::Memory),
    }
}

/// The text of all versions of a schedule, or its first fault.
fn versions_text(
    alloc: Global,
    origin: Module,
    schedule: &Script,
) -> Result<Vec<u8>, CompileRefusal>
    requires may { MayRun origin }
    requires printable { IsPrintableModule origin }
    ensures answers { Answers (versions_as (versions_of origin schedule.now.steps)) result }
    ensures versions { IfOk result (λ text. AreVersions origin schedule.now text.items) }
{
    match run_script(alloc, origin, schedule) {
        Ok(staged) => {
            let versions = staged.versions.as_slice();
            versions_told(versions);
            let text = printed(alloc, versions);
            spent(staged);
            text
        }
        Err(fault) => Err(unstaged(alloc, fault)),
    }
}

/// What a schedule has to show, or its first fault, where that is not one of a condition or a goal that is not shown.
#[tactic(none)]
fn told_facts(alloc: Global, origin: Module, schedule: &Script) -> Result<Vec<u8>, CompileRefusal>
    requires may { MayRun origin }
    requires some { origin.outputs ≢ [] }
    ensures answers { Answers (emitted_as Facts origin schedule.now) result }
    ensures told { IfOk result (λ text. text.items ≡ facts_text origin schedule.now) }
{
    match facts(alloc, origin, schedule) {
        Ok(text) => Ok(text),
        Err(FactsFault::Step(fault)) => Err(unstaged(alloc, fault)),
        Err(FactsFault::Final(fault)) => Err(unlowerable(alloc, fault)),
        Err(FactsFault::Memory) => Err(CompileRefusal::Memory),
    }
}

/// What a run of the loops of the last version of a schedule tells, or the first fault.
fn left_text(
    alloc: Global,
    origin: Module,
    schedule: &Script,
    task: Task<'_>,
) -> Result<Vec<u8>, CompileRefusal>
    requires may { MayRun origin }
    requires some { origin.outputs ≢ [] }
    requires shallow { AreShallow origin.outputs }
    requires outputs { length origin.outputs ≤ 2147483647 }
    requires printable { IsPrintableModule origin }
    requires given { IsShortText (errand_of task) }
    ensures answers { Answers (left_as (last_version_of origin schedule.now.steps) schedule.now (loops_run (errand_of task.entry) schedule.now.parallel)) result }
    ensures left { IfOk result (λ text. IsLeft origin schedule.now (errand_of task.entry) text.items) }
    ensures refused { (fault : FaultValue) → IsErrOf result (CompileRefusal.Refused fault) → IsUnemitted (Run (errand_of task.entry)) origin schedule.now fault }
{
    match last_version(alloc, origin, schedule) {
        Ok(last) => {
            let finals = schedule.finals.as_slice();
            let text = last_run(alloc, &last, finals, schedule.parallel.as_slice(), task);
            spent(last);
            text
        }
        Err(fault) => Err(unstaged(alloc, fault)),
    }
}

/// What is asked for, or the first fault under the schedule.
pub fn emitted(
    alloc: Global,
    emit: Emit<'_>,
    origin: Module,
    schedule: &Script,
) -> Result<Vec<u8>, CompileRefusal>
    requires may { MayRun origin }
    requires some { origin.outputs ≢ [] }
    requires shallow { AreShallow origin.outputs }
    requires outputs { length origin.outputs ≤ 2147483647 }
    requires printable { IsPrintableModule origin }
    requires given { IsShort (asked_for emit) }
    ensures answers { Answers (emitted_as (asked_for emit.entry) origin schedule.now) result }
    ensures emitted { IfOk result (λ text. IsEmitted (asked_for emit.entry) origin schedule.now text.items) }
    ensures refused { (fault : FaultValue) → IsErrOf result (CompileRefusal.Refused fault) → IsUnemitted (asked_for emit.entry) origin schedule.now fault }
{
    match emit {
        Emit::Loops => staged_text(alloc, origin, schedule),
        Emit::Versions => versions_text(alloc, origin, schedule),
        Emit::Facts => told_facts(alloc, origin, schedule),
        Emit::Run(task) => left_text(alloc, origin, schedule, task),
    }
}
