// The faults of runs, each a number and its fields.
ghost use Rattle.std.specs.Prelude.{◌≡◌, ◌≢◌, IfOk};
ghost use Rattle.atl_driver.specs.Compile.{TellsExec, TellsFault, TellsPlain, TellsRun, run_fault_of, stuck_fault_of, three_fields};

use crate::compile::CompileRefusal;
use crate::faults::refused;
use crate::{Fault, FaultField, Fields};
use c_execution::ExecFault;
use loop_run::Stuck;
use plain_run::PlainFault;
use run_text::RunFault;
use std::alloc::{AllocError, Global};

fn with_three(
    alloc: Global,
    number: u8,
    first: FaultField,
    second: FaultField,
    third: FaultField,
) -> Result<Fault, AllocError>
    ensures { IfOk result (λ fault. fault ≡ three_fields number first second third) }
{
    let mut fields = Vec::new(alloc);
    fields.push(first)?;
    fields.push(second)?;
    fields.push(third)?;
    let fields = Fields::new(fields);
    Ok(Fault { number, fields })
}

/// The refusal of an input of another number of words.
fn miscounted(alloc: Global, input: u32, want: u64, got: u64) -> CompileRefusal
    ensures { TellsFault (three_fields 42 (FaultField.Input input) (FaultField.Want want) (FaultField.Got got)) result }
{
    match with_three(
        alloc,
        42,
        FaultField::Input(input),
        FaultField::Want(want),
        FaultField::Got(got),
    ) {
        Ok(fault) => CompileRefusal::Refused(fault),
        Err(_) => CompileRefusal::Memory,
    }
}

/// The refusal of loops that are stuck, or have too many steps.
fn stopped(alloc: Global, stuck: Stuck) -> CompileRefusal
    ensures { TellsFault (stuck_fault_of stuck) result }
{
    match stuck {
        Stuck::Outside { buffer, index } => {
            refused(alloc, 51, FaultField::Outside(buffer, index))
        }
        Stuck::Overflow => refused(alloc, 51, FaultField::Overflow),
        Stuck::NegativeDividend => refused(alloc, 51, FaultField::Negative),
        Stuck::TooMuchWork { steps } => refused(alloc, 44, FaultField::Steps(steps)),
    }
}

/// The refusal of a run, or of what it is given.
fn unrun(alloc: Global, fault: RunFault) -> CompileRefusal
    ensures { TellsFault (run_fault_of fault) result }
{
    match fault {
        RunFault::BadData { at } => refused(alloc, 40, FaultField::At(at)),
        RunFault::SizesNotAllowed { constraint } => {
            refused(alloc, 41, FaultField::Constraint(constraint))
        }
        RunFault::Stuck(stuck) => stopped(alloc, stuck),
        RunFault::TooBigToRun { words } => refused(alloc, 43, FaultField::Words(words)),
        RunFault::WrongCount { input, want, got } => miscounted(alloc, input, want, got),
        RunFault::Memory => CompileRefusal::Memory,
    }
}

/// The refusal of a run that comes to no text.
pub fn unran(alloc: Global, fault: RunFault) -> CompileRefusal
    ensures { TellsRun fault result }
{
    match fault {
        RunFault::Memory => CompileRefusal::Memory,
        fault => unrun(alloc, fault),
    }
}

/// The refusal of a C text that is not executed.
pub fn unexecuted(alloc: Global, fault: ExecFault) -> CompileRefusal
    ensures { TellsExec fault result }
{
    match fault {
        ExecFault::BadC { at } => refused(alloc, 50, FaultField::At(at)),
        ExecFault::Run(RunFault::Memory) => CompileRefusal::Memory,
        ExecFault::Run(fault) => unrun(alloc, fault),
    }
}

/// The refusal of what the plain evaluator is given, or of its work.
pub fn unplain(alloc: Global, fault: PlainFault) -> CompileRefusal
    ensures { TellsPlain fault result }
{
    match fault {
        PlainFault::BadData { at } => refused(alloc, 40, FaultField::At(at)),
        PlainFault::SizesNotAllowed { constraint } => {
            refused(alloc, 41, FaultField::Constraint(constraint))
        }
        PlainFault::TooBigToRun { words } => refused(alloc, 43, FaultField::Words(words)),
        PlainFault::WrongCount { input, want, got } => miscounted(alloc, input, want, got),
        PlainFault::TooMuchWork { steps } => refused(alloc, 44, FaultField::Steps(steps)),
        PlainFault::Memory => CompileRefusal::Memory,
    }
}
