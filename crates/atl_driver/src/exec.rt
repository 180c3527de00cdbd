// A C text on a given text.
ghost use Rattle.std.specs.Prelude.{◌≤◌, IfOk, IsErrOf, length};
ghost use Rattle.c_execution.specs.Executed.{IsExecuted, exec_answer};
ghost use Rattle.atl_driver.specs.Compile.{Answers, executed_as};
ghost use Rattle.atl_driver.specs.Correct.{IsUnexecuted};
ghost use Rattle.atl_driver.specs.declared.fault.Fault.{Fault as FaultValue};

use crate::compile::CompileRefusal;
use crate::run_faults::unexecuted;
use c_execution::exec_bytes;
use std::alloc::Global;

/// What a run of a C text on a given text leaves, or the first fault. Time is that of `exec_bytes`.
pub fn exec_text(alloc: Global, c: &[u8], given: &[u8]) -> Result<Vec<u8>, CompileRefusal>
    requires { length given.now ≤ 2147483647 }
    // Which answer it is.
    ensures answers { Answers (executed_as (exec_answer c.now given.now)) result }
    // What is told is a run of the one program that the C text stands for.
    ensures correct { IfOk result (λ text. IsExecuted c.now given.now text.items) }
    // A fault has its cause.
    ensures refused { (fault : FaultValue) → IsErrOf result (CompileRefusal.Refused fault) → IsUnexecuted c.now given.now fault }
{
    match exec_bytes(alloc, c, given) {
        Ok(text) => Ok(text),
        Err(fault) => Err(unexecuted(alloc, fault)),
    }
}
