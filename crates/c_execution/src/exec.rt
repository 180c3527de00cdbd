//! A C text on a given text.

ghost use Rattle.std.specs.Prelude.{◌≡◌, ◌≤◌, IfErr, IfOk, length};
ghost use Rattle.c_execution.specs.Executed.{Answers, IsExecFault, IsExecuted, exec_answer};

use crate::executed::run_on_text;
use crate::fault::ExecFault;
use c_reader::{CFault, read_c};
use owned_values::spent;
use run_text::RunFault;
use std::alloc::Global;

/// The lines of the outputs that a run of the program of a C text leaves, and how many words it stored. The given text has its sizes,
/// named n0, n1, .., each at most 2^40, and then its inputs, named a0, a1, ... Time is linear in the texts, and in the run's steps and
/// the size of their expressions.
pub fn exec_bytes(alloc: Global, c: &[u8], given: &[u8]) -> Result<Vec<u8>, ExecFault>
    requires { length given.now ≤ 2147483647 }
    // Which answer it is.
    ensures answers { Answers (exec_answer c.now given.now) result }
    // What is told is a run of the one program that the C text stands for.
    ensures run { IfOk result (λ text. IsExecuted c.now given.now text.items) }
    // A fault has its cause.
    ensures refused { IfErr result (λ fault. IsExecFault c.now given.now fault) }
{
    c_read::laws::text_reader_is_exact(c);
    match read_c(alloc, c) {
        Ok(program) => {
            let told = run_on_text(alloc, &program, given);
            spent(program);
            match told {
                Ok(text) => Ok(text),
                Err(fault) => Err(ExecFault::Run(fault)),
            }
        }
        Err(CFault::BadC { at }) => Err(ExecFault::BadC { at }),
        Err(CFault::Memory) => Err(ExecFault::Run(RunFault::Memory)),
    }
}
