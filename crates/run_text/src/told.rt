//! A run told as text.

ghost use Rattle.std.specs.Prelude.{◌≡◌, ◌≤◌, IfOk, None, length, map, string_bytes, true};
ghost use Rattle.loop_lang.specs.Form.{IsWellFormed};
ghost use Rattle.loop_run.specs.Fits.{all_fit};
ghost use Rattle.program_run.specs.Ran.{ran};
ghost use Rattle.run_text.specs.GivenRun.{checked_run};
ghost use Rattle.run_text.specs.Told.{Answers, IsRunText, told};

use crate::fault::{RunFault, fault_of};
use crate::text::run_text;
use loop_lang::Prog;
use loop_run::Given;
use owned_values::spent;
use program_run::{Ran, run_program};
use std::alloc::Global;

/// The text of what a run leaves.
fn text_of(alloc: Global, names: &[String], ran: &Ran) -> Result<Vec<u8>, RunFault>
    requires { length names.now ≤ 4294967296 }
    ensures { Answers (told (map string_bytes names.now) (Ok ran.now)) result }
{
    match run_text(alloc, names, ran) {
        Ok(text) => Ok(text),
        Err(_) => Err(RunFault::Memory),
    }
}

/// The text of a run of a program on what is given, whose outputs have these names, or why there is none. Time is that of
/// `run_program`, and linear in the text.
pub fn run_told(
    alloc: Global,
    prog: &Prog,
    given: &Given,
    names: &[String],
) -> Result<Vec<u8>, RunFault>
    requires formed { IsWellFormed prog.now }
    requires sizes { all_fit given.now.sizes ≡ true }
    requires inputs { length given.now.inputs ≡ prog.now.inputs }
    requires names { length names.now ≤ 4294967296 }
    // Which answer it is.
    ensures answer { Answers (told (map string_bytes names.now) (ran prog.now given.now)) result }
    // What is told is what a run of the program leaves.
    ensures run { IfOk result (λ text. IsRunText prog.now given.now (map string_bytes names.now) text.items) }
{
    match run_program(alloc, prog, given) {
        Ok(ran) => {
            let text = text_of(alloc, names, &ran);
            spent(ran);
            text
        }
        Err(refusal) => Err(fault_of(refusal)),
    }
}

/// The same, where the sizes may break a constraint: the first that they break is told before all else.
pub fn run_checked(
    alloc: Global,
    prog: &Prog,
    given: &Given,
    broken: Option<u64>,
    names: &[String],
) -> Result<Vec<u8>, RunFault>
    requires formed { IsWellFormed prog.now }
    requires sizes { broken ≡ None → all_fit given.now.sizes ≡ true }
    requires inputs { length given.now.inputs ≡ prog.now.inputs }
    requires names { length names.now ≤ 4294967296 }
    // Which answer it is.
    ensures answer { Answers (checked_run (map string_bytes names.now) prog.now given.now broken) result }
    // What is told is what a run of the program leaves.
    ensures run { IfOk result (λ text. (broken ≡ None) × IsRunText prog.now given.now (map string_bytes names.now) text.items) }
{
    match broken {
        Some(constraint) => Err(RunFault::SizesNotAllowed { constraint }),
        None => run_told(alloc, prog, given, names),
    }
}
