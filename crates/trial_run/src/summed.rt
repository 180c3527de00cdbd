//! A run summed up in a line.

ghost use Rattle.std.specs.Prelude.{◌≡◌, ◌≤◌, All, IfOk, MatchResult, Ok, length, true};
ghost use Rattle.admission.specs.Admission.{broken};
ghost use Rattle.c_print.specs.Program.{canonical_text};
ghost use Rattle.loop_lang.specs.Form.{IsWellFormed};
ghost use Rattle.loop_run.specs.Fits.{all_fit};
ghost use Rattle.program_run.specs.Ran.{ran};
ghost use Rattle.run_text.specs.Told.{Answers, fault_of as fault_for};
ghost use Rattle.run_text.specs.declared.fault.RunFault.TheVariants.{Memory};
ghost use Rattle.term_tree.specs.Counts.{node_count};
ghost use Rattle.term_tree.specs.Modules.{Allowed, module_scoped};
ghost use Rattle.trial_run.specs.TrialRun.{IsSummedRun, checked, summed};
ghost use Rattle.version_run.specs.VersionRun.{AreBounded};

use crate::sums::{nodes_of, total};
use admission::broken_constraint;
use c_print::print_c;
use loop_lang::Prog;
use loop_run::{Given, MakeRefusal};
use owned_values::spent;
use program_run::{Ran, run_program};
use run_text::RunFault;
use std::alloc::Global;
use term_tree::Module;
use trial_text::trial_line;

/// The bytes of the C text of a program.
fn text_length(alloc: Global, prog: &Prog) -> Result<u64, RunFault>
    ensures { MatchResult result (λ bytes. bytes ≡ length (canonical_text prog.now)) (λ fault. fault ≡ Memory) }
{
    match print_c(alloc, prog) {
        Ok(text) => Ok(text.len() as u64),
        Err(_) => Err(RunFault::Memory),
    }
}

/// The line of what a run leaves.
fn line_of(
    alloc: Global,
    steps: u64,
    module: &Module,
    prog: &Prog,
    ran: &Ran,
) -> Result<Vec<u8>, RunFault>
    requires outputs { length «module».now.outputs ≤ 2147483647 }
    requires nodes { All (λ o. node_count o.term ≤ 20000) «module».now.outputs }
    ensures { Answers (summed steps «module».now prog.now (Ok ran.now)) result }
{
    let bytes = text_length(alloc, prog)?;
    let nodes = nodes_of(module.outputs.as_slice());
    let total = total(&ran.buffers, module.outputs.len());
    match trial_line(alloc, steps, nodes, bytes, ran.stores, total) {
        Ok(line) => Ok(line),
        Err(_) => Err(RunFault::Memory),
    }
}

/// The fault of a run that is refused so.
fn fault_of(refusal: MakeRefusal) -> RunFault
    ensures { result ≡ fault_for refusal }
{
    match refusal {
        MakeRefusal::Stuck(stuck) => RunFault::Stuck(stuck),
        MakeRefusal::TooBigToRun { words } => RunFault::TooBigToRun { words },
        MakeRefusal::WrongCount { input, want, got } => RunFault::WrongCount { input, want, got },
        MakeRefusal::Memory => RunFault::Memory,
    }
}

/// The line of a run on what is given.
fn run_summed(
    alloc: Global,
    steps: u64,
    module: &Module,
    prog: &Prog,
    given: &Given,
) -> Result<Vec<u8>, RunFault>
    requires formed { IsWellFormed prog.now }
    requires sizes { all_fit given.now.sizes ≡ true }
    requires inputs { length given.now.inputs ≡ prog.now.inputs }
    requires outputs { length «module».now.outputs ≤ 2147483647 }
    requires nodes { All (λ o. node_count o.term ≤ 20000) «module».now.outputs }
    ensures answer { Answers (summed steps «module».now prog.now (ran prog.now given.now)) result }
    ensures run { IfOk result (λ text. IsSummedRun steps «module».now prog.now given.now text.items) }
{
    match run_program(alloc, prog, given) {
        Ok(ran) => {
            let text = line_of(alloc, steps, module, prog, &ran);
            spent(ran);
            text
        }
        Err(refusal) => Err(fault_of(refusal)),
    }
}

/// The same, where the sizes may break a constraint: the first that they break is told before all else.
pub fn run_checked(
    alloc: Global,
    steps: u64,
    module: &Module,
    prog: &Prog,
    given: &Given,
) -> Result<Vec<u8>, RunFault>
    requires formed { IsWellFormed prog.now }
    requires scoped { module_scoped «module».now ≡ true }
    requires many { length «module».now.sizes ≤ 2147483647 }
    requires bounded { AreBounded «module».now.sizes }
    requires outputs { length «module».now.outputs ≤ 2147483647 }
    requires nodes { All (λ o. node_count o.term ≤ 20000) «module».now.outputs }
    requires sizes { length given.now.sizes ≡ length «module».now.sizes }
    requires inputs { length given.now.inputs ≡ prog.now.inputs }
    ensures answer { Answers (checked steps «module».now prog.now given.now (broken «module».now given.now.sizes)) result }
    ensures allowed { IfOk result (λ _. Allowed «module».now given.now.sizes) }
    ensures run { IfOk result (λ text. IsSummedRun steps «module».now prog.now given.now text.items) }
{
    match broken_constraint(module, given.sizes.as_slice()) {
        Some(constraint) => Err(RunFault::SizesNotAllowed { constraint }),
        None => run_summed(alloc, steps, module, prog, given),
    }
}
