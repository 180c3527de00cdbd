//! A module's program on a given text.

ghost use Rattle.std.specs.Prelude.{◌≡◌, ◌≤◌, IfErr, IfOk, None, length, true};
ghost use Rattle.admission.specs.Admission.{broken};
ghost use Rattle.given_text.specs.Answer.{Answers as Reads, IsRefusedText, read_bytes};
ghost use Rattle.given_text.specs.Given.{GivenText};
ghost use Rattle.loop_lang.specs.Form.{IsWellFormed};
ghost use Rattle.lowering_laws.specs.Correct.{HasLengths, IsCorrect};
ghost use Rattle.run_text.specs.GivenRun.{checked_run};
ghost use Rattle.run_text.specs.Told.{Answers, IsRunText};
ghost use Rattle.source_grammar.specs.Source.{input_names, output_names, size_names};
ghost use Rattle.term_tree.specs.Modules.{Allowed, module_scoped};
ghost use Rattle.version_run.specs.VersionRun.{AreBounded, IsDenoted, IsVersionFault, version_run};

use crate::names::{given_names, names_of_outputs};
use admission::broken_constraint;
use given_text::{GivenFault, read_given};
use loop_lang::Prog;
use loop_run::Given;
use owned_values::spent;
use run_text::{RunFault, run_checked};
use std::alloc::Global;
use term_tree::Module;

/// The program on what is given.
fn run_given(
    alloc: Global,
    module: &Module,
    prog: &Prog,
    given: &Given,
) -> Result<Vec<u8>, RunFault>
    requires formed { IsWellFormed prog.now }
    requires scoped { module_scoped «module».now ≡ true }
    requires many { length «module».now.sizes ≤ 2147483647 }
    requires bounded { AreBounded «module».now.sizes }
    requires outputs { length «module».now.outputs ≤ 2147483647 }
    requires sizes { length given.now.sizes ≡ length «module».now.sizes }
    requires inputs { length given.now.inputs ≡ prog.now.inputs }
    ensures answer { Answers (checked_run (output_names «module».now.outputs) prog.now given.now (broken «module».now given.now.sizes)) result }
    ensures run { IfOk result (λ text. (broken «module».now given.now.sizes ≡ None) × IsRunText prog.now given.now (output_names «module».now.outputs) text.items) }
    ensures allowed { IfOk result (λ _. Allowed «module».now given.now.sizes) }
{
    let broken = broken_constraint(module, given.sizes.as_slice());
    match names_of_outputs(alloc, module) {
        Ok(names) => run_checked(alloc, prog, given, broken, &names),
        Err(_) => Err(RunFault::Memory),
    }
}

/// What the text gives to the sizes and inputs of the module.
fn read(alloc: Global, module: &Module, text: &[u8]) -> Result<Given, GivenFault>
    requires { length text.now ≤ 2147483647 }
    ensures exact { Reads result (read_bytes (size_names «module».now.sizes) (input_names «module».now.inputs) text.now) }
    ensures found { IfOk result (λ given. GivenText (size_names «module».now.sizes) (input_names «module».now.inputs) text.now given) }
    ensures refused { IfErr result (λ fault. IsRefusedText (size_names «module».now.sizes) (input_names «module».now.inputs) text.now fault) }
{
    match given_names(alloc, module) {
        Ok(names) => read_given(alloc, &names, module.sizes.len(), text),
        Err(_) => Err(GivenFault::Memory),
    }
}

/// The lines of the outputs that a run of a module's program leaves on a given text, and how many words it stored. Time is linear in
/// the text, and in the run's steps and the size of their expressions.
pub fn run_version(
    alloc: Global,
    module: &Module,
    prog: &Prog,
    text: &[u8],
) -> Result<Vec<u8>, RunFault>
    requires formed { IsWellFormed prog.now }
    requires scoped { module_scoped «module».now ≡ true }
    requires sizes { length «module».now.sizes ≤ 2147483647 }
    requires bounded { AreBounded «module».now.sizes }
    requires inputs { prog.now.inputs ≡ length «module».now.inputs }
    requires outputs { length «module».now.outputs ≤ 2147483647 }
    requires lengths { HasLengths «module».now prog.now }
    requires correct { IsCorrect «module».now prog.now }
    requires text { length text.now ≤ 2147483647 }
    // Which answer it is.
    ensures answer { Answers (version_run «module».now prog.now text.now) result }
    // What is told is what the module denotes.
    ensures denoted { IfOk result (λ told. IsDenoted «module».now prog.now text.now told.items) }
    // A fault has its cause.
    ensures refused { IfErr result (λ fault. IsVersionFault «module».now prog.now text.now fault) }
{
    match read(alloc, module, text) {
        Ok(given) => {
            let told = run_given(alloc, module, prog, &given);
            spent(given);
            told
        }
        Err(GivenFault::BadData { at }) => Err(RunFault::BadData { at }),
        Err(GivenFault::Memory) => Err(RunFault::Memory),
    }
}
