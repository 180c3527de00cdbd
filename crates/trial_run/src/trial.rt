//! The run of a trial.

ghost use Rattle.std.specs.Prelude.{◌≡◌, ◌≤◌, All, IfErr, IfOk, length, true};
ghost use Rattle.given_text.specs.Answer.{Answers as Reads, IsRefusedText, read_bytes};
ghost use Rattle.given_text.specs.Given.{GivenText};
ghost use Rattle.loop_lang.specs.Form.{IsWellFormed};
ghost use Rattle.lowering_laws.specs.Correct.{HasLengths, IsCorrect};
ghost use Rattle.run_text.specs.Told.{Answers};
ghost use Rattle.source_grammar.specs.Source.{input_names, size_names};
ghost use Rattle.term_tree.specs.Counts.{node_count};
ghost use Rattle.term_tree.specs.Modules.{module_scoped};
ghost use Rattle.trial_run.specs.TrialRun.{IsTrialFault, IsTrialOf, trial_run};
ghost use Rattle.trial_text.specs.TrialText.{trial_given};
ghost use Rattle.version_run.specs.VersionRun.{AreBounded};

use crate::read::read;
use crate::summed::run_checked;
use given_text::GivenFault;
use loop_lang::Prog;
use loop_run::Given;
use owned_values::spent;
use run_text::RunFault;
use std::alloc::Global;
use term_tree::Module;
use trial_text::trial_given;

/// What the given text of a trial gives to the sizes and inputs of the module.
fn given_to(alloc: Global, module: &Module) -> Result<Given, GivenFault>
    ensures exact { Reads result (read_bytes (size_names «module».now.sizes) (input_names «module».now.inputs) trial_given) }
    ensures found { IfOk result (λ given. GivenText (size_names «module».now.sizes) (input_names «module».now.inputs) trial_given given) }
    ensures refused { IfErr result (λ fault. IsRefusedText (size_names «module».now.sizes) (input_names «module».now.inputs) trial_given fault) }
{
    match trial_given(alloc) {
        Ok(text) => read(alloc, module, &text),
        Err(_) => Err(GivenFault::Memory),
    }
}

/// The line of the trial of so many steps, where the steps of its script lead to this last version, whose program this is. Time is linear
/// in the program's text, and in the run's steps and the size of their expressions.
pub fn run_trial(
    alloc: Global,
    steps: u64,
    module: &Module,
    prog: &Prog,
) -> Result<Vec<u8>, RunFault>
    requires formed { IsWellFormed prog.now }
    requires scoped { module_scoped «module».now ≡ true }
    requires sizes { length «module».now.sizes ≤ 2147483647 }
    requires bounded { AreBounded «module».now.sizes }
    requires inputs { prog.now.inputs ≡ length «module».now.inputs }
    requires outputs { length «module».now.outputs ≤ 2147483647 }
    requires nodes { All (λ o. node_count o.term ≤ 20000) «module».now.outputs }
    requires lengths { HasLengths «module».now prog.now }
    requires correct { IsCorrect «module».now prog.now }
    // Which answer it is.
    ensures answer { Answers (trial_run steps «module».now prog.now) result }
    // The sum is that of what the module denotes.
    ensures denoted { IfOk result (λ line. IsTrialOf steps «module».now prog.now «module».now line.items) }
    // A fault has its cause.
    ensures refused { IfErr result (λ fault. IsTrialFault «module».now prog.now fault) }
{
    match given_to(alloc, module) {
        Ok(given) => {
            let line = run_checked(alloc, steps, module, prog, &given);
            spent(given);
            line
        }
        Err(GivenFault::BadData { at }) => Err(RunFault::BadData { at }),
        Err(GivenFault::Memory) => Err(RunFault::Memory),
    }
}
