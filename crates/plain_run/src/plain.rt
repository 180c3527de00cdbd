//! What a module denotes on a given text.

ghost use Rattle.std.specs.Prelude.{◌≡◌, ◌≤◌, Err, IfErr, IfOk, MatchResult, None, length, map};
ghost use Rattle.admission.specs.Admission.{broken};
ghost use Rattle.atl_meaning.specs.Values.{meant};
ghost use Rattle.atl_meaning.specs.Words.{first_big_input, module_big};
ghost use Rattle.plain_run.specs.PlainRun.{Answers, IsPlainDenoted, IsPlainFault, plain_at, plain_checked, plain_run, unless_big, unless_wrong, within_turns};
ghost use Rattle.plain_run.specs.Shapes.{EachWords};
ghost use Rattle.plain_run.specs.declared.fault.PlainFault.TheVariants.{Memory};
ghost use Rattle.run_text.specs.Outputs.{output_lines};
ghost use Rattle.shape_rules.specs.Meant.{input_extents};
ghost use Rattle.source_grammar.specs.Source.{output_names};
ghost use Rattle.term_tree.specs.Modules.{Allowed, AreInputs, IsSound};
ghost use Rattle.term_tree.specs.Shaped.{flat};

use crate::fault::PlainFault;
use crate::flat::words_of;
use crate::names::names_of_outputs;
use crate::read::read;
use crate::shapes::{input_shapes, wrong_count};
use crate::tensors::tensors;
use admission::broken_constraint;
use atl_meaning::{MeaningFault, Tensor, denote};
use given_text::GivenFault;
use loop_run::Given;
use owned_values::spent;
use run_text::output_text;
use sqlite_items::Items;
use std::alloc::Global;
use term_tree::Module;

/// The most turns of gen and sum.
const MOST_TURNS: u64 = 1 << 27;

/// The lines of outputs.
fn lines(alloc: Global, module: &Module, outputs: &[Items<u64>]) -> Result<Vec<u8>, PlainFault>
    requires { length «module».now.outputs ≤ length outputs.now }
    ensures { MatchResult result (λ text. text.items ≡ output_lines (output_names «module».now.outputs) outputs.now) (λ fault. fault ≡ Memory) }
{
    match names_of_outputs(alloc, module) {
        Ok(names) => match output_text(alloc, &names, outputs) {
            Ok(text) => Ok(text),
            Err(_) => Err(PlainFault::Memory),
        },
        Err(_) => Err(PlainFault::Memory),
    }
}

/// The lines of outputs with these tensors.
fn text_of(alloc: Global, module: &Module, tensors: &[Tensor]) -> Result<Vec<u8>, PlainFault>
    requires { length «module».now.outputs ≤ length tensors.now }
    ensures { MatchResult result (λ text. text.items ≡ output_lines (output_names «module».now.outputs) (map flat (map meant tensors.now))) (λ fault. fault ≡ Memory) }
{
    match words_of(alloc, tensors) {
        Ok(outputs) => lines(alloc, module, outputs.as_slice()),
        Err(_) => Err(PlainFault::Memory),
    }
}

/// The lines of what the module denotes of these inputs.
fn told(
    alloc: Global,
    module: &Module,
    sizes: &[u64],
    inputs: &[Tensor],
) -> Result<Vec<u8>, PlainFault>
    requires sound { IsSound «module».now }
    requires allowed { Allowed «module».now sizes.now }
    requires inputs { AreInputs «module».now.inputs sizes.now (map meant inputs.now) }
    ensures { Answers (unless_big (module_big «module».now sizes.now) (within_turns «module».now sizes.now (map meant inputs.now))) result }
{
    match denote(alloc, module, sizes, inputs, MOST_TURNS) {
        Ok(tensors) => {
            let text = text_of(alloc, module, tensors.as_slice());
            spent(tensors);
            text
        }
        Err(MeaningFault::TooBig { words }) => Err(PlainFault::TooBigToRun { words }),
        Err(MeaningFault::TooMuchWork { turns }) => Err(PlainFault::TooMuchWork { steps: turns }),
        Err(MeaningFault::Memory) => Err(PlainFault::Memory),
    }
}

/// The fault, but for one that comes before it: something is too big.
fn refused(
    alloc: Global,
    module: &Module,
    sizes: &[u64],
    inputs: &[Tensor],
    fault: PlainFault,
) -> Result<Vec<u8>, PlainFault>
    requires sound { IsSound «module».now }
    requires allowed { Allowed «module».now sizes.now }
    requires inputs { AreInputs «module».now.inputs sizes.now (map meant inputs.now) }
    ensures { Answers (unless_big (module_big «module».now sizes.now) (Err fault)) result }
{
    match denote(alloc, module, sizes, inputs, 0) {
        Ok(tensors) => {
            spent(tensors);
            Err(fault)
        }
        Err(MeaningFault::TooBig { words }) => Err(PlainFault::TooBigToRun { words }),
        Err(MeaningFault::TooMuchWork { turns: _ }) => Err(fault),
        Err(MeaningFault::Memory) => Err(PlainFault::Memory),
    }
}

/// The lines, where no fault of the words comes before.
fn counted(
    alloc: Global,
    module: &Module,
    sizes: &[u64],
    inputs: &[Tensor],
    wrong: Option<PlainFault>,
) -> Result<Vec<u8>, PlainFault>
    requires sound { IsSound «module».now }
    requires allowed { Allowed «module».now sizes.now }
    requires inputs { AreInputs «module».now.inputs sizes.now (map meant inputs.now) }
    ensures { Answers (unless_big (module_big «module».now sizes.now) (unless_wrong wrong (within_turns «module».now sizes.now (map meant inputs.now)))) result }
{
    match wrong {
        Some(fault) => refused(alloc, module, sizes, inputs, fault),
        None => told(alloc, module, sizes, inputs),
    }
}

/// The lines on what is given, where no input is too big and these are the extents of the inputs.
fn on_shapes(
    alloc: Global,
    module: &Module,
    given: &Given,
    shapes: &[Items<u64>],
) -> Result<Vec<u8>, PlainFault>
    requires sound { IsSound «module».now }
    requires allowed { Allowed «module».now given.now.sizes }
    requires few { length «module».now.inputs ≤ 2147483647 }
    requires inputs { length given.now.inputs ≡ length «module».now.inputs }
    requires words { EachWords given.now.inputs }
    requires small { first_big_input «module».now.inputs given.now.sizes ≡ None }
    requires shapes { shapes.now ≡ input_extents «module».now given.now.sizes }
    ensures { Answers (plain_at «module».now given.now) result }
{
    let wrong = wrong_count(shapes, given.inputs.as_slice());
    match tensors(alloc, shapes, given.inputs.as_slice()) {
        Ok(inputs) => counted(
            alloc,
            module,
            given.sizes.as_slice(),
            inputs.as_slice(),
            wrong,
        ),
        Err(_) => Err(PlainFault::Memory),
    }
}

/// The lines on what is given, where its sizes are allowed.
fn on_allowed(alloc: Global, module: &Module, given: &Given) -> Result<Vec<u8>, PlainFault>
    requires sound { IsSound «module».now }
    requires allowed { Allowed «module».now given.now.sizes }
    requires few { length «module».now.inputs ≤ 2147483647 }
    requires inputs { length given.now.inputs ≡ length «module».now.inputs }
    requires words { EachWords given.now.inputs }
    ensures { Answers (plain_at «module».now given.now) result }
{
    match input_shapes(alloc, given.sizes.as_slice(), module.inputs.as_slice()) {
        Ok(shapes) => on_shapes(alloc, module, given, shapes.as_slice()),
        Err(fault) => Err(fault),
    }
}

/// The lines on what is given.
fn on_given(alloc: Global, module: &Module, given: &Given) -> Result<Vec<u8>, PlainFault>
    requires sound { IsSound «module».now }
    requires sizes { length «module».now.sizes ≤ 2147483647 }
    requires few { length «module».now.inputs ≤ 2147483647 }
    requires same { length given.now.sizes ≡ length «module».now.sizes }
    requires inputs { length given.now.inputs ≡ length «module».now.inputs }
    requires words { EachWords given.now.inputs }
    ensures answer { Answers (plain_checked «module».now given.now (broken «module».now given.now.sizes)) result }
    ensures allowed { IfOk result (λ _. Allowed «module».now given.now.sizes) }
{
    match broken_constraint(module, given.sizes.as_slice()) {
        Some(constraint) => Err(PlainFault::SizesNotAllowed { constraint }),
        None => on_allowed(alloc, module, given),
    }
}

/// The lines of what the outputs of a module denote on a given text, as its terms say it, with no loops in between. Where something is
/// too big, no tensor is computed. Time is linear in the text, and in the nodes visited, each once for each time that it is computed, and
/// the words of their tensors.
pub fn run_plain(alloc: Global, module: &Module, text: &[u8]) -> Result<Vec<u8>, PlainFault>
    requires sound { IsSound «module».now }
    requires sizes { length «module».now.sizes ≤ 2147483647 }
    requires inputs { length «module».now.inputs ≤ 2147483647 }
    requires text { length text.now ≤ 2147483647 }
    // Which answer it is.
    ensures answer { Answers (plain_run «module».now text.now) result }
    // What is told is what the module denotes.
    ensures denoted { IfOk result (λ told. IsPlainDenoted «module».now text.now told.items) }
    // A fault has its cause.
    ensures refused { IfErr result (λ fault. IsPlainFault «module».now text.now fault) }
{
    match read(alloc, module, text) {
        Ok(given) => {
            let told = on_given(alloc, module, &given);
            spent(given);
            told
        }
        Err(GivenFault::BadData { at }) => Err(PlainFault::BadData { at }),
        Err(GivenFault::Memory) => Err(PlainFault::Memory),
    }
}
