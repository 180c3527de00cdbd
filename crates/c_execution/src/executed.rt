//! A program on a given text.

ghost use Rattle.std.specs.Prelude.{◌≡◌, ◌≤◌, IfErr, IfOk, None, length};
ghost use Rattle.loop_lang.specs.Form.{IsWellFormed};
ghost use Rattle.given_text.specs.Answer.{Answers as Reads, IsRefusedText, read_bytes};
ghost use Rattle.given_text.specs.Given.{GivenText};
ghost use Rattle.run_text.specs.GivenRun.{checked_run};
ghost use Rattle.run_text.specs.Told.{Answers, IsRunText};
ghost use Rattle.c_execution.specs.Executed.{IsFaultOf, IsToldOf, broken_from_1, executed};
ghost use Rattle.c_execution.specs.Names.{input_names, output_names, size_names};

use crate::names::{given_names, names_of_outputs};
use given_text::{GivenFault, read_given};
use loop_lang::Prog;
use loop_run::Given;
use owned_values::spent;
use run_text::{RunFault, run_checked};
use std::alloc::Global;

/// The largest size.
const LARGEST_SIZE: u64 = 1_099_511_627_776;

/// The number of the first size over the limit, counted from 1.
fn broken_size(sizes: &[u64]) -> Option<u64>
    requires { length sizes.now ≤ 4294967295 }
    ensures { result ≡ broken_from_1 sizes.now }
{
    for at in 0..sizes.len() {
        if sizes[at] > LARGEST_SIZE {
            return Some(at as u64 + 1);
        }
    }
    None
}

/// The program on what is given.
fn run_given(alloc: Global, prog: &Prog, given: &Given) -> Result<Vec<u8>, RunFault>
    requires formed { IsWellFormed prog.now }
    requires sizes { length given.now.sizes ≡ prog.now.sizes }
    requires inputs { length given.now.inputs ≡ prog.now.inputs }
    ensures answer { Answers (checked_run (output_names prog.now.outputs) prog.now given.now (broken_from_1 given.now.sizes)) result }
    ensures run { IfOk result (λ text. (broken_from_1 given.now.sizes ≡ None) × IsRunText prog.now given.now (output_names prog.now.outputs) text.items) }
{
    let _sizes = prog.sizes;
    let _outputs = prog.outputs;
    let broken = broken_size(given.sizes.as_slice());
    match names_of_outputs(alloc, prog.outputs) {
        Ok(names) => run_checked(alloc, prog, given, broken, &names),
        Err(_) => Err(RunFault::Memory),
    }
}

/// What the text gives to the sizes and inputs of the program.
fn read(alloc: Global, prog: &Prog, text: &[u8]) -> Result<Given, GivenFault>
    requires { length text.now ≤ 2147483647 }
    ensures exact { Reads result (read_bytes (size_names prog.now.sizes) (input_names prog.now.inputs) text.now) }
    ensures found { IfOk result (λ given. GivenText (size_names prog.now.sizes) (input_names prog.now.inputs) text.now given) }
    ensures refused { IfErr result (λ fault. IsRefusedText (size_names prog.now.sizes) (input_names prog.now.inputs) text.now fault) }
{
    match given_names(alloc, prog.sizes, prog.inputs) {
        Ok(names) => read_given(alloc, &names, prog.sizes as usize, text),
        Err(_) => Err(GivenFault::Memory),
    }
}

/// The program on a given text.
pub fn run_on_text(alloc: Global, prog: &Prog, text: &[u8]) -> Result<Vec<u8>, RunFault>
    requires formed { IsWellFormed prog.now }
    requires text { length text.now ≤ 2147483647 }
    ensures answer { Answers (executed prog.now text.now) result }
    ensures run { IfOk result (λ told. IsToldOf prog.now text.now told.items) }
    ensures refused { IfErr result (λ fault. IsFaultOf prog.now text.now fault) }
{
    match read(alloc, prog, text) {
        Ok(given) => {
            let told = run_given(alloc, prog, &given);
            spent(given);
            told
        }
        Err(GivenFault::BadData { at }) => Err(RunFault::BadData { at }),
        Err(GivenFault::Memory) => Err(RunFault::Memory),
    }
}
