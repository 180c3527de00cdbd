//! Runs of programs, where what they ask for is found to hold.

ghost use Rattle.std.specs.Prelude.{◌≡◌, ◌≤◌, ◌<◌, length, true};
ghost use Rattle.loop_lang.specs.Form.{IsWellFormed};
ghost use Rattle.loop_run.specs.Fits.{all_fit};
ghost use Rattle.loop_run.specs.Statements.{levels};

use crate::formed::is_well_formed;
use crate::programs::{Source, program};
use loop_lang::{Buf, Prog};
use loop_run::{Buffers, Counted, Given, MakeRefusal, Stuck, go, make};
use owned_values::two;
use sqlite_items::Items;
use std::alloc::{AllocError, Global};

/// How a run is answered.
#[derive(Clone, Copy, Debug, PartialEq, Eq)]
pub enum Told {
    /// What is asked of the program, the sizes or the limit does not hold.
    Unasked,
    Unmade(MakeRefusal),
    Stopped(Stuck),
    Ended(Counted),
}

fn all_fit(numbers: &[u64]) -> bool
    ensures { result ≡ all_fit numbers.now }
{
    for number in numbers {
        if *number >= 9_223_372_036_854_775_808 {
            return false;
        }
    }
    true
}

fn words_are(buffers: &Buffers, words: &[u64]) -> bool {
    let found = buffers.words(Buf::Output(0));
    if found.len() != words.len() {
        return false;
    }
    for at in 0..words.len() {
        if found[at] != words[at] {
            return false;
        }
    }
    true
}

/// How the run is answered, and whether output 0 then has these words.
fn run_on(prog: &Prog, buffers: Buffers, limit: u64, words: &[u64]) -> (Told, bool)
    requires formed { IsWellFormed prog.now }
    requires levels { levels prog.now.body ≤ buffers.levels }
    requires limit { limit < 18446744073709551615 }
{
    let mut buffers = buffers;
    let told = match go(prog, &mut buffers, limit) {
        Ok(counted) => Told::Ended(counted),
        Err(stuck) => Told::Stopped(stuck),
    };
    (told, words_are(&buffers, words))
}

fn run_given(alloc: Global, prog: &Prog, given: &Given, limit: u64, words: &[u64]) -> (Told, bool)
    requires formed { IsWellFormed prog.now }
    requires sizes { all_fit given.now.sizes ≡ true }
    requires inputs { length given.now.inputs ≡ prog.now.inputs }
    requires limit { limit < 18446744073709551615 }
{
    match make(alloc, prog, given) {
        Ok(buffers) => run_on(prog, buffers, limit, words),
        Err(refusal) => (Told::Unmade(refusal), true),
    }
}

fn run_any(alloc: Global, prog: &Prog, given: &Given, limit: u64, words: &[u64]) -> (Told, bool) {
    if is_well_formed(prog)
        && all_fit(given.sizes.as_slice())
        && given.inputs.len() == prog.inputs as usize
        && limit < 18_446_744_073_709_551_615
    {
        run_given(alloc, prog, given, limit, words)
    } else {
        (Told::Unasked, false)
    }
}

fn inputs(alloc: Global, all: &[&[u64]]) -> Result<Items<Items<u64>>, AllocError> {
    let mut inputs = Items::new(alloc);
    for words in all {
        inputs.push(Items::from_slice(alloc, *words)?)?;
    }
    Ok(inputs)
}

fn given(alloc: Global, sizes: &[u64], all: &[&[u64]]) -> Result<Given, AllocError> {
    let (sizes, inputs) = two(Items::from_slice(alloc, sizes), inputs(alloc, all))?;
    Ok(Given { sizes, inputs })
}

/// How the run of a program is answered at these sizes, on these inputs and within this limit, and whether output 0 then has these words.
pub fn ran(
    alloc: Global,
    source: &Source,
    sizes: &[u64],
    inputs: &[&[u64]],
    limit: u64,
    words: &[u64],
) -> Result<(Told, bool), AllocError> {
    let given = given(alloc, sizes, inputs)?;
    let prog = program(alloc, source)?;
    Ok(run_any(alloc, prog.get(), &given, limit, words))
}
