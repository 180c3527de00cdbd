//! Buffers for a run.

ghost use Rattle.std.specs.Prelude.{◌≡◌, ◌<◌, Ok, IfOk, drop, length, take, true};
ghost use Rattle.loop_run.specs.Fits.{all_fit};
ghost use Rattle.loop_run.specs.Held.{memory_of};
ghost use Rattle.loop_run.specs.Statements.{levels};
ghost use Rattle.loop_lang.specs.Form.{IsWellFormed};
ghost use Rattle.loop_lang.specs.Run.{IsMemoryOf};
ghost use Rattle.loop_run.specs.Made.{IsAnswer, held_at, made, made_at};

use crate::buffers::Buffers;
use crate::counted::Counted;
use crate::given::Given;
use crate::lengths::{copied, count_levels, lengths_at, room, start_buffers, total, wrong_count};
use crate::machine::{Contents, Machine};
use crate::refusal::MakeRefusal;
use loop_lang::Prog;
use sqlite_items::Items;
use std::alloc::{AllocError, Global};

/// The most words of all buffers.
const MOST_WORDS: u64 = 16_777_216;

/// The numbers after so many.
fn after(numbers: &[u64], count: usize) -> &[u64]
    ensures { result.now ≡ drop count numbers.now }
{
    if count < numbers.len() {
        &numbers[count..]
    } else {
        &[]
    }
}

/// So many numbers at most.
fn first_of(numbers: &[u64], count: usize) -> &[u64]
    ensures { result.now ≡ take count numbers.now }
{
    if count < numbers.len() {
        &numbers[..count]
    } else {
        numbers
    }
}

fn contents(
    alloc: Global,
    prog: &Prog,
    given: &Given,
    lengths: &[u64],
) -> Result<Contents, AllocError>
    ensures { IfOk result (λ c. memory_of c ≡ (held_at prog.now given.now lengths.now).memory) }
{
    let inputs = copied(alloc, given.inputs.as_slice())?;
    let first = prog.inputs as usize;
    let second = prog.outputs as usize;
    let outputs = start_buffers(alloc, first_of(after(lengths, first), second))?;
    let rest = after(after(lengths, first), second);
    let scratch = start_buffers(alloc, first_of(rest, prog.scratch as usize))?;
    Ok(Contents {
        inputs,
        outputs,
        scratch,
    })
}

/// Buffers of these lengths.
fn buffers_at(
    alloc: Global,
    prog: &Prog,
    given: &Given,
    lengths: &[u64],
) -> Result<Buffers, MakeRefusal>
    requires sizes { all_fit given.now.sizes ≡ true }
    ensures answer { IsAnswer result (Ok (held_at prog.now given.now lengths.now)) }
    ensures levels { IfOk result (λ b. b.levels ≡ levels prog.now.body) }
{
    // No memory has room for 2^64 numbers.
    let Some(levels) = count_levels(&prog.body) else {
        return Err(MakeRefusal::Memory);
    };
    let Ok(contents) = contents(alloc, prog, given, lengths) else {
        return Err(MakeRefusal::Memory);
    };
    let Ok(sizes) = Items::from_slice(alloc, given.sizes.as_slice()) else {
        return Err(MakeRefusal::Memory);
    };
    let Ok(loops) = room(alloc, levels) else {
        return Err(MakeRefusal::Memory);
    };
    let counted = Counted {
        steps: 0,
        stores: 0,
        loads: 0,
        products: 0,
    };
    Ok(Buffers {
        sizes,
        loops,
        machine: Machine { contents, counted },
    })
}

/// Buffers of these lengths, where they are small enough and the inputs have theirs.
fn made_at(
    alloc: Global,
    prog: &Prog,
    given: &Given,
    lengths: &[u64],
) -> Result<Buffers, MakeRefusal>
    requires sizes { all_fit given.now.sizes ≡ true }
    requires inputs { length given.now.inputs < 4294967296 }
    ensures answer { IsAnswer result (made_at prog.now given.now lengths.now) }
    ensures levels { IfOk result (λ b. b.levels ≡ levels prog.now.body) }
{
    let words = total(lengths);
    if words > MOST_WORDS {
        return Err(MakeRefusal::TooBigToRun { words });
    }
    match wrong_count(lengths, given.inputs.as_slice()) {
        Some(refusal) => Err(refusal),
        None => buffers_at(alloc, prog, given, lengths),
    }
}

/// The buffers of a program at the given sizes, with the given words in the inputs. All buffers together have at most 2^24 words,
/// whose sum is told up to 2^64 - 1. Time is linear in the program and these words.
pub fn make(alloc: Global, prog: &Prog, given: &Given) -> Result<Buffers, MakeRefusal>
    requires formed { IsWellFormed prog.now }
    requires sizes { all_fit given.now.sizes ≡ true }
    requires inputs { length given.now.inputs ≡ prog.now.inputs }
    // The first length that is stuck, then too many words, then the first input of another count, or the buffers.
    ensures answer { IsAnswer result (made prog.now given.now) }
    ensures levels { IfOk result (λ b. b.levels ≡ levels prog.now.body) }
    // The buffers are those of the program at these sizes.
    ensures memory { IfOk result (λ b. IsMemoryOf prog.now b.sizes b.memory) }
{
    let _inputs = prog.inputs;
    match lengths_at(alloc, prog.lengths.as_slice(), given.sizes.as_slice()) {
        Ok(lengths) => made_at(alloc, prog, given, lengths.as_slice()),
        Err(refusal) => Err(refusal),
    }
}
