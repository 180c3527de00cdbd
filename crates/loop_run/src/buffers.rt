//! The buffers of a run.

ghost use Rattle.std.specs.Prelude.{◌≡◌, ◌+◌, ◌-◌, ◌^◌, ◌<◌, ◌≤◌, [], IfOk, get_or, length, set, true};
ghost use Rattle.loop_lang.specs.Actions.{program_acts};
ghost use Rattle.loop_lang.specs.Form.{IsWellFormed};
ghost use Rattle.loop_lang.specs.Memory.{Ends, Memory, with_words, words};
ghost use Rattle.loop_lang.specs.Run as meaning;
ghost use Rattle.loop_run.specs.Fits.{all_fit};
ghost use Rattle.loop_run.specs.Held.{memory_of};
ghost use Rattle.loop_run.specs.Statements.{levels};
ghost use Rattle.loop_run.specs.Exact.{counts_told, decided, left_before, steps_within};

use crate::counted::Counted;
use crate::machine::Machine;
use crate::refusal::{Stuck, stuck_of};
use crate::statement::run;
use loop_lang::{Buf, Prog};
use sqlite_items::Items;
use std::marker::Model;

/// Sizes, the words of each buffer, and room for one number a level of loops.
#[derive(Drop)]
pub struct Buffers {
    pub(crate) sizes: Items<u64>,
    pub(crate) loops: Vec<u64>,
    pub(crate) machine: Machine,
}

impl Model for Buffers {
    ghost use Rattle.std.specs.Prelude.{◌≡◌, length, true};
    ghost use Rattle.loop_run.specs.Fits.{all_fit};
    ghost use Rattle.loop_run.specs.Held.{memory_of};
    ghost use Rattle.loop_run.specs.Buffers.{Held};

    ghost Value = { Held };

    ghost view = { λ b. record { sizes = b.sizes; memory = memory_of b.machine.contents; levels = length b.loops.items } };

    ghost invariant = { λ b. all_fit b.sizes ≡ true };
}

/// Runs the body of a program from its start.
fn run_body(
    prog: &Prog,
    sizes: &[u64],
    loops: &mut [u64],
    machine: &mut Machine,
    limit: u64,
) -> Result<Counted, Stuck>
    requires formed { IsWellFormed prog.now }
    requires fits { all_fit sizes.now ≡ true }
    requires levels { levels prog.now.body ≤ length loops.old }
    requires limit { limit < 18446744073709551615 }
    ensures answer { result ≡ decided limit (program_acts prog.now sizes.now) (memory_of machine.old.contents) }
    ensures left { memory_of machine.new.contents ≡ left_before (steps_within limit (program_acts prog.now sizes.now)) (memory_of machine.old.contents) }
    ensures ended { IfOk result (λ _. meaning.run prog.now sizes.now (memory_of machine.old.contents) ≡ Ends (memory_of machine.new.contents)) }
    ensures within { (m : Memory) → meaning.run prog.now sizes.now (memory_of machine.old.contents) ≡ Ends m → (meaning.counts_of (program_acts prog.now sizes.now)).steps ≤ limit →
        (result ≡ Ok (counts_told (program_acts prog.now sizes.now))) × (memory_of machine.new.contents ≡ m) }
{
    machine.counted = Counted {
        steps: 0,
        stores: 0,
        loads: 0,
        products: 0,
    };
    match run(&prog.body, limit, sizes, loops, 0, machine) {
        Ok(()) => Ok(machine.counted),
        Err(halt) => Err(stuck_of(halt, limit)),
    }
}

/// Runs a program on buffers, for at most so many steps: turns of loops, tests of an if, words put, added or put to 0. Time is
/// linear in the program's steps and the size of their expressions; it takes no memory.
pub fn go(prog: &Prog, buffers: &mut Buffers, limit: u64) -> Result<Counted, Stuck>
    requires formed { IsWellFormed prog.now }
    requires levels { levels prog.now.body ≤ buffers.old.levels }
    requires limit { limit < 18446744073709551615 }
    // The counts of the run, or why it is stuck, or that more steps than the limit would begin before either.
    ensures answer { result ≡ decided limit (program_acts prog.now buffers.old.sizes) buffers.old.memory }
    // What the actions before the end, the one that is stuck, or the step that is one too many leave; sizes and room stay.
    ensures left { buffers.new ≡ record buffers.old { memory = left_before (steps_within limit (program_acts prog.now buffers.old.sizes)) buffers.old.memory } }
    // After Ok the memory is that of the run.
    ensures ended { IfOk result (λ _. meaning.run prog.now buffers.old.sizes buffers.old.memory ≡ Ends buffers.new.memory) }
    // A run that ends within the limit is answered with its counts, and leaves its memory.
    ensures within { (m : Memory) → meaning.run prog.now buffers.old.sizes buffers.old.memory ≡ Ends m → (meaning.counts_of (program_acts prog.now buffers.old.sizes)).steps ≤ limit →
        (result ≡ Ok (counts_told (program_acts prog.now buffers.old.sizes))) × (buffers.new ≡ record buffers.old { memory = m }) }
{
    run_body(
        prog,
        buffers.sizes.as_slice(),
        buffers.loops.as_mut_slice(),
        &mut buffers.machine,
        limit,
    )
}

/// The words of one of these buffers, none where it is not there.
fn words_in(list: &[Items<u64>], number: u32) -> &[u64]
    ensures { result.now ≡ get_or list.now number [] }
{
    match list.get(number as usize) {
        Some(words) => words.as_slice(),
        None => &[],
    }
}

/// Sets one word of one of these buffers.
fn set_in(list: &mut [Items<u64>], number: u32, at: u64, word: u64)
    requires { at < length (get_or list.old number []) }
    ensures { list.new ≡ set list.old number (set (get_or list.old number []) at word) }
{
    let number = number as usize;
    if number < list.len() {
        list[number].set(at as usize, word);
    }
}

impl Buffers {
    pub fn sizes(&self) -> &[u64]
        ensures { result.now ≡ self.now.sizes }
    {
        self.sizes.as_slice()
    }

    /// The words of a buffer.
    pub fn words(&self, buffer: Buf) -> &[u64]
        ensures { result.now ≡ words self.now.memory buffer }
    {
        match buffer {
            Buf::Input(k) => words_in(&self.machine.contents.inputs, k),
            Buf::Output(k) => words_in(&self.machine.contents.outputs, k),
            Buf::Scratch(k) => words_in(&self.machine.contents.scratch, k),
        }
    }

    /// Sets one word of a buffer, and leaves all else as it was.
    pub fn store(&mut self, buffer: Buf, at: u64, word: u64)
        requires { at < length (words self.old.memory buffer) }
        ensures { self.new ≡ record self.old { memory = with_words self.old.memory buffer (set (words self.old.memory buffer) at word) } }
    {
        match buffer {
            Buf::Input(k) => set_in(&mut self.machine.contents.inputs, k, at, word),
            Buf::Output(k) => set_in(&mut self.machine.contents.outputs, k, at, word),
            Buf::Scratch(k) => set_in(&mut self.machine.contents.scratch, k, at, word),
        }
    }
}
