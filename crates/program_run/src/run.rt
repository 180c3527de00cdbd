//! A run on what is given.

ghost use Rattle.std.specs.Prelude.{◌≡◌, ◌≤◌, IfOk, length, true};
ghost use Rattle.loop_lang.specs.Actions.{program_acts};
ghost use Rattle.loop_lang.specs.Form.{IsWellFormed};
ghost use Rattle.loop_run.specs.Fits.{all_fit};
ghost use Rattle.loop_run.specs.Made.{IsAnswer};
ghost use Rattle.loop_run.specs.Statements.{levels};
ghost use Rattle.program_run.specs.Ran.{IsRun, ran, ran_from};

use loop_lang::Prog;
use loop_run::{Buffers, Given, MakeRefusal, go, make};
use std::alloc::Global;

/// The most steps of a run.
const MOST_STEPS: u64 = 134_217_728;

/// The buffers that a run leaves, and how many words it stored.
#[derive(Drop)]
pub struct Ran {
    pub buffers: Buffers,
    pub stores: u64,
}

/// Runs a program on buffers.
fn run_on(prog: &Prog, buffers: Buffers) -> Result<Ran, MakeRefusal>
    requires formed { IsWellFormed prog.now }
    requires levels { levels prog.now.body ≤ buffers.levels }
    ensures { result ≡ ran_from (program_acts prog.now buffers.sizes) buffers }
{
    let mut buffers = buffers;
    match go(prog, &mut buffers, MOST_STEPS) {
        Ok(counted) => Ok(Ran {
            buffers,
            stores: counted.stores,
        }),
        Err(stuck) => Err(MakeRefusal::Stuck(stuck)),
    }
}

/// Runs a program on what is given. A run has at most 2^27 steps: turns of loops, tests of an if, words put, added or put to 0. All
/// buffers together have at most 2^24 words. Time is that of `make` and of `go`.
pub fn run_program(alloc: Global, prog: &Prog, given: &Given) -> Result<Ran, MakeRefusal>
    requires formed { IsWellFormed prog.now }
    requires sizes { all_fit given.now.sizes ≡ true }
    requires inputs { length given.now.inputs ≡ prog.now.inputs }
    // Why no buffers are made, too much work, why the run is stuck, or what it leaves.
    ensures answer { IsAnswer result (ran prog.now given.now) }
    // What is left is what a run of the program leaves.
    ensures run { IfOk result (λ left. IsRun prog.now given.now left) }
{
    match make(alloc, prog, given) {
        Ok(buffers) => run_on(prog, buffers),
        Err(refusal) => Err(refusal),
    }
}
