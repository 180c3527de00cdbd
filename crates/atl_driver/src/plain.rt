// What the plain evaluator tells of a source.
ghost use Rattle.std.specs.Prelude.{◌≤◌, ◌⊎◌, IfOk, IsErrOf, length};
ghost use Rattle.atl_reader.specs.Source.{read_source};
ghost use Rattle.plain_run.specs.PlainRun.{IsPlainDenoted, plain_run};
ghost use Rattle.term_tree.specs.Modules.{IsSound};
ghost use Rattle.atl_driver.specs.Compile.{Answers, plainly, plainly_as, read_plainly};
ghost use Rattle.atl_driver.specs.Correct.{IsPlainlyTold, IsReadPlainly, IsRefusedPlainly, IsSoundText, IsUnplain, IsUnplainRead, IsUnread};
ghost use Rattle.atl_driver.specs.declared.fault.Fault.{Fault as FaultValue};

use crate::compile::{CompileRefusal, compile_bytes};
use crate::faults::unread;
use crate::run_faults::unplain;
use atl_reader::read_module;
use owned_values::spent;
use plain_run::run_plain;
use std::alloc::Global;
use term_tree::Module;

/// What the plain evaluator tells of a module on a given text, or the first fault.
fn plain_text(alloc: Global, origin: &Module, given: &[u8]) -> Result<Vec<u8>, CompileRefusal>
    requires sound { IsSound origin.now }
    requires sizes { length origin.now.sizes ≤ 2147483647 }
    requires inputs { length origin.now.inputs ≤ 2147483647 }
    requires given { length given.now ≤ 2147483647 }
    ensures answers { Answers (plainly_as (plain_run origin.now given.now)) result }
    ensures denoted { IfOk result (λ text. IsPlainDenoted origin.now given.now text.items) }
    ensures refused { (fault : FaultValue) → IsErrOf result (CompileRefusal.Refused fault) → IsUnplain origin.now given.now fault }
{
    match run_plain(alloc, origin, given) {
        Ok(text) => Ok(text),
        Err(fault) => Err(unplain(alloc, fault)),
    }
}

/// The same of a source whose module is sound. A fault of reading it is told as it is.
fn source_plainly(alloc: Global, source: &[u8], given: &[u8]) -> Result<Vec<u8>, CompileRefusal>
    requires source { length source.now ≤ 2147483647 }
    requires sound { IsSoundText source.now }
    requires given { length given.now ≤ 2147483647 }
    ensures answers { Answers (read_plainly (read_source source.now) given.now) result }
    ensures denoted { IfOk result (λ text. IsReadPlainly source.now given.now text.items) }
    ensures refused { (fault : FaultValue) → IsErrOf result (CompileRefusal.Refused fault) → IsUnread source.now fault ⊎ IsUnplainRead source.now given.now fault }
{
    match read_module(alloc, source) {
        Ok(origin) => {
            let text = plain_text(alloc, &origin, given);
            spent(origin);
            text
        }
        Err(fault) => Err(unread(alloc, fault)),
    }
}

/// What a source that is accepted under a script denotes of a given text: the lines of the outputs, by the plain evaluator of the source itself; or the
/// first fault. Time is that of `compile_bytes`, of `read_module` and of `run_plain`.
pub fn plain_bytes(
    alloc: Global,
    source: &[u8],
    script: &[u8],
    given: &[u8],
) -> Result<Vec<u8>, CompileRefusal>
    requires source { length source.now ≤ 2147483647 }
    requires script { length script.now ≤ 2147483647 }
    requires given { length given.now ≤ 2147483647 }
    // Which answer it is.
    ensures answers { Answers (plainly source.now script.now given.now) result }
    // What is told is what the source denotes.
    ensures correct { IfOk result (λ text. IsPlainlyTold source.now script.now given.now text.items) }
    // A fault has its cause.
    ensures refused { (fault : FaultValue) → IsErrOf result (CompileRefusal.Refused fault) → IsRefusedPlainly source.now script.now given.now fault }
{
    match compile_bytes(alloc, source, Some(script)) {
        Ok(c) => {
            let text = source_plainly(alloc, source, given);
            spent(c);
            text
        }
        Err(refusal) => Err(refusal),
    }
}
