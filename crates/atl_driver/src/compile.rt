// From the contents of a command's files to its text.
ghost use Rattle.std.specs.Prelude.{◌≡◌, ◌≤◌, length, IfOk, IfSome, IsErrOf, map, option_copied, Some};
ghost use Rattle.atl_driver.specs.Asked.{IsShort, Loops, OnText, Versions, Facts, Run, asked_for};
ghost use Rattle.atl_driver.specs.Form.{IsInRange};
ghost use Rattle.atl_driver.specs.Compile.{Answers, compiled, decided, first_content, given_content, script_content, second_content};
ghost use Rattle.atl_driver.specs.Correct.{IsCompiled, IsRefusedSource, IsRight, HasFault};
ghost use Rattle.atl_driver.specs.declared.compile.CompileRefusal.TheVariants.{Memory};
ghost use Rattle.atl_driver.specs.declared.fault.Fault.{Fault as FaultValue};

use crate::Fault;
use crate::command::Verb;
use crate::emit::Emit;
use crate::exec::exec_text;
use crate::faults::unread;
use crate::module_text::module_text;
use crate::plain::plain_bytes;
use crate::task::Task;
use crate::trial::trial_bytes;
use atl_printer::laws::what_is_read_is_printable;
use atl_reader::read_module;
use std::alloc::{AllocError, AllocFailed, Global};

/// Why a command has no text.
#[derive(Drop)]
pub enum CompileRefusal {
    Refused(Fault),
    Memory,
}

impl From<AllocError> for CompileRefusal {
    ghost from_gives = { λ _ refusal. refusal ≡ Memory };

    fn from(_: AllocError) -> CompileRefusal {
        CompileRefusal::Memory
    }
}

impl<T: Drop> From<AllocFailed<T>> for CompileRefusal {
    ghost from_gives = { λ _ refusal. refusal ≡ Memory };

    fn from(_: AllocFailed<T>) -> CompileRefusal {
        CompileRefusal::Memory
    }
}

/// What is made of a source under a script, where there is one, or the first fault.
#[tactic(none)]
pub(crate) fn emit_bytes(
    alloc: Global,
    emit: Emit<'_>,
    source: &[u8],
    script: Option<&[u8]>,
) -> Result<Vec<u8>, CompileRefusal>
    requires source { length source.now ≤ 2147483647 }
    requires script { IfSome (option_copied script) (λ text. length text ≤ 2147483647) }
    requires given { IsShort (asked_for emit) }
    ensures answers { Answers (compiled (asked_for emit.entry) source.now (option_copied script.entry)) result }
    ensures correct { IfOk result (λ text. IsCompiled (asked_for emit.entry) source.now (option_copied script.entry) text.items) }
    ensures refused { (fault : FaultValue) → IsErrOf result (CompileRefusal.Refused fault) → IsRefusedSource (asked_for emit.entry) source.now (option_copied script.entry) fault }
{
    what_is_read_is_printable();
    match read_module(alloc, source) {
        Ok(origin) => module_text(alloc, emit, origin, script),
        Err(fault) => Err(unread(alloc, fault)),
    }
}

/// The C text of a source under a script, where there is one, or the first fault. Time is that of `read_module`, `admit`, `read_script`,
/// `last_version`, `judge`, `lower` and `print_c`.
pub fn compile_bytes(
    alloc: Global,
    source: &[u8],
    script: Option<&[u8]>,
) -> Result<Vec<u8>, CompileRefusal>
    requires source { length source.now ≤ 2147483647 }
    requires script { IfSome (option_copied script) (λ text. length text ≤ 2147483647) }
    // Which answer it is.
    ensures answers { Answers (compiled Loops source.now (option_copied script.entry)) result }
    // What is printed is right.
    ensures correct { IfOk result (λ text. IsCompiled Loops source.now (option_copied script.entry) text.items) }
    // A fault has its cause.
    ensures refused { (fault : FaultValue) → IsErrOf result (CompileRefusal.Refused fault) → IsRefusedSource Loops source.now (option_copied script.entry) fault }
{
    emit_bytes(alloc, Emit::Loops, source, script)
}

/// The canonical texts of the versions of a source under a script, the source first, or the first fault; the final form of the last
/// version is not asked for. Time is that of `read_module`, `admit`, `read_script` and `run_script`, and linear in the text.
#[tactic(none)]
pub fn stages_bytes(alloc: Global, source: &[u8], script: &[u8]) -> Result<Vec<u8>, CompileRefusal>
    requires source { length source.now ≤ 2147483647 }
    requires script { length script.now ≤ 2147483647 }
    // Which answer it is.
    ensures answers { Answers (compiled Versions source.now (Some script.now)) result }
    // What is printed is right: each block reads back as its version, which denotes what the source does.
    ensures correct { IfOk result (λ text. IsCompiled Versions source.now (Some script.now) text.items) }
    // A fault has its cause.
    ensures refused { (fault : FaultValue) → IsErrOf result (CompileRefusal.Refused fault) → IsRefusedSource Versions source.now (Some script.now) fault }
{
    emit_bytes(alloc, Emit::Versions, source, Some(script))
}

/// What a script has to show of a source: a block for each condition of each step and then for each goal of the last version, up to and with
/// the first that is not shown; or the first fault, where it is not one of a condition or a goal that is not shown. Time is that of
/// `read_module`, `admit`, `read_script`, and twice that of `last_version` and `judge`.
pub fn facts_bytes(alloc: Global, source: &[u8], script: &[u8]) -> Result<Vec<u8>, CompileRefusal>
    requires source { length source.now ≤ 2147483647 }
    requires script { length script.now ≤ 2147483647 }
    // Which answer it is.
    ensures answers { Answers (compiled Facts source.now (Some script.now)) result }
    // What is told are the conditions and the goals.
    ensures correct { IfOk result (λ text. IsCompiled Facts source.now (Some script.now) text.items) }
    // A fault has its cause.
    ensures refused { (fault : FaultValue) → IsErrOf result (CompileRefusal.Refused fault) → IsRefusedSource Facts source.now (Some script.now) fault }
{
    emit_bytes(alloc, Emit::Facts, source, Some(script))
}

/// What the loops of the last version of a source under a script leave on a given text: the lines of the outputs, which tell what the source
/// denotes, and how many words were stored; or the first fault. Time is that of `read_module`, `admit`, `read_script`, `last_version`, `judge`,
/// `lower` and `run_version`.
pub fn run_bytes(
    alloc: Global,
    source: &[u8],
    script: &[u8],
    given: &[u8],
) -> Result<Vec<u8>, CompileRefusal>
    requires source { length source.now ≤ 2147483647 }
    requires script { length script.now ≤ 2147483647 }
    requires given { length given.now ≤ 2147483647 }
    // Which answer it is.
    ensures answers { Answers (compiled (Run (OnText given.now)) source.now (Some script.now)) result }
    // What is told is what the source denotes.
    ensures correct { IfOk result (λ text. IsCompiled (Run (OnText given.now)) source.now (Some script.now) text.items) }
    // A fault has its cause.
    ensures refused { (fault : FaultValue) → IsErrOf result (CompileRefusal.Refused fault) → IsRefusedSource (Run (OnText given.now)) source.now (Some script.now) fault }
{
    emit_bytes(alloc, Emit::Run(Task::OnText(given)), source, Some(script))
}

/// The first content.
fn first_of(contents: &[Vec<u8>]) -> &[u8]
    ensures { result.now ≡ first_content (map (λ content. content.items) contents.now) }
{
    match contents {
        [] => [].as_slice(),
        [first, ..] => first.as_slice(),
    }
}

/// The second content, where there is one.
fn second_of(contents: &[Vec<u8>]) -> Option<&[u8]>
    ensures { option_copied result ≡ second_content (map (λ content. content.items) contents.now) }
{
    match contents {
        [_, second, ..] => Some(second.as_slice()),
        _ => None,
    }
}

/// The second content.
fn script_in(contents: &[Vec<u8>]) -> &[u8]
    ensures { result.now ≡ script_content (map (λ content. content.items) contents.now) }
{
    match contents {
        [_, second, ..] => second.as_slice(),
        _ => [].as_slice(),
    }
}

/// The third content.
fn given_in(contents: &[Vec<u8>]) -> &[u8]
    ensures { result.now ≡ given_content (map (λ content. content.items) contents.now) }
{
    match contents {
        [_, _, third, ..] => third.as_slice(),
        _ => [].as_slice(),
    }
}

/// The text for the contents of a command's files, or their fault.
#[tactic(none)]
pub fn compile_all(
    alloc: Global,
    verb: Verb,
    contents: &[Vec<u8>],
) -> Result<Vec<u8>, CompileRefusal>
    requires first { length (first_content (map (λ content. content.items) contents.now)) ≤ 1048576 }
    requires second { IfSome (second_content (map (λ content. content.items) contents.now)) (λ text. length text ≤ 1048576) }
    requires third { length (given_content (map (λ content. content.items) contents.now)) ≤ 1048576 }
    requires range { IsInRange verb }
    ensures answers { Answers (decided verb (map (λ content. content.items) contents.now)) result }
    ensures correct { IfOk result (λ text. IsRight verb (map (λ content. content.items) contents.now) text.items) }
    ensures refused { (fault : FaultValue) → IsErrOf result (CompileRefusal.Refused fault) → HasFault verb (map (λ content. content.items) contents.now) fault }
{
    match verb {
        Verb::Compile => compile_bytes(alloc, first_of(contents), second_of(contents)),
        Verb::Stages => stages_bytes(alloc, first_of(contents), script_in(contents)),
        Verb::Facts => facts_bytes(alloc, first_of(contents), script_in(contents)),
        Verb::Run => run_bytes(
            alloc,
            first_of(contents),
            script_in(contents),
            given_in(contents),
        ),
        Verb::Plain => plain_bytes(
            alloc,
            first_of(contents),
            script_in(contents),
            given_in(contents),
        ),
        Verb::Exec => exec_text(alloc, first_of(contents), script_in(contents)),
        Verb::Trial(steps) => trial_bytes(alloc, steps),
    }
}
