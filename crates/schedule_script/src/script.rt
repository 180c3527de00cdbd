//! Whole scripts.

ghost use Rattle.std.specs.Prelude.{◌≡◌, ◌≤◌, length, Ok, IfOk, IfErr};
ghost use Rattle.text_tokens.specs.declared.kind.Language.TheVariants as language;
ghost use Rattle.reader_laws.specs.Steps as steps;
ghost use Rattle.reader_laws.specs.Steps.{Reads, Gives};
ghost use Rattle.schedule_script.specs.Script as spec;
ghost use Rattle.schedule_script.specs.Script.{ScriptText, Answers, IsRefusedText};
ghost use Rattle.schedule_script.specs.declared.tree.Script.{Script as Value};

use crate::fault::ScriptFault;
use crate::steps::{final_line, step};
use crate::tree::{Script, Step};
use crate::words::{MOST_ITEMS, MOST_STEPS, version};
use linear_cert::FinalLine;
use reader_laws::{Fault, ReadError, expect, finish, refuse};
use sqlite_items::Items;
use std::alloc::Global;
use text_tokens::{Kind, Language, Tokens, same_kind};

#[tactic(auto, unfolding(crate::specs::Script::header))]
fn header(tokens: &mut Tokens<'_>) -> Result<(), ReadError>
    ensures { Reads (λ x. x) (spec.header tokens.old) result tokens.new }
{
    expect(tokens, Kind::Schedule)?;
    version(tokens)?;
    expect(tokens, Kind::Semi)
}

/// The steps, each after `at`.
#[tactic(auto, using(reader_laws::proofs::Repeated::stop, reader_laws::proofs::Repeated::fell, reader_laws::proofs::Repeated::full, crate::proofs::Loops::few_steps))]
fn steps(alloc: Global, tokens: &mut Tokens<'_>) -> Result<Items<Step>, ReadError>
    ensures { Reads (λ x. x) (spec.steps tokens.old) result tokens.new }
{
    let mut found = Items::new(alloc);
    for _turn in 0..MOST_STEPS {
        if !same_kind(tokens.peek(), Kind::At) {
            return Ok(found);
        }
        tokens.take();
        let next = step(alloc, tokens)?;
        found.push(next)?;
    }
    if same_kind(tokens.peek(), Kind::At) {
        return Err(refuse(Fault::TooDeep, tokens));
    }
    Ok(found)
}

/// The final lines, each after `goal`.
#[tactic(auto, using(reader_laws::proofs::Repeated::stop, reader_laws::proofs::Repeated::fell, reader_laws::proofs::Repeated::full, crate::proofs::Loops::items))]
fn final_lines(alloc: Global, tokens: &mut Tokens<'_>) -> Result<Items<FinalLine>, ReadError>
    ensures { Reads (λ x. x) (spec.final_lines tokens.old) result tokens.new }
{
    let mut found = Items::new(alloc);
    for _turn in 0..MOST_ITEMS {
        if !same_kind(tokens.peek(), Kind::Goal) {
            return Ok(found);
        }
        tokens.take();
        let next = final_line(alloc, tokens)?;
        found.push(next)?;
    }
    if same_kind(tokens.peek(), Kind::Goal) {
        return Err(refuse(Fault::TooDeep, tokens));
    }
    Ok(found)
}

#[tactic(auto, unfolding(crate::specs::Script::script))]
fn script(alloc: Global, tokens: &mut Tokens<'_>) -> Result<Script, ReadError>
    ensures { Reads (λ x. x) (spec.script tokens.old) result tokens.new }
{
    header(tokens)?;
    let steps = steps(alloc, tokens)?;
    let finals = final_lines(alloc, tokens)?;
    Ok(Script {
        steps,
        finals,
        parallel: Items::new(alloc),
    })
}

#[tactic(auto, unfolding(reader_laws::specs::Steps::read_whole))]
fn whole(alloc: Global, text: &str) -> Result<Script, ReadError>
    ensures { Gives (λ x. x) result (steps.read_whole language.Script spec.script text.now) }
{
    let mut tokens = Tokens::new(Language::Script, text);
    let script = script(alloc, &mut tokens)?;
    finish(&tokens)?;
    Ok(script)
}

#[tactic(auto, unfolding(crate::specs::Script::read_text))]
fn read_text(alloc: Global, text: &str) -> Result<Script, ScriptFault>
    ensures { Answers result (spec.read_text text.now) }
{
    match whole(alloc, text) {
        Ok(script) => Ok(script),
        Err(ReadError::Memory) => Err(ScriptFault::Memory),
        Err(ReadError::Refused(_, at)) => Err(ScriptFault::ScriptSyntax { at }),
    }
}

#[tactic(auto, unfolding(crate::specs::Script::read_bytes))]
fn read_bytes(alloc: Global, text: &[u8]) -> Result<Script, ScriptFault>
    ensures { Answers result (spec.read_bytes text.now) }
{
    match std::str::from_utf8(text) {
        Ok(text) => read_text(alloc, text),
        Err(error) => Err(ScriptFault::ScriptSyntax {
            at: error.valid_up_to() as u64,
        }),
    }
}

/// The script of a text. A text that is not UTF-8 is refused before all else, at the end of its longest front that is.
/// Time is linear in the text.
pub fn read_script(alloc: Global, text: &[u8]) -> Result<Script, ScriptFault>
    requires { length text.now ≤ 2147483647 }
    // What is read is the script of the text.
    ensures found { IfOk result (λ s. ScriptText text.now s) }
    // What is the script of the text is read.
    ensures only { (s : Value) → ScriptText text.now s → Answers result (Ok s) }
    // A refusal stands at the first place that decides it.
    ensures refused { IfErr result (λ fault. IsRefusedText text.now fault) }
    // Which answer it is.
    ensures exact { Answers result (spec.read_bytes text.now) }
{
    read_bytes(alloc, text)
}
