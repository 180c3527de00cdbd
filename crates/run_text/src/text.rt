//! The text of a run.

ghost use Rattle.std.specs.Prelude.{◌≡◌, ◌++◌, ◌≤◌, MatchResult, OnOk, length, map, string_bytes};
ghost use Rattle.given_text.specs.Line.{output_line};
ghost use Rattle.given_text.specs.declared.fault.PrintFault.TheVariants.{Memory};
ghost use Rattle.run_text.specs.Outputs.{output_lines, run_text, stores_line};

use given_text::{PrintFault, print_words};
use itoa::Buffer;
use loop_lang::Buf;
use loop_run::Buffers;
use program_run::Ran;
use sqlite_items::Items;
use std::alloc::Global;

fn put_line(alloc: Global, text: &mut Vec<u8>, name: &str, words: &[u64]) -> Result<(), PrintFault>
    ensures { OnOk result (text.new.items ≡ text.old.items ++ output_line name.now words.now) }
{
    let line = print_words(alloc, name, words)?;
    text.extend_from_slice(&line)?;
    Ok(())
}

/// The lines of the outputs of a run.
fn put_outputs(
    alloc: Global,
    text: &mut Vec<u8>,
    names: &[String],
    buffers: &Buffers,
) -> Result<(), PrintFault>
    requires { length names.now ≤ 4294967296 }
    ensures { OnOk result (text.new.items ≡ text.old.items ++ output_lines (map string_bytes names.now) buffers.now.memory.outputs) }
{
    for at in 0..names.len() {
        let words = buffers.words(Buf::Output(at as u32));
        put_line(alloc, text, names[at].as_str(), words)?;
    }
    Ok(())
}

fn put_stores(text: &mut Vec<u8>, stores: u64) -> Result<(), PrintFault>
    ensures { OnOk result (text.new.items ≡ text.old.items ++ stores_line stores) }
{
    text.extend_from_slice(b"stores ")?;
    text.extend_from_slice(Buffer::new().format(stores).as_bytes())?;
    text.extend_from_slice(b"\n")?;
    Ok(())
}

/// Outputs and stores.
#[tactic(auto, unfolding(crate::specs::Outputs::run_text))]
fn put_run(alloc: Global, text: &mut Vec<u8>, names: &[String], ran: &Ran) -> Result<(), PrintFault>
    requires { length names.now ≤ 4294967296 }
    ensures { OnOk result (text.new.items ≡ text.old.items ++ run_text (map string_bytes names.now) ran.now.buffers.memory.outputs ran.now.stores) }
{
    put_outputs(alloc, text, names, &ran.buffers)?;
    put_stores(text, ran.stores)
}

/// The text of a run whose outputs have these names: for each its line, then `stores` and how many words were stored. Time is linear
/// in the text.
pub fn run_text(alloc: Global, names: &[String], ran: &Ran) -> Result<Vec<u8>, PrintFault>
    requires { length names.now ≤ 4294967296 }
    ensures { MatchResult result (λ text. text.items ≡ run_text (map string_bytes names.now) ran.now.buffers.memory.outputs ran.now.stores) (λ fault. fault ≡ Memory) }
{
    let mut text = Vec::new(alloc);
    match put_run(alloc, &mut text, names, ran) {
        Ok(()) => Ok(text),
        Err(fault) => Err(fault),
    }
}

/// The lines of outputs that stand in lists.
fn put_lists(
    alloc: Global,
    text: &mut Vec<u8>,
    names: &[String],
    outputs: &[Items<u64>],
) -> Result<(), PrintFault>
    requires { length names.now ≤ length outputs.now }
    ensures { OnOk result (text.new.items ≡ text.old.items ++ output_lines (map string_bytes names.now) outputs.now) }
{
    for at in 0..names.len() {
        put_line(alloc, text, names[at].as_str(), outputs[at].as_slice())?;
    }
    Ok(())
}

/// The lines of outputs with these names. Time is linear in the text.
pub fn output_text(
    alloc: Global,
    names: &[String],
    outputs: &[Items<u64>],
) -> Result<Vec<u8>, PrintFault>
    requires { length names.now ≤ length outputs.now }
    ensures { MatchResult result (λ text. text.items ≡ output_lines (map string_bytes names.now) outputs.now) (λ fault. fault ≡ Memory) }
{
    let mut text = Vec::new(alloc);
    match put_lists(alloc, &mut text, names, outputs) {
        Ok(()) => Ok(text),
        Err(fault) => Err(fault),
    }
}
