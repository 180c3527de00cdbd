//! The line of an output.

ghost use Rattle.std.specs.Prelude.{◌≡◌, ◌++◌, OnOk, MatchResult, decimal, flat_map};
ghost use Rattle.given_text.specs.Line.{output_line, spaced};
ghost use Rattle.given_text.specs.declared.fault.PrintFault.TheVariants.{Memory};

use crate::fault::PrintFault;
use itoa::Buffer;
use std::alloc::Global;

fn put(text: &mut Vec<u8>, more: &[u8]) -> Result<(), PrintFault>
    ensures { OnOk result (text.new.items ≡ text.old.items ++ more.now) }
{
    text.extend_from_slice(more)?;
    Ok(())
}

fn put_word(text: &mut Vec<u8>, word: u64) -> Result<(), PrintFault>
    ensures { OnOk result (text.new.items ≡ text.old.items ++ spaced word) }
{
    put(text, b" ")?;
    put(text, Buffer::new().format(word).as_bytes())
}

/// Words, each after a space.
fn put_words(text: &mut Vec<u8>, words: &[u64]) -> Result<(), PrintFault>
    ensures { OnOk result (text.new.items ≡ text.old.items ++ flat_map spaced words.now) }
{
    for word in words {
        put_word(text, *word)?;
    }
    Ok(())
}

fn put_line(text: &mut Vec<u8>, name: &str, words: &[u64]) -> Result<(), PrintFault>
    ensures { OnOk result (text.new.items ≡ text.old.items ++ output_line name.now words.now) }
{
    put(text, name.as_bytes())?;
    put(text, b":")?;
    put_words(text, words)?;
    put(text, b";\n")
}

/// The line of an output: its name and `:`, then a space and a word for each word, then `;` and a line feed. Time is linear in the
/// line.
pub fn print_words(alloc: Global, name: &str, words: &[u64]) -> Result<Vec<u8>, PrintFault>
    ensures { MatchResult result (λ text. text.items ≡ output_line name.now words.now) (λ fault. fault ≡ Memory) }
{
    let mut text = Vec::new(alloc);
    match put_line(&mut text, name, words) {
        Ok(()) => Ok(text),
        Err(fault) => Err(fault),
    }
}
