//! The line of a trial.

ghost use Rattle.std.specs.Prelude.{◌≡◌, ◌++◌, MatchResult, OnOk};
ghost use Rattle.given_text.specs.declared.fault.PrintFault.TheVariants.{Memory};
ghost use Rattle.trial_text.specs.TrialText.{named_number, trial_line};

use crate::put::{put, put_number};
use given_text::PrintFault;
use std::alloc::Global;

fn put_named(text: &mut Vec<u8>, name: &[u8], number: u64) -> Result<(), PrintFault>
    ensures { OnOk result (text.new.items ≡ text.old.items ++ named_number name.now number) }
{
    put(text, name)?;
    put_number(text, number)
}

fn put_numbers(
    text: &mut Vec<u8>,
    steps: u64,
    nodes: u64,
    bytes: u64,
    stores: u64,
    total: u64,
) -> Result<(), PrintFault>
    ensures { OnOk result (text.new.items ≡ text.old.items ++ trial_line steps nodes bytes stores total) }
{
    put_named(text, b"trial ", steps)?;
    put_named(text, b" nodes ", nodes)?;
    put_named(text, b" steps ", steps)?;
    put_named(text, b" bytes ", bytes)?;
    put_named(text, b" stores ", stores)?;
    put_named(text, b" sum ", total)?;
    put(text, b"\n")
}

/// The line of the trial of so many steps: the nodes of its last version, the bytes of its C text, the words stored, and the sum of its
/// output words.
pub fn trial_line(
    alloc: Global,
    steps: u64,
    nodes: u64,
    bytes: u64,
    stores: u64,
    total: u64,
) -> Result<Vec<u8>, PrintFault>
    ensures { MatchResult result (λ text. text.items ≡ trial_line steps nodes bytes stores total) (λ fault. fault ≡ Memory) }
{
    let mut text = Vec::new(alloc);
    match put_numbers(&mut text, steps, nodes, bytes, stores, total) {
        Ok(()) => Ok(text),
        Err(fault) => Err(fault),
    }
}
