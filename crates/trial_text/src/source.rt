//! The source of a trial.

ghost use Rattle.std.specs.Prelude.{◌≡◌, ◌+◌, ◌++◌, ◌<◌, ◌^◌, ◌≤◌, IfOk, MatchResult, OnOk, length};
ghost use Rattle.given_text.specs.declared.fault.PrintFault.TheVariants.{Memory};
ghost use Rattle.trial_text.specs.TrialText.{let_text, lets_text, squares_text, tensor_name, trial_source};

use crate::put::{put, put_number};
use given_text::PrintFault;
use std::alloc::Global;

/// What stands before the lets.
const HEAD: &[u8] =
    b"atl 1;\nsize N in 1..100000;\nexample N = 1000;\ninput A[N];\ninput W[3];\noutput B =\n";

fn put_name(text: &mut Vec<u8>, number: u64) -> Result<(), PrintFault>
    ensures { OnOk result (text.new.items ≡ text.old.items ++ tensor_name number) }
{
    if number == 0 {
        return put(text, b"A");
    }
    put(text, b"x")?;
    put_number(text, number)
}

fn put_let(text: &mut Vec<u8>, number: u64) -> Result<(), PrintFault>
    requires { number + 1 < 2 ^ 64 }
    ensures { OnOk result (text.new.items ≡ text.old.items ++ let_text number) }
{
    put(text, b"  let ")?;
    put_name(text, number + 1)?;
    put(text, b" = gen i < N. sum j < 3. (guard i + j < N. ")?;
    put_name(text, number)?;
    put(text, b"[i + j]) * W[j] in\n")
}

fn put_lets(text: &mut Vec<u8>, lets: u64) -> Result<(), PrintFault>
    ensures { OnOk result (text.new.items ≡ text.old.items ++ lets_text lets) }
{
    for number in 0..lets {
        put_let(text, number)?;
    }
    Ok(())
}

fn put_squares(text: &mut Vec<u8>, number: u64) -> Result<(), PrintFault>
    ensures { OnOk result (text.new.items ≡ text.old.items ++ squares_text number) }
{
    put(text, b"  gen i < N. ")?;
    put_name(text, number)?;
    put(text, b"[i] * ")?;
    put_name(text, number)?;
    put(text, b"[i];\n")
}

#[tactic(auto, unfolding(crate::specs::TrialText::trial_source))]
fn put_source(text: &mut Vec<u8>, steps: u64) -> Result<(), PrintFault>
    ensures { OnOk result (text.new.items ≡ text.old.items ++ trial_source steps) }
{
    put(text, HEAD)?;
    put_lets(text, steps)?;
    put_squares(text, steps)
}

/// The source of the trial of so many steps. Time is linear in the text.
pub fn trial_source(alloc: Global, steps: u64) -> Result<Vec<u8>, PrintFault>
    ensures exact { MatchResult result (λ text. text.items ≡ trial_source steps) (λ fault. fault ≡ Memory) }
    // A file could hold it.
    ensures short { steps ≤ 16 → IfOk result (λ text. length text.items ≤ 1048576) }
{
    let mut text = Vec::new(alloc);
    match put_source(&mut text, steps) {
        Ok(()) => Ok(text),
        Err(fault) => Err(fault),
    }
}
