//! What the run of a trial is given.

ghost use Rattle.std.specs.Prelude.{◌≡◌, ◌++◌, ◌≤◌, IfOk, MatchResult, OnOk, length};
ghost use Rattle.given_text.specs.Line.{output_line};
ghost use Rattle.given_text.specs.declared.fault.PrintFault.TheVariants.{Memory};
ghost use Rattle.trial_text.specs.TrialText.{given_from, stepped, stepped_on, trial_given, words_from};

use given_text::{PrintFault, print_words};
use std::alloc::{AllocError, Global};

/// The generator's next number.
fn stepped(number: u64) -> u64
    ensures { result ≡ stepped number }
{
    number
        .wrapping_mul(6_364_136_223_846_793_005)
        .wrapping_add(1_442_695_040_888_963_407)
}

/// So many words of the generator.
fn words(alloc: Global, state: &mut u64, count: u64) -> Result<Vec<u64>, AllocError>
    ensures words { IfOk result (λ words. words.items ≡ words_from state.old count) }
    ensures state { OnOk result (state.new ≡ stepped_on state.old count) }
{
    let mut words = Vec::new(alloc);
    for at in 0..count {
        *state = stepped(*state);
        words.push(*state)?;
    }
    Ok(words)
}

fn put_line(alloc: Global, text: &mut Vec<u8>, name: &str, words: &[u64]) -> Result<(), PrintFault>
    ensures { OnOk result (text.new.items ≡ text.old.items ++ output_line name.now words.now) }
{
    let line = print_words(alloc, name, words)?;
    text.extend_from_slice(&line)?;
    Ok(())
}

/// A line of so many words of the generator.
fn put_input(
    alloc: Global,
    text: &mut Vec<u8>,
    name: &str,
    state: &mut u64,
    count: u64,
) -> Result<(), PrintFault>
    ensures line { OnOk result (text.new.items ≡ text.old.items ++ output_line name.now (words_from state.old count)) }
    ensures state { OnOk result (state.new ≡ stepped_on state.old count) }
{
    let words = words(alloc, state, count)?;
    put_line(alloc, text, name, &words)
}

/// Lines of a size and of two inputs, of so many words of the generator each.
fn put_given(
    alloc: Global,
    text: &mut Vec<u8>,
    size: u64,
    state: u64,
    first: u64,
    second: u64,
) -> Result<(), PrintFault>
    ensures { OnOk result (text.new.items ≡ text.old.items ++ given_from size state first second) }
{
    let mut state = state;
    put_line(alloc, text, "N", &[size])?;
    put_input(alloc, text, "A", &mut state, first)?;
    put_input(alloc, text, "W", &mut state, second)
}

/// The given text of a trial: the size, and the words of the inputs. Time is linear in the text.
#[tactic(auto, unfolding(crate::specs::TrialText::trial_given))]
pub fn trial_given(alloc: Global) -> Result<Vec<u8>, PrintFault>
    ensures exact { MatchResult result (λ text. text.items ≡ trial_given) (λ fault. fault ≡ Memory) }
    // A file could hold it.
    ensures short { IfOk result (λ text. length text.items ≤ 1048576) }
{
    let mut text = Vec::new(alloc);
    match put_given(alloc, &mut text, 1000, 1, 1000, 3) {
        Ok(()) => Ok(text),
        Err(fault) => Err(fault),
    }
}
