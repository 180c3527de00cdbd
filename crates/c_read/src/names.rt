//! Names of a C text: sizes, loop variables and buffers by their numbers.

ghost use Rattle.std.specs.Prelude.{◌≡◌, ◌<◌, ◌≤◌, ◌^◌, IfSome, MatchOption, Ok, Err};
ghost use Rattle.reader_laws.specs.declared.fault.Fault.TheVariants.{BadSyntax};
ghost use Rattle.loop_lang.specs.declared.word.Buf.TheVariants as buf;
ghost use Rattle.c_read.specs.Names as spec;
ghost use Rattle.c_read.specs.Scopes.{scope_of};

use crate::scope::Names;
use crate::words::numeral;
use loop_lang::Buf;

/// The number below the limit that these digits print.
#[tactic(auto, using(crate::proofs::Numerals::numeral_zero))]
fn below(digits: &[u8], limit: u64) -> Option<u64>
    ensures value { MatchOption result (spec.numeral limit digits.now ≡ Err BadSyntax) (λ n. spec.numeral limit digits.now ≡ Ok n) }
    ensures range { IfSome result (λ n. n < limit) }
{
    if limit == 0 {
        return None;
    }
    numeral(digits, limit - 1)
}

/// A number of 32 bits below the limit.
fn small_below(digits: &[u8], limit: u64) -> Option<u32>
    requires { limit ≤ 2 ^ 32 }
    ensures { MatchOption result (spec.numeral limit digits.now ≡ Err BadSyntax) (λ n. spec.numeral limit digits.now ≡ Ok n) }
{
    match below(digits, limit) {
        Some(n) => Some(n as u32),
        None => None,
    }
}

fn input(digits: &[u8], limit: u64) -> Option<Buf>
    requires { limit ≤ 2 ^ 32 }
    ensures { MatchOption result (spec.with_number buf.Input (spec.numeral limit digits.now) ≡ Err BadSyntax) (λ b. spec.with_number buf.Input (spec.numeral limit digits.now) ≡ Ok b) }
{
    match small_below(digits, limit) {
        Some(n) => Some(Buf::Input(n)),
        None => None,
    }
}

fn output(digits: &[u8], limit: u64) -> Option<Buf>
    requires { limit ≤ 2 ^ 32 }
    ensures { MatchOption result (spec.with_number buf.Output (spec.numeral limit digits.now) ≡ Err BadSyntax) (λ b. spec.with_number buf.Output (spec.numeral limit digits.now) ≡ Ok b) }
{
    match small_below(digits, limit) {
        Some(n) => Some(Buf::Output(n)),
        None => None,
    }
}

fn scratch(digits: &[u8], limit: u64) -> Option<Buf>
    requires { limit ≤ 2 ^ 32 }
    ensures { MatchOption result (spec.with_number buf.Scratch (spec.numeral limit digits.now) ≡ Err BadSyntax) (λ b. spec.with_number buf.Scratch (spec.numeral limit digits.now) ≡ Ok b) }
{
    match small_below(digits, limit) {
        Some(n) => Some(Buf::Scratch(n)),
        None => None,
    }
}

/// A letter and a number below the limit.
fn numbered(text: &[u8], letter: u8, limit: u32) -> Option<u32>
    ensures { MatchOption result (spec.numbered letter limit text.now ≡ Err BadSyntax) (λ n. spec.numbered letter limit text.now ≡ Ok n) }
{
    match text {
        [] => None,
        [c, digits @ ..] => {
            if *c != letter {
                return None;
            }
            small_below(digits, limit as u64)
        }
    }
}

/// The size of this name.
pub fn size_number(names: Names, text: &[u8]) -> Option<u32>
    ensures { MatchOption result (spec.size_number (scope_of names) text.now ≡ Err BadSyntax) (λ n. spec.size_number (scope_of names) text.now ≡ Ok n) }
{
    numbered(text, b'n', names.sizes)
}

/// The loop variable of this name.
pub fn loop_number(names: Names, text: &[u8]) -> Option<u32>
    ensures { MatchOption result (spec.loop_number (scope_of names) text.now ≡ Err BadSyntax) (λ n. spec.loop_number (scope_of names) text.now ≡ Ok n) }
{
    numbered(text, b'i', names.loops)
}

/// A buffer that may be written, by its name.
pub fn target(names: Names, text: &[u8]) -> Option<Buf>
    ensures { MatchOption result (spec.target (scope_of names) text.now ≡ Err BadSyntax) (λ b. spec.target (scope_of names) text.now ≡ Ok b) }
{
    match text {
        [] => None,
        [c, digits @ ..] => match *c {
            b'b' => output(digits, names.outputs),
            b's' => scratch(digits, names.scratch),
            _ => None,
        },
    }
}

/// A buffer by its name.
pub fn buffer(names: Names, text: &[u8]) -> Option<Buf>
    ensures { MatchOption result (spec.buffer (scope_of names) text.now ≡ Err BadSyntax) (λ b. spec.buffer (scope_of names) text.now ≡ Ok b) }
{
    match text {
        [] => None,
        [c, digits @ ..] => {
            if *c == b'a' {
                return input(digits, names.inputs);
            }
            target(names, text)
        }
    }
}
