//! Single words of a C text.

ghost use Rattle.std.specs.Prelude.{◌≡◌, ◌+◌, ◌≤◌, IfSome, MatchOption, Ok, Err};
ghost use Rattle.text_tokens.specs.Numbers as numbers;
ghost use Rattle.text_tokens.specs.declared.kind.Kind.TheVariants as k;
ghost use Rattle.reader_laws.specs.declared.fault.Fault.TheVariants.{BadSyntax};
ghost use Rattle.reader_laws.specs.Steps as steps;
ghost use Rattle.reader_laws.specs.Steps.{Reads};
ghost use Rattle.c_read.specs.Parts as parts;
ghost use Rattle.c_read.specs.Names as names;

use c_words::CWords;
use itoa::Buffer;
use reader_laws::{Fault, ReadError};
use text_tokens::{Kind, same_kind};

/// The fault at the next word.
#[tactic(auto, unfolding(reader_laws::specs::Steps::refusal))]
pub fn refuse(fault: Fault, words: &CWords<'_>) -> ReadError
    ensures { result ≡ steps.refusal fault words.now }
{
    ReadError::Refused(fault, words.place())
}

/// The fault of a next word that the grammar does not allow.
#[tactic(auto, unfolding(reader_laws::specs::Steps::misplaced))]
pub fn misplaced(words: &CWords<'_>) -> ReadError
    ensures { result ≡ steps.misplaced words.now }
{
    if same_kind(words.peek(), Kind::Bad) {
        refuse(Fault::BadToken, words)
    } else {
        refuse(Fault::BadSyntax, words)
    }
}

/// Takes a word of this kind and this text.
#[tactic(auto, unfolding(reader_laws::specs::Steps::a_word))]
pub fn expect(words: &mut CWords<'_>, kind: Kind, text: &[u8]) -> Result<(), ReadError>
    ensures { Reads (λ x. x) (parts.exactly (record { kind = kind; text = text.now }) words.old) result words.new }
{
    if !same_kind(words.peek(), kind) {
        return Err(misplaced(words));
    }
    if words.text() != text {
        return Err(refuse(Fault::BadSyntax, words));
    }
    words.take();
    Ok(())
}

/// The value of a number's digits, if it is below 2^64.
#[tactic(auto, using(text_tokens::proofs::Numbers::value_step, text_tokens::proofs::Numbers::value_too_large, text_tokens::proofs::Numbers::value_done))]
fn value(digits: &[u8]) -> Option<u64>
    ensures { result ≡ numbers.number digits.now }
{
    let mut value = 0u64;
    for b in digits {
        value = value
            .checked_mul(10)?
            .checked_add(b.saturating_sub(b'0') as u64)?;
    }
    Some(value)
}

/// Whether this is how the number is printed.
fn is_printed(digits: &[u8], n: u64) -> bool
    ensures { result ≡ parts.is_printed digits.now n }
{
    *digits == *Buffer::new().format(n).as_bytes()
}

/// The number that these digits print, if it is at most the largest.
#[tactic(auto, using(crate::proofs::Numerals::numeral_none, crate::proofs::Numerals::numeral_other, crate::proofs::Numerals::numeral_large, crate::proofs::Numerals::numeral_some))]
pub fn numeral(digits: &[u8], largest: u64) -> Option<u64>
    ensures value { MatchOption result (names.numeral (largest + 1) digits.now ≡ Err BadSyntax) (λ n. names.numeral (largest + 1) digits.now ≡ Ok n) }
    ensures range { IfSome result (λ n. n ≤ largest) }
{
    let n = value(digits)?;
    if !is_printed(digits, n) {
        return None;
    }
    if largest < n {
        return None;
    }
    Some(n)
}

/// Takes a number that is at most the largest.
#[tactic(auto, unfolding(reader_laws::specs::Steps::a_word))]
pub fn number(words: &mut CWords<'_>, largest: u64) -> Result<u64, ReadError>
    ensures { Reads (λ x. x) (steps.a_word k.Number (names.numeral (largest + 1)) words.old) result words.new }
{
    if !same_kind(words.peek(), Kind::Number) {
        return Err(misplaced(words));
    }
    let Some(n) = numeral(words.text(), largest) else {
        return Err(refuse(Fault::BadSyntax, words));
    };
    words.take();
    Ok(n)
}
