//! The steps that each reader takes.

ghost use Rattle.std.specs.Prelude.{◌≡◌, ◌<◌, length, map, IfSome};
ghost use Rattle.reader_laws.specs.Steps as steps;
ghost use Rattle.reader_laws.specs.Steps.{Reads};

use crate::fault::{Fault, ReadError};
use text_tokens::{Kind, Tokens, same_kind};

/// The fault at the next word.
#[tactic(auto, unfolding(crate::specs::Steps::refusal))]
pub fn refuse(fault: Fault, tokens: &Tokens<'_>) -> ReadError
    ensures { result ≡ steps.refusal fault tokens.now }
{
    ReadError::Refused(fault, tokens.place())
}

/// The fault of a next word that the grammar does not allow.
#[tactic(auto, unfolding(crate::specs::Steps::misplaced))]
pub fn misplaced(tokens: &Tokens<'_>) -> ReadError
    ensures { result ≡ steps.misplaced tokens.now }
{
    if same_kind(tokens.peek(), Kind::Bad) {
        refuse(Fault::BadToken, tokens)
    } else {
        refuse(Fault::BadSyntax, tokens)
    }
}

/// Takes a word of this kind.
#[tactic(auto, unfolding(crate::specs::Steps::a_word))]
pub fn expect(tokens: &mut Tokens<'_>, kind: Kind) -> Result<(), ReadError>
    ensures { Reads (λ x. x) (steps.a_word kind steps.no_value tokens.old) result tokens.new }
{
    if !same_kind(tokens.peek(), kind) {
        return Err(misplaced(tokens));
    }
    tokens.take();
    Ok(())
}

/// Sees that no word is left.
#[tactic(auto, unfolding(crate::specs::Steps::finish))]
pub fn finish(tokens: &Tokens<'_>) -> Result<(), ReadError>
    ensures { Reads (λ x. x) (steps.finish tokens.now) result tokens.now }
{
    if !tokens.is_done() {
        return Err(misplaced(tokens));
    }
    Ok(())
}

/// Where the name is among these.
pub fn place_of(mut names: &[&str], name: &str) -> Option<usize>
    ensures value { result ≡ steps.place_from 0 name.now (map (λ n. n.now) names.entry.now) }
    ensures within { IfSome result (λ at. at < length names.entry.now) }
{
    let mut at = 0;
    while let [first, rest @ ..] = names {
        if name == *first {
            return Some(at);
        }
        at += 1;
        names = rest;
    }
    None
}
