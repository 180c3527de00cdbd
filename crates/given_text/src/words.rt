//! What stands in a given text: a name with its colon, one number, and numbers.

ghost use Rattle.std.specs.Prelude.{◌≡◌, [], length};
ghost use Rattle.text_tokens.specs.declared.kind.Kind.TheVariants as k;
ghost use Rattle.reader_laws.specs.Steps.{Reads};
ghost use Rattle.reader_laws.specs.Levels.{word_in};
ghost use Rattle.given_text.specs.Given.{word_value};
ghost use Rattle.given_text.specs.Reading as spec;

use reader_laws::{Fault, ReadError, expect_in, misplaced_in, refuse};
use sqlite_items::Items;
use std::alloc::Global;
use text_tokens::{Kind, Tokens, number, same_kind};

/// `NAME :`, of this name.
#[tactic(auto, unfolding(crate::specs::Reading::heading, reader_laws::specs::Levels::word_in))]
pub(crate) fn heading(tokens: &mut Tokens<'_>, name: &str) -> Result<(), ReadError>
    ensures { Reads (λ x. x) (spec.heading name.now tokens.old) result tokens.new }
{
    if !same_kind(tokens.peek(), Kind::Name) {
        return Err(misplaced_in(tokens, 1));
    }
    if tokens.text() != name {
        return Err(refuse(Fault::BadSyntax, tokens));
    }
    tokens.take();
    expect_in(tokens, 1, Kind::Colon)
}

/// A number below 2^64; zeros may stand in front.
#[tactic(auto, unfolding(reader_laws::specs::Levels::word_in))]
pub(crate) fn one_number(tokens: &mut Tokens<'_>) -> Result<u64, ReadError>
    ensures { Reads (λ x. x) (word_in 1 k.Number word_value tokens.old) result tokens.new }
{
    if !same_kind(tokens.peek(), Kind::Number) {
        return Err(misplaced_in(tokens, 1));
    }
    let Some(n) = number(tokens.text()) else {
        return Err(refuse(Fault::NumberTooLarge, tokens));
    };
    tokens.take();
    Ok(n)
}

/// Numbers, as long as they come.
#[tactic(auto, using(crate::proofs::NumberLaws::stops, crate::proofs::NumberLaws::number_refused, crate::proofs::NumberLaws::number_read, crate::proofs::NumberLaws::number_shorter))]
pub(crate) fn numbers(alloc: Global, tokens: &mut Tokens<'_>) -> Result<Items<u64>, ReadError>
    ensures { Reads (λ x. x) (spec.numbers [] tokens.old) result tokens.new }
{
    let mut found = Items::new(alloc);
    while same_kind(tokens.peek(), Kind::Number) {
        let n = one_number(tokens)?;
        found.push(n)?;
    }
    Ok(found)
}
