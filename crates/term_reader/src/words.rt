//! Single words of a term.

ghost use Rattle.std.specs.Prelude.{◌≡◌, MatchResult};
ghost use Rattle.text_tokens.specs.declared.kind.Kind.TheVariants as k;
ghost use Rattle.reader_laws.specs.declared.fault.ReadError.TheVariants.{Memory};
ghost use Rattle.reader_laws.specs.Levels.{word_in};
ghost use Rattle.reader_laws.specs.Steps.{Reads, itself};
ghost use Rattle.source_grammar.specs.Scope.{tensor_name};
ghost use Rattle.source_grammar.specs.Terms.{tile_value, word_value};
ghost use Rattle.term_reader.specs.Frames.{entries_of};
ghost use Rattle.term_reader.specs.Names.{tensor_if};

use crate::scope::Scope;
use reader_laws::{Fault, ReadError, misplaced_in, refuse};
use source_grammar::Sort;
use text_tokens::{Kind, Tokens, number, same_kind};

/// The name that a form binds.
#[tactic(auto, unfolding(reader_laws::specs::Levels::word_in))]
pub fn bound_name<'a>(tokens: &mut Tokens<'a>, levels: usize) -> Result<&'a str, ReadError>
    ensures { Reads (λ x. x.now) (word_in levels k.Name itself tokens.old) result tokens.new }
{
    if !same_kind(tokens.peek(), Kind::Name) {
        return Err(misplaced_in(tokens, levels));
    }
    Ok(tokens.take())
}

/// A word of 64 bits.
#[tactic(auto, unfolding(reader_laws::specs::Levels::word_in))]
pub fn word(tokens: &mut Tokens<'_>, levels: usize) -> Result<u64, ReadError>
    ensures { Reads (λ x. x) (word_in levels k.Number word_value tokens.old) result tokens.new }
{
    if !same_kind(tokens.peek(), Kind::Number) {
        return Err(misplaced_in(tokens, levels));
    }
    let Some(word) = number(tokens.text()) else {
        return Err(refuse(Fault::NumberTooLarge, tokens));
    };
    tokens.take();
    Ok(word)
}

/// The number of rows in a tile.
#[tactic(auto, unfolding(reader_laws::specs::Levels::word_in))]
pub fn tile(tokens: &mut Tokens<'_>, levels: usize) -> Result<u32, ReadError>
    ensures { Reads (λ x. x) (word_in levels k.Number tile_value tokens.old) result tokens.new }
{
    if !same_kind(tokens.peek(), Kind::Number) {
        return Err(misplaced_in(tokens, levels));
    }
    match number(tokens.text()) {
        None => Err(refuse(Fault::NumberTooLarge, tokens)),
        Some(0) => Err(refuse(Fault::BadSyntax, tokens)),
        Some(n) => {
            if n > 2_147_483_647 {
                return Err(refuse(Fault::NumberTooLarge, tokens));
            }
            tokens.take();
            Ok(n as u32)
        }
    }
}

/// The number of a let or an input.
fn tensor_number(scope: &Scope<'_, '_>, name: &str) -> Result<Option<u32>, ReadError>
    ensures { MatchResult result (λ n. tensor_if n ≡ tensor_name (entries_of scope.now) name.now) (λ e. e ≡ Memory) }
{
    let Some(meaning) = scope.meaning(name)? else {
        return Ok(None);
    };
    match meaning.sort {
        Sort::OfTensor => Ok(Some(meaning.number)),
        Sort::OfSize => Ok(None),
        Sort::OfIndex => Ok(None),
    }
}

/// A tensor variable.
#[tactic(auto, unfolding(reader_laws::specs::Levels::word_in))]
pub fn tensor(
    scope: &Scope<'_, '_>,
    tokens: &mut Tokens<'_>,
    levels: usize,
) -> Result<u32, ReadError>
    ensures { Reads (λ x. x) (word_in levels k.Name (tensor_name (entries_of scope.now)) tokens.old) result tokens.new }
{
    if !same_kind(tokens.peek(), Kind::Name) {
        return Err(misplaced_in(tokens, levels));
    }
    let Some(number) = tensor_number(scope, tokens.text())? else {
        return Err(refuse(Fault::UnknownName, tokens));
    };
    tokens.take();
    Ok(number)
}
