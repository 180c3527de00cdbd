//! Single words of a declaration.

ghost use Rattle.std.specs.Prelude.{◌≡◌, ◌∷◌, ◌++◌, [], IfOk, MatchResult};
ghost use Rattle.std.specs.Char.{is_ascii_digit};
ghost use Rattle.std.specs.List.{list_all};
ghost use Rattle.text_tokens.specs.declared.kind.Kind.TheVariants as k;
ghost use Rattle.reader_laws.specs.declared.fault.ReadError.TheVariants.{Memory};
ghost use Rattle.reader_laws.specs.Levels.{word_in};
ghost use Rattle.reader_laws.specs.Steps.{Reads};
ghost use Rattle.source_grammar.specs.Source as spec;
ghost use Rattle.declaration_reader.specs.Steps.{declare};

use reader_laws::{Fault, ReadError, misplaced_in, refuse};
use std::alloc::Global;
use term_reader::NameSet;
use term_tree::Name;
use text_tokens::{Kind, Tokens, number, same_kind};

/// The largest bound of a size, and the largest number of an example.
const LARGEST_BOUND: u64 = 1_099_511_627_776;

fn are_digits(bytes: &[u8]) -> bool
    ensures { result ≡ list_all is_ascii_digit bytes.now }
{
    bytes.iter().all(|b| b.is_ascii_digit())
}

/// Whether the printed text uses such a name for a local variable: `i` or `t`, and then digits.
fn is_reserved(name: &str) -> bool
    ensures { result ≡ spec.is_reserved name.now }
{
    match name.as_bytes() {
        [] => false,
        [_] => false,
        [first, digits @ ..] => {
            let local = *first == b'i' || *first == b't';
            local && are_digits(digits)
        }
    }
}

/// The version of a source, which has one spelling.
#[tactic(auto, unfolding(reader_laws::specs::Levels::word_in))]
pub(crate) fn version(tokens: &mut Tokens<'_>, version: u32) -> Result<(), ReadError>
    ensures { Reads (λ x. x) (word_in 1000 k.Number (spec.version_value version) tokens.old) result tokens.new }
{
    if !same_kind(tokens.peek(), Kind::Number) {
        return Err(misplaced_in(tokens, 1_000));
    }
    let wanted = if version == 1 { "1" } else { "2" };
    if tokens.text() != wanted {
        return Err(refuse(Fault::BadSyntax, tokens));
    }
    tokens.take();
    Ok(())
}

/// A name that is declared here: it is not reserved, and none of those declared before.
#[tactic(auto, unfolding(reader_laws::specs::Levels::word_in))]
pub(crate) fn declare<'a>(
    names: &mut NameSet<'a>,
    tokens: &mut Tokens<'a>,
) -> Result<&'a str, ReadError>
    ensures reads { Reads (λ x. x.now) (declare names.old tokens.old) result tokens.new }
    ensures added { IfOk result (λ x. names.new ≡ names.old ++ x.now ∷ []) }
{
    if !same_kind(tokens.peek(), Kind::Name) {
        return Err(misplaced_in(tokens, 1_000));
    }
    if is_reserved(tokens.text()) {
        return Err(refuse(Fault::ReservedName, tokens));
    }
    if names.place(tokens.text()).is_some() {
        return Err(refuse(Fault::NameTwice, tokens));
    }
    names.add(tokens.text())?;
    Ok(tokens.take())
}

/// This very name.
#[tactic(auto, unfolding(reader_laws::specs::Levels::word_in))]
pub(crate) fn same_name(tokens: &mut Tokens<'_>, name: &str) -> Result<(), ReadError>
    ensures { Reads (λ x. x) (word_in 1000 k.Name (spec.same_name name.now) tokens.old) result tokens.new }
{
    if !same_kind(tokens.peek(), Kind::Name) {
        return Err(misplaced_in(tokens, 1_000));
    }
    if tokens.text() != name {
        return Err(refuse(Fault::BadSyntax, tokens));
    }
    tokens.take();
    Ok(())
}

/// A bound of a size, or a number of the example.
#[tactic(auto, unfolding(reader_laws::specs::Levels::word_in))]
pub(crate) fn bound(tokens: &mut Tokens<'_>) -> Result<u64, ReadError>
    ensures { Reads (λ x. x) (word_in 1000 k.Number spec.bound tokens.old) result tokens.new }
{
    if !same_kind(tokens.peek(), Kind::Number) {
        return Err(misplaced_in(tokens, 1_000));
    }
    match number(tokens.text()) {
        None => Err(refuse(Fault::NumberTooLarge, tokens)),
        Some(value) => {
            if LARGEST_BOUND < value {
                return Err(refuse(Fault::NumberTooLarge, tokens));
            }
            tokens.take();
            Ok(value)
        }
    }
}

/// The text as a name.
pub(crate) fn name_of(alloc: Global, text: &str) -> Result<Name, ReadError>
    ensures { MatchResult result (λ name. name ≡ text.now) (λ e. e ≡ Memory) }
{
    let text = String::from_str(alloc, text)?;
    Ok(Name::new(text))
}
