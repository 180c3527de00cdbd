//! Single words of a script.

ghost use Rattle.std.specs.Prelude.{◌≡◌, ◌≤◌, IfOk, MatchResult};
ghost use Rattle.text_tokens.specs.declared.kind.Kind.TheVariants as k;
ghost use Rattle.reader_laws.specs.declared.fault.ReadError.TheVariants.{Memory};
ghost use Rattle.reader_laws.specs.Steps.{Reads, a_word, itself};
ghost use Rattle.schedule_script.specs.Words as spec;

use reader_laws::{Fault, ReadError, misplaced, refuse};
use std::alloc::Global;
use term_tree::Name;
use text_tokens::{Kind, Tokens, number, same_kind};

/// How many items of a list and how many operators of a chain may come: more than a text has.
pub(crate) const MOST_ITEMS: usize = 9_223_372_036_854_775_808;

/// How many steps a script may have.
pub(crate) const MOST_STEPS: usize = 1_000;

/// The version of a script, whose one spelling is `1`.
#[tactic(auto, unfolding(reader_laws::specs::Steps::a_word))]
pub(crate) fn version(tokens: &mut Tokens<'_>) -> Result<(), ReadError>
    ensures { Reads (λ x. x) (a_word k.Number spec.version_one tokens.old) result tokens.new }
{
    if !same_kind(tokens.peek(), Kind::Number) {
        return Err(misplaced(tokens));
    }
    if tokens.text() != "1" {
        return Err(refuse(Fault::BadSyntax, tokens));
    }
    tokens.take();
    Ok(())
}

/// A number from low to high.
#[tactic(auto, unfolding(reader_laws::specs::Steps::a_word))]
pub(crate) fn number_in(tokens: &mut Tokens<'_>, low: u64, high: u64) -> Result<u64, ReadError>
    ensures reads { Reads (λ x. x) (a_word k.Number (spec.number_in low high) tokens.old) result tokens.new }
    ensures range { IfOk result (λ n. (low ≤ n) × (n ≤ high)) }
{
    if !same_kind(tokens.peek(), Kind::Number) {
        return Err(misplaced(tokens));
    }
    let Some(n) = number(tokens.text()) else {
        return Err(refuse(Fault::NumberTooLarge, tokens));
    };
    if n < low || high < n {
        return Err(refuse(Fault::NumberTooLarge, tokens));
    }
    tokens.take();
    Ok(n)
}

/// A number of a path, of a goal, or of a fact.
pub(crate) fn count(tokens: &mut Tokens<'_>) -> Result<u32, ReadError>
    ensures { Reads (λ x. x) (a_word k.Number spec.count_value tokens.old) result tokens.new }
{
    match number_in(tokens, 0, 4_294_967_295) {
        Ok(n) => Ok(n as u32),
        Err(e) => Err(e),
    }
}

/// A divisor of an index.
pub(crate) fn divisor(tokens: &mut Tokens<'_>) -> Result<u32, ReadError>
    ensures { Reads (λ x. x) (a_word k.Number spec.divisor_value tokens.old) result tokens.new }
{
    match number_in(tokens, 1, 2_147_483_647) {
        Ok(n) => Ok(n as u32),
        Err(e) => Err(e),
    }
}

/// A name, as its text.
#[tactic(auto, unfolding(reader_laws::specs::Steps::a_word))]
pub(crate) fn name<'a>(tokens: &mut Tokens<'a>) -> Result<&'a str, ReadError>
    ensures { Reads (λ t. t.now) (a_word k.Name itself tokens.old) result tokens.new }
{
    if !same_kind(tokens.peek(), Kind::Name) {
        return Err(misplaced(tokens));
    }
    Ok(tokens.take())
}

/// The text as a name.
pub(crate) fn name_of(alloc: Global, text: &str) -> Result<Name, ReadError>
    ensures { MatchResult result (λ name. name ≡ text.now) (λ e. e ≡ Memory) }
{
    let text = String::from_str(alloc, text)?;
    Ok(Name::new(text))
}
