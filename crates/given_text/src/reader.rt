//! Whole given texts.

ghost use Rattle.std.specs.Prelude.{◌≡◌, ◌≤◌, length, map, string_bytes, take, drop, Ok, IfOk, IfErr};
ghost use Rattle.text_tokens.specs.declared.kind.Language.TheVariants as language;
ghost use Rattle.reader_laws.specs.Steps.{Reads, Gives, read_whole};
ghost use Rattle.loop_run.specs.declared.given.Given.{Given as Value};
ghost use Rattle.given_text.specs.Given.{GivenText};
ghost use Rattle.given_text.specs.Reading as spec;
ghost use Rattle.given_text.specs.Answer.{Answers, IsFirstFault, IsRefusedText, read_bytes, read_text};

use crate::fault::GivenFault;
use crate::words::{heading, numbers, one_number};
use loop_run::Given;
use reader_laws::{ReadError, expect_in, finish};
use sqlite_items::Items;
use std::alloc::Global;
use text_tokens::{Kind, Language, Tokens};

/// `NAME : NUMBER ;`
#[tactic(auto, unfolding(crate::specs::Reading::size))]
fn size(tokens: &mut Tokens<'_>, name: &str) -> Result<u64, ReadError>
    ensures { Reads (λ x. x) (spec.size name.now tokens.old) result tokens.new }
{
    heading(tokens, name)?;
    let n = one_number(tokens)?;
    expect_in(tokens, 1, Kind::Semi)?;
    Ok(n)
}

/// `NAME : NUMBERS ;`
#[tactic(auto, unfolding(crate::specs::Reading::input))]
fn input(alloc: Global, tokens: &mut Tokens<'_>, name: &str) -> Result<Items<u64>, ReadError>
    ensures { Reads (λ x. x) (spec.input name.now tokens.old) result tokens.new }
{
    heading(tokens, name)?;
    let words = numbers(alloc, tokens)?;
    match expect_in(tokens, 1, Kind::Semi) {
        Ok(()) => Ok(words),
        Err(e) => Err(e),
    }
}

/// The sizes of these names, in order.
fn sizes(alloc: Global, tokens: &mut Tokens<'_>, names: &[String]) -> Result<Items<u64>, ReadError>
    ensures { Reads (λ x. x) (spec.sizes (map string_bytes names.now) tokens.old) result tokens.new }
{
    let mut found = Items::new(alloc);
    for name in names {
        let n = size(tokens, name.as_str())?;
        found.push(n)?;
    }
    Ok(found)
}

/// The inputs of these names, in order.
fn inputs(
    alloc: Global,
    tokens: &mut Tokens<'_>,
    names: &[String],
) -> Result<Items<Items<u64>>, ReadError>
    ensures { Reads (λ x. x) (spec.inputs (map string_bytes names.now) tokens.old) result tokens.new }
{
    let mut found = Items::new(alloc);
    for name in names {
        let words = input(alloc, tokens, name.as_str())?;
        found.push(words)?;
    }
    Ok(found)
}

#[tactic(auto, unfolding(crate::specs::Reading::given))]
fn given(
    alloc: Global,
    tokens: &mut Tokens<'_>,
    sizes_named: &[String],
    inputs_named: &[String],
) -> Result<Given, ReadError>
    ensures { Reads (λ x. x) (spec.given (map string_bytes sizes_named.now) (map string_bytes inputs_named.now) tokens.old) result tokens.new }
{
    let sizes = sizes(alloc, tokens, sizes_named)?;
    let inputs = inputs(alloc, tokens, inputs_named)?;
    Ok(Given { sizes, inputs })
}

#[tactic(auto, unfolding(reader_laws::specs::Steps::read_whole))]
fn whole(
    alloc: Global,
    sizes_named: &[String],
    inputs_named: &[String],
    text: &str,
) -> Result<Given, ReadError>
    ensures { Gives (λ x. x) result (read_whole language.Data (spec.given (map string_bytes sizes_named.now) (map string_bytes inputs_named.now)) text.now) }
{
    let mut tokens = Tokens::new(Language::Data, text);
    let given = given(alloc, &mut tokens, sizes_named, inputs_named)?;
    match finish(&tokens) {
        Ok(()) => Ok(given),
        Err(e) => Err(e),
    }
}

#[tactic(auto, unfolding(crate::specs::Answer::read_text))]
fn text_given(
    alloc: Global,
    sizes_named: &[String],
    inputs_named: &[String],
    text: &str,
) -> Result<Given, GivenFault>
    ensures { Answers result (read_text (map string_bytes sizes_named.now) (map string_bytes inputs_named.now) text.now) }
{
    match whole(alloc, sizes_named, inputs_named, text) {
        Ok(given) => Ok(given),
        Err(ReadError::Memory) => Err(GivenFault::Memory),
        Err(ReadError::Refused(_, at)) => Err(GivenFault::BadData { at }),
    }
}

fn bytes_given(
    alloc: Global,
    sizes_named: &[String],
    inputs_named: &[String],
    text: &[u8],
) -> Result<Given, GivenFault>
    ensures { Answers result (read_bytes (map string_bytes sizes_named.now) (map string_bytes inputs_named.now) text.now) }
{
    match std::str::from_utf8(text) {
        Ok(text) => text_given(alloc, sizes_named, inputs_named, text),
        Err(error) => Err(GivenFault::BadData {
            at: error.valid_up_to() as u64,
        }),
    }
}

/// So many first names, and the others.
fn split(names: &[String], count: usize) -> (&[String], &[String])
    requires { count ≤ length names.now }
    ensures first { map string_bytes result.0.now ≡ map string_bytes (take count names.now) }
    ensures others { map string_bytes result.1.now ≡ map string_bytes (drop count names.now) }
{
    names.split_at(count)
}

/// The sizes and inputs of a given text: for each of these names in order `NAME : NUMBERS ;`, one number for the first names, which are
/// those of sizes. A text that is not UTF-8 is refused before all else, at the end of its longest front that is. Time is linear in
/// the text.
pub fn read_given(
    alloc: Global,
    names: &[String],
    sizes: usize,
    text: &[u8],
) -> Result<Given, GivenFault>
    requires sizes { sizes ≤ length names.now }
    requires text { length text.now ≤ 2147483647 }
    // What is read is what the text gives.
    ensures found { IfOk result (λ g. GivenText (map string_bytes (take sizes names.now)) (map string_bytes (drop sizes names.now)) text.now g) }
    // What the text gives is read.
    ensures only { (g : Value) → GivenText (map string_bytes (take sizes names.now)) (map string_bytes (drop sizes names.now)) text.now g → Answers result (Ok g) }
    // A refusal stands at the first place that decides it.
    ensures refused { IfErr result (λ fault. IsRefusedText (map string_bytes (take sizes names.now)) (map string_bytes (drop sizes names.now)) text.now fault) }
    // The words before that place are the beginning of a given text.
    ensures first { IfErr result (λ fault. IsFirstFault (map string_bytes (take sizes names.now)) (map string_bytes (drop sizes names.now)) text.now fault) }
    // Which answer it is.
    ensures exact { Answers result (read_bytes (map string_bytes (take sizes names.now)) (map string_bytes (drop sizes names.now)) text.now) }
{
    let (sizes_named, inputs_named) = split(names, sizes);
    bytes_given(alloc, sizes_named, inputs_named, text)
}
