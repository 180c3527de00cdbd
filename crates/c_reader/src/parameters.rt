//! Reads the fixed words of a text and its lists of parameters.

ghost use Rattle.std.specs.Prelude.{◌≡◌, ◌<◌, ◌∷◌, decimal};
ghost use Rattle.std.specs.Str.{bytes_eq};
ghost use Rattle.text_tokens.specs.Spelled.{name_token, tokens_of};
ghost use Rattle.reader_laws.specs.Steps.{Reads};
ghost use Rattle.c_words.specs.Words.{c_words};
ghost use Rattle.c_text.specs.Printed as printed;
ghost use Rattle.c_read.specs.Parts.{exactly, expect_all};
ghost use Rattle.loop_lang.specs.declared.word.Buf.TheVariants as buf;
ghost use Rattle.c_print.specs.Index as index;
ghost use Rattle.c_reader.specs.Units as spec;

use crate::heads::Counts;
use c_read::words::{expect, misplaced, refuse};
use c_words::CWords;
use itoa::Buffer;
use reader_laws::{Fault, ReadError};
use text_tokens::{Kind, same_kind};

/// Takes the words of another text.
#[tactic(auto, using(crate::proofs::Models::model_done, crate::proofs::Models::model_went, crate::proofs::Models::model_less))]
fn same_words(words: &mut CWords<'_>, mut model: CWords<'_>) -> Result<(), ReadError>
    ensures { Reads (λ x. x) (expect_all (tokens_of model.entry.words) words.old) result words.new }
{
    while !model.is_done() {
        expect(words, model.peek(), model.text())?;
        model.take();
    }
    Ok(())
}

/// Takes the words of this text.
pub fn fixed(words: &mut CWords<'_>, text: &[u8]) -> Result<(), ReadError>
    ensures { Reads (λ x. x) (expect_all (tokens_of (c_words text.now)) words.old) result words.new }
{
    same_words(words, CWords::new(text))
}

/// Whether this is a letter and a number.
fn is_numbered(text: &[u8], letter: u8, number: u32) -> bool
    ensures { result ≡ bytes_eq text.now (letter ∷ decimal number) }
{
    match text {
        [] => false,
        [c, digits @ ..] => *c == letter && *digits == *Buffer::new().format(number).as_bytes(),
    }
}

/// Takes a name that is a letter and a number.
#[tactic(auto, unfolding(reader_laws::specs::Steps::a_word))]
fn numbered(words: &mut CWords<'_>, letter: u8, number: u32) -> Result<(), ReadError>
    ensures { Reads (λ x. x) (exactly (name_token (letter ∷ decimal number)) words.old) result words.new }
{
    if !same_kind(words.peek(), Kind::Name) {
        return Err(misplaced(words));
    }
    if !is_numbered(words.text(), letter, number) {
        return Err(refuse(Fault::BadSyntax, words));
    }
    words.take();
    Ok(())
}

/// Takes a comma, where what follows is not the first parameter of all.
fn comma(words: &mut CWords<'_>, first: bool) -> Result<(), ReadError>
    ensures { Reads (λ x. x) (expect_all (spec.first_comma first) words.old) result words.new }
{
    if first {
        return Ok(());
    }
    expect(words, Kind::Comma, b",")?;
    Ok(())
}

/// Takes a size as a parameter.
#[tactic(auto, unfolding(c_print::specs::Index::size_name))]
fn size_parameter(words: &mut CWords<'_>, number: u32) -> Result<(), ReadError>
    ensures { Reads (λ x. x) (expect_all (printed.size_parameter number) words.old) result words.new }
{
    expect(words, Kind::Name, b"int64_t")?;
    numbered(words, b'n', number)?;
    Ok(())
}

/// Takes an input as a parameter.
#[tactic(auto, unfolding(c_print::specs::Word::buffer_name))]
fn input_parameter(words: &mut CWords<'_>, number: u32) -> Result<(), ReadError>
    ensures { Reads (λ x. x) (expect_all (printed.buffer_parameter (buf.Input number)) words.old) result words.new }
{
    expect(words, Kind::Name, b"const")?;
    expect(words, Kind::Name, b"uint64_t")?;
    expect(words, Kind::Star, b"*")?;
    numbered(words, b'a', number)?;
    Ok(())
}

/// Takes a buffer that may be written as a parameter.
#[tactic(auto, unfolding(c_print::specs::Word::buffer_name))]
fn output_parameter(words: &mut CWords<'_>, number: u32) -> Result<(), ReadError>
    ensures { Reads (λ x. x) (expect_all (printed.buffer_parameter (buf.Output number)) words.old) result words.new }
{
    expect(words, Kind::Name, b"uint64_t")?;
    expect(words, Kind::Star, b"*")?;
    numbered(words, b'b', number)?;
    Ok(())
}

/// Takes scratch as a parameter.
#[tactic(auto, unfolding(c_print::specs::Word::buffer_name))]
fn scratch_parameter(words: &mut CWords<'_>, number: u32) -> Result<(), ReadError>
    ensures { Reads (λ x. x) (expect_all (printed.buffer_parameter (buf.Scratch number)) words.old) result words.new }
{
    expect(words, Kind::Name, b"uint64_t")?;
    expect(words, Kind::Star, b"*")?;
    numbered(words, b's', number)?;
    Ok(())
}

/// Parameters of one kind.
#[derive(Clone, Copy, Debug, PartialEq, Eq)]
enum Group {
    Sizes,
    Inputs,
    Outputs,
    Scratch,
}

/// Takes the parameter of a kind with this number.
fn numbered_parameter(words: &mut CWords<'_>, group: Group, number: u32) -> Result<(), ReadError>
    ensures { Reads (λ x. x) (expect_all (spec.group_tokens group number) words.old) result words.new }
{
    match group {
        Group::Sizes => size_parameter(words, number),
        Group::Inputs => input_parameter(words, number),
        Group::Outputs => output_parameter(words, number),
        Group::Scratch => scratch_parameter(words, number),
    }
}

/// Takes the parameter, behind a comma where it is not the first of all.
fn parameter(
    words: &mut CWords<'_>,
    group: Group,
    first: bool,
    number: u32,
) -> Result<(), ReadError>
    ensures { Reads (λ x. x) (spec.parameter first (spec.group_tokens group number) words.old) result words.new }
{
    comma(words, first)?;
    numbered_parameter(words, group, number)
}

/// Takes so many parameters of a kind.
#[tactic(auto, using(crate::proofs::Lists::many_stop, crate::proofs::Lists::many_went))]
fn many(words: &mut CWords<'_>, group: Group, mut first: bool, count: u32) -> Result<(), ReadError>
    ensures { Reads (λ x. x) (spec.many (spec.group_tokens group) first 0 count words.old) result words.new }
{
    for number in 0..count {
        parameter(words, group, first, number)?;
        first = false;
    }
    Ok(())
}

/// Whether the first parameter of all comes behind so many.
fn still(first: bool, count: u32) -> bool
    ensures { result ≡ spec.still first count }
{
    if count == 0 { first } else { false }
}

/// Takes the parameters of the function, kind by kind.
fn all(words: &mut CWords<'_>, sizes: u32, counts: Counts) -> Result<(), ReadError>
    ensures { Reads (λ x. x) (spec.each_parameter sizes (spec.counts_of counts) words.old) result words.new }
{
    many(words, Group::Sizes, true, sizes)?;
    let first = still(true, sizes);
    many(words, Group::Inputs, first, counts.inputs)?;
    many(
        words,
        Group::Outputs,
        still(first, counts.inputs),
        counts.outputs,
    )?;
    many(words, Group::Scratch, false, counts.scratch)
}

/// Takes the sizes as the parameters of a length, or `void` where there is none.
pub fn size_words(words: &mut CWords<'_>, sizes: u32) -> Result<(), ReadError>
    ensures { Reads (λ x. x) (expect_all (printed.sizes_words sizes) words.old) result words.new }
{
    if sizes == 0 {
        expect(words, Kind::Name, b"void")?;
        return Ok(());
    }
    many(words, Group::Sizes, true, sizes)
}

fn start(words: &mut CWords<'_>, sizes: u32, counts: Counts) -> Result<(), ReadError>
    ensures { Reads (λ x. x) (spec.start_by sizes (spec.counts_of counts) words.old) result words.new }
{
    expect(words, Kind::Name, b"void")?;
    expect(words, Kind::Name, b"atl")?;
    expect(words, Kind::LParen, b"(")?;
    all(words, sizes, counts)?;
    expect(words, Kind::RParen, b")")?;
    Ok(())
}

/// Takes the words of the function before its body.
pub fn function_start(words: &mut CWords<'_>, sizes: u32, counts: Counts) -> Result<(), ReadError>
    requires { 0 < counts.outputs }
    ensures { Reads (λ x. x) (expect_all (printed.function_start (spec.head_program sizes (spec.counts_of counts))) words.old) result words.new }
{
    start(words, sizes, counts)
}

/// Takes the name of a size.
#[tactic(auto, unfolding(c_print::specs::Index::size_name))]
pub fn size_name(words: &mut CWords<'_>, number: u32) -> Result<(), ReadError>
    ensures { Reads (λ x. x) (exactly (name_token (index.size_name number)) words.old) result words.new }
{
    numbered(words, b'n', number)
}
