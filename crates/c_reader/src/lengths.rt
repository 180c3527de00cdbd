//! Reads the lengths of the buffers.

ghost use Rattle.std.specs.Prelude.{◌≡◌, ◌<◌, ◌^◌, ◌++◌, [], ◌∷◌, IfOk, MatchResult};
ghost use Rattle.text_tokens.specs.declared.kind.Kind.TheVariants as k;
ghost use Rattle.reader_laws.specs.declared.fault.ReadError.TheVariants.{Memory};
ghost use Rattle.reader_laws.specs.Steps as steps;
ghost use Rattle.reader_laws.specs.Steps.{Reads};
ghost use Rattle.text_tokens.specs.Words.{peek};
ghost use Rattle.c_text.specs.Printed as printed;
ghost use Rattle.c_text.specs.Statement.{length_scope};
ghost use Rattle.c_read.specs.Parts.{expect_all};
ghost use Rattle.c_read.specs.Scopes.{scope_of};
ghost use Rattle.c_read.specs.Units as reading;
ghost use Rattle.c_reader.specs.Units.{counts_of, heads_of};
ghost use Rattle.c_reader.specs.Units as spec;

use crate::heads::{Counts, Heads, next_buffer};
use crate::parameters::size_words;
use crate::sizes::sizes;
use c_expression_reader::whole::index_within;
use c_expression_reader::words::left_paren;
use c_read::scope::Names;
use c_read::words::{expect, misplaced, refuse};
use c_words::CWords;
use loop_lang::{Buf, Iexp};
use reader_laws::{Fault, ReadError};
use sqlite_items::{Boxed, Items};
use std::alloc::Global;
use text_tokens::{Kind, same_kind};

/// What a length names.
fn names_of_length(sizes: u32) -> Names
    ensures { scope_of result ≡ length_scope sizes }
{
    Names {
        sizes,
        loops: 0,
        in_length: true,
        inputs: 4_294_967_296,
        outputs: 4_294_967_296,
        scratch: 4_294_967_296,
    }
}

/// The index that a length is.
fn value(alloc: Global, words: &mut CWords<'_>, sizes: u32) -> Result<Boxed<Iexp>, ReadError>
    ensures { Reads (λ x. x) (reading.length_value sizes words.old) result words.new }
{
    index_within(alloc, names_of_length(sizes), words, 1_000)
}

/// Takes the name of the next length.
#[tactic(auto, unfolding(reader_laws::specs::Steps::a_word))]
fn name(words: &mut CWords<'_>, counts: Counts) -> Result<(Buf, Counts), ReadError>
    ensures reads { Reads (λ p. p.0) (steps.a_word k.Name (reading.next_buffer (counts_of counts)) words.old) result words.new }
    ensures counts { IfOk result (λ p. counts_of p.1 ≡ reading.bump (counts_of counts) p.0) }
{
    if !same_kind(words.peek(), Kind::Name) {
        return Err(misplaced(words));
    }
    let Some(named) = next_buffer(counts, words.text()) else {
        return Err(refuse(Fault::BadSyntax, words));
    };
    words.take();
    Ok(named)
}

/// What is known with one length more.
fn grown(heads: Heads, counts: Counts, length: Boxed<Iexp>) -> Result<Heads, ReadError>
    ensures { MatchResult result (λ h. heads_of h ≡ record { sizes = heads.sizes; counts = counts_of counts; lengths = heads.lengths ++ length ∷ [] })
        (λ e. e ≡ Memory) }
{
    let Heads {
        sizes,
        mut lengths,
        ..
    } = heads;
    match lengths.push(length.into_inner()) {
        Ok(()) => Ok(Heads {
            sizes,
            counts,
            lengths,
        }),
        Err(_) => Err(ReadError::Memory),
    }
}

fn length_end(words: &mut CWords<'_>) -> Result<(), ReadError>
    ensures { Reads (λ x. x) (expect_all printed.length_end words.old) result words.new }
{
    expect(words, Kind::Semi, b";")?;
    expect(words, Kind::RBrace, b"}")?;
    Ok(())
}

fn return_words(words: &mut CWords<'_>) -> Result<(), ReadError>
    ensures { Reads (λ x. x) (expect_all reading.return_words words.old) result words.new }
{
    expect(words, Kind::RParen, b")")?;
    expect(words, Kind::LBrace, b"{")?;
    expect(words, Kind::Name, b"return")?;
    Ok(())
}

/// The first length, which says how many sizes there are.
#[tactic(auto, unfolding(crate::specs::Units::first_length, crate::specs::Units::length_of))]
pub fn first_length(alloc: Global, words: &mut CWords<'_>) -> Result<Heads, ReadError>
    ensures { Reads heads_of (spec.first_length words.old) result words.new }
{
    expect(words, Kind::Name, b"int64_t")?;
    let (_, counts) = name(
        words,
        Counts {
            inputs: 0,
            outputs: 0,
            scratch: 0,
        },
    )?;
    left_paren(words)?;
    let count = sizes(words)?;
    return_words(words)?;
    let length = value(alloc, words, count)?;
    match length_end(words) {
        Ok(()) => grown(
            Heads {
                sizes: count,
                counts,
                lengths: Items::new(alloc),
            },
            counts,
            length,
        ),
        Err(e) => Err(e),
    }
}

/// The words between the name of a length and its value.
#[tactic(auto, unfolding(crate::specs::Units::before_value))]
fn before_value(words: &mut CWords<'_>, sizes: u32) -> Result<(), ReadError>
    ensures { Reads (λ x. x) (spec.before_value sizes words.old) result words.new }
{
    left_paren(words)?;
    size_words(words, sizes)?;
    return_words(words)
}

/// The length of a buffer, with its parameters.
#[tactic(auto, unfolding(crate::specs::Units::measured))]
fn measured(alloc: Global, words: &mut CWords<'_>, sizes: u32) -> Result<Boxed<Iexp>, ReadError>
    ensures { Reads (λ x. x) (spec.measured sizes words.old) result words.new }
{
    before_value(words, sizes)?;
    let length = value(alloc, words, sizes)?;
    match length_end(words) {
        Ok(()) => Ok(length),
        Err(e) => Err(e),
    }
}

/// One length more.
#[tactic(auto, unfolding(crate::specs::Units::one_length))]
pub fn one_length(alloc: Global, words: &mut CWords<'_>, heads: Heads) -> Result<Heads, ReadError>
    ensures { Reads heads_of (spec.one_length (heads_of heads) words.old) result words.new }
{
    expect(words, Kind::Name, b"int64_t")?;
    let (_, counts) = name(words, heads.counts)?;
    let length = measured(alloc, words, heads.sizes)?;
    grown(heads, counts, length)
}
