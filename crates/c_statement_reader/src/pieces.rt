//! Fixed words of statements: the header of a loop, and signs.

ghost use Rattle.std.specs.Prelude.{◌≡◌};
ghost use Rattle.std.specs.Str.{bytes_eq};
ghost use Rattle.text_tokens.specs.Spelled.{name_token, number_token};
ghost use Rattle.c_print.specs.Index.{loop_name};
ghost use Rattle.reader_laws.specs.Steps.{Reads};
ghost use Rattle.c_read.specs.Parts.{exactly};
ghost use Rattle.c_read.specs.Statements.{expect_pieces, loop_end, loop_start};
ghost use Rattle.c_statement_reader.specs.Statements as pieces;

use c_expression_reader::words::{left_paren, open_level, right_paren};
use c_read::words::{expect, misplaced, refuse};
use c_words::CWords;
use itoa::Buffer;
use reader_laws::{Fault, ReadError};
use text_tokens::{Kind, same_kind};

/// Whether this is the name of the variable of a loop with so many loops around it.
#[tactic(auto, unfolding(c_print::specs::Index::loop_name))]
fn is_variable(text: &[u8], depth: u32) -> bool
    ensures { result ≡ bytes_eq text.now (loop_name depth) }
{
    match text {
        [] => false,
        [c, digits @ ..] => *c == b'i' && *digits == *Buffer::new().format(depth).as_bytes(),
    }
}

/// Takes the variable of a loop with so many loops around it.
#[tactic(auto, unfolding(reader_laws::specs::Steps::a_word))]
fn variable(words: &mut CWords<'_>, depth: u32) -> Result<(), ReadError>
    ensures { Reads (λ x. x) (exactly (name_token (loop_name depth)) words.old) result words.new }
{
    if !same_kind(words.peek(), Kind::Name) {
        return Err(misplaced(words));
    }
    if !is_variable(words.text(), depth) {
        return Err(refuse(Fault::BadSyntax, words));
    }
    words.take();
    Ok(())
}

/// Takes a number of one digit.
fn digit(words: &mut CWords<'_>, n: u64) -> Result<(), ReadError>
    ensures { Reads (λ x. x) (exactly (number_token n) words.old) result words.new }
{
    expect(words, Kind::Number, Buffer::new().format(n).as_bytes())
}

fn opening_piece(words: &mut CWords<'_>, levels: usize, depth: u32) -> Result<(), ReadError>
    ensures { Reads (λ x. x) (pieces.opening_piece levels depth words.old) result words.new }
{
    open_level(words, levels)?;
    left_paren(words)?;
    expect(words, Kind::Name, b"int64_t")?;
    variable(words, depth)?;
    expect(words, Kind::Assign, b"=")?;
    expect(words, Kind::Name, b"INT64_C")?;
    Ok(())
}

fn zero_piece(words: &mut CWords<'_>, levels: usize, depth: u32) -> Result<(), ReadError>
    ensures { Reads (λ x. x) (pieces.zero_piece levels depth words.old) result words.new }
{
    open_level(words, levels)?;
    left_paren(words)?;
    digit(words, 0)?;
    right_paren(words)?;
    expect(words, Kind::Semi, b";")?;
    variable(words, depth)?;
    expect(words, Kind::Less, b"<")?;
    Ok(())
}

/// The words of a loop before its bound.
pub(crate) fn before_bound(
    words: &mut CWords<'_>,
    levels: usize,
    depth: u32,
) -> Result<(), ReadError>
    ensures { Reads (λ x. x) (expect_pieces (loop_start levels depth) words.old) result words.new }
{
    expect(words, Kind::Name, b"for")?;
    opening_piece(words, levels, depth)?;
    zero_piece(words, levels.saturating_sub(1), depth)?;
    Ok(())
}

fn step_of_variable(words: &mut CWords<'_>, depth: u32) -> Result<(), ReadError>
    ensures { Reads (λ x. x) (pieces.step_piece depth words.old) result words.new }
{
    expect(words, Kind::Semi, b";")?;
    variable(words, depth)?;
    expect(words, Kind::Assign, b"=")?;
    variable(words, depth)?;
    Ok(())
}

fn plus_literal(words: &mut CWords<'_>, levels: usize) -> Result<(), ReadError>
    ensures { Reads (λ x. x) (pieces.plus_piece levels words.old) result words.new }
{
    open_level(words, levels)?;
    expect(words, Kind::Plus, b"+")?;
    expect(words, Kind::Name, b"INT64_C")?;
    Ok(())
}

fn one_in_parens(words: &mut CWords<'_>, levels: usize) -> Result<(), ReadError>
    ensures { Reads (λ x. x) (pieces.one_piece levels words.old) result words.new }
{
    open_level(words, levels)?;
    left_paren(words)?;
    digit(words, 1)?;
    right_paren(words)?;
    right_paren(words)?;
    Ok(())
}

/// The words of a loop behind its bound.
pub(crate) fn behind_bound(
    words: &mut CWords<'_>,
    levels: usize,
    depth: u32,
) -> Result<(), ReadError>
    ensures { Reads (λ x. x) (expect_pieces (loop_end levels depth) words.old) result words.new }
{
    step_of_variable(words, depth)?;
    plus_literal(words, levels.saturating_sub(1))?;
    one_in_parens(words, levels.saturating_sub(2))?;
    Ok(())
}
