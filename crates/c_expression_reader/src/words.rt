//! Words of a C text, beside those that `c_read` takes.

ghost use Rattle.std.specs.Prelude.{◌<◌, OnOk};
ghost use Rattle.text_tokens.specs.declared.kind.Kind.TheVariants as k;
ghost use Rattle.reader_laws.specs.Steps as steps;
ghost use Rattle.reader_laws.specs.Steps.{Reads};
ghost use Rattle.c_words.specs.Tokens.{sign};
ghost use Rattle.c_read.specs.Names as spec;
ghost use Rattle.c_read.specs.Parts.{exactly};
ghost use Rattle.c_read.specs.Scopes.{scope_of};

use c_read::names::{buffer, loop_number, size_number, target};
use c_read::scope::Names;
use c_read::words::{expect, misplaced, refuse};
use c_words::CWords;
use loop_lang::Buf;
use reader_laws::{Fault, ReadError};
use text_tokens::{Kind, same_kind};

/// A level for what the next word opens.
#[tactic(auto, using(reader_laws::proofs::Loops::open_some, reader_laws::proofs::Loops::open_none))]
pub fn open_level(words: &CWords<'_>, levels: usize) -> Result<(), ReadError>
    ensures reads { Reads (λ x. x) (steps.open_level levels words.now) result words.now }
    ensures room { OnOk result (0 < levels) }
{
    if levels == 0 {
        return Err(refuse(Fault::TooDeep, words));
    }
    Ok(())
}

pub fn left_paren(words: &mut CWords<'_>) -> Result<(), ReadError>
    ensures { Reads (λ x. x) (exactly (sign k.LParen) words.old) result words.new }
{
    expect(words, Kind::LParen, b"(")
}

pub fn right_paren(words: &mut CWords<'_>) -> Result<(), ReadError>
    ensures { Reads (λ x. x) (exactly (sign k.RParen) words.old) result words.new }
{
    expect(words, Kind::RParen, b")")
}

/// Takes a word of this kind, whatever its text.
#[tactic(auto, unfolding(reader_laws::specs::Steps::a_word))]
pub fn sign(words: &mut CWords<'_>, kind: Kind) -> Result<(), ReadError>
    ensures { Reads (λ x. x) (steps.a_word kind steps.no_value words.old) result words.new }
{
    if !same_kind(words.peek(), kind) {
        return Err(misplaced(words));
    }
    words.take();
    Ok(())
}

/// Takes the name of a size.
#[tactic(auto, unfolding(reader_laws::specs::Steps::a_word))]
pub fn size(names: Names, words: &mut CWords<'_>) -> Result<u32, ReadError>
    ensures { Reads (λ x. x) (steps.a_word k.Name (spec.size_number (scope_of names)) words.old) result words.new }
{
    if !same_kind(words.peek(), Kind::Name) {
        return Err(misplaced(words));
    }
    let Some(n) = size_number(names, words.text()) else {
        return Err(refuse(Fault::BadSyntax, words));
    };
    words.take();
    Ok(n)
}

/// Takes the name of a loop variable.
#[tactic(auto, unfolding(reader_laws::specs::Steps::a_word))]
pub fn loop_variable(names: Names, words: &mut CWords<'_>) -> Result<u32, ReadError>
    ensures { Reads (λ x. x) (steps.a_word k.Name (spec.loop_number (scope_of names)) words.old) result words.new }
{
    if !same_kind(words.peek(), Kind::Name) {
        return Err(misplaced(words));
    }
    let Some(n) = loop_number(names, words.text()) else {
        return Err(refuse(Fault::BadSyntax, words));
    };
    words.take();
    Ok(n)
}

/// Takes the name of a buffer.
#[tactic(auto, unfolding(reader_laws::specs::Steps::a_word))]
pub fn any_buffer(names: Names, words: &mut CWords<'_>) -> Result<Buf, ReadError>
    ensures { Reads (λ x. x) (steps.a_word k.Name (spec.buffer (scope_of names)) words.old) result words.new }
{
    if !same_kind(words.peek(), Kind::Name) {
        return Err(misplaced(words));
    }
    let Some(b) = buffer(names, words.text()) else {
        return Err(refuse(Fault::BadSyntax, words));
    };
    words.take();
    Ok(b)
}

/// Takes the name of a buffer that may be written.
#[tactic(auto, unfolding(reader_laws::specs::Steps::a_word))]
pub fn written_buffer(names: Names, words: &mut CWords<'_>) -> Result<Buf, ReadError>
    ensures { Reads (λ x. x) (steps.a_word k.Name (spec.target (scope_of names)) words.old) result words.new }
{
    if !same_kind(words.peek(), Kind::Name) {
        return Err(misplaced(words));
    }
    let Some(b) = target(names, words.text()) else {
        return Err(refuse(Fault::BadSyntax, words));
    };
    words.take();
    Ok(b)
}
