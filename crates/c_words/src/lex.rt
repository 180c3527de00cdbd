//! Cuts the word at the front of a text.

ghost use Rattle.std.specs.Prelude.{◌≡◌, ◌<◌, ◌≤◌, length, slice_index, take, drop, true};
ghost use Rattle.std.specs.List.{prefix_len};
ghost use Rattle.std.specs.Char.{is_ascii_digit};
ghost use Rattle.text_tokens.specs.Lex as texts;
ghost use Rattle.c_words.specs.Tokens as tokens;
ghost use Rattle.c_words.specs.Words as spec;

use crate::state::Margin;
use text_tokens::Kind;

pub fn is_blank(c: u8) -> bool
    ensures { result ≡ texts.is_blank c }
{
    c == b' ' || c == b'\t' || c == b'\r' || c == b'\n'
}

fn begins_name(c: u8) -> bool
    ensures { result ≡ spec.begins_name c }
{
    c.is_ascii_alphabetic() || c == b'_'
}

fn continues_name(c: u8) -> bool
    ensures { result ≡ spec.continues_name c }
{
    c.is_ascii_alphanumeric() || c == b'_'
}

/// The first byte, and 0 where there is none.
pub fn first_or_nul(text: &[u8]) -> u8
    ensures { result ≡ slice_index text.now 0 }
{
    match text {
        [c, ..] => *c,
        [] => 0,
    }
}

/// What follows so many bytes.
pub fn after(text: &[u8], n: usize) -> &[u8]
    ensures value { result.now ≡ drop n text.now }
    ensures within { length result.now ≤ length text.now }
{
    if n <= text.len() { &text[n..] } else { &[] }
}

/// So many bytes at the front.
pub fn front(text: &[u8], n: usize) -> &[u8]
    ensures { result.now ≡ take n text.now }
{
    if n <= text.len() { &text[..n] } else { text }
}

/// The symbol that begins with these two bytes, the longest first.
#[tactic(auto, unfolding(crate::specs::Words::symbol))]
fn symbol(c: u8, next: u8) -> Kind
    ensures { result ≡ spec.symbol c next }
{
    match c {
        b';' => Kind::Semi,
        b',' => Kind::Comma,
        b':' => Kind::Colon,
        b'?' => Kind::Dot,
        b'[' => Kind::LBracket,
        b']' => Kind::RBracket,
        b'(' => Kind::LParen,
        b')' => Kind::RParen,
        b'{' => Kind::LBrace,
        b'}' => Kind::RBrace,
        b'<' => if next == b'=' {
            Kind::LessEqual
        } else {
            Kind::Less
        },
        b'>' => if next == b'=' {
            Kind::GreaterEqual
        } else {
            Kind::Greater
        },
        b'=' => if next == b'=' {
            Kind::Equal
        } else {
            Kind::Assign
        },
        b'+' => if next == b'=' {
            Kind::DotDot
        } else {
            Kind::Plus
        },
        b'&' => if next == b'&' { Kind::And } else { Kind::Bad },
        b'-' => Kind::Minus,
        b'*' => Kind::Star,
        b'/' => Kind::Slash,
        b'%' => Kind::Percent,
        _ => Kind::Bad,
    }
}

fn symbol_len(kind: Kind) -> usize
    ensures { result ≡ spec.symbol_len kind }
{
    match kind {
        Kind::LessEqual | Kind::GreaterEqual | Kind::Equal | Kind::DotDot | Kind::And => 2,
        _ => 1,
    }
}

/// How many bytes at the front go on with a name.
fn name_len(text: &[u8]) -> usize
    ensures value { result ≡ prefix_len spec.continues_name text.now }
    ensures within { result ≤ length text.now }
{
    let mut n = 0;
    let mut rest = text;
    while let [c, more @ ..] = rest {
        if !continues_name(*c) {
            return n;
        }
        n += 1;
        rest = more;
    }
    n
}

/// How many bytes at the front are digits.
fn digits_len(text: &[u8]) -> usize
    ensures value { result ≡ prefix_len is_ascii_digit text.now }
    ensures within { result ≤ length text.now }
{
    let mut n = 0;
    let mut rest = text;
    while let [c, more @ ..] = rest {
        if !c.is_ascii_digit() {
            return n;
        }
        n += 1;
        rest = more;
    }
    n
}

/// Whether nothing but spaces, tabs and at most one carriage return follows on the line.
fn line_ends(text: &[u8]) -> bool
    ensures { result ≡ spec.line_ends true text.now }
{
    let mut may_return = true;
    let mut rest = text;
    while let [c, more @ ..] = rest {
        if *c == b'\n' {
            return true;
        }
        if *c == b'\r' {
            if !may_return {
                return false;
            }
            may_return = false;
        } else if *c != b' ' && *c != b'\t' {
            return false;
        }
        rest = more;
    }
    true
}

const INCLUDE: &[u8; 19] = b"#include <stdint.h>";

const PRAGMA: &[u8; 24] = b"#pragma omp parallel for";

fn begins_include(text: &[u8]) -> bool
    ensures { result ≡ spec.begins_with tokens.include_text text.now }
{
    text.starts_with(INCLUDE)
}

fn begins_pragma(text: &[u8]) -> bool
    ensures { result ≡ spec.begins_with tokens.pragma_text text.now }
{
    text.starts_with(PRAGMA)
}

fn is_pragma(text: &[u8]) -> bool
    ensures { result ≡ spec.is_pragma text.now }
{
    begins_pragma(text) && line_ends(after(text, 24))
}

/// The line that begins with `#`, and how many bytes its word has.
fn directive(margin: Margin, text: &[u8]) -> (Kind, usize)
    ensures kind { result.0 ≡ (spec.directive margin text.now).0 }
    ensures len { result.1 ≡ (spec.directive margin text.now).1 }
    ensures some { 0 < result.1 }
{
    match margin {
        Margin::Taken => (Kind::Bad, 1),
        Margin::Blank => if begins_include(text) {
            (Kind::Input, 19)
        } else {
            (Kind::Bad, 1)
        },
        Margin::Indented => if begins_include(text) {
            (Kind::Input, 19)
        } else if is_pragma(text) {
            (Kind::Parallel, 24)
        } else {
            (Kind::Bad, 1)
        },
    }
}

/// The kind of the word at the front, and how many bytes it has.
#[tactic(auto, unfolding(crate::specs::Words::word))]
pub fn word(margin: Margin, text: &[u8]) -> (Kind, usize)
    ensures kind { result.0 ≡ (spec.word margin text.now).0 }
    ensures len { result.1 ≡ (spec.word margin text.now).1 }
    ensures some { 0 < length text.now → 0 < result.1 }
{
    let [c, more @ ..] = text else {
        return (Kind::End, 0);
    };
    if begins_name(*c) {
        (Kind::Name, 1 + name_len(more))
    } else if c.is_ascii_digit() {
        (Kind::Number, 1 + digits_len(more))
    } else if *c == b'#' {
        directive(margin, text)
    } else {
        let kind = symbol(*c, first_or_nul(more));
        (kind, symbol_len(kind))
    }
}
