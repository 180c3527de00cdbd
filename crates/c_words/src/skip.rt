//! Goes over white space and comments to the next word.

ghost use Rattle.std.specs.Prelude.{◌≡◌, ℕ, ◌<◌, ◌≤◌, [], ◌∷◌, length, take, drop, MatchOption};
ghost use Rattle.c_words.specs.Words as spec;
ghost use Rattle.c_words.specs.Cursor as cursor;
ghost use Rattle.text_tokens.specs.declared.kind.Kind.TheVariants.{End};

use crate::lex::{after, first_or_nul, is_blank, word};
use crate::state::{Margin, State};
use text_tokens::Kind;

/// Whether a comment that has begun ends.
fn has_end(text: &[u8]) -> bool
    ensures { result ≡ spec.has_end text.now }
{
    let mut rest = text;
    while let [c, more @ ..] = rest {
        if *c == b'*' && first_or_nul(more) == b'/' {
            return true;
        }
        rest = more;
    }
    false
}

/// Where the margin goes on behind white space.
fn after_blank(c: u8, margin: Margin) -> Margin
    ensures { result ≡ spec.after_blank c margin }
{
    if c == b'\n' {
        return Margin::Indented;
    }
    if c != b'\r' {
        return margin;
    }
    match margin {
        Margin::Taken => Margin::Taken,
        _ => Margin::Blank,
    }
}

fn behind_comment(including: bool) -> State
    ensures { result ≡ spec.behind_comment including }
{
    if including {
        State::Including
    } else {
        State::Code(Margin::Taken)
    }
}

/// The comment that begins at the front, if one does that ends; and how many more bytes its sign has.
fn comment(c: u8, more: &[u8], including: bool) -> Option<(State, usize)>
    ensures { result ≡ spec.comment c more.now including }
{
    if c != b'/' {
        return None;
    }
    let next = first_or_nul(more);
    if next == b'/' {
        Some((State::LineComment, 1))
    } else if next == b'*' && has_end(after(more, 1)) {
        Some((State::Comment(including), 1))
    } else {
        None
    }
}

/// What the byte at the front leads to, and how many more bytes are gone over; none where a word begins.
fn step(state: State, c: u8, more: &[u8]) -> Option<(State, usize)>
    ensures { result ≡ spec.step state c more.now }
{
    match state {
        State::LineComment => if c == b'\n' {
            Some((State::Code(Margin::Indented), 0))
        } else {
            Some((State::LineComment, 0))
        },
        State::Comment(including) => if c == b'*' && first_or_nul(more) == b'/' {
            Some((behind_comment(including), 1))
        } else {
            Some((State::Comment(including), 0))
        },
        State::Including => if c == b'\n' {
            Some((State::Code(Margin::Indented), 0))
        } else if is_blank(c) {
            Some((State::Including, 0))
        } else {
            comment(c, more, true)
        },
        State::Code(margin) => if is_blank(c) {
            Some((State::Code(after_blank(c, margin)), 0))
        } else {
            comment(c, more, false)
        },
    }
}

/// The word at the front, and how many bytes it has.
fn word_of(state: State, text: &[u8]) -> (Kind, usize)
    requires { 0 < length text.now }
    ensures value { result ≡ spec.word_of state text.now }
    ensures some { 0 < result.1 }
{
    let State::Code(margin) = state else {
        return (Kind::Bad, 1);
    };
    if first_or_nul(text) == b'/' && first_or_nul(after(text, 1)) == b'*' {
        return (Kind::Bad, 1);
    }
    word(margin, text)
}

fn behind(kind: Kind) -> State
    ensures { result ≡ spec.behind kind }
{
    match kind {
        Kind::Input => State::Including,
        _ => State::Code(Margin::Taken),
    }
}

/// The same of a text, which may be empty.
fn step_at(state: State, text: &[u8]) -> Option<(State, usize)>
    ensures { result ≡ spec.step_at state text.now }
{
    match text {
        [c, more @ ..] => step(state, *c, more),
        [] => None,
    }
}

/// The text from the first word on, its kind and how many bytes it has.
#[tactic(auto, using(crate::proofs::CursorLaws::words_step, crate::proofs::CursorLaws::words_found, crate::proofs::CursorLaws::words_none))]
pub fn find(state: State, text: &[u8]) -> (&[u8], Kind, usize)
    ensures words { (end : ℕ) → cursor.front_words end result.1 result.2 result.0.now ≡ spec.words_from end 0 state text.now }
    ensures ended { length result.0.now ≡ 0 → result.1 ≡ End }
    ensures shorter { length result.0.now ≤ length text.now }
{
    let mut state = state;
    let mut rest = text;
    while !rest.is_empty() {
        let Some((next, over)) = step_at(state, rest) else {
            let (kind, len) = word_of(state, rest);
            return (rest, kind, len);
        };
        state = next;
        rest = after(after(rest, 1), over);
    }
    (rest, Kind::End, 0)
}

/// What follows a word, from the next one on.
pub fn go_on(kind: Kind, text: &[u8]) -> (&[u8], Kind, usize)
    ensures words { (end : ℕ) → cursor.front_words end result.1 result.2 result.0.now ≡ cursor.follow end kind text.now }
    ensures ended { length result.0.now ≡ 0 → result.1 ≡ End }
    ensures shorter { length result.0.now ≤ length text.now }
{
    match kind {
        Kind::Bad => (&[], Kind::End, 0),
        _ => find(behind(kind), text),
    }
}
