//! Words that open a level.

ghost use Rattle.std.specs.Prelude.{◌≡◌, ◌<◌, OnOk};
ghost use Rattle.reader_laws.specs.Steps.{Reads, no_value};
ghost use Rattle.reader_laws.specs.Levels as spec;

use crate::fault::{Fault, ReadError};
use crate::step::refuse;
use text_tokens::{Kind, Tokens, same_kind};

fn opens(kind: Kind) -> bool
    ensures { result ≡ spec.opens kind }
{
    matches!(
        kind,
        Kind::LParen | Kind::LBracket | Kind::Gen | Kind::Sum | Kind::Guard | Kind::Let
    )
}

/// The fault of a next word that no rule reads, where so many levels are left.
#[tactic(auto, unfolding(crate::specs::Levels::misplaced_in))]
pub fn misplaced_in(tokens: &Tokens<'_>, levels: usize) -> ReadError
    ensures { result ≡ spec.misplaced_in levels tokens.now }
{
    let kind = tokens.peek();
    if same_kind(kind, Kind::Bad) {
        refuse(Fault::BadToken, tokens)
    } else if opens(kind) && levels == 0 {
        refuse(Fault::TooDeep, tokens)
    } else {
        refuse(Fault::BadSyntax, tokens)
    }
}

/// Takes a word of this kind.
#[tactic(auto, unfolding(crate::specs::Levels::word_in))]
pub fn expect_in(tokens: &mut Tokens<'_>, levels: usize, kind: Kind) -> Result<(), ReadError>
    ensures { Reads (λ x. x) (spec.word_in levels kind no_value tokens.old) result tokens.new }
{
    if !same_kind(tokens.peek(), kind) {
        return Err(misplaced_in(tokens, levels));
    }
    tokens.take();
    Ok(())
}

/// Takes a word of this kind, which opens a level.
#[tactic(auto, unfolding(crate::specs::Levels::word_in))]
pub fn open(tokens: &mut Tokens<'_>, levels: usize, kind: Kind) -> Result<(), ReadError>
    ensures reads { Reads (λ x. x) (spec.opening levels kind tokens.old) result tokens.new }
    ensures room { OnOk result (0 < levels) }
{
    if !same_kind(tokens.peek(), kind) {
        return Err(misplaced_in(tokens, levels));
    }
    if levels == 0 {
        return Err(refuse(Fault::TooDeep, tokens));
    }
    tokens.take();
    Ok(())
}
