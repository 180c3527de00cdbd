//! What the lets of a term need, without the offsets at which they stand.

ghost use Rattle.std.specs.Prelude.{◌≡◌, true, MatchResult, Ok, OnOk};
ghost use Rattle.reindexer.specs.Limited.{Answers, and_then};
ghost use Rattle.shape_rules.specs.Scopes.{all_free, given};
ghost use Rattle.term_tree.specs.Syntax.{let_in};
ghost use Rattle.region_plan.specs.Length.{larger_of, longer};
ghost use Rattle.region_plan.specs.Needed.{needed, no_words, two_needs};
ghost use Rattle.region_plan.specs.Shaped.{IsShaped};

use crate::extents::{extents_of, words_form};
use crate::length::{Length, larger_of, longer, zero};
use affine_index::{Aff, AffRefusal};
use shape_rules::Shapes;
use shape_rules::extents::{enter, leave};
use std::alloc::Global;
use term_tree::Term;

pub fn nothing(alloc: Global) -> Result<Length, AffRefusal>
    ensures { MatchResult result (λ l. l ≡ no_words) (λ e. e ≡ AffRefusal.Memory) }
{
    let form = zero(alloc)?;
    Ok(Length::Plain(form))
}

/// The larger of both, and so many words more.
fn around(alloc: Global, words: &Aff, first: Length, second: Length) -> Result<Length, AffRefusal>
    ensures { Answers (longer words.now (larger_of first second)) result }
{
    let parts = larger_of(alloc, first, second)?;
    longer(alloc, words, parts)
}

/// A let needs the words of its tensor and the larger need of its parts.
#[cycle(need)]
fn let_need(
    alloc: Global,
    shapes: &mut Shapes,
    definition: &Term,
    body: &Term,
) -> Result<Length, AffRefusal>
    requires shaped { IsShaped shapes.old (let_in definition.now body.now) }
    requires free { all_free (given shapes.old) ≡ true }
    ensures need { Answers (needed (let_in definition.now body.now) (given shapes.old)) result }
    ensures shapes { OnOk result (shapes.new ≡ shapes.old) }
{
    let extents = extents_of(alloc, shapes, definition)?;
    let words = words_form(alloc, extents.as_slice())?;
    let first = need(alloc, shapes, definition)?;
    enter(alloc, shapes, extents)?;
    let second = need(alloc, shapes, body)?;
    leave(shapes);
    around(alloc, &words, first, second)
}

/// Two parts, neither inside the other.
#[cycle(need)]
fn two_needs(
    alloc: Global,
    shapes: &mut Shapes,
    left: &Term,
    right: &Term,
) -> Result<Length, AffRefusal>
    requires left { IsShaped shapes.old left.now }
    requires right { IsShaped shapes.old right.now }
    requires free { all_free (given shapes.old) ≡ true }
    ensures need { Answers (two_needs left.now right.now (given shapes.old)) result }
    ensures shapes { OnOk result (shapes.new ≡ shapes.old) }
{
    let first = need(alloc, shapes, left)?;
    let second = need(alloc, shapes, right)?;
    larger_of(alloc, first, second)
}

/// The length that the lets of a term need.
#[cycle(need)]
pub fn need(alloc: Global, shapes: &mut Shapes, term: &Term) -> Result<Length, AffRefusal>
    requires shaped { IsShaped shapes.old term.now }
    requires free { all_free (given shapes.old) ≡ true }
    ensures need { Answers (needed term.now (given shapes.old)) result }
    ensures shapes { OnOk result (shapes.new ≡ shapes.old) }
{
    match term {
        Term::Lit(_) | Term::TVar(_) | Term::WordOf(_) => nothing(alloc),
        Term::Index(e, _)
        | Term::Gen(_, e)
        | Term::Sum(_, e)
        | Term::Guard(_, e)
        | Term::Flatten(e)
        | Term::Split(_, e)
        | Term::Transpose(e)
        | Term::TruncL(_, e)
        | Term::TruncR(_, e)
        | Term::PadL(_, e)
        | Term::PadR(_, e) => need(alloc, shapes, e.get()),
        Term::Let(a, b) => let_need(alloc, shapes, a.get(), b.get()),
        Term::Add(a, b) | Term::Sub(a, b) | Term::Mul(a, b) | Term::Concat(a, b) => {
            two_needs(alloc, shapes, a.get(), b.get())
        }
    }
}
