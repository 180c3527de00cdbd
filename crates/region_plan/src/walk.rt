//! One walk of a term, which gives the offsets of its lets and what it needs.

ghost use Rattle.std.specs.Prelude.{◌≡◌, ◌∷◌, true, Ok, OnOk};
ghost use Rattle.affine_index.specs.Sum.{sum_of};
ghost use Rattle.reindexer.specs.Limited.{Answers, and_then};
ghost use Rattle.shape_rules.specs.Scopes.{all_free, given};
ghost use Rattle.term_tree.specs.Syntax.{let_in};
ghost use Rattle.region_plan.specs.Length.{longer};
ghost use Rattle.region_plan.specs.Planned.{beside, nothing_planned, planned, two_parts, with_let};
ghost use Rattle.region_plan.specs.Shaped.{IsShaped};

use crate::extents::{extents_of, words_form};
use crate::length::{larger_of, longer};
use crate::needs::nothing as no_words;
use crate::planned::Planned;
use affine_index::{Aff, AffRefusal};
use reindexer::forms::sum;
use shape_rules::Shapes;
use shape_rules::extents::{enter, in_front, leave};
use sqlite_items::Items;
use std::alloc::Global;
use term_tree::Term;

fn nothing(alloc: Global) -> Result<Planned, AffRefusal>
    ensures { Answers (Ok nothing_planned) result }
{
    let need = no_words(alloc)?;
    let offsets = Items::new(alloc);
    Ok(Planned { offsets, need })
}

/// Two parts, neither inside the other.
fn beside(alloc: Global, first: Planned, second: Planned) -> Result<Planned, AffRefusal>
    ensures { Answers (beside first second) result }
{
    let Planned { mut offsets, need } = first;
    let Planned {
        offsets: more,
        need: other,
    } = second;
    offsets.append(more)?;
    let need = larger_of(alloc, need, other)?;
    Ok(Planned { offsets, need })
}

/// A let around what both its parts give together.
fn around(alloc: Global, offset: Aff, words: &Aff, parts: Planned) -> Result<Planned, AffRefusal>
    ensures { Answers (and_then (longer words.now parts.need) (λ n. Ok (record { offsets = offset ∷ parts.offsets; need = n }))) result }
{
    let Planned { offsets, need } = parts;
    let need = longer(alloc, words, need)?;
    let offsets = in_front(alloc, offset, offsets)?;
    Ok(Planned { offsets, need })
}

/// A let with both its parts.
fn with_let(
    alloc: Global,
    offset: Aff,
    words: &Aff,
    first: Planned,
    second: Planned,
) -> Result<Planned, AffRefusal>
    ensures { Answers (with_let offset words.now first second) result }
{
    let parts = beside(alloc, first, second)?;
    around(alloc, offset, words, parts)
}

/// A let at the offset behind the words of the let around it.
#[cycle(walk)]
fn let_in(
    alloc: Global,
    shapes: &mut Shapes,
    definition: &Term,
    body: &Term,
    base: &Aff,
    above: &Aff,
) -> Result<Planned, AffRefusal>
    requires shaped { IsShaped shapes.old (let_in definition.now body.now) }
    requires free { all_free (given shapes.old) ≡ true }
    ensures plan { Answers (planned (let_in definition.now body.now) (given shapes.old) (sum_of base.now above.now)) result }
    ensures shapes { OnOk result (shapes.new ≡ shapes.old) }
{
    let offset = sum(alloc, base, above)?;
    let extents = extents_of(alloc, shapes, definition)?;
    let words = words_form(alloc, extents.as_slice())?;
    let first = walk(alloc, shapes, definition, &offset, &words)?;
    enter(alloc, shapes, extents)?;
    let second = walk(alloc, shapes, body, &offset, &words)?;
    leave(shapes);
    with_let(alloc, offset, &words, first, second)
}

/// Two parts, neither inside the other.
#[cycle(walk)]
fn two_parts(
    alloc: Global,
    shapes: &mut Shapes,
    left: &Term,
    right: &Term,
    base: &Aff,
    above: &Aff,
) -> Result<Planned, AffRefusal>
    requires left { IsShaped shapes.old left.now }
    requires right { IsShaped shapes.old right.now }
    requires free { all_free (given shapes.old) ≡ true }
    ensures plan { Answers (two_parts left.now right.now (given shapes.old) (sum_of base.now above.now)) result }
    ensures shapes { OnOk result (shapes.new ≡ shapes.old) }
{
    let first = walk(alloc, shapes, left, base, above)?;
    let second = walk(alloc, shapes, right, base, above)?;
    beside(alloc, first, second)
}

/// The offsets of the lets of a term and what it needs, where the next let stands behind so many words at an offset.
#[cycle(walk)]
pub fn walk(
    alloc: Global,
    shapes: &mut Shapes,
    term: &Term,
    base: &Aff,
    above: &Aff,
) -> Result<Planned, AffRefusal>
    requires shaped { IsShaped shapes.old term.now }
    requires free { all_free (given shapes.old) ≡ true }
    ensures plan { Answers (planned term.now (given shapes.old) (sum_of base.now above.now)) result }
    ensures shapes { OnOk result (shapes.new ≡ shapes.old) }
{
    match term {
        Term::Lit(_) | Term::TVar(_) | Term::WordOf(_) => nothing(alloc),
        Term::Index(e, _)
        | Term::Gen(_, e)
        | Term::Sum(_, e)
        | Term::Guard(_, e)
        | Term::Flatten(e)
        | Term::Split(_, e)
        | Term::Transpose(e)
        | Term::TruncL(_, e)
        | Term::TruncR(_, e)
        | Term::PadL(_, e)
        | Term::PadR(_, e) => walk(alloc, shapes, e.get(), base, above),
        Term::Let(a, b) => let_in(alloc, shapes, a.get(), b.get(), base, above),
        Term::Add(a, b) | Term::Sub(a, b) | Term::Mul(a, b) | Term::Concat(a, b) => {
            two_parts(alloc, shapes, a.get(), b.get(), base, above)
        }
    }
}
