//! The shapes of the tensor variables on the way through a term, and the words of a tensor.

ghost use Rattle.std.specs.Prelude.{◌≡◌, pos, map, true, IfOk, MatchResult, Ok};
ghost use Rattle.affine_index.specs.Form.{literal_form};
ghost use Rattle.reindexer.specs.Limited.{Answers};
ghost use Rattle.shape_rules.specs.Scopes.{all_free, each_free, given};
ghost use Rattle.term_tree.specs.Shape.{shape_of};
ghost use Rattle.region_plan.specs.Needed.{words_form, words_from};
ghost use Rattle.region_plan.specs.Shaped.{IsShaped};

use affine_index::{Aff, AffRefusal};
use reindexer::forms::{copy, product};
use shape_rules::extents::input_shapes;
use shape_rules::{ShapeFault, Shapes, shape};
use sqlite_items::Items;
use std::alloc::Global;
use term_tree::{InputDecl, Term};

fn one(alloc: Global) -> Result<Aff, AffRefusal>
    ensures { Answers (Ok (literal_form (pos 1))) result }
{
    let form = Aff::literal(alloc, 1)?;
    Ok(form)
}

/// A number of words so far times more extents.
fn words_from(alloc: Global, first: Aff, extents: &[Aff]) -> Result<Aff, AffRefusal>
    requires { each_free extents.now ≡ true }
    ensures { Answers (words_from first extents.now) result }
{
    let mut words = first;
    for extent in extents {
        words = product(alloc, &words, extent)?;
    }
    Ok(words)
}

/// How many words a tensor of these extents has.
pub fn words_form(alloc: Global, extents: &[Aff]) -> Result<Aff, AffRefusal>
    requires { each_free extents.now ≡ true }
    ensures { Answers (words_form extents.now) result }
{
    match extents {
        [] => one(alloc),
        [first, rest @ ..] => {
            let first = copy(alloc, first)?;
            words_from(alloc, first, rest)
        }
    }
}

/// The shape of a definition.
pub fn extents_of(alloc: Global, shapes: &Shapes, term: &Term) -> Result<Items<Aff>, AffRefusal>
    requires shaped { IsShaped shapes.now term.now }
    requires free { all_free (given shapes.now) ≡ true }
    ensures shape { MatchResult result (λ ns. shape_of term.now (given shapes.now) ≡ Ok ns) (λ e. e ≡ AffRefusal.Memory) }
    ensures free { IfOk result (λ ns. each_free ns ≡ true) }
{
    match shape(alloc, shapes, term) {
        Ok(extents) => Ok(extents),
        Err(ShapeFault::Memory) => Err(AffRefusal::Memory),
        Err(_) => unreachable!(),
    }
}

/// The shapes outside all lets.
pub fn outside(alloc: Global, inputs: &[InputDecl]) -> Result<Shapes, AffRefusal>
    ensures { MatchResult result (λ sh. given sh ≡ map (λ d. d.extents) inputs.now) (λ e. e ≡ AffRefusal.Memory) }
{
    let inputs = input_shapes(alloc, inputs)?;
    let lets = Items::new(alloc);
    Ok(Shapes { lets, inputs })
}
