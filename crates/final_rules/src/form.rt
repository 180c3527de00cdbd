//! The final form: the first node that leaves it.

ghost use Rattle.std.specs.Prelude.{◌≡◌, true, IfOk, Ok, OnOk};
ghost use Rattle.shape_rules.specs.Scopes.{all_free, each_free, given};
ghost use Rattle.region_plan.specs.Shaped.{IsShaped};
ghost use Rattle.term_tree.specs.Shape.{shape_of};
ghost use Rattle.final_rules.specs.Form.{first_node, in_child, no_extents, outside, outside_word, unless};
ghost use Rattle.final_rules.specs.Places.{extents_under};
ghost use Rattle.final_rules.specs.Worded.{worded};

use affine_index::Aff;
use region_plan::extents::extents_of;
use shape_rules::Shapes;
use shape_rules::extents::{enter, leave};
use sqlite_items::Items;
use std::alloc::{AllocError, Global};
use term_tree::Term;

/// A node of a child, seen from its parent.
fn in_child(
    alloc: Global,
    number: u32,
    node: Option<Items<u32>>,
) -> Result<Option<Items<u32>>, AllocError>
    ensures { IfOk result (λ o. o ≡ in_child number node) }
{
    match node {
        None => Ok(None),
        Some(rest) => {
            let mut steps = Items::new(alloc);
            steps.push(number)?;
            steps.append(rest)?;
            Ok(Some(steps))
        }
    }
}

/// Whether a term is a tensor variable under indices.
fn is_read(term: &Term) -> bool
    ensures { result ≡ (worded term.now).read }
{
    match term {
        Term::TVar(_) => true,
        Term::Index(child, _) => is_read(child.get()),
        Term::Lit(_)
        | Term::WordOf(_)
        | Term::Gen(_, _)
        | Term::Sum(_, _)
        | Term::Guard(_, _)
        | Term::Let(_, _)
        | Term::Add(_, _)
        | Term::Sub(_, _)
        | Term::Mul(_, _)
        | Term::Concat(_, _)
        | Term::Flatten(_)
        | Term::Split(_, _)
        | Term::Transpose(_)
        | Term::TruncL(_, _)
        | Term::TruncR(_, _)
        | Term::PadL(_, _)
        | Term::PadR(_, _) => false,
    }
}

/// Of two words the first node that is outside, where the first word has been walked.
#[cycle(word)]
fn of_two(
    alloc: Global,
    first: Option<Items<u32>>,
    b: &Term,
) -> Result<Option<Items<u32>>, AllocError>
    ensures { IfOk result (λ o. o ≡ first_node (in_child 0 first) (in_child 1 (worded b.now).node)) }
{
    let second = word(alloc, b)?;
    match in_child(alloc, 0, first)? {
        Some(steps) => Ok(Some(steps)),
        None => in_child(alloc, 1, second),
    }
}

/// The first node of a word that is outside the form.
#[cycle(word)]
fn word(alloc: Global, term: &Term) -> Result<Option<Items<u32>>, AllocError>
    ensures { IfOk result (λ o. o ≡ (worded term.now).node) }
{
    match term {
        Term::Lit(_) | Term::TVar(_) | Term::WordOf(_) => Ok(None),
        Term::Index(child, _) => {
            if is_read(child.get()) {
                Ok(None)
            } else {
                Ok(Some(Items::new(alloc)))
            }
        }
        Term::Guard(_, child) => {
            let node = word(alloc, child.get())?;
            in_child(alloc, 0, node)
        }
        Term::Add(a, b) => {
            let first = word(alloc, a.get())?;
            of_two(alloc, first, b.get())
        }
        Term::Sub(a, b) => {
            let first = word(alloc, a.get())?;
            of_two(alloc, first, b.get())
        }
        Term::Mul(a, b) => {
            let first = word(alloc, a.get())?;
            of_two(alloc, first, b.get())
        }
        Term::Gen(_, _)
        | Term::Sum(_, _)
        | Term::Let(_, _)
        | Term::Concat(_, _)
        | Term::Flatten(_)
        | Term::Split(_, _)
        | Term::Transpose(_)
        | Term::TruncL(_, _)
        | Term::TruncR(_, _)
        | Term::PadL(_, _)
        | Term::PadR(_, _) => Ok(Some(Items::new(alloc))),
    }
}

/// The first node in preorder of a word that is outside the final form.
pub fn outside_word(alloc: Global, term: &Term) -> Result<Option<Items<u32>>, AllocError>
    ensures { IfOk result (λ o. o ≡ outside_word term.now) }
{
    word(alloc, term)
}

/// The extents of a term in which the shape rules hold.
pub fn extents_under(alloc: Global, shapes: &Shapes, term: &Term) -> Result<Items<Aff>, AllocError>
    requires shaped { IsShaped shapes.now term.now }
    requires free { all_free (given shapes.now) ≡ true }
    ensures extents { IfOk result (λ ns. ns ≡ extents_under term.now (given shapes.now)) }
    ensures shape { IfOk result (λ ns. shape_of term.now (given shapes.now) ≡ Ok ns) }
    ensures free { IfOk result (λ ns. each_free ns ≡ true) }
{
    match extents_of(alloc, shapes, term) {
        Ok(extents) => Ok(extents),
        Err(_) => Err(AllocError),
    }
}

/// Of two nodes the first, where the second is one of words.
fn difference(alloc: Global, extents: &[Aff], words: Option<Items<u32>>) -> Option<Items<u32>>
    ensures { result ≡ first_node (unless (no_extents extents.now)) words }
{
    if extents.is_empty() {
        words
    } else {
        Some(Items::new(alloc))
    }
}

/// The first node of the body of a let, or of the second of two parts, where the first part has been walked.
#[cycle(outside)]
fn second(
    alloc: Global,
    shapes: &mut Shapes,
    first: Option<Items<u32>>,
    b: &Term,
) -> Result<Option<Items<u32>>, AllocError>
    requires shaped { IsShaped shapes.old b.now }
    requires free { all_free (given shapes.old) ≡ true }
    ensures node { IfOk result (λ o. o ≡ first_node (in_child 0 first) (in_child 1 (outside b.now (given shapes.old)))) }
    ensures shapes { OnOk result (shapes.new ≡ shapes.old) }
{
    let second = outside(alloc, shapes, b)?;
    match in_child(alloc, 0, first)? {
        Some(steps) => Ok(Some(steps)),
        None => in_child(alloc, 1, second),
    }
}

/// The first node in preorder of a store position that is outside the final form.
#[cycle(outside)]
#[tactic(auto, using(crate::proofs::OutsideForms::outside_forms))]
pub fn outside(
    alloc: Global,
    shapes: &mut Shapes,
    term: &Term,
) -> Result<Option<Items<u32>>, AllocError>
    requires shaped { IsShaped shapes.old term.now }
    requires free { all_free (given shapes.old) ≡ true }
    ensures node { IfOk result (λ o. o ≡ outside term.now (given shapes.old)) }
    ensures shapes { OnOk result (shapes.new ≡ shapes.old) }
{
    match term {
        Term::Lit(_) | Term::TVar(_) | Term::WordOf(_) => Ok(None),
        Term::Index(_, _) => outside_word(alloc, term),
        Term::Mul(_, _) => outside_word(alloc, term),
        Term::Sub(a, _) => {
            let words = outside_word(alloc, term)?;
            let extents = extents_under(alloc, shapes, a.get())?;
            Ok(difference(alloc, extents.as_slice(), words))
        }
        Term::Let(a, b) => {
            let first = outside(alloc, shapes, a.get())?;
            let extents = extents_under(alloc, shapes, a.get())?;
            enter(alloc, shapes, extents)?;
            let node = second(alloc, shapes, first, b.get())?;
            leave(shapes);
            Ok(node)
        }
        Term::Add(a, b) | Term::Concat(a, b) => {
            let first = outside(alloc, shapes, a.get())?;
            second(alloc, shapes, first, b.get())
        }
        Term::Gen(_, e)
        | Term::Sum(_, e)
        | Term::Guard(_, e)
        | Term::Flatten(e)
        | Term::Split(_, e)
        | Term::Transpose(e)
        | Term::TruncL(_, e)
        | Term::TruncR(_, e)
        | Term::PadL(_, e)
        | Term::PadR(_, e) => {
            let node = outside(alloc, shapes, e.get())?;
            in_child(alloc, 0, node)
        }
    }
}
