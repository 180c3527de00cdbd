//! Lengths.

ghost use Rattle.std.specs.Prelude.{◌≡◌, ◌&&◌, ◌↔◌, IsTrue, IfOk, MatchResult};
ghost use Rattle.reindexer.specs.Limited.{Answers};
ghost use Rattle.term_tree.specs.Shape.{same_form};
ghost use Rattle.region_plan.specs.Syntax.{topped};
ghost use Rattle.region_plan.specs.Length.{is_nothing, larger_of, length_tree, longer, same_length, zero_form};

use affine_index::{Aff, AffRefusal};
use index_trees::tree_after;
use loop_lang::Iexp;
use reindexer::forms::sum;
use sqlite_items::Boxed;
use std::alloc::{AllocError, Global};

/// A number of words: one normal form over sizes, plus at most one larger of two lengths.
#[derive(Drop)]
pub enum Length {
    Plain(Aff),
    Topped(Aff, Boxed<Length>, Boxed<Length>),
}

fn is_same(a: &Aff, b: &Aff) -> bool
    ensures { IsTrue result ↔ (a.now ≡ b.now) }
{
    a.same(b)
}

fn same_form(a: &Aff, b: &Aff) -> bool
    ensures { result ≡ same_form a.now b.now }
{
    is_same(a, b)
}

fn is_none(form: &Aff) -> bool
    ensures { IsTrue result ↔ (form.now ≡ zero_form) }
{
    let items = form.items();
    items.constant == 0 && items.terms.is_empty()
}

fn is_zero(form: &Aff) -> bool
    ensures { result ≡ same_form form.now zero_form }
{
    is_none(form)
}

fn all(x: bool, y: bool, z: bool) -> bool
    ensures { result ≡ (x && (y && z)) }
{
    x && y && z
}

/// Whether two lengths are one form.
#[tactic(auto, using(crate::proofs::Forms::length_forms))]
fn same_length(a: &Length, b: &Length) -> bool
    ensures { result ≡ same_length a.now b.now }
{
    match (a, b) {
        (Length::Plain(x), Length::Plain(y)) => same_form(x, y),
        (Length::Topped(x, a, b), Length::Topped(y, c, d)) => {
            let forms = same_form(x, y);
            let firsts = same_length(a.get(), c.get());
            let seconds = same_length(b.get(), d.get());
            all(forms, firsts, seconds)
        }
        (Length::Plain(_), Length::Topped(_, _, _)) => false,
        (Length::Topped(_, _, _), Length::Plain(_)) => false,
    }
}

#[tactic(auto, using(crate::proofs::Forms::length_forms))]
fn is_nothing(length: &Length) -> bool
    ensures { result ≡ is_nothing length.now }
{
    match length {
        Length::Plain(x) => is_zero(x),
        Length::Topped(_, _, _) => false,
    }
}

pub fn zero(alloc: Global) -> Result<Aff, AffRefusal>
    ensures { MatchResult result (λ form. form ≡ zero_form) (λ e. e ≡ AffRefusal.Memory) }
{
    Aff::literal(alloc, 0)
}

/// The larger of both, in this order.
#[tactic(auto, using(crate::proofs::Forms::length_forms))]
fn both(alloc: Global, a: Length, b: Length) -> Result<Length, AffRefusal>
    ensures { MatchResult result (λ l. l ≡ topped zero_form a b) (λ e. e ≡ AffRefusal.Memory) }
{
    let form = zero(alloc)?;
    let first = Boxed::new(alloc, a)?;
    let second = Boxed::new(alloc, b)?;
    Ok(Length::Topped(form, first, second))
}

/// The larger of two lengths: one of them where they are equal, the other where one is 0, else the `top` of both in this order.
/// Linear in the shorter of both.
pub fn larger_of(alloc: Global, a: Length, b: Length) -> Result<Length, AffRefusal>
    ensures { MatchResult result (λ l. l ≡ larger_of a b) (λ e. e ≡ AffRefusal.Memory) }
{
    if same_length(&a, &b) {
        return Ok(a);
    }
    if is_nothing(&a) {
        return Ok(b);
    }
    if is_nothing(&b) {
        return Ok(a);
    }
    both(alloc, a, b)
}

/// A length with so many words more, which are added to its normal form.
#[tactic(auto, using(crate::proofs::Forms::length_forms))]
pub fn longer(alloc: Global, words: &Aff, length: Length) -> Result<Length, AffRefusal>
    ensures { Answers (longer words.now length) result }
{
    match length {
        Length::Plain(x) => {
            let form = sum(alloc, words, &x)?;
            Ok(Length::Plain(form))
        }
        Length::Topped(x, a, b) => {
            let form = sum(alloc, words, &x)?;
            Ok(Length::Topped(form, a, b))
        }
    }
}

/// The tree that a length prints as: the larger first, where there is one, and then the items of the normal form.
#[tactic(auto, using(crate::proofs::Forms::length_forms))]
pub fn length_tree(alloc: Global, length: &Length) -> Result<Iexp, AllocError>
    ensures { IfOk result (λ t. t ≡ length_tree length.now) }
{
    match length {
        Length::Plain(x) => tree_after(alloc, 0, None, x),
        Length::Topped(x, a, b) => {
            let first = Boxed::new(alloc, length_tree(alloc, a.get())?)?;
            let second = Boxed::new(alloc, length_tree(alloc, b.get())?)?;
            tree_after(alloc, 0, Some(Iexp::Larger(first, second)), x)
        }
    }
}
