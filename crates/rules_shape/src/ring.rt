//! Laws of arithmetic on words.

ghost use Rattle.std.specs.Prelude.{◌≡◌, IfOk};
ghost use Rattle.path_focus.specs.Focus.{IsProper};
ghost use Rattle.path_focus.specs.Outcome.{IsOutcome};
ghost use Rattle.rules_shape.specs.Ring as table;
ghost use Rattle.shape_rules.specs.Scopes.{given};
ghost use Rattle.term_tree.specs.Shape.{shape_of};

use crate::folding::{fold, is_operator};
use crate::patterns::{as_add, as_lit, as_mul, as_sub};
use crate::words::{added, literal, multiplied};
use fact_list::CertRefusal;
use owned_values::two;
use path_focus::{Arg, Focus, Law, Outcome};
use rule_parts::build::{add, copied, made, mul};
use shape_rules::{ShapeFault, shape};
use std::alloc::Global;
use term_equality::same_terms;
use term_tree::Term;

/// `a + b`
fn add_comm(alloc: Global, term: &Term) -> Result<Outcome, CertRefusal>
    ensures { IfOk result (IsOutcome (table.add_comm term.now)) }
{
    let Some((a, b)) = as_add(term) else {
        return Ok(Outcome::WrongArgument);
    };
    let term = added(alloc, b, a)?;
    Ok(made(alloc, term))
}

/// `(a + b) + c`
fn add_assoc(alloc: Global, term: &Term) -> Result<Outcome, CertRefusal>
    ensures { IfOk result (IsOutcome (table.add_assoc term.now)) }
{
    let Some((left, c)) = as_add(term) else {
        return Ok(Outcome::WrongArgument);
    };
    let Some((a, b)) = as_add(left) else {
        return Ok(Outcome::WrongArgument);
    };
    let (a, right) = two(copied(alloc, a), added(alloc, b, c))?;
    let term = add(alloc, a, right)?;
    Ok(made(alloc, term))
}

/// `a + (b + c)`
fn add_assoc_back(alloc: Global, term: &Term) -> Result<Outcome, CertRefusal>
    ensures { IfOk result (IsOutcome (table.add_assoc_back term.now)) }
{
    let Some((a, right)) = as_add(term) else {
        return Ok(Outcome::WrongArgument);
    };
    let Some((b, c)) = as_add(right) else {
        return Ok(Outcome::WrongArgument);
    };
    let (left, c) = two(added(alloc, a, b), copied(alloc, c))?;
    let term = add(alloc, left, c)?;
    Ok(made(alloc, term))
}

/// `a * b`
fn mul_comm(alloc: Global, term: &Term) -> Result<Outcome, CertRefusal>
    ensures { IfOk result (IsOutcome (table.mul_comm term.now)) }
{
    let Some((a, b)) = as_mul(term) else {
        return Ok(Outcome::WrongArgument);
    };
    let term = multiplied(alloc, b, a)?;
    Ok(made(alloc, term))
}

/// `(a * b) * c`
fn mul_assoc(alloc: Global, term: &Term) -> Result<Outcome, CertRefusal>
    ensures { IfOk result (IsOutcome (table.mul_assoc term.now)) }
{
    let Some((left, c)) = as_mul(term) else {
        return Ok(Outcome::WrongArgument);
    };
    let Some((a, b)) = as_mul(left) else {
        return Ok(Outcome::WrongArgument);
    };
    let (a, right) = two(copied(alloc, a), multiplied(alloc, b, c))?;
    let term = mul(alloc, a, right)?;
    Ok(made(alloc, term))
}

/// `a * (b * c)`
fn mul_assoc_back(alloc: Global, term: &Term) -> Result<Outcome, CertRefusal>
    ensures { IfOk result (IsOutcome (table.mul_assoc_back term.now)) }
{
    let Some((a, right)) = as_mul(term) else {
        return Ok(Outcome::WrongArgument);
    };
    let Some((b, c)) = as_mul(right) else {
        return Ok(Outcome::WrongArgument);
    };
    let (left, c) = two(multiplied(alloc, a, b), copied(alloc, c))?;
    let term = mul(alloc, left, c)?;
    Ok(made(alloc, term))
}

/// `a * (b + c)`
fn distrib(alloc: Global, term: &Term) -> Result<Outcome, CertRefusal>
    ensures { IfOk result (IsOutcome (table.distrib term.now)) }
{
    let Some((a, right)) = as_mul(term) else {
        return Ok(Outcome::WrongArgument);
    };
    let Some((b, c)) = as_add(right) else {
        return Ok(Outcome::WrongArgument);
    };
    let (first, second) = two(multiplied(alloc, a, b), multiplied(alloc, a, c))?;
    let term = add(alloc, first, second)?;
    Ok(made(alloc, term))
}

/// `a * b + a * c`
fn undistrib(alloc: Global, term: &Term) -> Result<Outcome, CertRefusal>
    ensures { IfOk result (IsOutcome (table.undistrib term.now)) }
{
    let Some((first, second)) = as_add(term) else {
        return Ok(Outcome::WrongArgument);
    };
    let Some((a, b)) = as_mul(first) else {
        return Ok(Outcome::WrongArgument);
    };
    let Some((d, c)) = as_mul(second) else {
        return Ok(Outcome::WrongArgument);
    };
    if !same_terms(a, d) {
        return Ok(Outcome::WrongArgument);
    }
    let (a, right) = two(copied(alloc, a), added(alloc, b, c))?;
    let term = mul(alloc, a, right)?;
    Ok(made(alloc, term))
}

/// `e + 0`
fn add_zero(alloc: Global, term: &Term) -> Result<Outcome, CertRefusal>
    ensures { IfOk result (IsOutcome (table.add_zero term.now)) }
{
    let Some((e, right)) = as_add(term) else {
        return Ok(Outcome::WrongArgument);
    };
    let Some(word) = as_lit(right) else {
        return Ok(Outcome::WrongArgument);
    };
    if word != 0 {
        return Ok(Outcome::WrongArgument);
    }
    let term = copied(alloc, e)?;
    Ok(made(alloc, term))
}

/// `e * 1`
fn mul_one(alloc: Global, term: &Term) -> Result<Outcome, CertRefusal>
    ensures { IfOk result (IsOutcome (table.mul_one term.now)) }
{
    let Some((e, right)) = as_mul(term) else {
        return Ok(Outcome::WrongArgument);
    };
    let Some(word) = as_lit(right) else {
        return Ok(Outcome::WrongArgument);
    };
    if word != 1 {
        return Ok(Outcome::WrongArgument);
    }
    let term = copied(alloc, e)?;
    Ok(made(alloc, term))
}

/// `e * 0`
fn mul_zero(alloc: Global, term: &Term) -> Result<Outcome, CertRefusal>
    ensures { IfOk result (IsOutcome (table.mul_zero term.now)) }
{
    let Some((_, right)) = as_mul(term) else {
        return Ok(Outcome::WrongArgument);
    };
    let Some(word) = as_lit(right) else {
        return Ok(Outcome::WrongArgument);
    };
    if word != 0 {
        return Ok(Outcome::WrongArgument);
    }
    let term = literal(alloc, 0)?;
    Ok(made(alloc, term))
}

/// Whether the term of a focus is a word.
fn is_word(alloc: Global, focus: &Focus) -> Result<bool, CertRefusal>
    requires { IsProper focus.now }
    ensures { IfOk result (λ b. b ≡ table.is_word (shape_of focus.now.term (given focus.now.shapes))) }
{
    match shape(alloc, &focus.shapes, focus.term.get()) {
        Ok(extents) => Ok(extents.is_empty()),
        Err(ShapeFault::Memory) => Err(CertRefusal::Memory),
        Err(_) => Ok(false),
    }
}

/// `a - b`, for words
fn sub_add(alloc: Global, focus: &Focus) -> Result<Outcome, CertRefusal>
    requires { IsProper focus.now }
    ensures { IfOk result (IsOutcome (table.sub_add (shape_of focus.now.term (given focus.now.shapes)) focus.now.term)) }
{
    let Some((a, b)) = as_sub(focus.term.get()) else {
        return Ok(Outcome::WrongArgument);
    };
    if !is_word(alloc, focus)? {
        return Ok(Outcome::WrongArgument);
    }
    let (b, minus) = two(copied(alloc, b), literal(alloc, u64::MAX))?;
    let opposite = mul(alloc, b, minus)?;
    let a = copied(alloc, a)?;
    let term = add(alloc, a, opposite)?;
    Ok(made(alloc, term))
}

fn by_law(alloc: Global, focus: &Focus, law: Law) -> Result<Outcome, CertRefusal>
    requires { IsProper focus.now }
    ensures { IfOk result (IsOutcome (table.law_of focus.now law)) }
{
    match law {
        Law::AddComm => add_comm(alloc, focus.term.get()),
        Law::AddAssoc => add_assoc(alloc, focus.term.get()),
        Law::AddAssocBack => add_assoc_back(alloc, focus.term.get()),
        Law::MulComm => mul_comm(alloc, focus.term.get()),
        Law::MulAssoc => mul_assoc(alloc, focus.term.get()),
        Law::MulAssocBack => mul_assoc_back(alloc, focus.term.get()),
        Law::Distrib => distrib(alloc, focus.term.get()),
        Law::Undistrib => undistrib(alloc, focus.term.get()),
        Law::AddZero => add_zero(alloc, focus.term.get()),
        Law::MulOne => mul_one(alloc, focus.term.get()),
        Law::MulZero => mul_zero(alloc, focus.term.get()),
        Law::SubAdd => sub_add(alloc, focus),
        Law::Fold => fold(alloc, focus.term.get()),
    }
}

/// The law that is the one argument.
fn law_given(args: &[Arg]) -> Option<Law>
    ensures { result ≡ table.law_given args.now }
{
    match args {
        [Arg::Law(law)] => Some(*law),
        _ => None,
    }
}

/// A sum, a difference or a product that is one side of a law
pub fn ring(alloc: Global, focus: &Focus, args: &[Arg]) -> Result<Outcome, CertRefusal>
    requires { IsProper focus.now }
    ensures { IfOk result (IsOutcome (table.ring focus.now args.now)) }
{
    if !is_operator(focus.term.get()) {
        return Ok(Outcome::NoPattern);
    }
    let Some(law) = law_given(args) else {
        return Ok(Outcome::WrongArgument);
    };
    by_law(alloc, focus, law)
}
