//! Reads index expressions.

ghost use Rattle.std.specs.Prelude.{◌≡◌, true, Some, if◌then◌else◌, None};
ghost use Rattle.text_tokens.specs.declared.kind.Kind.TheVariants as k;
ghost use Rattle.reader_laws.specs.Steps.{Reads};
ghost use Rattle.schedule_script.specs.Index as spec;
ghost use Rattle.schedule_script.specs.Words.{most_items};

use crate::made::{self, Tall};
use crate::tree::IxTree;
use crate::words::{MOST_ITEMS, divisor, name, name_of, number_in};
use reader_laws::{Fault, ReadError, expect, misplaced, open, refuse};
use sqlite_items::Boxed;
use std::alloc::Global;
use text_tokens::{Kind, Tokens};

fn is_sum_sign(kind: Kind) -> bool
    ensures { spec.sum_sign kind ≡ (if result then Some kind else None) }
{
    matches!(kind, Kind::Plus | Kind::Minus)
}

fn is_product_sign(kind: Kind) -> bool
    ensures { spec.product_sign kind ≡ (if result then Some kind else None) }
{
    matches!(kind, Kind::Star | Kind::Slash | Kind::Percent)
}

#[tactic(auto, unfolding(crate::specs::Index::number_part))]
fn number_part(alloc: Global, tokens: &mut Tokens<'_>) -> Result<Tall, ReadError>
    ensures { Reads (λ x. x) (spec.number_part tokens.old) result tokens.new }
{
    let n = number_in(tokens, 0, 18_446_744_073_709_551_615)?;
    made::number(alloc, n)
}

#[tactic(auto, unfolding(crate::specs::Index::name_part))]
fn name_part(alloc: Global, tokens: &mut Tokens<'_>) -> Result<Tall, ReadError>
    ensures { Reads (λ x. x) (spec.name_part tokens.old) result tokens.new }
{
    let text = name(tokens)?;
    let name = name_of(alloc, text)?;
    made::named(alloc, name)
}

#[cycle(descent)]
#[tactic(auto, unfolding(crate::specs::Index::parenthesized), using(crate::proofs::Loops::inner_sum))]
fn parenthesized(alloc: Global, tokens: &mut Tokens<'_>, levels: usize) -> Result<Tall, ReadError>
    ensures { Reads (λ x. x) (spec.parenthesized (spec.inner levels) levels tokens.old) result tokens.new }
{
    open(tokens, levels, Kind::LParen)?;
    let inner = sum(alloc, tokens, levels - 1)?;
    match expect(tokens, Kind::RParen) {
        Ok(()) => Ok(inner),
        Err(e) => Err(e),
    }
}

#[cycle(descent)]
#[tactic(auto, unfolding(crate::specs::Index::negated), using(crate::proofs::Loops::inner_part))]
fn negated(alloc: Global, tokens: &mut Tokens<'_>, levels: usize) -> Result<Tall, ReadError>
    ensures { Reads (λ x. x) (spec.negated (spec.inner levels) levels tokens.old) result tokens.new }
{
    open(tokens, levels, Kind::Minus)?;
    let inner = part(alloc, tokens, levels - 1)?;
    made::negation(alloc, inner)
}

#[cycle(descent)]
#[tactic(auto, unfolding(crate::specs::Index::part))]
fn part(alloc: Global, tokens: &mut Tokens<'_>, levels: usize) -> Result<Tall, ReadError>
    ensures { Reads (λ x. x) (spec.part (spec.inner levels) levels tokens.old) result tokens.new }
{
    match tokens.peek() {
        Kind::Number => number_part(alloc, tokens),
        Kind::Name => name_part(alloc, tokens),
        Kind::LParen => parenthesized(alloc, tokens, levels),
        Kind::Minus => negated(alloc, tokens, levels),
        _ => Err(misplaced(tokens)),
    }
}

/// The product of a tree and the part that follows.
#[cycle(descent)]
fn times_part(
    alloc: Global,
    tokens: &mut Tokens<'_>,
    levels: usize,
    left: Tall,
) -> Result<Tall, ReadError>
    ensures { Reads (λ x. x) (spec.factor_after (spec.inner levels) levels k.Star left tokens.old) result tokens.new }
{
    let right = part(alloc, tokens, levels)?;
    made::product(alloc, left, right)
}

/// What follows an operator of a product, joined to what stands before it.
#[cycle(descent)]
fn factor_after(
    alloc: Global,
    tokens: &mut Tokens<'_>,
    levels: usize,
    sign: Kind,
    left: Tall,
) -> Result<Tall, ReadError>
    ensures { Reads (λ x. x) (spec.factor_after (spec.inner levels) levels sign left tokens.old) result tokens.new }
{
    match sign {
        Kind::Star => times_part(alloc, tokens, levels, left),
        Kind::Slash => {
            let by = divisor(tokens)?;
            made::quotient(alloc, left, by)
        }
        Kind::Percent => {
            let by = divisor(tokens)?;
            made::remainder(alloc, left, by)
        }
        _ => Err(misplaced(tokens)),
    }
}

/// What follows `left` in a product.
#[cycle(descent)]
#[tactic(auto, using(crate::proofs::Loops::products_stop, crate::proofs::Loops::products_went, crate::proofs::Loops::products_fell, crate::proofs::Loops::products_clashed, crate::proofs::Loops::products_full, crate::proofs::Loops::items))]
fn more_factors(
    alloc: Global,
    tokens: &mut Tokens<'_>,
    levels: usize,
    mut left: Tall,
) -> Result<Tall, ReadError>
    ensures { Reads (λ x. x) (spec.more_factors (spec.inner levels) levels most_items left tokens.old) result tokens.new }
{
    for _turn in 0..MOST_ITEMS {
        let sign = tokens.peek();
        if !is_product_sign(sign) {
            return Ok(left);
        }
        let place = tokens.place();
        tokens.take();
        let joined = factor_after(alloc, tokens, levels, sign, left)?;
        left = joined.limited(place)?;
    }
    if is_product_sign(tokens.peek()) {
        return Err(refuse(Fault::TooDeep, tokens));
    }
    Ok(left)
}

#[cycle(descent)]
#[tactic(auto, unfolding(crate::specs::Index::product))]
fn product(alloc: Global, tokens: &mut Tokens<'_>, levels: usize) -> Result<Tall, ReadError>
    ensures { Reads (λ x. x) (spec.product (spec.inner levels) levels tokens.old) result tokens.new }
{
    let first = part(alloc, tokens, levels)?;
    more_factors(alloc, tokens, levels, first)
}

/// What follows a sign, joined to what stands before it.
#[cycle(descent)]
fn summand_after(
    alloc: Global,
    tokens: &mut Tokens<'_>,
    levels: usize,
    sign: Kind,
    left: Tall,
) -> Result<Tall, ReadError>
    ensures { Reads (λ x. x) (spec.summand_after (spec.inner levels) levels sign left tokens.old) result tokens.new }
{
    match sign {
        Kind::Plus => {
            let right = product(alloc, tokens, levels)?;
            made::sum(alloc, left, right)
        }
        Kind::Minus => {
            let right = product(alloc, tokens, levels)?;
            made::difference(alloc, left, right)
        }
        _ => Err(misplaced(tokens)),
    }
}

/// What follows `left` in a sum.
#[cycle(descent)]
#[tactic(auto, using(crate::proofs::Loops::sums_stop, crate::proofs::Loops::sums_went, crate::proofs::Loops::sums_fell, crate::proofs::Loops::sums_clashed, crate::proofs::Loops::sums_full, crate::proofs::Loops::items))]
fn more_summands(
    alloc: Global,
    tokens: &mut Tokens<'_>,
    levels: usize,
    mut left: Tall,
) -> Result<Tall, ReadError>
    ensures { Reads (λ x. x) (spec.more_summands (spec.inner levels) levels most_items left tokens.old) result tokens.new }
{
    for _turn in 0..MOST_ITEMS {
        let sign = tokens.peek();
        if !is_sum_sign(sign) {
            return Ok(left);
        }
        let place = tokens.place();
        tokens.take();
        let joined = summand_after(alloc, tokens, levels, sign, left)?;
        left = joined.limited(place)?;
    }
    if is_sum_sign(tokens.peek()) {
        return Err(refuse(Fault::TooDeep, tokens));
    }
    Ok(left)
}

#[cycle(descent)]
#[tactic(auto, unfolding(crate::specs::Index::sum))]
fn sum(alloc: Global, tokens: &mut Tokens<'_>, levels: usize) -> Result<Tall, ReadError>
    ensures { Reads (λ x. x) (spec.index levels tokens.old) result tokens.new }
{
    let first = product(alloc, tokens, levels)?;
    more_summands(alloc, tokens, levels, first)
}

/// An index expression, where so many levels may still be opened.
pub(crate) fn index(
    alloc: Global,
    tokens: &mut Tokens<'_>,
    levels: usize,
) -> Result<Boxed<IxTree>, ReadError>
    ensures { Reads (λ x. x) (spec.index levels tokens.old) result tokens.new }
{
    match sum(alloc, tokens, levels) {
        Ok(tall) => Ok(tall.into_tree()),
        Err(e) => Err(e),
    }
}
