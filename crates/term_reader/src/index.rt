//! Reads index expressions.

ghost use Rattle.std.specs.Prelude.{◌≡◌, ◌<◌, ◌≤◌, ◌^◌, IfOk};
ghost use Rattle.text_tokens.specs.declared.kind.Kind.TheVariants as k;
ghost use Rattle.reader_laws.specs.Levels.{word_in};
ghost use Rattle.reader_laws.specs.Steps.{Reads};
ghost use Rattle.source_grammar.specs.Index.{IsSign, literal_value, max_text};
ghost use Rattle.source_grammar.specs.ReadIndex as spec;
ghost use Rattle.term_reader.specs.Names.{named};
ghost use Rattle.term_reader.specs.Steps.{IsDivision, IsOfProduct, divisor_number, next_divisor, next_part, next_product, more_products, more_sums};

use crate::joins;
use crate::names::Names;
use affine_index::Aff;
use reader_laws::{Fault, ReadError, expect_in, misplaced_in, open, refuse};
use source_grammar::{Operator, product_operator, sum_operator};
use std::alloc::Global;
use text_tokens::{Kind, Tokens, number, same_kind};

/// More operators than a text has.
const MAX_TEXT: usize = 9_223_372_036_854_775_808;

#[tactic(auto, unfolding(reader_laws::specs::Levels::word_in))]
fn literal(alloc: Global, tokens: &mut Tokens<'_>, levels: usize) -> Result<Aff, ReadError>
    ensures { Reads (λ x. x) (word_in levels k.Number literal_value tokens.old) result tokens.new }
{
    if !same_kind(tokens.peek(), Kind::Number) {
        return Err(misplaced_in(tokens, levels));
    }
    let Some(n) = number(tokens.text()) else {
        return Err(refuse(Fault::NumberTooLarge, tokens));
    };
    if n > 1_099_511_627_776 {
        return Err(refuse(Fault::NumberTooLarge, tokens));
    }
    tokens.take();
    joins::literal_form(alloc, n)
}

/// The number that a divisor is.
#[tactic(auto, unfolding(reader_laws::specs::Levels::word_in))]
fn divisor(tokens: &mut Tokens<'_>, levels: usize) -> Result<u32, ReadError>
    ensures reads { Reads (λ n. n) (word_in levels k.Number divisor_number tokens.old) result tokens.new }
    ensures range { IfOk result (λ n. (0 < n) × (n ≤ 2147483647)) }
{
    if !same_kind(tokens.peek(), Kind::Number) {
        return Err(misplaced_in(tokens, levels));
    }
    match number(tokens.text()) {
        None => Err(refuse(Fault::NumberTooLarge, tokens)),
        Some(0) => Err(refuse(Fault::BadSyntax, tokens)),
        Some(n) => {
            if n > 2_147_483_647 {
                return Err(refuse(Fault::NumberTooLarge, tokens));
            }
            tokens.take();
            Ok(n as u32)
        }
    }
}

/// The form of a name.
#[tactic(auto, unfolding(reader_laws::specs::Levels::word_in))]
fn name(
    alloc: Global,
    names: &Names<'_, '_>,
    tokens: &mut Tokens<'_>,
    levels: usize,
) -> Result<Aff, ReadError>
    ensures { Reads (λ x. x) (word_in levels k.Name (named names.now) tokens.old) result tokens.new }
{
    if !same_kind(tokens.peek(), Kind::Name) {
        return Err(misplaced_in(tokens, levels));
    }
    let Some(known) = names.known(tokens.text())? else {
        return Err(refuse(Fault::UnknownName, tokens));
    };
    tokens.take();
    known.form(alloc)
}

#[cycle(descent)]
#[tactic(auto, unfolding(source_grammar::specs::ReadIndex::parenthesized), using(crate::proofs::CodeLaws::inner_sum))]
fn parenthesized(
    alloc: Global,
    names: &Names<'_, '_>,
    tokens: &mut Tokens<'_>,
    levels: usize,
) -> Result<Aff, ReadError>
    ensures { Reads (λ x. x) (spec.parenthesized (named names.now) (spec.inner (named names.now) levels) levels tokens.old) result tokens.new }
{
    open(tokens, levels, Kind::LParen)?;
    let inner = sum(alloc, names, tokens, levels - 1)?;
    match expect_in(tokens, levels - 1, Kind::RParen) {
        Ok(()) => Ok(inner),
        Err(e) => Err(e),
    }
}

#[cycle(descent)]
#[tactic(auto, unfolding(source_grammar::specs::ReadIndex::negated), using(crate::proofs::CodeLaws::inner_part))]
fn negated(
    alloc: Global,
    names: &Names<'_, '_>,
    tokens: &mut Tokens<'_>,
    levels: usize,
) -> Result<Aff, ReadError>
    ensures { Reads (λ x. x) (spec.negated (named names.now) (spec.inner (named names.now) levels) levels tokens.old) result tokens.new }
{
    open(tokens, levels, Kind::Minus)?;
    let inner = part(alloc, names, tokens, levels - 1)?;
    joins::negated(alloc, inner)
}

#[cycle(descent)]
#[tactic(auto, unfolding(source_grammar::specs::ReadIndex::part))]
fn part(
    alloc: Global,
    names: &Names<'_, '_>,
    tokens: &mut Tokens<'_>,
    levels: usize,
) -> Result<Aff, ReadError>
    ensures { Reads (λ x. x) (spec.part (named names.now) (spec.inner (named names.now) levels) levels tokens.old) result tokens.new }
{
    match tokens.peek() {
        Kind::Number => literal(alloc, tokens, levels),
        Kind::Name => name(alloc, names, tokens, levels),
        Kind::LParen => parenthesized(alloc, names, tokens, levels),
        Kind::Minus => negated(alloc, names, tokens, levels),
        _ => Err(misplaced_in(tokens, levels)),
    }
}

/// A divisor to the right of an operator, joined to what stands to its left.
#[tactic(auto, unfolding(crate::specs::Steps::next_divisor), using(crate::proofs::CodeLaws::divisor_ok, crate::proofs::CodeLaws::divisor_err))]
fn next_divisor(
    alloc: Global,
    tokens: &mut Tokens<'_>,
    levels: usize,
    place: u64,
    left: Aff,
    operator: Operator,
) -> Result<Aff, ReadError>
    requires { IsDivision operator }
    ensures { Reads (λ x. x) (next_divisor levels place left operator tokens.old) result tokens.new }
{
    let by = divisor(tokens, levels)?;
    match operator {
        Operator::Over => joins::divided(alloc, left, by, place),
        _ => joins::rest(alloc, left, by, place),
    }
}

/// What stands to the right of an operator of a product, joined to what stands to its left.
#[cycle(descent)]
#[tactic(auto, unfolding(crate::specs::Steps::next_part, crate::specs::Steps::next_divisor))]
fn next_part(
    alloc: Global,
    names: &Names<'_, '_>,
    tokens: &mut Tokens<'_>,
    levels: usize,
    place: u64,
    left: Aff,
    operator: Operator,
) -> Result<Aff, ReadError>
    requires { IsOfProduct operator }
    ensures { Reads (λ x. x) (next_part (named names.now) (spec.inner (named names.now) levels) levels place left operator tokens.old) result tokens.new }
{
    match operator {
        Operator::Over => next_divisor(alloc, tokens, levels, place, left, operator),
        Operator::Modulo => next_divisor(alloc, tokens, levels, place, left, operator),
        _ => {
            let right = part(alloc, names, tokens, levels)?;
            joins::multiplied(alloc, left, right, place)
        }
    }
}

#[cycle(descent)]
#[tactic(auto, using(crate::proofs::CodeLaws::products_stop, crate::proofs::CodeLaws::products_went, crate::proofs::CodeLaws::products_fell, crate::proofs::CodeLaws::products_full, crate::proofs::CodeLaws::text_limit))]
fn more_products(
    alloc: Global,
    names: &Names<'_, '_>,
    tokens: &mut Tokens<'_>,
    levels: usize,
    mut left: Aff,
) -> Result<Aff, ReadError>
    ensures { Reads (λ x. x) (more_products (named names.now) (spec.inner (named names.now) levels) levels max_text left tokens.old) result tokens.new }
{
    for _turn in 0..MAX_TEXT {
        let Some(operator) = product_operator(tokens.peek()) else {
            return Ok(left);
        };
        let place = tokens.place();
        tokens.take();
        left = next_part(alloc, names, tokens, levels, place, left, operator)?;
    }
    match product_operator(tokens.peek()) {
        Some(_) => Err(refuse(Fault::TooDeep, tokens)),
        None => Ok(left),
    }
}

#[cycle(descent)]
#[tactic(auto, unfolding(source_grammar::specs::ReadIndex::product))]
fn product(
    alloc: Global,
    names: &Names<'_, '_>,
    tokens: &mut Tokens<'_>,
    levels: usize,
) -> Result<Aff, ReadError>
    ensures { Reads (λ x. x) (spec.product (named names.now) (spec.inner (named names.now) levels) levels tokens.old) result tokens.new }
{
    let first = part(alloc, names, tokens, levels)?;
    more_products(alloc, names, tokens, levels, first)
}

/// A product to the right of a sign, joined to what stands to its left.
#[cycle(descent)]
#[tactic(auto, unfolding(crate::specs::Steps::next_product))]
fn next_product(
    alloc: Global,
    names: &Names<'_, '_>,
    tokens: &mut Tokens<'_>,
    levels: usize,
    place: u64,
    left: Aff,
    operator: Operator,
) -> Result<Aff, ReadError>
    requires { IsSign operator }
    ensures { Reads (λ x. x) (next_product (named names.now) (spec.inner (named names.now) levels) levels place left operator tokens.old) result tokens.new }
{
    let right = product(alloc, names, tokens, levels)?;
    match operator {
        Operator::Plus => joins::added(alloc, left, right, place),
        _ => joins::subtracted(alloc, left, right, place),
    }
}

#[cycle(descent)]
#[tactic(auto, using(crate::proofs::CodeLaws::sums_stop, crate::proofs::CodeLaws::sums_went, crate::proofs::CodeLaws::sums_fell, crate::proofs::CodeLaws::sums_full, crate::proofs::CodeLaws::text_limit))]
fn more_sums(
    alloc: Global,
    names: &Names<'_, '_>,
    tokens: &mut Tokens<'_>,
    levels: usize,
    mut left: Aff,
) -> Result<Aff, ReadError>
    ensures { Reads (λ x. x) (more_sums (named names.now) (spec.inner (named names.now) levels) levels max_text left tokens.old) result tokens.new }
{
    for _turn in 0..MAX_TEXT {
        let Some(operator) = sum_operator(tokens.peek()) else {
            return Ok(left);
        };
        let place = tokens.place();
        tokens.take();
        left = next_product(alloc, names, tokens, levels, place, left, operator)?;
    }
    match sum_operator(tokens.peek()) {
        Some(_) => Err(refuse(Fault::TooDeep, tokens)),
        None => Ok(left),
    }
}

#[cycle(descent)]
#[tactic(auto, unfolding(source_grammar::specs::ReadIndex::sum))]
pub fn sum(
    alloc: Global,
    names: &Names<'_, '_>,
    tokens: &mut Tokens<'_>,
    levels: usize,
) -> Result<Aff, ReadError>
    ensures { Reads (λ x. x) (spec.sum (named names.now) (spec.inner (named names.now) levels) levels tokens.old) result tokens.new }
{
    let first = product(alloc, names, tokens, levels)?;
    more_sums(alloc, names, tokens, levels, first)
}
