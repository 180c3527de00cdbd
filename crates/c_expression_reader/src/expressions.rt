//! Reads expressions.

ghost use Rattle.std.specs.Prelude.{◌≡◌, slice_index};
ghost use Rattle.text_tokens.specs.Words.{peek};
ghost use Rattle.c_print.specs.declared.level.Level.TheVariants.{Choice, Product, Part};
ghost use Rattle.reader_laws.specs.Steps.{Reads};
ghost use Rattle.c_text.specs.Expression as grammar;
ghost use Rattle.c_text.specs.Expression.{max_chain};
ghost use Rattle.c_read.specs.Expressions as reading;
ghost use Rattle.c_read.specs.Scopes.{scope_of};
ghost use Rattle.c_expression_reader.specs.Values.{operator_of, value_of};
ghost use Rattle.c_expression_reader.specs.Expressions as spec;

use crate::value::{Operator, Value};
use crate::words::{self, left_paren, open_level, right_paren, sign};
use crate::{joins, made};
use affine_index::Rel;
use c_read::scope::Names;
use c_read::words::{expect, misplaced, number, refuse};
use c_words::CWords;
use loop_lang::Iexp;
use reader_laws::{Fault, ReadError};
use sqlite_items::Boxed;
use std::alloc::Global;
use text_tokens::{Kind, same_kind};

/// How many operators a chain may have.
const MAX_CHAIN: usize = 1_000;

// ---- parts that hold no expression

#[tactic(auto, unfolding(crate::specs::Expressions::index_number), using(crate::proofs::Numbers::number_small))]
fn index_number(
    alloc: Global,
    names: Names,
    words: &mut CWords<'_>,
    levels: usize,
) -> Result<Value, ReadError>
    ensures { Reads value_of (spec.index_number (scope_of names) (spec.inner (scope_of names) levels) levels words.old) result words.new }
{
    expect(words, Kind::Name, b"INT64_C")?;
    open_level(words, levels)?;
    left_paren(words)?;
    let n = number(words, 9_223_372_036_854_775_807)?;
    right_paren(words)?;
    made::index_literal(alloc, n)
}

#[tactic(auto, unfolding(crate::specs::Expressions::word_number))]
fn word_number(
    alloc: Global,
    names: Names,
    words: &mut CWords<'_>,
    levels: usize,
) -> Result<Value, ReadError>
    ensures { Reads value_of (spec.word_number (scope_of names) (spec.inner (scope_of names) levels) levels words.old) result words.new }
{
    expect(words, Kind::Name, b"UINT64_C")?;
    open_level(words, levels)?;
    left_paren(words)?;
    let n = number(words, 18_446_744_073_709_551_615)?;
    right_paren(words)?;
    made::word_literal(alloc, n)
}

#[tactic(auto, unfolding(crate::specs::Expressions::size))]
fn size(
    alloc: Global,
    names: Names,
    words: &mut CWords<'_>,
    levels: usize,
) -> Result<Value, ReadError>
    ensures { Reads value_of (spec.size (scope_of names) (spec.inner (scope_of names) levels) levels words.old) result words.new }
{
    let _ = levels;
    let n = words::size(names, words)?;
    made::size(alloc, n)
}

#[tactic(auto, unfolding(crate::specs::Expressions::loop_variable))]
fn loop_variable(
    alloc: Global,
    names: Names,
    words: &mut CWords<'_>,
    levels: usize,
) -> Result<Value, ReadError>
    ensures { Reads value_of (spec.loop_variable (scope_of names) (spec.inner (scope_of names) levels) levels words.old) result words.new }
{
    let _ = levels;
    let n = words::loop_variable(names, words)?;
    made::loop_variable(alloc, n)
}

// ---- one level further in

#[cycle(descent)]
#[tactic(auto, using(crate::proofs::Turns::inner_none, crate::proofs::Turns::inner_choice))]
pub fn inner_choice(
    alloc: Global,
    names: Names,
    words: &mut CWords<'_>,
    levels: usize,
) -> Result<Value, ReadError>
    ensures { Reads value_of (spec.inner (scope_of names) levels Choice words.old) result words.new }
{
    if levels == 0 {
        return Err(misplaced(words));
    }
    choice(alloc, names, words, levels - 1)
}

#[cycle(descent)]
#[tactic(auto, using(crate::proofs::Turns::inner_none, crate::proofs::Turns::inner_product))]
fn inner_product(
    alloc: Global,
    names: Names,
    words: &mut CWords<'_>,
    levels: usize,
) -> Result<Value, ReadError>
    ensures { Reads value_of (spec.inner (scope_of names) levels Product words.old) result words.new }
{
    if levels == 0 {
        return Err(misplaced(words));
    }
    product(alloc, names, words, levels - 1)
}

#[cycle(descent)]
#[tactic(auto, using(crate::proofs::Turns::inner_none, crate::proofs::Turns::inner_part))]
fn inner_part(
    alloc: Global,
    names: Names,
    words: &mut CWords<'_>,
    levels: usize,
) -> Result<Value, ReadError>
    ensures { Reads value_of (spec.inner (scope_of names) levels Part words.old) result words.new }
{
    if levels == 0 {
        return Err(misplaced(words));
    }
    part(alloc, names, words, levels - 1)
}

// ---- parts that hold an expression

#[cycle(descent)]
#[tactic(auto, unfolding(crate::specs::Expressions::inner_index), using(crate::proofs::Answered::answered))]
pub fn inner_index(
    alloc: Global,
    names: Names,
    words: &mut CWords<'_>,
    levels: usize,
) -> Result<Boxed<Iexp>, ReadError>
    ensures { Reads (λ x. x) (spec.inner_index (scope_of names) (spec.inner (scope_of names) levels) levels words.old) result words.new }
{
    let place = words.place();
    let value = inner_choice(alloc, names, words, levels)?;
    joins::as_index(value, place)
}

#[cycle(descent)]
#[tactic(auto, unfolding(crate::specs::Expressions::in_brackets))]
pub fn in_brackets(
    alloc: Global,
    names: Names,
    words: &mut CWords<'_>,
    levels: usize,
) -> Result<Boxed<Iexp>, ReadError>
    ensures { Reads (λ x. x) (spec.in_brackets (scope_of names) (spec.inner (scope_of names) levels) levels words.old) result words.new }
{
    open_level(words, levels)?;
    expect(words, Kind::LBracket, b"[")?;
    let index = inner_index(alloc, names, words, levels)?;
    match expect(words, Kind::RBracket, b"]") {
        Ok(()) => Ok(index),
        Err(e) => Err(e),
    }
}

#[cycle(descent)]
#[tactic(auto, unfolding(crate::specs::Expressions::load))]
fn load(
    alloc: Global,
    names: Names,
    words: &mut CWords<'_>,
    levels: usize,
) -> Result<Value, ReadError>
    ensures { Reads value_of (spec.load (scope_of names) (spec.inner (scope_of names) levels) levels words.old) result words.new }
{
    let buffer = words::any_buffer(names, words)?;
    let index = in_brackets(alloc, names, words, levels)?;
    made::load(alloc, buffer, index)
}

/// An index behind a comma.
#[cycle(descent)]
#[tactic(auto, unfolding(crate::specs::Expressions::second))]
fn second(
    alloc: Global,
    names: Names,
    words: &mut CWords<'_>,
    levels: usize,
) -> Result<Boxed<Iexp>, ReadError>
    ensures { Reads (λ x. x) (spec.second (scope_of names) (spec.inner (scope_of names) levels) levels words.old) result words.new }
{
    expect(words, Kind::Comma, b",")?;
    inner_index(alloc, names, words, levels)
}

#[cycle(descent)]
#[tactic(auto, unfolding(crate::specs::Expressions::larger, crate::specs::Expressions::two))]
fn larger(
    alloc: Global,
    names: Names,
    words: &mut CWords<'_>,
    levels: usize,
) -> Result<Value, ReadError>
    ensures { Reads value_of (spec.larger (scope_of names) (spec.inner (scope_of names) levels) levels words.old) result words.new }
{
    if !names.in_length {
        return Err(misplaced(words));
    }
    expect(words, Kind::Name, b"top")?;
    open_level(words, levels)?;
    left_paren(words)?;
    let first = inner_index(alloc, names, words, levels)?;
    let other = second(alloc, names, words, levels)?;
    match right_paren(words) {
        Ok(()) => made::larger(alloc, first, other),
        Err(e) => Err(e),
    }
}

#[cycle(descent)]
#[tactic(auto, unfolding(crate::specs::Expressions::converted))]
fn converted(
    alloc: Global,
    names: Names,
    words: &mut CWords<'_>,
    levels: usize,
) -> Result<Value, ReadError>
    ensures { Reads value_of (spec.converted (scope_of names) (spec.inner (scope_of names) levels) levels words.old) result words.new }
{
    expect(words, Kind::Name, b"uint64_t")?;
    right_paren(words)?;
    left_paren(words)?;
    let index = inner_index(alloc, names, words, levels)?;
    match right_paren(words) {
        Ok(()) => made::converted(alloc, index),
        Err(e) => Err(e),
    }
}

#[cycle(descent)]
#[tactic(auto, unfolding(crate::specs::Expressions::parenthesized))]
fn parenthesized(
    alloc: Global,
    names: Names,
    words: &mut CWords<'_>,
    levels: usize,
) -> Result<Value, ReadError>
    ensures { Reads value_of (spec.parenthesized (scope_of names) (spec.inner (scope_of names) levels) levels words.old) result words.new }
{
    let value = inner_choice(alloc, names, words, levels)?;
    match right_paren(words) {
        Ok(()) => Ok(value),
        Err(e) => Err(e),
    }
}

/// Whether the next word goes on a conversion that `(` begins.
fn converts(words: &CWords<'_>) -> bool
    ensures { result ≡ reading.converts (peek words.now) }
{
    same_kind(words.peek(), Kind::Name) && words.text() == b"uint64_t".as_slice()
}

#[cycle(descent)]
#[tactic(auto, unfolding(crate::specs::Expressions::in_parens))]
fn in_parens(
    alloc: Global,
    names: Names,
    words: &mut CWords<'_>,
    levels: usize,
) -> Result<Value, ReadError>
    ensures { Reads value_of (spec.in_parens (scope_of names) (spec.inner (scope_of names) levels) levels words.old) result words.new }
{
    open_level(words, levels)?;
    left_paren(words)?;
    if converts(words) {
        converted(alloc, names, words, levels)
    } else {
        parenthesized(alloc, names, words, levels)
    }
}

/// The first byte of the next word, and 0 where there is none.
fn first_byte(words: &CWords<'_>) -> u8
    ensures { result ≡ slice_index (peek words.now).text 0 }
{
    match words.text() {
        [c, ..] => *c,
        [] => 0,
    }
}

#[cycle(descent)]
#[tactic(auto, unfolding(crate::specs::Expressions::named))]
fn named(
    alloc: Global,
    names: Names,
    words: &mut CWords<'_>,
    levels: usize,
) -> Result<Value, ReadError>
    ensures { Reads value_of (spec.named (scope_of names) (spec.inner (scope_of names) levels) levels words.old) result words.new }
{
    match first_byte(words) {
        b'I' => index_number(alloc, names, words, levels),
        b'U' => word_number(alloc, names, words, levels),
        b'n' => size(alloc, names, words, levels),
        b'i' => loop_variable(alloc, names, words, levels),
        b'a' => load(alloc, names, words, levels),
        b'b' => load(alloc, names, words, levels),
        b's' => load(alloc, names, words, levels),
        b't' => larger(alloc, names, words, levels),
        _ => Err(misplaced(words)),
    }
}

#[cycle(descent)]
#[tactic(auto, unfolding(crate::specs::Expressions::part, crate::specs::Expressions::named))]
fn part(
    alloc: Global,
    names: Names,
    words: &mut CWords<'_>,
    levels: usize,
) -> Result<Value, ReadError>
    ensures { Reads value_of (spec.part (scope_of names) (spec.inner (scope_of names) levels) levels words.old) result words.new }
{
    if same_kind(words.peek(), Kind::LParen) {
        return in_parens(alloc, names, words, levels);
    }
    if same_kind(words.peek(), Kind::Name) {
        return named(alloc, names, words, levels);
    }
    Err(misplaced(words))
}

// ---- chains

/// What an operator of a product makes of what stands on both sides.
#[cycle(descent)]
#[tactic(auto, unfolding(crate::specs::Expressions::turn), using(crate::proofs::Answered::answered))]
fn next_factor(
    alloc: Global,
    names: Names,
    words: &mut CWords<'_>,
    levels: usize,
    left: Value,
    operator: Operator,
) -> Result<Value, ReadError>
    ensures { let scope = scope_of names in
        Reads value_of (spec.turn levels (spec.inner scope levels Part) (grammar.join (operator_of operator) (value_of left)) words.old) result words.new }
{
    open_level(words, levels)?;
    let place = words.place();
    words.take();
    let right = inner_part(alloc, names, words, levels)?;
    joins::join(alloc, operator, left, right, place)
}

#[cycle(descent)]
#[tactic(auto, using(crate::proofs::Turns::factors_stop, crate::proofs::Turns::factors_went, crate::proofs::Turns::chain_limit))]
fn more_factors(
    alloc: Global,
    names: Names,
    words: &mut CWords<'_>,
    levels: usize,
    mut left: Value,
) -> Result<Value, ReadError>
    ensures { let scope = scope_of names in
        Reads value_of (spec.more_factors scope (spec.inner scope levels) levels max_chain (value_of left) words.old) result words.new }
{
    for _turn in 0..MAX_CHAIN {
        let Some(operator) = joins::product_operator(words.peek()) else {
            return Ok(left);
        };
        let value = next_factor(alloc, names, words, levels, left, operator)?;
        left = value;
    }
    match joins::product_operator(words.peek()) {
        Some(_) => Err(refuse(Fault::TooDeep, words)),
        None => Ok(left),
    }
}

#[cycle(descent)]
#[tactic(auto, unfolding(crate::specs::Expressions::product))]
fn product(
    alloc: Global,
    names: Names,
    words: &mut CWords<'_>,
    levels: usize,
) -> Result<Value, ReadError>
    ensures { Reads value_of (spec.product (scope_of names) (spec.inner (scope_of names) levels) levels words.old) result words.new }
{
    let first = part(alloc, names, words, levels)?;
    more_factors(alloc, names, words, levels, first)
}

/// What a sign makes of what stands on both sides.
#[cycle(descent)]
#[tactic(auto, unfolding(crate::specs::Expressions::turn), using(crate::proofs::Answered::answered))]
fn next_summand(
    alloc: Global,
    names: Names,
    words: &mut CWords<'_>,
    levels: usize,
    left: Value,
    operator: Operator,
) -> Result<Value, ReadError>
    ensures { let scope = scope_of names in
        Reads value_of (spec.turn levels (spec.inner scope levels Product) (grammar.join (operator_of operator) (value_of left)) words.old) result words.new }
{
    open_level(words, levels)?;
    let place = words.place();
    words.take();
    let right = inner_product(alloc, names, words, levels)?;
    joins::join(alloc, operator, left, right, place)
}

#[cycle(descent)]
#[tactic(auto, using(crate::proofs::Turns::summands_stop, crate::proofs::Turns::summands_went, crate::proofs::Turns::chain_limit))]
fn more_summands(
    alloc: Global,
    names: Names,
    words: &mut CWords<'_>,
    levels: usize,
    mut left: Value,
) -> Result<Value, ReadError>
    ensures { let scope = scope_of names in
        Reads value_of (spec.more_summands scope (spec.inner scope levels) levels max_chain (value_of left) words.old) result words.new }
{
    for _turn in 0..MAX_CHAIN {
        let Some(operator) = joins::sum_operator(words.peek()) else {
            return Ok(left);
        };
        let value = next_summand(alloc, names, words, levels, left, operator)?;
        left = value;
    }
    match joins::sum_operator(words.peek()) {
        Some(_) => Err(refuse(Fault::TooDeep, words)),
        None => Ok(left),
    }
}

#[cycle(descent)]
#[tactic(auto, unfolding(crate::specs::Expressions::sum))]
fn sum(
    alloc: Global,
    names: Names,
    words: &mut CWords<'_>,
    levels: usize,
) -> Result<Value, ReadError>
    ensures { Reads value_of (spec.sum (scope_of names) (spec.inner (scope_of names) levels) levels words.old) result words.new }
{
    let first = product(alloc, names, words, levels)?;
    more_summands(alloc, names, words, levels, first)
}

/// The comparison by a relation of what stands on both sides.
#[cycle(descent)]
#[tactic(auto, unfolding(crate::specs::Expressions::turn), using(crate::proofs::Answered::answered))]
fn next_comparison(
    alloc: Global,
    names: Names,
    words: &mut CWords<'_>,
    levels: usize,
    left: Value,
    rel: Rel,
) -> Result<Value, ReadError>
    ensures { let scope = scope_of names in
        Reads value_of (spec.turn 1 (spec.sum scope (spec.inner scope levels) levels) (grammar.compared rel (value_of left)) words.old) result words.new }
{
    let place = words.place();
    words.take();
    let right = sum(alloc, names, words, levels)?;
    joins::compare(alloc, rel, left, right, place)
}

/// A comparison, where one comes. No second one may follow.
#[cycle(descent)]
#[tactic(auto, using(crate::proofs::Turns::comparison_none, crate::proofs::Turns::comparison_went, crate::proofs::Turns::comparison_two))]
fn more_comparisons(
    alloc: Global,
    names: Names,
    words: &mut CWords<'_>,
    levels: usize,
    left: Value,
) -> Result<Value, ReadError>
    ensures { let scope = scope_of names in
        Reads value_of (spec.more_comparisons scope (spec.inner scope levels) levels 1 (value_of left) words.old) result words.new }
{
    let Some(rel) = joins::relation(words.peek()) else {
        return Ok(left);
    };
    let value = next_comparison(alloc, names, words, levels, left, rel)?;
    match joins::relation(words.peek()) {
        Some(_) => Err(refuse(Fault::TooDeep, words)),
        None => Ok(value),
    }
}

#[cycle(descent)]
#[tactic(auto, unfolding(crate::specs::Expressions::relation))]
fn relation(
    alloc: Global,
    names: Names,
    words: &mut CWords<'_>,
    levels: usize,
) -> Result<Value, ReadError>
    ensures { Reads value_of (spec.relation (scope_of names) (spec.inner (scope_of names) levels) levels words.old) result words.new }
{
    let first = sum(alloc, names, words, levels)?;
    more_comparisons(alloc, names, words, levels, first)
}

/// Tests with the relation behind `&&`.
#[cycle(descent)]
#[tactic(auto, unfolding(crate::specs::Expressions::one_more, reader_laws::specs::Steps::a_word), using(crate::proofs::Answered::answered))]
fn one_more(
    alloc: Global,
    names: Names,
    words: &mut CWords<'_>,
    levels: usize,
    left: Value,
) -> Result<Value, ReadError>
    ensures { let scope = scope_of names in
        Reads value_of (spec.one_more scope (spec.inner scope levels) levels (value_of left) words.old) result words.new }
{
    let place = words.place();
    sign(words, Kind::And)?;
    let right = relation(alloc, names, words, levels)?;
    joins::both(left, right, place)
}

/// More tests, as long as `&&` comes.
#[cycle(descent)]
#[tactic(auto, using(crate::proofs::Tests::tests_stop, crate::proofs::Tests::tests_went))]
fn more_tests(
    alloc: Global,
    names: Names,
    words: &mut CWords<'_>,
    levels: usize,
    mut left: Value,
) -> Result<Value, ReadError>
    ensures { let scope = scope_of names in
        Reads value_of (spec.more_tests scope (spec.inner scope levels) levels (value_of left) words.old) result words.new }
{
    while same_kind(words.peek(), Kind::And) {
        let value = one_more(alloc, names, words, levels, left)?;
        left = value;
    }
    Ok(left)
}

#[cycle(descent)]
#[tactic(auto, unfolding(crate::specs::Expressions::tests))]
fn tests(
    alloc: Global,
    names: Names,
    words: &mut CWords<'_>,
    levels: usize,
) -> Result<Value, ReadError>
    ensures { Reads value_of (spec.tests (scope_of names) (spec.inner (scope_of names) levels) levels words.old) result words.new }
{
    let first = relation(alloc, names, words, levels)?;
    more_tests(alloc, names, words, levels, first)
}

/// A side of a choice behind a colon.
#[cycle(descent)]
#[tactic(auto, unfolding(crate::specs::Expressions::second_side))]
fn second_side(
    alloc: Global,
    names: Names,
    words: &mut CWords<'_>,
    levels: usize,
) -> Result<Value, ReadError>
    ensures { Reads value_of (spec.second_side (scope_of names) (spec.inner (scope_of names) levels) levels words.old) result words.new }
{
    expect(words, Kind::Colon, b":")?;
    inner_choice(alloc, names, words, levels)
}

/// A choice by tests, behind its `?`, which stands at this place.
#[cycle(descent)]
#[tactic(auto, unfolding(crate::specs::Expressions::sides), using(crate::proofs::Answered::answered))]
fn chosen(
    alloc: Global,
    names: Names,
    words: &mut CWords<'_>,
    levels: usize,
    left: Value,
    place: u64,
) -> Result<Value, ReadError>
    ensures { let scope = scope_of names in
        Reads value_of (spec.chosen_at scope (spec.inner scope levels) levels place (value_of left) words.old) result words.new }
{
    let first = inner_choice(alloc, names, words, levels)?;
    let other = second_side(alloc, names, words, levels)?;
    joins::choose(alloc, left, first, other, place)
}

/// A choice by tests, where `?` comes.
#[cycle(descent)]
#[tactic(auto, unfolding(crate::specs::Expressions::if_choice, crate::specs::Expressions::turn))]
fn if_choice(
    alloc: Global,
    names: Names,
    words: &mut CWords<'_>,
    levels: usize,
    left: Value,
) -> Result<Value, ReadError>
    ensures { let scope = scope_of names in
        Reads value_of (spec.if_choice scope (spec.inner scope levels) levels (value_of left) words.old) result words.new }
{
    if !joins::is_choice(words.peek()) {
        return Ok(left);
    }
    open_level(words, levels)?;
    let place = words.place();
    words.take();
    chosen(alloc, names, words, levels, left, place)
}

/// A whole expression, where so many levels may be opened.
#[cycle(descent)]
#[tactic(auto, unfolding(crate::specs::Expressions::choice))]
pub fn choice(
    alloc: Global,
    names: Names,
    words: &mut CWords<'_>,
    levels: usize,
) -> Result<Value, ReadError>
    ensures { Reads value_of (spec.choice (scope_of names) (spec.inner (scope_of names) levels) levels words.old) result words.new }
{
    let first = tests(alloc, names, words, levels)?;
    if_choice(alloc, names, words, levels, first)
}
