//! What operators make of their operands.

ghost use Rattle.std.specs.Prelude.{◌≡◌, ◌++◌, [], ◌∷◌, if◌then◌else◌, Some, None, MatchOption, MatchResult};
ghost use Rattle.reader_laws.specs.Steps.{Gives};
ghost use Rattle.c_text.specs.Expression as grammar;
ghost use Rattle.reader_laws.specs.declared.fault.ReadError.TheVariants.{Memory, Refused};
ghost use Rattle.c_text.specs.Expression.{OfIndex, OfWord, OfTests, WrongKind};
ghost use Rattle.c_read.specs.Expressions.{as_index, as_word, as_tests};
ghost use Rattle.c_expression_reader.specs.Values.{divisor_of, operator_of, placed, value_of};

use crate::made;
use crate::value::{Operator, Value};
use affine_index::Rel;
use loop_lang::{Iexp, Test, Wexp};
use reader_laws::{Fault, ReadError};
use sqlite_items::{Boxed, Items};
use std::alloc::Global;
use text_tokens::Kind;

/// The operator of a sum.
pub fn sum_operator(kind: Kind) -> Option<Operator>
    ensures { MatchOption result (grammar.sum_operator kind ≡ None) (λ o. grammar.sum_operator kind ≡ Some (operator_of o)) }
{
    match kind {
        Kind::Plus => Some(Operator::Plus),
        Kind::Minus => Some(Operator::Minus),
        _ => None,
    }
}

/// The operator of a product.
pub fn product_operator(kind: Kind) -> Option<Operator>
    ensures { MatchOption result (grammar.product_operator kind ≡ None) (λ o. grammar.product_operator kind ≡ Some (operator_of o)) }
{
    match kind {
        Kind::Star => Some(Operator::Times),
        Kind::Slash => Some(Operator::Over),
        Kind::Percent => Some(Operator::Modulo),
        _ => None,
    }
}

/// The relation of a comparison.
pub fn relation(kind: Kind) -> Option<Rel>
    ensures { result ≡ grammar.relation kind }
{
    match kind {
        Kind::Less => Some(Rel::Lt),
        Kind::LessEqual => Some(Rel::Le),
        Kind::Greater => Some(Rel::Gt),
        Kind::GreaterEqual => Some(Rel::Ge),
        Kind::Equal => Some(Rel::Eq),
        _ => None,
    }
}

/// Whether a choice comes.
pub fn is_choice(kind: Kind) -> bool
    ensures { grammar.choice_sign kind ≡ (if result then Some tt else None) }
{
    matches!(kind, Kind::Dot)
}

/// The fault of a wrong kind at this place.
fn wrong(place: u64) -> ReadError
    ensures { result ≡ Refused WrongKind place }
{
    ReadError::Refused(Fault::NotAffine, place)
}

/// The literal above 0 that divides.
#[tactic(auto, using(crate::proofs::KindLaws::divisor_none, crate::proofs::KindLaws::divisor_some))]
fn divisor(index: &Iexp) -> Option<u64>
    ensures { result ≡ divisor_of index.now }
{
    match index {
        Iexp::Lit(n) => {
            if *n <= 0 {
                return None;
            }
            Some(*n as u64)
        }
        _ => None,
    }
}

#[tactic(auto, using(crate::proofs::KindLaws::over_some, crate::proofs::KindLaws::over_none, crate::proofs::KindLaws::index_quotient_is))]
fn quotient(
    alloc: Global,
    left: Boxed<Iexp>,
    right: Boxed<Iexp>,
    place: u64,
) -> Result<Value, ReadError>
    ensures { Gives value_of result (placed place (grammar.join grammar.Over (OfIndex left) (OfIndex right))) }
{
    match divisor(right.get()) {
        Some(by) => made::index(alloc, Iexp::Div(left, by)),
        None => Err(wrong(place)),
    }
}

#[tactic(auto, using(crate::proofs::KindLaws::modulo_some, crate::proofs::KindLaws::modulo_none, crate::proofs::KindLaws::index_remainder_is))]
fn remainder(
    alloc: Global,
    left: Boxed<Iexp>,
    right: Boxed<Iexp>,
    place: u64,
) -> Result<Value, ReadError>
    ensures { Gives value_of result (placed place (grammar.join grammar.Modulo (OfIndex left) (OfIndex right))) }
{
    match divisor(right.get()) {
        Some(by) => made::index(alloc, Iexp::Rem(left, by)),
        None => Err(wrong(place)),
    }
}

#[tactic(auto, using(crate::proofs::KindLaws::index_sum_is, crate::proofs::KindLaws::index_difference_is, crate::proofs::KindLaws::index_product_is))]
fn indices(
    alloc: Global,
    operator: Operator,
    left: Boxed<Iexp>,
    right: Boxed<Iexp>,
    place: u64,
) -> Result<Value, ReadError>
    ensures { Gives value_of result (placed place (grammar.join (operator_of operator) (OfIndex left) (OfIndex right))) }
{
    match operator {
        Operator::Plus => made::index(alloc, Iexp::Add(left, right)),
        Operator::Minus => made::index(alloc, Iexp::Sub(left, right)),
        Operator::Times => made::index(alloc, Iexp::Mul(left, right)),
        Operator::Over => quotient(alloc, left, right, place),
        Operator::Modulo => remainder(alloc, left, right, place),
    }
}

#[tactic(auto, using(crate::proofs::KindLaws::word_sum_is, crate::proofs::KindLaws::word_difference_is, crate::proofs::KindLaws::word_product_is))]
fn words(
    alloc: Global,
    operator: Operator,
    left: Boxed<Wexp>,
    right: Boxed<Wexp>,
    place: u64,
) -> Result<Value, ReadError>
    ensures { Gives value_of result (placed place (grammar.join (operator_of operator) (OfWord left) (OfWord right))) }
{
    match operator {
        Operator::Plus => made::word(alloc, Wexp::Add(left, right)),
        Operator::Minus => made::word(alloc, Wexp::Sub(left, right)),
        Operator::Times => made::word(alloc, Wexp::Mul(left, right)),
        Operator::Over => Err(wrong(place)),
        Operator::Modulo => Err(wrong(place)),
    }
}

#[tactic(auto, using(crate::proofs::KindLaws::index_word, crate::proofs::KindLaws::index_tests))]
fn index_with(
    alloc: Global,
    operator: Operator,
    left: Boxed<Iexp>,
    right: Value,
    place: u64,
) -> Result<Value, ReadError>
    ensures { Gives value_of result (placed place (grammar.join (operator_of operator) (OfIndex left) (value_of right))) }
{
    match right {
        Value::Index(right) => indices(alloc, operator, left, right, place),
        Value::Word(_) => Err(wrong(place)),
        Value::Tests(_) => Err(wrong(place)),
    }
}

#[tactic(auto, using(crate::proofs::KindLaws::word_index, crate::proofs::KindLaws::word_tests))]
fn word_with(
    alloc: Global,
    operator: Operator,
    left: Boxed<Wexp>,
    right: Value,
    place: u64,
) -> Result<Value, ReadError>
    ensures { Gives value_of result (placed place (grammar.join (operator_of operator) (OfWord left) (value_of right))) }
{
    match right {
        Value::Index(_) => Err(wrong(place)),
        Value::Word(right) => words(alloc, operator, left, right, place),
        Value::Tests(_) => Err(wrong(place)),
    }
}

/// What an operator at this place makes of two values.
#[tactic(auto, using(crate::proofs::KindLaws::tests_any))]
pub fn join(
    alloc: Global,
    operator: Operator,
    left: Value,
    right: Value,
    place: u64,
) -> Result<Value, ReadError>
    ensures { Gives value_of result (placed place (grammar.join (operator_of operator) (value_of left) (value_of right))) }
{
    match left {
        Value::Index(left) => index_with(alloc, operator, left, right, place),
        Value::Word(left) => word_with(alloc, operator, left, right, place),
        Value::Tests(_) => Err(wrong(place)),
    }
}

fn comparison(
    alloc: Global,
    rel: Rel,
    left: Boxed<Iexp>,
    right: Boxed<Iexp>,
) -> Result<Value, ReadError>
    ensures { MatchResult result (λ v. value_of v ≡ OfTests (record { left = left; rel = rel; right = right } ∷ [])) (λ e. e ≡ Memory) }
{
    let mut tests = Items::new(alloc);
    match tests.push(Test {
        left: left.into_inner(),
        rel,
        right: right.into_inner(),
    }) {
        Ok(()) => Ok(Value::Tests(tests)),
        Err(_) => Err(ReadError::Memory),
    }
}

/// A comparison of two indices by the sign at this place.
pub fn compare(
    alloc: Global,
    rel: Rel,
    left: Value,
    right: Value,
    place: u64,
) -> Result<Value, ReadError>
    ensures { Gives value_of result (placed place (grammar.compared rel (value_of left) (value_of right))) }
{
    match left {
        Value::Index(left) => match right {
            Value::Index(right) => comparison(alloc, rel, left, right),
            _ => Err(wrong(place)),
        },
        _ => Err(wrong(place)),
    }
}

fn appended(mut left: Items<Test>, right: Items<Test>) -> Result<Value, ReadError>
    ensures { MatchResult result (λ v. value_of v ≡ OfTests (left ++ right)) (λ e. e ≡ Memory) }
{
    match left.append(right) {
        Ok(()) => Ok(Value::Tests(left)),
        Err(_) => Err(ReadError::Memory),
    }
}

/// Tests that the sign at this place joins.
pub fn both(left: Value, right: Value, place: u64) -> Result<Value, ReadError>
    ensures { Gives value_of result (placed place (grammar.joined (value_of left) (value_of right))) }
{
    match left {
        Value::Tests(left) => match right {
            Value::Tests(right) => appended(left, right),
            _ => Err(wrong(place)),
        },
        _ => Err(wrong(place)),
    }
}

#[tactic(auto, using(crate::proofs::KindLaws::word_choice_is))]
fn choice_of(
    alloc: Global,
    tests: Items<Test>,
    first: Value,
    second: Value,
    place: u64,
) -> Result<Value, ReadError>
    ensures { Gives value_of result (placed place (grammar.chosen (OfTests tests) (value_of first, value_of second))) }
{
    match first {
        Value::Word(first) => match second {
            Value::Word(second) => made::word(alloc, Wexp::Choose(tests, first, second)),
            _ => Err(wrong(place)),
        },
        _ => Err(wrong(place)),
    }
}

/// A choice of two words by tests, whose `?` stands at this place.
pub fn choose(
    alloc: Global,
    tests: Value,
    first: Value,
    second: Value,
    place: u64,
) -> Result<Value, ReadError>
    ensures { Gives value_of result (placed place (grammar.chosen (value_of tests) (value_of first, value_of second))) }
{
    match tests {
        Value::Tests(tests) => choice_of(alloc, tests, first, second, place),
        _ => Err(wrong(place)),
    }
}

/// The index that a whole expression is, which begins at this place.
pub fn as_index(value: Value, place: u64) -> Result<Boxed<Iexp>, ReadError>
    ensures { Gives (λ x. x) result (placed place (as_index (value_of value))) }
{
    match value {
        Value::Index(index) => Ok(index),
        _ => Err(wrong(place)),
    }
}

/// The word that a whole expression is, which begins at this place.
pub fn as_word(value: Value, place: u64) -> Result<Boxed<Wexp>, ReadError>
    ensures { Gives (λ x. x) result (placed place (as_word (value_of value))) }
{
    match value {
        Value::Word(word) => Ok(word),
        _ => Err(wrong(place)),
    }
}

/// The tests that a whole expression is, which begins at this place.
pub fn as_tests(value: Value, place: u64) -> Result<Items<Test>, ReadError>
    ensures { Gives (λ x. x) result (placed place (as_tests (value_of value))) }
{
    match value {
        Value::Tests(tests) => Ok(tests),
        _ => Err(wrong(place)),
    }
}
