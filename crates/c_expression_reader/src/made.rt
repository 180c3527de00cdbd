//! Expressions that are made of smaller ones.

ghost use Rattle.std.specs.Prelude.{◌≡◌, ◌<◌, ◌^◌, MatchResult};
ghost use Rattle.reader_laws.specs.declared.fault.ReadError.TheVariants.{Memory};
ghost use Rattle.c_text.specs.Expression as grammar;
ghost use Rattle.c_text.specs.Expression.{OfIndex, OfWord};
ghost use Rattle.c_expression_reader.specs.Values.{value_of};

use crate::value::Value;
use loop_lang::{Buf, Iexp, Wexp};
use reader_laws::ReadError;
use sqlite_items::Boxed;
use std::alloc::Global;

pub fn index(alloc: Global, index: Iexp) -> Result<Value, ReadError>
    ensures { MatchResult result (λ v. value_of v ≡ OfIndex index) (λ e. e ≡ Memory) }
{
    match Boxed::new(alloc, index) {
        Ok(index) => Ok(Value::Index(index)),
        Err(_) => Err(ReadError::Memory),
    }
}

pub fn word(alloc: Global, word: Wexp) -> Result<Value, ReadError>
    ensures { MatchResult result (λ v. value_of v ≡ OfWord word) (λ e. e ≡ Memory) }
{
    match Boxed::new(alloc, word) {
        Ok(word) => Ok(Value::Word(word)),
        Err(_) => Err(ReadError::Memory),
    }
}

pub fn index_literal(alloc: Global, number: u64) -> Result<Value, ReadError>
    requires { number < 2 ^ 63 }
    ensures { MatchResult result (λ v. value_of v ≡ grammar.index_literal number) (λ e. e ≡ Memory) }
{
    index(alloc, Iexp::Lit(number as i64))
}

pub fn word_literal(alloc: Global, number: u64) -> Result<Value, ReadError>
    ensures { MatchResult result (λ v. value_of v ≡ grammar.word_literal number) (λ e. e ≡ Memory) }
{
    word(alloc, Wexp::Lit(number))
}

pub fn size(alloc: Global, number: u32) -> Result<Value, ReadError>
    ensures { MatchResult result (λ v. value_of v ≡ grammar.size_value number) (λ e. e ≡ Memory) }
{
    index(alloc, Iexp::Size(number))
}

pub fn loop_variable(alloc: Global, number: u32) -> Result<Value, ReadError>
    ensures { MatchResult result (λ v. value_of v ≡ grammar.loop_value number) (λ e. e ≡ Memory) }
{
    index(alloc, Iexp::Loop(number))
}

pub fn load(alloc: Global, buffer: Buf, place: Boxed<Iexp>) -> Result<Value, ReadError>
    ensures { MatchResult result (λ v. value_of v ≡ grammar.load_value (buffer, place)) (λ e. e ≡ Memory) }
{
    word(alloc, Wexp::Load(buffer, place.into_inner()))
}

#[tactic(auto, using(crate::proofs::KindLaws::index_larger_is))]
pub fn larger(alloc: Global, a: Boxed<Iexp>, b: Boxed<Iexp>) -> Result<Value, ReadError>
    ensures { MatchResult result (λ v. value_of v ≡ grammar.larger_value (a, b)) (λ e. e ≡ Memory) }
{
    index(alloc, Iexp::Larger(a, b))
}

pub fn converted(alloc: Global, a: Boxed<Iexp>) -> Result<Value, ReadError>
    ensures { MatchResult result (λ v. value_of v ≡ grammar.converted_value a) (λ e. e ≡ Memory) }
{
    word(alloc, Wexp::OfIndex(a.into_inner()))
}
