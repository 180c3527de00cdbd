//! Whole expressions, as statements and lengths have them.

ghost use Rattle.c_print.specs.declared.level.Level.TheVariants.{Choice};
ghost use Rattle.reader_laws.specs.Steps.{Reads};
ghost use Rattle.c_read.specs.Parts.{checked};
ghost use Rattle.c_read.specs.Expressions as reading;
ghost use Rattle.c_read.specs.Scopes.{scope_of};

use crate::expressions::{choice, in_brackets, inner_choice, inner_index};
use crate::joins;
use c_read::scope::Names;
use c_words::CWords;
use loop_lang::{Iexp, Test, Wexp};
use reader_laws::ReadError;
use sqlite_items::{Boxed, Items};
use std::alloc::Global;

/// An index expression one level further in, where so many levels are left.
#[tactic(auto, using(crate::proofs::Same::index_is, crate::proofs::Answered::reads_same))]
pub fn index_within(
    alloc: Global,
    names: Names,
    words: &mut CWords<'_>,
    levels: usize,
) -> Result<Boxed<Iexp>, ReadError>
    ensures { Reads (λ x. x) (checked reading.as_index (reading.inner (scope_of names) levels Choice) words.old) result words.new }
{
    inner_index(alloc, names, words, levels)
}

/// An index expression in brackets, which open a level.
#[tactic(auto, using(crate::proofs::Same::brackets_is, crate::proofs::Answered::reads_same))]
pub fn bracketed(
    alloc: Global,
    names: Names,
    words: &mut CWords<'_>,
    levels: usize,
) -> Result<Boxed<Iexp>, ReadError>
    ensures { let scope = scope_of names in
        Reads (λ x. x) (reading.in_brackets scope (reading.inner scope levels) levels words.old) result words.new }
{
    in_brackets(alloc, names, words, levels)
}

/// Tests one level further in, where so many levels are left.
#[tactic(auto, using(crate::proofs::Same::tests_is, crate::proofs::Answered::answered))]
pub fn tests_within(
    alloc: Global,
    names: Names,
    words: &mut CWords<'_>,
    levels: usize,
) -> Result<Items<Test>, ReadError>
    ensures { Reads (λ x. x) (checked reading.as_tests (reading.inner (scope_of names) levels Choice) words.old) result words.new }
{
    let place = words.place();
    let value = inner_choice(alloc, names, words, levels)?;
    joins::as_tests(value, place)
}

/// A word, where so many levels are left.
#[tactic(auto, using(crate::proofs::Same::word_is, crate::proofs::Answered::answered))]
pub fn word_at(
    alloc: Global,
    names: Names,
    words: &mut CWords<'_>,
    levels: usize,
) -> Result<Boxed<Wexp>, ReadError>
    ensures { Reads (λ x. x) (checked reading.as_word (reading.expression (scope_of names) levels Choice) words.old) result words.new }
{
    let place = words.place();
    let value = choice(alloc, names, words, levels)?;
    joins::as_word(value, place)
}
