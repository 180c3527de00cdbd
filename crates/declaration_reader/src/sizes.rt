//! The lines of sizes, assumes and the example.

ghost use Rattle.std.specs.Prelude.{◌≡◌, ◌≤◌, ◌∷◌, ◌++◌, [], length, IfOk};
ghost use Rattle.reader_laws.specs.Steps.{Reads};
ghost use Rattle.source_grammar.specs.ReadSource as spec;
ghost use Rattle.source_grammar.specs.Source.{size_names};
ghost use Rattle.term_reader.specs.Frames.{entries_of};
ghost use Rattle.declaration_reader.specs.Steps as steps;

use crate::words::{bound, declare, name_of, same_name};
use affine_index::{Cmp, Cond};
use reader_laws::{Fault, ReadError, expect_in, refuse};
use sqlite_items::Items;
use std::alloc::Global;
use term_reader::{NameSet, Names, Over, Scope, condition};
use term_tree::SizeDecl;
use text_tokens::{Kind, Tokens, same_kind};

/// More lines than a text has.
const MOST_LINES: usize = 9_223_372_036_854_775_808;

/// `NAME in NUM .. NUM ;`, where these names are declared before.
#[tactic(auto, unfolding(crate::specs::Steps::size_line))]
fn size_line<'a>(
    alloc: Global,
    names: &mut NameSet<'a>,
    tokens: &mut Tokens<'a>,
) -> Result<SizeDecl, ReadError>
    ensures reads { Reads (λ x. x) (steps.size_line names.old tokens.old) result tokens.new }
    ensures added { IfOk result (λ d. names.new ≡ names.old ++ d.name ∷ []) }
{
    let name = declare(names, tokens)?;
    expect_in(tokens, 1_000, Kind::In)?;
    let low = bound(tokens)?;
    expect_in(tokens, 1_000, Kind::DotDot)?;
    let high = bound(tokens)?;
    expect_in(tokens, 1_000, Kind::Semi)?;
    let name = name_of(alloc, name)?;
    Ok(SizeDecl { name, low, high })
}

/// The sizes, each after `size`.
#[tactic(auto, using(reader_laws::proofs::Repeated::stop, reader_laws::proofs::Repeated::fell, reader_laws::proofs::Repeated::full, crate::proofs::LineLaws::lines, crate::proofs::LineLaws::size_line_is))]
pub(crate) fn sizes<'a>(
    alloc: Global,
    names: &mut NameSet<'a>,
    tokens: &mut Tokens<'a>,
) -> Result<Items<SizeDecl>, ReadError>
    requires { names.old ≡ [] }
    ensures reads { Reads (λ x. x) (spec.sizes tokens.old) result tokens.new }
    ensures names { IfOk result (λ ds. names.new ≡ size_names ds) }
{
    let mut found = Items::new(alloc);
    for _turn in 0..MOST_LINES {
        if !same_kind(tokens.peek(), Kind::Size) {
            return Ok(found);
        }
        tokens.take();
        let size = size_line(alloc, names, tokens)?;
        found.push(size)?;
    }
    if same_kind(tokens.peek(), Kind::Size) {
        return Err(refuse(Fault::TooDeep, tokens));
    }
    Ok(found)
}

/// `CONDITION ;`.
#[tactic(auto, unfolding(crate::specs::Steps::assume))]
fn assume(alloc: Global, scope: &Scope<'_, '_>, tokens: &mut Tokens<'_>) -> Result<Cond, ReadError>
    ensures { Reads (λ x. x) (steps.assume (entries_of scope.now) tokens.old) result tokens.new }
{
    let names = Names {
        scope,
        over: Over::Sizes,
    };
    let condition = condition(alloc, &names, tokens, 1_000)?;
    match expect_in(tokens, 1_000, Kind::Semi) {
        Ok(()) => Ok(condition),
        Err(e) => Err(e),
    }
}

/// The comparisons of all assumes, each after `assume`.
#[tactic(auto, using(reader_laws::proofs::Repeated::stop, reader_laws::proofs::Repeated::fell, reader_laws::proofs::Repeated::full, crate::proofs::LineLaws::lines))]
pub(crate) fn assumes(
    alloc: Global,
    scope: &Scope<'_, '_>,
    tokens: &mut Tokens<'_>,
) -> Result<Items<Cmp>, ReadError>
    ensures { Reads (λ x. x) (steps.assumes (entries_of scope.now) tokens.old) result tokens.new }
{
    let mut found = Items::new(alloc);
    for _turn in 0..MOST_LINES {
        if !same_kind(tokens.peek(), Kind::Assume) {
            return Ok(found);
        }
        tokens.take();
        let condition = assume(alloc, scope, tokens)?;
        found.append(condition.all)?;
    }
    if same_kind(tokens.peek(), Kind::Assume) {
        return Err(refuse(Fault::TooDeep, tokens));
    }
    Ok(found)
}

/// `NAME = NUM` for this size.
#[tactic(auto, unfolding(source_grammar::specs::ReadSource::example_of))]
fn example_of(tokens: &mut Tokens<'_>, size: &SizeDecl) -> Result<u64, ReadError>
    ensures { Reads (λ x. x) (spec.example_of size.now tokens.old) result tokens.new }
{
    same_name(tokens, size.name.as_str())?;
    expect_in(tokens, 1_000, Kind::Assign)?;
    bound(tokens)
}

/// `, NAME = NUM` for each of these sizes, and `;`, after these numbers.
#[tactic(auto, unfolding(source_grammar::specs::ReadSource::more_examples))]
fn more_examples(
    tokens: &mut Tokens<'_>,
    mut sizes: &[SizeDecl],
    mut numbers: Items<u64>,
) -> Result<Items<u64>, ReadError>
    ensures { Reads (λ x. x) (spec.more_examples sizes.entry.now numbers tokens.old) result tokens.new }
{
    while let [first, rest @ ..] = sizes {
        expect_in(tokens, 1_000, Kind::Comma)?;
        let number = example_of(tokens, first)?;
        numbers.push(number)?;
        sizes = rest;
    }
    expect_in(tokens, 1_000, Kind::Semi)?;
    Ok(numbers)
}

/// The example of these sizes, which is there exactly where a size is.
#[tactic(auto, unfolding(source_grammar::specs::ReadSource::example))]
pub(crate) fn example(
    alloc: Global,
    sizes: &[SizeDecl],
    tokens: &mut Tokens<'_>,
) -> Result<Items<u64>, ReadError>
    ensures { Reads (λ x. x) (spec.example sizes.now tokens.old) result tokens.new }
{
    let mut numbers = Items::new(alloc);
    match sizes {
        [] => Ok(numbers),
        [first, rest @ ..] => {
            expect_in(tokens, 1_000, Kind::Example)?;
            let number = example_of(tokens, first)?;
            numbers.push(number)?;
            more_examples(tokens, rest, numbers)
        }
    }
}
