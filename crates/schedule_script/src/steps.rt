//! Reads paths, certificates, steps and final lines.

ghost use Rattle.std.specs.Prelude.{◌≤◌, [], IfOk};
ghost use Rattle.text_tokens.specs.declared.kind.Kind.TheVariants as k;
ghost use Rattle.reader_laws.specs.Chain.{repeated};
ghost use Rattle.reader_laws.specs.Steps.{Reads, a_word};
ghost use Rattle.schedule_script.specs.Steps as spec;
ghost use Rattle.schedule_script.specs.Words.{count_value, multiplier_value, most_items, with_last};

use crate::arguments::argument;
use crate::tree::{ArgTree, Step};
use crate::words::{MOST_ITEMS, count, name, name_of, number_in};
use linear_cert::{FinalLine, Line, Lines};
use reader_laws::{Fault, ReadError, expect, misplaced, refuse};
use sqlite_items::Items;
use std::alloc::Global;
use term_tree::Path;
use text_tokens::{Kind, Tokens, same_kind};

/// Child positions, each after a dot.
#[tactic(auto, using(reader_laws::proofs::Repeated::stop, reader_laws::proofs::Repeated::fell, reader_laws::proofs::Repeated::full, crate::proofs::Loops::items))]
fn positions(alloc: Global, tokens: &mut Tokens<'_>) -> Result<Items<u32>, ReadError>
    ensures { Reads (λ x. x) (repeated k.Dot with_last (λ _. a_word k.Number count_value) most_items [] tokens.old) result tokens.new }
{
    let mut found = Items::new(alloc);
    for _turn in 0..MOST_ITEMS {
        if !same_kind(tokens.peek(), Kind::Dot) {
            return Ok(found);
        }
        tokens.take();
        let position = count(tokens)?;
        found.push(position)?;
    }
    if same_kind(tokens.peek(), Kind::Dot) {
        return Err(refuse(Fault::TooDeep, tokens));
    }
    Ok(found)
}

#[tactic(auto, unfolding(crate::specs::Steps::path))]
fn path(alloc: Global, tokens: &mut Tokens<'_>) -> Result<Path, ReadError>
    ensures { Reads (λ x. x) (spec.path tokens.old) result tokens.new }
{
    let output = count(tokens)?;
    let steps = positions(alloc, tokens)?;
    Ok(Path { output, steps })
}

/// The size of a multiplier.
fn size(tokens: &mut Tokens<'_>) -> Result<u64, ReadError>
    ensures reads { Reads (λ x. x) (a_word k.Number multiplier_value tokens.old) result tokens.new }
    ensures range { IfOk result (λ n. n ≤ 2147483648) }
{
    number_in(tokens, 0, 2_147_483_648)
}

#[tactic(auto, unfolding(crate::specs::Steps::negative))]
fn negative(tokens: &mut Tokens<'_>) -> Result<i64, ReadError>
    ensures { Reads (λ x. x) (spec.negative tokens.old) result tokens.new }
{
    expect(tokens, Kind::Minus)?;
    let n = size(tokens)?;
    Ok(-(n as i64))
}

#[tactic(auto, unfolding(crate::specs::Steps::positive))]
fn positive(tokens: &mut Tokens<'_>) -> Result<i64, ReadError>
    ensures { Reads (λ x. x) (spec.positive tokens.old) result tokens.new }
{
    let n = size(tokens)?;
    Ok(n as i64)
}

#[tactic(auto, unfolding(crate::specs::Steps::multiplier))]
fn multiplier(tokens: &mut Tokens<'_>) -> Result<i64, ReadError>
    ensures { Reads (λ x. x) (spec.multiplier tokens.old) result tokens.new }
{
    match tokens.peek() {
        Kind::Number => positive(tokens),
        Kind::Minus => negative(tokens),
        _ => Err(misplaced(tokens)),
    }
}

/// `FACT : MULTIPLIER`.
#[tactic(auto, unfolding(crate::specs::Steps::line))]
fn line(tokens: &mut Tokens<'_>) -> Result<Line, ReadError>
    ensures { Reads (λ x. x) (spec.line tokens.old) result tokens.new }
{
    let fact = count(tokens)?;
    expect(tokens, Kind::Colon)?;
    let multiplier = multiplier(tokens)?;
    Ok(Line { fact, multiplier })
}

/// The lines that follow these, each after a comma.
#[tactic(auto, using(reader_laws::proofs::Repeated::stop, reader_laws::proofs::Repeated::fell, reader_laws::proofs::Repeated::full, crate::proofs::Loops::items))]
fn more_lines(tokens: &mut Tokens<'_>, mut found: Items<Line>) -> Result<Items<Line>, ReadError>
    ensures { Reads (λ x. x) (repeated k.Comma with_last (λ _. spec.line) most_items found tokens.old) result tokens.new }
{
    for _turn in 0..MOST_ITEMS {
        if !same_kind(tokens.peek(), Kind::Comma) {
            return Ok(found);
        }
        tokens.take();
        let next = line(tokens)?;
        found.push(next)?;
    }
    if same_kind(tokens.peek(), Kind::Comma) {
        return Err(refuse(Fault::TooDeep, tokens));
    }
    Ok(found)
}

/// Lines up to the brace.
#[tactic(auto, unfolding(crate::specs::Steps::some_lines))]
fn some_lines(alloc: Global, tokens: &mut Tokens<'_>) -> Result<Lines, ReadError>
    ensures { Reads (λ x. x) (spec.some_lines tokens.old) result tokens.new }
{
    let first = line(tokens)?;
    let mut found = Items::new(alloc);
    found.push(first)?;
    let found = more_lines(tokens, found)?;
    expect(tokens, Kind::RBrace)?;
    Ok(Lines::Given(found))
}

#[tactic(auto, unfolding(crate::specs::Steps::no_lines))]
fn no_lines(alloc: Global, tokens: &mut Tokens<'_>) -> Result<Lines, ReadError>
    ensures { Reads (λ x. x) (spec.no_lines tokens.old) result tokens.new }
{
    expect(tokens, Kind::RBrace)?;
    Ok(Lines::Given(Items::new(alloc)))
}

/// What follows `{`.
#[tactic(auto, unfolding(crate::specs::Steps::given))]
fn given(alloc: Global, tokens: &mut Tokens<'_>) -> Result<Lines, ReadError>
    ensures { Reads (λ x. x) (spec.given tokens.old) result tokens.new }
{
    match tokens.peek() {
        Kind::RBrace => no_lines(alloc, tokens),
        Kind::Number => some_lines(alloc, tokens),
        _ => Err(misplaced(tokens)),
    }
}

#[tactic(auto, unfolding(crate::specs::Steps::by_default))]
fn by_default(tokens: &mut Tokens<'_>) -> Result<Lines, ReadError>
    ensures { Reads (λ x. x) (spec.by_default tokens.old) result tokens.new }
{
    expect(tokens, Kind::Default)?;
    Ok(Lines::Default)
}

#[tactic(auto, unfolding(crate::specs::Steps::by_lines))]
fn by_lines(alloc: Global, tokens: &mut Tokens<'_>) -> Result<Lines, ReadError>
    ensures { Reads (λ x. x) (spec.by_lines tokens.old) result tokens.new }
{
    expect(tokens, Kind::LBrace)?;
    given(alloc, tokens)
}

/// What follows `by`.
#[tactic(auto, unfolding(crate::specs::Steps::certificate))]
fn certificate(alloc: Global, tokens: &mut Tokens<'_>) -> Result<Lines, ReadError>
    ensures { Reads (λ x. x) (spec.certificate tokens.old) result tokens.new }
{
    match tokens.peek() {
        Kind::Default => by_default(tokens),
        Kind::LBrace => by_lines(alloc, tokens),
        _ => Err(misplaced(tokens)),
    }
}

/// Certificates, each after `by`.
#[tactic(auto, using(reader_laws::proofs::Repeated::stop, reader_laws::proofs::Repeated::fell, reader_laws::proofs::Repeated::full, crate::proofs::Loops::items))]
fn certificates(alloc: Global, tokens: &mut Tokens<'_>) -> Result<Items<Lines>, ReadError>
    ensures { Reads (λ x. x) (spec.certificates tokens.old) result tokens.new }
{
    let mut found = Items::new(alloc);
    for _turn in 0..MOST_ITEMS {
        if !same_kind(tokens.peek(), Kind::By) {
            return Ok(found);
        }
        tokens.take();
        let next = certificate(alloc, tokens)?;
        found.push(next)?;
    }
    if same_kind(tokens.peek(), Kind::By) {
        return Err(refuse(Fault::TooDeep, tokens));
    }
    Ok(found)
}

/// The arguments that follow these, each after a comma.
#[tactic(auto, using(reader_laws::proofs::Repeated::stop, reader_laws::proofs::Repeated::fell, reader_laws::proofs::Repeated::full, crate::proofs::Loops::items))]
fn more_arguments(
    alloc: Global,
    tokens: &mut Tokens<'_>,
    mut found: Items<ArgTree>,
) -> Result<Items<ArgTree>, ReadError>
    ensures { Reads (λ x. x) (spec.more_arguments found tokens.old) result tokens.new }
{
    for _turn in 0..MOST_ITEMS {
        if !same_kind(tokens.peek(), Kind::Comma) {
            return Ok(found);
        }
        tokens.take();
        let next = argument(alloc, tokens, 999)?;
        found.push(next)?;
    }
    if same_kind(tokens.peek(), Kind::Comma) {
        return Err(refuse(Fault::TooDeep, tokens));
    }
    Ok(found)
}

/// Arguments up to the parenthesis.
#[tactic(auto, unfolding(crate::specs::Steps::arguments))]
fn arguments(alloc: Global, tokens: &mut Tokens<'_>) -> Result<Items<ArgTree>, ReadError>
    ensures { Reads (λ x. x) (spec.arguments tokens.old) result tokens.new }
{
    let first = argument(alloc, tokens, 999)?;
    let mut found = Items::new(alloc);
    found.push(first)?;
    let found = more_arguments(alloc, tokens, found)?;
    expect(tokens, Kind::RParen)?;
    Ok(found)
}

/// The arguments of a rule, where it has a list of them.
#[tactic(auto, using(crate::proofs::Parts::no_list))]
fn if_arguments(alloc: Global, tokens: &mut Tokens<'_>) -> Result<Items<ArgTree>, ReadError>
    ensures { Reads (λ x. x) (spec.if_arguments tokens.old) result tokens.new }
{
    if !same_kind(tokens.peek(), Kind::LParen) {
        return Ok(Items::new(alloc));
    }
    tokens.take();
    let found = arguments(alloc, tokens)?;
    if same_kind(tokens.peek(), Kind::LParen) {
        return Err(refuse(Fault::TooDeep, tokens));
    }
    Ok(found)
}

/// The rule of a step, with its arguments and certificates, at this place.
#[tactic(auto, unfolding(crate::specs::Steps::rule_at))]
fn rule_at(alloc: Global, tokens: &mut Tokens<'_>, path: Path) -> Result<Step, ReadError>
    ensures { Reads (λ x. x) (spec.rule_at path tokens.old) result tokens.new }
{
    let rule = name(tokens)?;
    let args = if_arguments(alloc, tokens)?;
    let lines = certificates(alloc, tokens)?;
    expect(tokens, Kind::Semi)?;
    let rule = name_of(alloc, rule)?;
    Ok(Step {
        path,
        rule,
        args,
        lines,
    })
}

/// What follows `at`.
#[tactic(auto, unfolding(crate::specs::Steps::step))]
pub(crate) fn step(alloc: Global, tokens: &mut Tokens<'_>) -> Result<Step, ReadError>
    ensures { Reads (λ x. x) (spec.step tokens.old) result tokens.new }
{
    let path = path(alloc, tokens)?;
    expect(tokens, Kind::Do)?;
    rule_at(alloc, tokens, path)
}

/// What follows `goal`.
#[tactic(auto, unfolding(crate::specs::Steps::final_line))]
pub(crate) fn final_line(alloc: Global, tokens: &mut Tokens<'_>) -> Result<FinalLine, ReadError>
    ensures { Reads (λ x. x) (spec.final_line tokens.old) result tokens.new }
{
    let goal = count(tokens)?;
    expect(tokens, Kind::By)?;
    let lines = certificate(alloc, tokens)?;
    expect(tokens, Kind::Semi)?;
    Ok(FinalLine { goal, lines })
}
