//! Reads terms.

ghost use Rattle.std.specs.Prelude.{◌≡◌, ◌<◌, ◌-◌};
ghost use Rattle.reader_laws.specs.Steps.{Reads};
ghost use Rattle.source_grammar.specs.ReadTerms as spec;
ghost use Rattle.source_grammar.specs.Terms.{max_chain, Whole};
ghost use Rattle.term_reader.specs.Forms as forms;
ghost use Rattle.term_reader.specs.Frames.{entries_of};
ghost use Rattle.term_reader.specs.Steps.{closed, literal, more_brackets, more_factors, more_terms, next_bracket, next_factor, next_term, variable};

use crate::conditions::condition;
use crate::forms::{
    Sign, Sized, Turned, boxed, concat_term, guard_term, index_term, let_term, mul_term, sign_of,
    signed_term, sized_kind, sized_term, split_term, turned_kind, turned_term,
};
use crate::index;
use crate::names::{Names, Over};
use crate::scope::Scope;
use crate::words::{bound_name, tensor, tile, word};
use affine_index::Aff;
use reader_laws::{Fault, ReadError, expect_in, misplaced_in, open, refuse};
use source_grammar::Sort;
use sqlite_items::Boxed;
use std::alloc::Global;
use term_tree::Term;
use text_tokens::{Kind, Tokens, same_kind};

/// How many operators a chain may have.
const MAX_CHAIN: usize = 1_000;

/// An extent or an amount: a form over sizes.
fn extent(
    alloc: Global,
    scope: &Scope<'_, '_>,
    tokens: &mut Tokens<'_>,
    levels: usize,
) -> Result<Aff, ReadError>
    requires { 0 < levels }
    ensures { Reads (λ x. x) (spec.extent (spec.inner levels) levels (entries_of scope.now) tokens.old) result tokens.new }
{
    let names = Names {
        scope: &*scope,
        over: Over::Sizes,
    };
    index::sum(alloc, &names, tokens, levels - 1)
}

/// `)`, behind this term.
fn closed(
    tokens: &mut Tokens<'_>,
    levels: usize,
    term: Boxed<Term>,
) -> Result<Boxed<Term>, ReadError>
    ensures { Reads (λ x. x) (closed levels term tokens.old) result tokens.new }
{
    match expect_in(tokens, levels, Kind::RParen) {
        Ok(()) => Ok(term),
        Err(e) => Err(e),
    }
}

// ---- forms that bind or guard

/// `gen` or `sum`, and `NAME < EXTENT . TERM`.
#[cycle(descent)]
#[tactic(auto, unfolding(source_grammar::specs::ReadTerms::loop_of), using(crate::proofs::TermCode::inner_whole))]
fn loop_of<'a>(
    alloc: Global,
    scope: &Scope<'_, 'a>,
    tokens: &mut Tokens<'a>,
    levels: usize,
    form: Sized,
) -> Result<Boxed<Term>, ReadError>
    ensures { Reads (λ x. x) (spec.loop_of (spec.inner levels) levels (entries_of scope.now) (forms.sized_kind form) (forms.sized_term form) tokens.old) result tokens.new }
{
    open(tokens, levels, sized_kind(form))?;
    let name = bound_name(tokens, levels - 1)?;
    expect_in(tokens, levels - 1, Kind::Less)?;
    let extent = extent(alloc, scope, tokens, levels)?;
    expect_in(tokens, levels - 1, Kind::Dot)?;
    let inner = Scope::Local(name, Sort::OfIndex, &*scope);
    let body = term(alloc, &inner, tokens, levels - 1)?;
    boxed(alloc, sized_term(form, extent, body))
}

/// `guard CONDITION . TERM`.
#[cycle(descent)]
#[tactic(auto, unfolding(source_grammar::specs::ReadTerms::guarded), using(crate::proofs::TermCode::inner_whole))]
fn guarded<'a>(
    alloc: Global,
    scope: &Scope<'_, 'a>,
    tokens: &mut Tokens<'a>,
    levels: usize,
) -> Result<Boxed<Term>, ReadError>
    ensures { Reads (λ x. x) (spec.guarded (spec.inner levels) levels (entries_of scope.now) tokens.old) result tokens.new }
{
    open(tokens, levels, Kind::Guard)?;
    let names = Names {
        scope: &*scope,
        over: Over::Indices,
    };
    let condition = condition(alloc, &names, tokens, levels - 1)?;
    expect_in(tokens, levels - 1, Kind::Dot)?;
    let body = term(alloc, scope, tokens, levels - 1)?;
    boxed(alloc, guard_term(condition, body))
}

/// `let NAME = TERM in TERM`.
#[cycle(descent)]
#[tactic(auto, unfolding(source_grammar::specs::ReadTerms::bound), using(crate::proofs::TermCode::inner_whole))]
fn bound<'a>(
    alloc: Global,
    scope: &Scope<'_, 'a>,
    tokens: &mut Tokens<'a>,
    levels: usize,
) -> Result<Boxed<Term>, ReadError>
    ensures { Reads (λ x. x) (spec.bound (spec.inner levels) levels (entries_of scope.now) tokens.old) result tokens.new }
{
    open(tokens, levels, Kind::Let)?;
    let name = bound_name(tokens, levels - 1)?;
    expect_in(tokens, levels - 1, Kind::Assign)?;
    let definition = term(alloc, scope, tokens, levels - 1)?;
    expect_in(tokens, levels - 1, Kind::In)?;
    let inner = Scope::Local(name, Sort::OfTensor, &*scope);
    let body = term(alloc, &inner, tokens, levels - 1)?;
    boxed(alloc, let_term(definition, body))
}

// ---- what stands alone

/// `( TERM )`.
#[cycle(descent)]
#[tactic(auto, using(crate::proofs::TermCode::inner_whole))]
fn in_parens<'a>(
    alloc: Global,
    scope: &Scope<'_, 'a>,
    tokens: &mut Tokens<'a>,
    levels: usize,
) -> Result<Boxed<Term>, ReadError>
    ensures { Reads (λ x. x) (spec.in_parens (spec.inner levels) levels (entries_of scope.now) (spec.inner levels Whole (entries_of scope.now)) tokens.old) result tokens.new }
{
    open(tokens, levels, Kind::LParen)?;
    let inner = term(alloc, scope, tokens, levels - 1)?;
    closed(tokens, levels - 1, inner)
}

/// `flatten` or `transpose`, and `( TERM )`.
#[cycle(descent)]
#[tactic(auto, unfolding(source_grammar::specs::ReadTerms::of_one), using(crate::proofs::TermCode::inner_whole))]
fn of_one<'a>(
    alloc: Global,
    scope: &Scope<'_, 'a>,
    tokens: &mut Tokens<'a>,
    levels: usize,
    form: Turned,
) -> Result<Boxed<Term>, ReadError>
    ensures { Reads (λ x. x) (spec.of_one (spec.inner levels) levels (entries_of scope.now) (forms.turned_kind form) (forms.turned_term form) tokens.old) result tokens.new }
{
    expect_in(tokens, levels, turned_kind(form))?;
    open(tokens, levels, Kind::LParen)?;
    let inner = term(alloc, scope, tokens, levels - 1)?;
    let whole = boxed(alloc, turned_term(form, inner))?;
    closed(tokens, levels - 1, whole)
}

/// `concat ( TERM , TERM )`.
#[cycle(descent)]
#[tactic(auto, unfolding(source_grammar::specs::ReadTerms::joint), using(crate::proofs::TermCode::inner_whole))]
fn joint<'a>(
    alloc: Global,
    scope: &Scope<'_, 'a>,
    tokens: &mut Tokens<'a>,
    levels: usize,
) -> Result<Boxed<Term>, ReadError>
    ensures { Reads (λ x. x) (spec.joint (spec.inner levels) levels (entries_of scope.now) tokens.old) result tokens.new }
{
    expect_in(tokens, levels, Kind::Concat)?;
    open(tokens, levels, Kind::LParen)?;
    let first = term(alloc, scope, tokens, levels - 1)?;
    expect_in(tokens, levels - 1, Kind::Comma)?;
    let second = term(alloc, scope, tokens, levels - 1)?;
    let whole = boxed(alloc, concat_term(first, second))?;
    closed(tokens, levels - 1, whole)
}

/// `split ( NUMBER , TERM )`.
#[cycle(descent)]
#[tactic(auto, unfolding(source_grammar::specs::ReadTerms::cut), using(crate::proofs::TermCode::inner_whole))]
fn cut<'a>(
    alloc: Global,
    scope: &Scope<'_, 'a>,
    tokens: &mut Tokens<'a>,
    levels: usize,
) -> Result<Boxed<Term>, ReadError>
    ensures { Reads (λ x. x) (spec.cut (spec.inner levels) levels (entries_of scope.now) tokens.old) result tokens.new }
{
    expect_in(tokens, levels, Kind::Split)?;
    open(tokens, levels, Kind::LParen)?;
    let rows = tile(tokens, levels - 1)?;
    expect_in(tokens, levels - 1, Kind::Comma)?;
    let inner = term(alloc, scope, tokens, levels - 1)?;
    let whole = boxed(alloc, split_term(rows, inner))?;
    closed(tokens, levels - 1, whole)
}

/// One of the trims and pads, and `( AMOUNT , TERM )`.
#[cycle(descent)]
#[tactic(auto, unfolding(source_grammar::specs::ReadTerms::trimmed), using(crate::proofs::TermCode::inner_whole))]
fn trimmed<'a>(
    alloc: Global,
    scope: &Scope<'_, 'a>,
    tokens: &mut Tokens<'a>,
    levels: usize,
    form: Sized,
) -> Result<Boxed<Term>, ReadError>
    ensures { Reads (λ x. x) (spec.trimmed (spec.inner levels) levels (entries_of scope.now) (forms.sized_kind form) (forms.sized_term form) tokens.old) result tokens.new }
{
    expect_in(tokens, levels, sized_kind(form))?;
    open(tokens, levels, Kind::LParen)?;
    let amount = extent(alloc, scope, tokens, levels)?;
    expect_in(tokens, levels - 1, Kind::Comma)?;
    let inner = term(alloc, scope, tokens, levels - 1)?;
    let whole = boxed(alloc, sized_term(form, amount, inner))?;
    closed(tokens, levels - 1, whole)
}

/// `word ( INDEX )`.
#[tactic(auto, unfolding(source_grammar::specs::ReadTerms::word_form))]
fn word_form(
    alloc: Global,
    scope: &Scope<'_, '_>,
    tokens: &mut Tokens<'_>,
    levels: usize,
) -> Result<Boxed<Term>, ReadError>
    ensures { Reads (λ x. x) (spec.word_form (spec.inner levels) levels (entries_of scope.now) tokens.old) result tokens.new }
{
    expect_in(tokens, levels, Kind::Word)?;
    open(tokens, levels, Kind::LParen)?;
    let names = Names {
        scope: &*scope,
        over: Over::Indices,
    };
    let index = index::sum(alloc, &names, tokens, levels - 1)?;
    let whole = boxed(alloc, Term::WordOf(index))?;
    closed(tokens, levels - 1, whole)
}

fn literal(alloc: Global, tokens: &mut Tokens<'_>, levels: usize) -> Result<Boxed<Term>, ReadError>
    ensures { Reads (λ x. x) (literal levels tokens.old) result tokens.new }
{
    let word = word(tokens, levels)?;
    boxed(alloc, Term::Lit(word))
}

fn variable(
    alloc: Global,
    scope: &Scope<'_, '_>,
    tokens: &mut Tokens<'_>,
    levels: usize,
) -> Result<Boxed<Term>, ReadError>
    ensures { Reads (λ x. x) (variable (entries_of scope.now) levels tokens.old) result tokens.new }
{
    let number = tensor(scope, tokens, levels)?;
    boxed(alloc, Term::TVar(number))
}

#[cycle(descent)]
#[tactic(auto, unfolding(source_grammar::specs::ReadTerms::primary))]
fn primary<'a>(
    alloc: Global,
    scope: &Scope<'_, 'a>,
    tokens: &mut Tokens<'a>,
    levels: usize,
) -> Result<Boxed<Term>, ReadError>
    ensures { Reads (λ x. x) (spec.primary (spec.inner levels) levels (entries_of scope.now) tokens.old) result tokens.new }
{
    match tokens.peek() {
        Kind::Number => literal(alloc, tokens, levels),
        Kind::Name => variable(alloc, scope, tokens, levels),
        Kind::LParen => in_parens(alloc, scope, tokens, levels),
        Kind::Flatten => of_one(alloc, scope, tokens, levels, Turned::Flatten),
        Kind::Transpose => of_one(alloc, scope, tokens, levels, Turned::Transpose),
        Kind::Concat => joint(alloc, scope, tokens, levels),
        Kind::Split => cut(alloc, scope, tokens, levels),
        Kind::TruncL => trimmed(alloc, scope, tokens, levels, Sized::TruncL),
        Kind::TruncR => trimmed(alloc, scope, tokens, levels, Sized::TruncR),
        Kind::PadL => trimmed(alloc, scope, tokens, levels, Sized::PadL),
        Kind::PadR => trimmed(alloc, scope, tokens, levels, Sized::PadR),
        Kind::Word => word_form(alloc, scope, tokens, levels),
        _ => Err(misplaced_in(tokens, levels)),
    }
}

// ---- chains

/// `INDEX ]`, behind this term and `[`, where so many levels are left.
#[tactic(auto, unfolding(crate::specs::Steps::next_bracket))]
fn next_bracket(
    alloc: Global,
    scope: &Scope<'_, '_>,
    tokens: &mut Tokens<'_>,
    levels: usize,
    left: Boxed<Term>,
) -> Result<Boxed<Term>, ReadError>
    ensures { Reads (λ x. x) (next_bracket (entries_of scope.now) levels left tokens.old) result tokens.new }
{
    let names = Names {
        scope: &*scope,
        over: Over::Indices,
    };
    let index = index::sum(alloc, &names, tokens, levels)?;
    expect_in(tokens, levels, Kind::RBracket)?;
    boxed(alloc, index_term(left, index))
}

/// Pairs of brackets behind this term.
#[tactic(auto, using(crate::proofs::TermCode::brackets_stop, crate::proofs::TermCode::brackets_went, crate::proofs::TermCode::brackets_fell, crate::proofs::TermCode::brackets_full))]
fn more_brackets(
    alloc: Global,
    scope: &Scope<'_, '_>,
    tokens: &mut Tokens<'_>,
    levels: usize,
    mut left: Boxed<Term>,
) -> Result<Boxed<Term>, ReadError>
    ensures { Reads (λ x. x) (more_brackets (entries_of scope.now) levels levels left tokens.old) result tokens.new }
{
    for turn in 0..levels {
        if !same_kind(tokens.peek(), Kind::LBracket) {
            return Ok(left);
        }
        tokens.take();
        left = next_bracket(alloc, scope, tokens, levels - (turn + 1), left)?;
    }
    if same_kind(tokens.peek(), Kind::LBracket) {
        return Err(refuse(Fault::TooDeep, tokens));
    }
    Ok(left)
}

#[cycle(descent)]
#[tactic(auto, unfolding(source_grammar::specs::ReadTerms::factor))]
fn factor<'a>(
    alloc: Global,
    scope: &Scope<'_, 'a>,
    tokens: &mut Tokens<'a>,
    levels: usize,
) -> Result<Boxed<Term>, ReadError>
    ensures { Reads (λ x. x) (spec.factor (spec.inner levels) levels (entries_of scope.now) tokens.old) result tokens.new }
{
    let first = primary(alloc, scope, tokens, levels)?;
    more_brackets(alloc, scope, tokens, levels, first)
}

/// A factor behind this term and `*`.
#[cycle(descent)]
#[tactic(auto, unfolding(crate::specs::Steps::next_factor), using(crate::proofs::TermCode::inner_factor))]
fn next_factor<'a>(
    alloc: Global,
    scope: &Scope<'_, 'a>,
    tokens: &mut Tokens<'a>,
    levels: usize,
    left: Boxed<Term>,
) -> Result<Boxed<Term>, ReadError>
    requires { 0 < levels }
    ensures { Reads (λ x. x) (next_factor (entries_of scope.now) levels left tokens.old) result tokens.new }
{
    let right = factor(alloc, scope, tokens, levels - 1)?;
    boxed(alloc, mul_term(left, right))
}

/// Factors, each after `*`, behind this term.
#[cycle(descent)]
#[tactic(auto, using(crate::proofs::TermCode::factors_stop, crate::proofs::TermCode::factors_went, crate::proofs::TermCode::factors_fell, crate::proofs::TermCode::factors_full, crate::proofs::TermCode::factors_deep, crate::proofs::TermCode::chain_limit))]
fn more_factors<'a>(
    alloc: Global,
    scope: &Scope<'_, 'a>,
    tokens: &mut Tokens<'a>,
    levels: usize,
    mut left: Boxed<Term>,
) -> Result<Boxed<Term>, ReadError>
    ensures { Reads (λ x. x) (more_factors (entries_of scope.now) levels max_chain left tokens.old) result tokens.new }
{
    for _turn in 0..MAX_CHAIN {
        if !same_kind(tokens.peek(), Kind::Star) {
            return Ok(left);
        }
        if levels == 0 {
            return Err(refuse(Fault::TooDeep, tokens));
        }
        tokens.take();
        left = next_factor(alloc, scope, tokens, levels, left)?;
    }
    if same_kind(tokens.peek(), Kind::Star) {
        return Err(refuse(Fault::TooDeep, tokens));
    }
    Ok(left)
}

#[cycle(descent)]
#[tactic(auto, unfolding(source_grammar::specs::ReadTerms::product))]
fn product<'a>(
    alloc: Global,
    scope: &Scope<'_, 'a>,
    tokens: &mut Tokens<'a>,
    levels: usize,
) -> Result<Boxed<Term>, ReadError>
    ensures { Reads (λ x. x) (spec.product (spec.inner levels) levels (entries_of scope.now) tokens.old) result tokens.new }
{
    let first = factor(alloc, scope, tokens, levels)?;
    more_factors(alloc, scope, tokens, levels, first)
}

/// A product behind this term and a sign.
#[cycle(descent)]
#[tactic(auto, unfolding(crate::specs::Steps::next_term), using(crate::proofs::TermCode::inner_product))]
fn next_term<'a>(
    alloc: Global,
    scope: &Scope<'_, 'a>,
    tokens: &mut Tokens<'a>,
    levels: usize,
    left: Boxed<Term>,
    sign: Sign,
) -> Result<Boxed<Term>, ReadError>
    requires { 0 < levels }
    ensures { Reads (λ x. x) (next_term (entries_of scope.now) levels left sign tokens.old) result tokens.new }
{
    let right = product(alloc, scope, tokens, levels - 1)?;
    boxed(alloc, signed_term(sign, left, right))
}

/// Products, each after a sign, behind this term.
#[cycle(descent)]
#[tactic(auto, using(crate::proofs::TermCode::terms_stop, crate::proofs::TermCode::terms_went, crate::proofs::TermCode::terms_fell, crate::proofs::TermCode::terms_full, crate::proofs::TermCode::terms_deep, crate::proofs::TermCode::chain_limit))]
fn more_terms<'a>(
    alloc: Global,
    scope: &Scope<'_, 'a>,
    tokens: &mut Tokens<'a>,
    levels: usize,
    mut left: Boxed<Term>,
) -> Result<Boxed<Term>, ReadError>
    ensures { Reads (λ x. x) (more_terms (entries_of scope.now) levels max_chain left tokens.old) result tokens.new }
{
    for _turn in 0..MAX_CHAIN {
        let Some(sign) = sign_of(tokens.peek()) else {
            return Ok(left);
        };
        if levels == 0 {
            return Err(refuse(Fault::TooDeep, tokens));
        }
        tokens.take();
        left = next_term(alloc, scope, tokens, levels, left, sign)?;
    }
    match sign_of(tokens.peek()) {
        Some(_) => Err(refuse(Fault::TooDeep, tokens)),
        None => Ok(left),
    }
}

/// A chain of products.
#[cycle(descent)]
#[tactic(auto, unfolding(source_grammar::specs::ReadTerms::total))]
fn total<'a>(
    alloc: Global,
    scope: &Scope<'_, 'a>,
    tokens: &mut Tokens<'a>,
    levels: usize,
) -> Result<Boxed<Term>, ReadError>
    ensures { Reads (λ x. x) (spec.total (spec.inner levels) levels (entries_of scope.now) tokens.old) result tokens.new }
{
    let first = product(alloc, scope, tokens, levels)?;
    more_terms(alloc, scope, tokens, levels, first)
}

/// A term, where so many levels may still be opened.
#[cycle(descent)]
#[tactic(auto, unfolding(source_grammar::specs::ReadTerms::whole))]
pub fn term<'a>(
    alloc: Global,
    scope: &Scope<'_, 'a>,
    tokens: &mut Tokens<'a>,
    levels: usize,
) -> Result<Boxed<Term>, ReadError>
    ensures { Reads (λ x. x) (spec.whole (spec.inner levels) levels (entries_of scope.now) tokens.old) result tokens.new }
{
    match tokens.peek() {
        Kind::Gen => loop_of(alloc, scope, tokens, levels, Sized::Gen),
        Kind::Sum => loop_of(alloc, scope, tokens, levels, Sized::Sum),
        Kind::Guard => guarded(alloc, scope, tokens, levels),
        Kind::Let => bound(alloc, scope, tokens, levels),
        _ => total(alloc, scope, tokens, levels),
    }
}
