//! Reads statements.

ghost use Rattle.std.specs.Prelude.{◌≡◌, ◌≤◌, ◌<◌, ◌+◌, true, false, MatchResult};
ghost use Rattle.text_tokens.specs.declared.kind.Kind.TheVariants as k;
ghost use Rattle.text_tokens.specs.Words.{peek};
ghost use Rattle.reader_laws.specs.declared.fault.ReadError.TheVariants.{Memory};
ghost use Rattle.reader_laws.specs.Steps.{Reads};
ghost use Rattle.c_words.specs.Tokens.{PlusAssign};
ghost use Rattle.c_text.specs.Printed as printed;
ghost use Rattle.c_text.specs.Statement.{either, inside_loop};
ghost use Rattle.c_read.specs.Parts.{expect_all};
ghost use Rattle.c_read.specs.Scopes.{scope_of};
ghost use Rattle.c_read.specs.Statements as reading;
ghost use Rattle.c_statement_reader.specs.Statements.{beginning_of};
ghost use Rattle.c_statement_reader.specs.Statements as spec;

use crate::pieces::{before_bound, behind_bound};
use c_expression_reader::whole::{bracketed, index_within, tests_within, word_at};
use c_expression_reader::words::{left_paren, open_level, right_paren, written_buffer};
use c_read::scope::Names;
use c_read::words::{expect, misplaced};
use c_words::CWords;
use loop_lang::{Buf, Iexp, Stmt, Test, Wexp};
use reader_laws::ReadError;
use sqlite_items::{Boxed, Items};
use std::alloc::Global;
use text_tokens::{Kind, same_kind};

fn boxed(alloc: Global, statement: Stmt) -> Result<Boxed<Stmt>, ReadError>
    ensures { MatchResult result (λ s. s ≡ statement) (λ e. e ≡ Memory) }
{
    match Boxed::new(alloc, statement) {
        Ok(statement) => Ok(statement),
        Err(_) => Err(ReadError::Memory),
    }
}

/// What the first word of a statement begins.
#[derive(Clone, Copy, Debug, PartialEq, Eq)]
enum Beginning {
    Marked,
    Unmarked,
    Testing,
    Filling,
    Storing,
}

fn next_beginning(words: &CWords<'_>) -> Beginning
    ensures { beginning_of result ≡ reading.beginning (peek words.now) }
{
    if same_kind(words.peek(), Kind::Parallel) {
        return Beginning::Marked;
    }
    if !same_kind(words.peek(), Kind::Name) {
        return Beginning::Storing;
    }
    let text = words.text();
    if text == b"for".as_slice() {
        Beginning::Unmarked
    } else if text == b"if".as_slice() {
        Beginning::Testing
    } else if text == b"fill".as_slice() {
        Beginning::Filling
    } else {
        Beginning::Storing
    }
}

/// The bound of a loop, with all of its header.
#[tactic(auto, unfolding(crate::specs::Statements::header))]
fn header(
    alloc: Global,
    names: Names,
    words: &mut CWords<'_>,
    levels: usize,
) -> Result<Boxed<Iexp>, ReadError>
    ensures { Reads (λ x. x) (spec.header (scope_of names) levels words.old) result words.new }
{
    before_bound(words, levels, names.loops)?;
    let bound = index_within(alloc, names, words, levels)?;
    match behind_bound(words, levels, names.loops) {
        Ok(()) => Ok(bound),
        Err(e) => Err(e),
    }
}

/// The tests of an `if`.
#[tactic(auto, unfolding(crate::specs::Statements::tested))]
fn tested(
    alloc: Global,
    names: Names,
    words: &mut CWords<'_>,
    levels: usize,
) -> Result<Items<Test>, ReadError>
    ensures { Reads (λ x. x) (spec.tested (scope_of names) levels words.old) result words.new }
{
    expect(words, Kind::Name, b"if")?;
    open_level(words, levels)?;
    left_paren(words)?;
    let tests = tests_within(alloc, names, words, levels)?;
    match right_paren(words) {
        Ok(()) => Ok(tests),
        Err(e) => Err(e),
    }
}

/// The place of a fill between its commas.
#[tactic(auto, unfolding(crate::specs::Statements::fill_place))]
fn fill_place(
    alloc: Global,
    names: Names,
    words: &mut CWords<'_>,
    levels: usize,
) -> Result<Boxed<Iexp>, ReadError>
    ensures { Reads (λ x. x) (spec.fill_place (scope_of names) levels words.old) result words.new }
{
    expect(words, Kind::Comma, b",")?;
    let place = index_within(alloc, names, words, levels)?;
    match expect(words, Kind::Comma, b",") {
        Ok(()) => Ok(place),
        Err(e) => Err(e),
    }
}

fn fill_end(words: &mut CWords<'_>) -> Result<(), ReadError>
    ensures { Reads (λ x. x) (expect_all printed.fill_end words.old) result words.new }
{
    right_paren(words)?;
    expect(words, Kind::Semi, b";")?;
    Ok(())
}

#[tactic(auto, unfolding(crate::specs::Statements::fill, crate::specs::Statements::fill_parts))]
fn fill(
    alloc: Global,
    names: Names,
    words: &mut CWords<'_>,
    levels: usize,
) -> Result<Boxed<Stmt>, ReadError>
    ensures { Reads (λ x. x) (spec.fill (scope_of names) levels words.old) result words.new }
{
    expect(words, Kind::Name, b"fill")?;
    open_level(words, levels)?;
    left_paren(words)?;
    let buffer = written_buffer(names, words)?;
    let place = fill_place(alloc, names, words, levels)?;
    let length = index_within(alloc, names, words, levels)?;
    match fill_end(words) {
        Ok(()) => boxed(
            alloc,
            Stmt::Zero(buffer, place.into_inner(), length.into_inner()),
        ),
        Err(e) => Err(e),
    }
}

/// The word that is stored, before its `;`.
#[tactic(auto, unfolding(crate::specs::Statements::stored))]
fn stored(
    alloc: Global,
    names: Names,
    words: &mut CWords<'_>,
    levels: usize,
) -> Result<Boxed<Wexp>, ReadError>
    ensures { Reads (λ x. x) (spec.stored (scope_of names) levels words.old) result words.new }
{
    let word = word_at(alloc, names, words, levels)?;
    match expect(words, Kind::Semi, b";") {
        Ok(()) => Ok(word),
        Err(e) => Err(e),
    }
}

/// The word that is put, behind its sign.
#[tactic(auto, unfolding(crate::specs::Statements::stored_by))]
fn put_word(
    alloc: Global,
    names: Names,
    words: &mut CWords<'_>,
    levels: usize,
) -> Result<Boxed<Wexp>, ReadError>
    ensures { Reads (λ x. x) (spec.stored_by (scope_of names) levels k.Assign words.old) result words.new }
{
    expect(words, Kind::Assign, b"=")?;
    stored(alloc, names, words, levels)
}

/// The word that is added, behind its sign.
#[tactic(auto, unfolding(crate::specs::Statements::stored_by))]
fn added_word(
    alloc: Global,
    names: Names,
    words: &mut CWords<'_>,
    levels: usize,
) -> Result<Boxed<Wexp>, ReadError>
    ensures { Reads (λ x. x) (spec.stored_by (scope_of names) levels PlusAssign words.old) result words.new }
{
    expect(words, Kind::DotDot, b"+=")?;
    stored(alloc, names, words, levels)
}

fn put(
    alloc: Global,
    names: Names,
    words: &mut CWords<'_>,
    levels: usize,
    buffer: Buf,
    place: Boxed<Iexp>,
) -> Result<Boxed<Stmt>, ReadError>
    ensures { Reads (λ x. x) (spec.store_by (scope_of names) levels (buffer, place) false words.old) result words.new }
{
    let word = put_word(alloc, names, words, levels)?;
    boxed(
        alloc,
        Stmt::Put(buffer, place.into_inner(), word.into_inner()),
    )
}

fn add(
    alloc: Global,
    names: Names,
    words: &mut CWords<'_>,
    levels: usize,
    buffer: Buf,
    place: Boxed<Iexp>,
) -> Result<Boxed<Stmt>, ReadError>
    ensures { Reads (λ x. x) (spec.store_by (scope_of names) levels (buffer, place) true words.old) result words.new }
{
    let word = added_word(alloc, names, words, levels)?;
    boxed(
        alloc,
        Stmt::AddTo(buffer, place.into_inner(), word.into_inner()),
    )
}

#[tactic(auto, unfolding(crate::specs::Statements::store))]
fn store(
    alloc: Global,
    names: Names,
    words: &mut CWords<'_>,
    levels: usize,
) -> Result<Boxed<Stmt>, ReadError>
    ensures { Reads (λ x. x) (spec.store (scope_of names) levels words.old) result words.new }
{
    let buffer = written_buffer(names, words)?;
    let place = bracketed(alloc, names, words, levels)?;
    if same_kind(words.peek(), Kind::DotDot) {
        add(alloc, names, words, levels, buffer, place)
    } else {
        put(alloc, names, words, levels, buffer, place)
    }
}

/// The names inside a loop.
fn inside(names: Names) -> Names
    requires { names.loops < 1000 }
    ensures value { scope_of result ≡ inside_loop (scope_of names) }
    ensures loops { result.loops ≡ names.loops + 1 }
{
    Names {
        sizes: names.sizes,
        loops: names.loops + 1,
        in_length: names.in_length,
        inputs: names.inputs,
        outputs: names.outputs,
        scratch: names.scratch,
    }
}

/// Whether a marked loop is around what stands in a loop.
fn marks(marked: bool, around: bool) -> bool
    ensures { result ≡ either marked around }
{
    if marked { true } else { around }
}

/// A loop behind its mark.
#[cycle(nesting)]
#[tactic(auto, unfolding(crate::specs::Statements::looped))]
fn looped(
    alloc: Global,
    names: Names,
    words: &mut CWords<'_>,
    levels: usize,
    around: bool,
    marked: bool,
) -> Result<Boxed<Stmt>, ReadError>
    requires { names.loops + levels < 1000 }
    ensures { Reads (λ x. x) (spec.looped (spec.inner_statement levels) levels (scope_of names) around marked words.old) result words.new }
{
    let bound = header(alloc, names, words, levels)?;
    let body = block(alloc, inside(names), words, levels, marks(marked, around))?;
    boxed(
        alloc,
        Stmt::For {
            bound: bound.into_inner(),
            parallel: marked,
            body,
        },
    )
}

/// A loop that is marked.
#[cycle(nesting)]
#[tactic(auto, unfolding(crate::specs::Statements::loop_by, crate::specs::Statements::mark))]
fn marked_loop(
    alloc: Global,
    names: Names,
    words: &mut CWords<'_>,
    levels: usize,
    around: bool,
) -> Result<Boxed<Stmt>, ReadError>
    requires { names.loops + levels < 1000 }
    ensures { Reads (λ x. x) (spec.loop_by (spec.inner_statement levels) levels (scope_of names) around true words.old) result words.new }
{
    if around {
        return Err(misplaced(words));
    }
    expect(words, Kind::Parallel, b"#pragma omp parallel for")?;
    looped(alloc, names, words, levels, around, true)
}

/// A loop that is not marked.
#[cycle(nesting)]
#[tactic(auto, unfolding(crate::specs::Statements::loop_by, crate::specs::Statements::mark))]
fn plain_loop(
    alloc: Global,
    names: Names,
    words: &mut CWords<'_>,
    levels: usize,
    around: bool,
) -> Result<Boxed<Stmt>, ReadError>
    requires { names.loops + levels < 1000 }
    ensures { Reads (λ x. x) (spec.loop_by (spec.inner_statement levels) levels (scope_of names) around false words.old) result words.new }
{
    looped(alloc, names, words, levels, around, false)
}

#[cycle(nesting)]
#[tactic(auto, unfolding(crate::specs::Statements::guarded))]
fn guarded(
    alloc: Global,
    names: Names,
    words: &mut CWords<'_>,
    levels: usize,
    around: bool,
) -> Result<Boxed<Stmt>, ReadError>
    requires { names.loops + levels < 1000 }
    ensures { Reads (λ x. x) (spec.guarded (spec.inner_statement levels) levels (scope_of names) around words.old) result words.new }
{
    let tests = tested(alloc, names, words, levels)?;
    let body = block(alloc, names, words, levels, around)?;
    boxed(alloc, Stmt::If(tests, body))
}

#[cycle(nesting)]
#[tactic(auto, unfolding(crate::specs::Statements::one_statement))]
fn one_statement(
    alloc: Global,
    names: Names,
    words: &mut CWords<'_>,
    levels: usize,
    around: bool,
) -> Result<Boxed<Stmt>, ReadError>
    requires { names.loops + levels < 1000 }
    ensures { Reads (λ x. x) (spec.one_statement (spec.inner_statement levels) levels (scope_of names) around words.old) result words.new }
{
    match next_beginning(words) {
        Beginning::Marked => marked_loop(alloc, names, words, levels, around),
        Beginning::Unmarked => plain_loop(alloc, names, words, levels, around),
        Beginning::Testing => guarded(alloc, names, words, levels, around),
        Beginning::Filling => fill(alloc, names, words, levels),
        Beginning::Storing => store(alloc, names, words, levels),
    }
}

/// A statement, where so many levels are left but one.
#[cycle(nesting)]
#[tactic(auto, using(crate::proofs::Blocks::statement_none, crate::proofs::Blocks::statement_some))]
fn statement(
    alloc: Global,
    names: Names,
    words: &mut CWords<'_>,
    levels: usize,
    around: bool,
) -> Result<Boxed<Stmt>, ReadError>
    requires { names.loops + levels ≤ 1000 }
    ensures { Reads (λ x. x) (spec.inner_statement levels (scope_of names) around words.old) result words.new }
{
    if levels == 0 {
        return Err(misplaced(words));
    }
    one_statement(alloc, names, words, levels - 1, around)
}

/// Statements behind these, as far as `}`.
#[cycle(nesting)]
#[tactic(auto, using(crate::proofs::Blocks::statements_stop, crate::proofs::Blocks::statements_went))]
fn more_statements(
    alloc: Global,
    names: Names,
    words: &mut CWords<'_>,
    levels: usize,
    around: bool,
    mut done: Items<Stmt>,
) -> Result<Boxed<Stmt>, ReadError>
    requires { names.loops + levels ≤ 1000 }
    ensures { Reads (λ x. x) (spec.more_statements (spec.inner_statement levels) levels (scope_of names) around done words.old) result words.new }
{
    while !same_kind(words.peek(), Kind::RBrace) {
        let one = statement(alloc, names, words, levels, around)?;
        done.push(one.into_inner())?;
    }
    match expect(words, Kind::RBrace, b"}") {
        Ok(()) => boxed(alloc, Stmt::Seq(done)),
        Err(e) => Err(e),
    }
}

/// `{ .. }`, with these names and marks inside.
#[cycle(nesting)]
#[tactic(auto, unfolding(crate::specs::Statements::block))]
pub(crate) fn block(
    alloc: Global,
    names: Names,
    words: &mut CWords<'_>,
    levels: usize,
    around: bool,
) -> Result<Boxed<Stmt>, ReadError>
    requires { names.loops + levels ≤ 1000 }
    ensures { Reads (λ x. x) (spec.block (spec.inner_statement levels) levels (scope_of names) around words.old) result words.new }
{
    open_level(words, levels)?;
    expect(words, Kind::LBrace, b"{")?;
    more_statements(alloc, names, words, levels, around, Items::new(alloc))
}
