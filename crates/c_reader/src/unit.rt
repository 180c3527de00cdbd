//! Reads whole texts.

ghost use Rattle.std.specs.Prelude.{◌≡◌, ◌<◌, false, MatchResult};
ghost use Rattle.text_tokens.specs.Words.{is_nil, peek};
ghost use Rattle.reader_laws.specs.declared.fault.ReadError.TheVariants.{Memory};
ghost use Rattle.reader_laws.specs.Steps as steps;
ghost use Rattle.reader_laws.specs.Steps.{Reads};
ghost use Rattle.c_text.specs.Printed as printed;
ghost use Rattle.c_text.specs.Statement.{body_scope};
ghost use Rattle.c_read.specs.Parts.{expect_all};
ghost use Rattle.c_read.specs.Scopes.{scope_of};
ghost use Rattle.c_read.specs.Units as reading;
ghost use Rattle.c_reader.specs.Units.{counts_of, heads_of};
ghost use Rattle.c_reader.specs.Units as spec;

use crate::heads::Heads;
use crate::lengths::{first_length, one_length};
use crate::parameters::{fixed, function_start};
use c_read::scope::Names;
use c_read::words::misplaced;
use c_statement_reader::whole::whole_block;
use c_words::CWords;
use loop_lang::{Prog, Stmt};
use reader_laws::ReadError;
use sqlite_items::Boxed;
use std::alloc::Global;
use text_tokens::{Kind, same_kind};

/// Takes the words of the lines that each text begins with.
#[tactic(auto, unfolding(crate::specs::Units::heading_lines))]
fn heading_lines(words: &mut CWords<'_>) -> Result<(), ReadError>
    ensures { Reads (λ x. x) (spec.heading_lines words.old) result words.new }
{
    fixed(words, b"#include <stdint.h>\n")?;
    fixed(
        words,
        b"static int64_t top(int64_t x, int64_t y) { return x > y ? x : y; }\n",
    )?;
    fixed(
        words,
        b"static void fill(uint64_t *p, int64_t at, int64_t n) { for (int64_t i = 0; i < n; i = i + 1) p[at + i] = 0; }\n",
    )
}

#[tactic(auto, using(crate::proofs::Heading::heading_is))]
fn heading(words: &mut CWords<'_>) -> Result<(), ReadError>
    ensures { Reads (λ x. x) (expect_all printed.heading_words words.old) result words.new }
{
    heading_lines(words)
}

/// The program of these lengths and this body.
fn program(alloc: Global, heads: Heads, body: Boxed<Stmt>) -> Result<Boxed<Prog>, ReadError>
    ensures { MatchResult result (λ p. p ≡ reading.program_of (heads_of heads) body) (λ e. e ≡ Memory) }
{
    let Heads {
        sizes,
        counts,
        lengths,
    } = heads;
    match Boxed::new(
        alloc,
        Prog {
            sizes,
            inputs: counts.inputs,
            outputs: counts.outputs,
            scratch: counts.scratch,
            lengths,
            body: body.into_inner(),
        },
    ) {
        Ok(program) => Ok(program),
        Err(_) => Err(ReadError::Memory),
    }
}

/// What the body names.
fn names_of_body(heads: &Heads) -> Names
    ensures value { scope_of result ≡ body_scope (reading.head_of (heads_of heads.now)) }
    ensures loops { result.loops ≡ 0 }
{
    Names {
        sizes: heads.sizes,
        loops: 0,
        in_length: false,
        inputs: u64::from(heads.counts.inputs),
        outputs: u64::from(heads.counts.outputs),
        scratch: u64::from(heads.counts.scratch),
    }
}

/// The function behind the lengths.
#[tactic(auto, unfolding(crate::specs::Units::function), using(crate::proofs::LengthTurns::complete_not, crate::proofs::LengthTurns::complete_is))]
fn function(alloc: Global, words: &mut CWords<'_>, heads: Heads) -> Result<Boxed<Prog>, ReadError>
    ensures { Reads (λ x. x) (spec.function (heads_of heads) words.old) result words.new }
{
    if heads.counts.outputs == 0 {
        return Err(misplaced(words));
    }
    function_start(words, heads.sizes, heads.counts)?;
    let body = body_of(alloc, words, &heads)?;
    program(alloc, heads, body)
}

/// The body of the function.
#[tactic(auto, using(crate::proofs::Limits::levels_are))]
fn body_of(alloc: Global, words: &mut CWords<'_>, heads: &Heads) -> Result<Boxed<Stmt>, ReadError>
    ensures { Reads (λ x. x) (reading.body_of (heads_of heads.now) words.old) result words.new }
{
    whole_block(alloc, names_of_body(heads), words, 1_000, false)
}

/// Whether a length comes.
fn goes_length(words: &CWords<'_>) -> bool
    ensures { result ≡ reading.goes_length (peek words.now) }
{
    same_kind(words.peek(), Kind::Name) && words.text() == b"int64_t".as_slice()
}

/// The other lengths, and the function.
#[tactic(auto, using(crate::proofs::LengthTurns::lengths_stop, crate::proofs::LengthTurns::lengths_went))]
fn more_lengths(
    alloc: Global,
    words: &mut CWords<'_>,
    mut heads: Heads,
) -> Result<Boxed<Prog>, ReadError>
    ensures { Reads (λ x. x) (spec.more_lengths (heads_of heads) words.old) result words.new }
{
    while goes_length(words) {
        let more = one_length(alloc, words, heads)?;
        heads = more;
    }
    function(alloc, words, heads)
}

#[tactic(auto, unfolding(crate::specs::Units::unit))]
fn unit(alloc: Global, words: &mut CWords<'_>) -> Result<Boxed<Prog>, ReadError>
    ensures { Reads (λ x. x) (spec.unit words.old) result words.new }
{
    heading(words)?;
    let heads = first_length(alloc, words)?;
    more_lengths(alloc, words, heads)
}

#[tactic(auto, unfolding(reader_laws::specs::Steps::finish))]
fn finish(words: &CWords<'_>) -> Result<(), ReadError>
    ensures { Reads (λ x. x) (steps.finish words.now) result words.now }
{
    if words.is_done() {
        Ok(())
    } else {
        Err(misplaced(words))
    }
}

/// A text, to its end.
#[tactic(auto, unfolding(crate::specs::Units::whole))]
pub fn whole(alloc: Global, words: &mut CWords<'_>) -> Result<Boxed<Prog>, ReadError>
    ensures { Reads (λ x. x) (spec.whole words.old) result words.new }
{
    let program = unit(alloc, words)?;
    match finish(words) {
        Ok(()) => Ok(program),
        Err(e) => Err(e),
    }
}
