//! Whole blocks, as the body of a function has them.

ghost use Rattle.std.specs.Prelude.{◌≤◌, ◌+◌};
ghost use Rattle.reader_laws.specs.Steps.{Reads};
ghost use Rattle.c_read.specs.Scopes.{scope_of};
ghost use Rattle.c_read.specs.Statements as reading;

use crate::statements::block;
use c_read::scope::Names;
use c_words::CWords;
use loop_lang::Stmt;
use reader_laws::ReadError;
use sqlite_items::Boxed;
use std::alloc::Global;

/// A block, where so many levels are left; whether a marked loop is around it.
#[tactic(auto, using(crate::proofs::StatementsSame::block_is, c_expression_reader::proofs::Answered::reads_same))]
pub fn whole_block(
    alloc: Global,
    names: Names,
    words: &mut CWords<'_>,
    levels: usize,
    around: bool,
) -> Result<Boxed<Stmt>, ReadError>
    requires { names.loops + levels ≤ 1000 }
    ensures { let scope = scope_of names in
        Reads (λ x. x) (reading.block (reading.inner_statement levels) levels scope around scope around words.old) result words.new }
{
    block(alloc, names, words, levels, around)
}
