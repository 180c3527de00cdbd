//! Statements.

ghost use Rattle.std.specs.Prelude.{◌≡◌, ◌++◌, ◌+◌, OnOk, IfOk, map};
ghost use Rattle.c_print.specs.Statement.{indentation, line, loop_start, loop_step, for_text, mark_text, if_text, store_text, fill_text, in_turn, block, statement_text};

use crate::fault::PrintFault;
use crate::level::Level;
use crate::writer::Writer;
use loop_lang::{Buf, Iexp, Stmt, Test, Wexp};

/// One level more. No memory holds a statement that goes past the last level.
fn deeper(level: u64) -> Result<u64, PrintFault>
    ensures { IfOk result (λ inner. inner ≡ level + 1) }
{
    match level.checked_add(1) {
        Some(inner) => Ok(inner),
        None => Err(PrintFault::Memory),
    }
}

impl Writer {
    fn put_indentation(&mut self, level: u64) -> Result<(), PrintFault>
        ensures { OnOk result (self.new ≡ self.old ++ indentation level) }
    {
        for _done in 0..level {
            self.put(b"  ")?;
        }
        Ok(())
    }

    fn put_line(&mut self, level: u64, text: &[u8]) -> Result<(), PrintFault>
        ensures { OnOk result (self.new ≡ self.old ++ line level text.now) }
    {
        self.put_indentation(level)?;
        self.put(text)?;
        self.put(b"\n")
    }

    fn put_mark(&mut self, level: u64, marked: bool) -> Result<(), PrintFault>
        ensures { OnOk result (self.new ≡ self.old ++ mark_text level marked) }
    {
        if marked {
            self.put_line(level, b"#pragma omp parallel for")
        } else {
            Ok(())
        }
    }

    fn put_loop_start(&mut self, depth: u64, bound: &Iexp) -> Result<(), PrintFault>
        ensures { OnOk result (self.new ≡ self.old ++ loop_start depth bound.now) }
    {
        self.put_loop(b"for (int64_t ", depth)?;
        self.put_loop(b" = INT64_C(0); ", depth)?;
        self.put(b" < ")?;
        self.put_index(bound, Level::Choice)
    }

    fn put_loop_step(&mut self, depth: u64) -> Result<(), PrintFault>
        ensures { OnOk result (self.new ≡ self.old ++ loop_step depth) }
    {
        self.put_loop(b"; ", depth)?;
        self.put_loop(b" = ", depth)?;
        self.put(b" + INT64_C(1)) {")
    }

    fn put_header(&mut self, depth: u64, bound: &Iexp) -> Result<(), PrintFault>
        ensures { OnOk result (self.new ≡ self.old ++ for_text depth bound.now) }
    {
        self.put_loop_start(depth, bound)?;
        self.put_loop_step(depth)
    }

    fn put_for(
        &mut self,
        level: u64,
        depth: u64,
        marked: bool,
        bound: &Iexp,
    ) -> Result<(), PrintFault>
        ensures { OnOk result (self.new ≡ self.old ++ (mark_text level marked ++ line level (for_text depth bound.now))) }
    {
        self.put_mark(level, marked)?;
        self.put_indentation(level)?;
        self.put_header(depth, bound)?;
        self.put(b"\n")
    }

    fn put_if(&mut self, level: u64, tests: &[Test]) -> Result<(), PrintFault>
        ensures { OnOk result (self.new ≡ self.old ++ line level (if_text tests.now)) }
    {
        self.put_indentation(level)?;
        self.put(b"if (")?;
        self.put_tests(tests)?;
        self.put(b") {\n")
    }

    fn put_store(
        &mut self,
        level: u64,
        buffer: Buf,
        index: &Iexp,
        sign: &[u8],
        word: &Wexp,
    ) -> Result<(), PrintFault>
        ensures { OnOk result (self.new ≡ self.old ++ line level (store_text sign.now buffer index.now word.now)) }
    {
        self.put_indentation(level)?;
        self.put_element(buffer, index)?;
        self.put(sign)?;
        self.put_word(word, Level::Choice)?;
        self.put(b";\n")
    }

    fn put_fill(&mut self, level: u64, buffer: Buf, at: &Iexp, len: &Iexp) -> Result<(), PrintFault>
        ensures { OnOk result (self.new ≡ self.old ++ line level (fill_text buffer at.now len.now)) }
    {
        self.put_indentation(level)?;
        self.put(b"fill(")?;
        self.put_buffer(buffer)?;
        self.put(b", ")?;
        self.put_index(at, Level::Choice)?;
        self.put(b", ")?;
        self.put_index(len, Level::Choice)?;
        self.put(b");\n")
    }

    #[cycle(statement)]
    fn put_each(&mut self, all: &[Stmt], level: u64, depth: u64) -> Result<(), PrintFault>
        ensures { OnOk result (self.new ≡ self.old ++ in_turn (map statement_text all.now) level depth) }
    {
        for stmt in all {
            self.put_statement(stmt, level, depth)?;
        }
        Ok(())
    }

    /// A body, and the brace that closes it.
    #[cycle(statement)]
    fn put_block(&mut self, body: &Stmt, level: u64, depth: u64) -> Result<(), PrintFault>
        ensures { OnOk result (self.new ≡ self.old ++ block (statement_text body.now) level depth) }
    {
        let inner = deeper(level)?;
        self.put_statement(body, inner, depth)?;
        self.put_line(level, b"}")
    }

    /// The same inside one loop more.
    #[cycle(statement)]
    fn put_turns(&mut self, body: &Stmt, level: u64, depth: u64) -> Result<(), PrintFault>
        ensures { OnOk result (self.new ≡ self.old ++ block (statement_text body.now) level (depth + 1)) }
    {
        let inner = deeper(depth)?;
        self.put_block(body, level, inner)
    }

    #[cycle(statement)]
    pub fn put_statement(&mut self, stmt: &Stmt, level: u64, depth: u64) -> Result<(), PrintFault>
        ensures { OnOk result (self.new ≡ self.old ++ statement_text stmt.now level depth) }
    {
        match stmt {
            Stmt::Seq(all) => self.put_each(all.as_slice(), level, depth),
            Stmt::For {
                bound,
                parallel,
                body,
            } => {
                self.put_for(level, depth, *parallel, bound)?;
                self.put_turns(body.get(), level, depth)
            }
            Stmt::If(tests, body) => {
                self.put_if(level, tests.as_slice())?;
                self.put_block(body.get(), level, depth)
            }
            Stmt::Put(buffer, index, word) => self.put_store(level, *buffer, index, b" = ", word),
            Stmt::AddTo(buffer, index, word) => {
                self.put_store(level, *buffer, index, b" += ", word)
            }
            Stmt::Zero(buffer, at, len) => self.put_fill(level, *buffer, at, len),
        }
    }
}
