//! Buffers, tests and word expressions.

ghost use Rattle.std.specs.Prelude.{◌≡◌, ◌++◌, IfOk, OnOk, codes, decimal, string_bytes};
ghost use Rattle.std.specs.List.{flat_map};
ghost use Rattle.c_print.specs.Level.{in_place};
ghost use Rattle.c_print.specs.Word.{buffer_name, element_text, relation_text, test_text, and_test, tests_text, word_literal, converted, word_text, word_fold};

use crate::fault::PrintFault;
use crate::level::Level;
use crate::writer::Writer;
use affine_index::Rel;
use loop_lang::{Buf, Iexp, Test, Wexp};
use std::alloc::{AllocError, Global};

fn relation(rel: Rel) -> &'static [u8]
    ensures { result.now ≡ relation_text rel }
{
    match rel {
        Rel::Lt => b" < ",
        Rel::Le => b" <= ",
        Rel::Gt => b" > ",
        Rel::Ge => b" >= ",
        Rel::Eq => b" == ",
    }
}

/// The name of a buffer in the text, also for messages about it.
#[tactic(auto, unfolding(crate::specs::Word::buffer_name))]
pub fn buffer_name(alloc: Global, buffer: Buf) -> Result<String, AllocError>
    ensures { IfOk result (λ name. string_bytes name ≡ buffer_name buffer) }
{
    match buffer {
        Buf::Input(number) => format!(in alloc; "a{number}"),
        Buf::Output(number) => format!(in alloc; "b{number}"),
        Buf::Scratch(number) => format!(in alloc; "s{number}"),
    }
}

impl Writer {
    #[tactic(auto, unfolding(crate::specs::Word::buffer_name))]
    pub fn put_buffer(&mut self, buffer: Buf) -> Result<(), PrintFault>
        ensures { OnOk result (self.new ≡ self.old ++ buffer_name buffer) }
    {
        match buffer {
            Buf::Input(k) => self.put_name(b"a", u64::from(k)),
            Buf::Output(k) => self.put_name(b"b", u64::from(k)),
            Buf::Scratch(k) => self.put_name(b"s", u64::from(k)),
        }
    }

    pub fn put_element(&mut self, buffer: Buf, index: &Iexp) -> Result<(), PrintFault>
        ensures { OnOk result (self.new ≡ self.old ++ element_text buffer index.now) }
    {
        self.put_buffer(buffer)?;
        self.put(b"[")?;
        self.put_index(index, Level::Choice)?;
        self.put(b"]")
    }

    fn put_test(&mut self, test: &Test) -> Result<(), PrintFault>
        ensures { OnOk result (self.new ≡ self.old ++ test_text test.now) }
    {
        self.put_index(&test.left, Level::Sum)?;
        self.put(relation(test.rel))?;
        self.put_index(&test.right, Level::Sum)
    }

    fn put_further_tests(&mut self, tests: &[Test]) -> Result<(), PrintFault>
        ensures { OnOk result (self.new ≡ self.old ++ flat_map and_test tests.now) }
    {
        for test in tests {
            self.put(b" && ")?;
            self.put_test(test)?;
        }
        Ok(())
    }

    pub fn put_tests(&mut self, tests: &[Test]) -> Result<(), PrintFault>
        ensures { OnOk result (self.new ≡ self.old ++ tests_text tests.now) }
    {
        match tests {
            [] => Ok(()),
            [first, further @ ..] => {
                self.put_test(first)?;
                self.put_further_tests(further)
            }
        }
    }

    #[tactic(auto, unfolding(crate::specs::Word::word_literal))]
    fn put_word_literal(&mut self, word: u64) -> Result<(), PrintFault>
        ensures { OnOk result (self.new ≡ self.old ++ word_literal word) }
    {
        self.put(b"UINT64_C(")?;
        self.put_number(word)?;
        self.put(b")")
    }

    fn put_converted(&mut self, index: &Iexp) -> Result<(), PrintFault>
        ensures { OnOk result (self.new ≡ self.old ++ converted index.now) }
    {
        self.put(b"(uint64_t)(")?;
        self.put_index(index, Level::Choice)?;
        self.put(b")")
    }

    /// Two operands with a sign between them, in parentheses where the place needs them.
    #[tactic(auto, using(crate::proofs::Places::place_laws))]
    #[cycle(word)]
    fn put_word_pair(
        &mut self,
        own: Level,
        place: Level,
        left: &Wexp,
        sign: &[u8],
        right: &Wexp,
        tighter: Level,
    ) -> Result<(), PrintFault>
        ensures { OnOk result (self.new ≡ self.old ++ in_place own place (word_fold left.now own ++ sign.now ++ word_fold right.now tighter)) }
    {
        self.put(own.opening(place))?;
        self.put_word_operand(left, own)?;
        self.put(sign)?;
        self.put_word_operand(right, tighter)?;
        self.put(own.closing(place))
    }

    /// Both sides of a choice, behind its tests.
    #[cycle(word)]
    fn put_sides(&mut self, first: &Wexp, second: &Wexp) -> Result<(), PrintFault>
        ensures { OnOk result (self.new ≡ self.old ++ (codes " ? " ++ word_fold first.now Level.Choice ++ codes " : " ++ word_fold second.now Level.Choice)) }
    {
        self.put(b" ? ")?;
        self.put_word_operand(first, Level::Choice)?;
        self.put(b" : ")?;
        self.put_word_operand(second, Level::Choice)
    }

    #[tactic(auto, using(crate::proofs::Places::place_laws))]
    #[cycle(word)]
    fn put_choice(
        &mut self,
        place: Level,
        tests: &[Test],
        first: &Wexp,
        second: &Wexp,
    ) -> Result<(), PrintFault>
        ensures { OnOk result (self.new ≡ self.old ++ in_place Level.Choice place (tests_text tests.now ++ codes " ? " ++ word_fold first.now Level.Choice ++ codes " : " ++ word_fold second.now Level.Choice)) }
    {
        self.put(Level::Choice.opening(place))?;
        self.put_tests(tests)?;
        self.put_sides(first, second)?;
        self.put(Level::Choice.closing(place))
    }

    #[cycle(word)]
    fn put_word_operand(&mut self, word: &Wexp, place: Level) -> Result<(), PrintFault>
        ensures { OnOk result (self.new ≡ self.old ++ word_fold word.now place) }
    {
        match word {
            Wexp::Lit(word) => self.put_word_literal(*word),
            Wexp::Load(buffer, index) => self.put_element(*buffer, index),
            Wexp::OfIndex(index) => self.put_converted(index),
            Wexp::Add(a, b) => {
                self.put_word_pair(Level::Sum, place, a.get(), b" + ", b.get(), Level::Product)
            }
            Wexp::Sub(a, b) => {
                self.put_word_pair(Level::Sum, place, a.get(), b" - ", b.get(), Level::Product)
            }
            Wexp::Mul(a, b) => {
                self.put_word_pair(Level::Product, place, a.get(), b" * ", b.get(), Level::Part)
            }
            Wexp::Choose(tests, a, b) => {
                self.put_choice(place, tests.as_slice(), a.get(), b.get())
            }
        }
    }

    #[tactic(auto, using(crate::proofs::Folds::word_fold_laws))]
    pub fn put_word(&mut self, word: &Wexp, place: Level) -> Result<(), PrintFault>
        ensures { OnOk result (self.new ≡ self.old ++ word_text word.now place) }
    {
        self.put_word_operand(word, place)
    }
}
