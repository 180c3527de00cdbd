//! Index expressions.

ghost use Rattle.std.specs.Prelude.{◌≡◌, ◌++◌, OnOk, codes, decimal, pos};
ghost use Rattle.c_print.specs.Index.{index_literal, index_fold, index_text, size_name, loop_name};
ghost use Rattle.c_print.specs.Level.{in_place};
ghost use Rattle.c_print.specs.declared.level.Level.TheVariants as level;

use crate::fault::PrintFault;
use crate::level::Level;
use crate::writer::Writer;
use loop_lang::Iexp;

impl Writer {
    /// A letter and a number.
    pub fn put_name(&mut self, letter: &[u8], number: u64) -> Result<(), PrintFault>
        ensures { OnOk result (self.new ≡ self.old ++ (letter.now ++ decimal number)) }
    {
        self.put(letter)?;
        self.put_number(number)
    }

    #[tactic(auto, unfolding(crate::specs::Index::size_name))]
    pub fn put_size(&mut self, size: u32) -> Result<(), PrintFault>
        ensures { OnOk result (self.new ≡ self.old ++ size_name size) }
    {
        self.put_name(b"n", u64::from(size))
    }

    /// The name of a loop's variable, and what stands before it.
    #[tactic(auto, unfolding(crate::specs::Index::loop_name))]
    pub fn put_loop(&mut self, before: &[u8], depth: u64) -> Result<(), PrintFault>
        ensures { OnOk result (self.new ≡ self.old ++ (before.now ++ loop_name depth)) }
    {
        self.put(before)?;
        self.put_name(b"i", depth)
    }

    #[tactic(auto, unfolding(crate::specs::Index::index_literal))]
    fn put_literal(&mut self, n: i64) -> Result<(), PrintFault>
        ensures { OnOk result (self.new ≡ self.old ++ index_literal n) }
    {
        self.put(b"INT64_C(")?;
        self.put_signed(n)?;
        self.put(b")")
    }

    #[tactic(auto, unfolding(crate::specs::Index::index_literal))]
    fn put_positive(&mut self, n: u64) -> Result<(), PrintFault>
        ensures { OnOk result (self.new ≡ self.old ++ index_literal (pos n)) }
    {
        self.put(b"INT64_C(")?;
        self.put_number(n)?;
        self.put(b")")
    }

    /// A product, quotient or remainder of a number on the right, in parentheses where the place needs them.
    #[tactic(auto, using(crate::proofs::Places::place_laws))]
    #[cycle(index)]
    fn put_over(&mut self, place: Level, left: &Iexp, sign: &[u8], k: u64) -> Result<(), PrintFault>
        ensures { OnOk result (self.new ≡ self.old ++ in_place Level.Product place (index_fold left.now Level.Product ++ sign.now ++ index_literal (pos k))) }
    {
        self.put(Level::Product.opening(place))?;
        self.put_operand(left, Level::Product)?;
        self.put(sign)?;
        self.put_positive(k)?;
        self.put(Level::Product.closing(place))
    }

    /// Two operands with a sign between them, in parentheses where the place needs them.
    #[tactic(auto, using(crate::proofs::Places::place_laws))]
    #[cycle(index)]
    fn put_pair(
        &mut self,
        own: Level,
        place: Level,
        left: &Iexp,
        sign: &[u8],
        right: &Iexp,
        tighter: Level,
    ) -> Result<(), PrintFault>
        ensures { OnOk result (self.new ≡ self.old ++ in_place own place (index_fold left.now own ++ sign.now ++ index_fold right.now tighter)) }
    {
        self.put(own.opening(place))?;
        self.put_operand(left, own)?;
        self.put(sign)?;
        self.put_operand(right, tighter)?;
        self.put(own.closing(place))
    }

    #[cycle(index)]
    fn put_larger(&mut self, left: &Iexp, right: &Iexp) -> Result<(), PrintFault>
        ensures { OnOk result (self.new ≡ self.old ++ (codes "top(" ++ index_fold left.now Level.Choice ++ codes ", " ++ index_fold right.now Level.Choice ++ codes ")")) }
    {
        self.put(b"top(")?;
        self.put_operand(left, Level::Choice)?;
        self.put(b", ")?;
        self.put_operand(right, Level::Choice)?;
        self.put(b")")
    }

    #[cycle(index)]
    fn put_operand(&mut self, index: &Iexp, place: Level) -> Result<(), PrintFault>
        ensures { OnOk result (self.new ≡ self.old ++ index_fold index.now place) }
    {
        match index {
            Iexp::Lit(n) => self.put_literal(*n),
            Iexp::Size(k) => self.put_size(*k),
            Iexp::Loop(depth) => self.put_loop(b"", u64::from(*depth)),
            Iexp::Add(a, b) => {
                self.put_pair(Level::Sum, place, a.get(), b" + ", b.get(), Level::Product)
            }
            Iexp::Sub(a, b) => {
                self.put_pair(Level::Sum, place, a.get(), b" - ", b.get(), Level::Product)
            }
            Iexp::Mul(a, b) => {
                self.put_pair(Level::Product, place, a.get(), b" * ", b.get(), Level::Part)
            }
            Iexp::Div(a, k) => self.put_over(place, a.get(), b" / ", *k),
            Iexp::Rem(a, k) => self.put_over(place, a.get(), b" % ", *k),
            Iexp::Larger(a, b) => self.put_larger(a.get(), b.get()),
        }
    }

    #[tactic(auto, using(crate::proofs::Folds::index_fold_laws))]
    pub fn put_index(&mut self, index: &Iexp, place: Level) -> Result<(), PrintFault>
        ensures { OnOk result (self.new ≡ self.old ++ index_text index.now place) }
    {
        self.put_operand(index, place)
    }
}
