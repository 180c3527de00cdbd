//! Index expressions.

ghost use Rattle.std.specs.Prelude.{◌≡◌, ◌++◌, OnOk, codes, decimal};
ghost use Rattle.script_printer.specs.Index.{in_place, index_fold, index_text};

use crate::fault::PrintFault;
use crate::level::Level;
use crate::writer::Writer;
use schedule_script::IxTree;

impl Writer {
    #[cycle(index)]
    fn put_negation(&mut self, part: &IxTree) -> Result<(), PrintFault>
        ensures { OnOk result (self.new ≡ self.old ++ (codes "-" ++ index_fold part.now Level.Part)) }
    {
        self.put(b"-")?;
        self.put_operand(part, Level::Part)
    }

    /// A quotient or remainder by a number, in parentheses where the place needs them.
    #[tactic(auto, using(crate::proofs::Places::place_laws))]
    #[cycle(index)]
    fn put_over(
        &mut self,
        place: Level,
        left: &IxTree,
        sign: &[u8],
        by: u32,
    ) -> Result<(), PrintFault>
        ensures { OnOk result (self.new ≡ self.old ++ in_place Level.Product place (index_fold left.now Level.Product ++ sign.now ++ decimal by)) }
    {
        self.put(Level::Product.opening(place))?;
        self.put_operand(left, Level::Product)?;
        self.put(sign)?;
        self.put_number(u64::from(by))?;
        self.put(Level::Product.closing(place))
    }

    /// Two operands with a sign between them, in parentheses where the place needs them.
    #[tactic(auto, using(crate::proofs::Places::place_laws))]
    #[cycle(index)]
    fn put_pair(
        &mut self,
        own: Level,
        place: Level,
        left: &IxTree,
        sign: &[u8],
        right: &IxTree,
        tighter: Level,
    ) -> Result<(), PrintFault>
        ensures { OnOk result (self.new ≡ self.old ++ in_place own place (index_fold left.now own ++ sign.now ++ index_fold right.now tighter)) }
    {
        self.put(own.opening(place))?;
        self.put_operand(left, own)?;
        self.put(sign)?;
        self.put_operand(right, tighter)?;
        self.put(own.closing(place))
    }

    #[cycle(index)]
    fn put_operand(&mut self, index: &IxTree, place: Level) -> Result<(), PrintFault>
        ensures { OnOk result (self.new ≡ self.old ++ index_fold index.now place) }
    {
        match index {
            IxTree::Num(n) => self.put_number(*n),
            IxTree::Name(name) => self.put(name.as_str().as_bytes()),
            IxTree::Neg(a) => self.put_negation(a.get()),
            IxTree::Add(a, b) => {
                self.put_pair(Level::Sum, place, a.get(), b" + ", b.get(), Level::Product)
            }
            IxTree::Sub(a, b) => {
                self.put_pair(Level::Sum, place, a.get(), b" - ", b.get(), Level::Product)
            }
            IxTree::Mul(a, b) => {
                self.put_pair(Level::Product, place, a.get(), b" * ", b.get(), Level::Part)
            }
            IxTree::Div(a, by) => self.put_over(place, a.get(), b" / ", *by),
            IxTree::Rem(a, by) => self.put_over(place, a.get(), b" % ", *by),
        }
    }

    #[tactic(auto, using(crate::proofs::Folds::index_fold_laws))]
    pub fn put_index(&mut self, index: &IxTree, place: Level) -> Result<(), PrintFault>
        ensures { OnOk result (self.new ≡ self.old ++ index_text index.now place) }
    {
        self.put_operand(index, place)
    }
}
