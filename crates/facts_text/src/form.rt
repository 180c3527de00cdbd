//! Normal forms and comparisons.

ghost use Rattle.std.specs.Prelude.{◌≡◌, ◌++◌, OnOk, codes, decimal};
ghost use Rattle.facts_text.specs.Form.{comparison_text, form_text, in_place, index_fold, index_text, size_name, var_name};

use crate::fault::PrintFault;
use crate::level::Level;
use crate::writer::Writer;
use affine_index::{Aff, Cmp};
use index_trees::index_tree;
use loop_lang::Iexp;
use std::alloc::Global;
use term_tree::SizeDecl;

impl Writer {
    fn put_size(&mut self, sizes: &[SizeDecl], size: u32) -> Result<(), PrintFault>
        ensures { OnOk result (self.new ≡ self.old ++ size_name sizes.now size) }
    {
        match sizes.get(size as usize) {
            Some(declared) => self.put(declared.name.as_str().as_bytes()),
            None => self.put(b""),
        }
    }

    fn put_var(&mut self, depth: u64) -> Result<(), PrintFault>
        ensures { OnOk result (self.new ≡ self.old ++ var_name depth) }
    {
        self.put(b"i")?;
        self.put_number(depth)
    }

    /// A quotient or remainder by a number, in parentheses where the place needs them.
    #[tactic(auto, using(crate::proofs::Places::place_laws))]
    #[cycle(index)]
    fn put_over(
        &mut self,
        sizes: &[SizeDecl],
        place: Level,
        left: &Iexp,
        sign: &[u8],
        by: u64,
    ) -> Result<(), PrintFault>
        ensures { OnOk result (self.new ≡ self.old ++ in_place Level.Product place (index_fold sizes.now left.now Level.Product ++ sign.now ++ decimal by)) }
    {
        self.put(Level::Product.opening(place))?;
        self.put_operand(sizes, left, Level::Product)?;
        self.put(sign)?;
        self.put_number(by)?;
        self.put(Level::Product.closing(place))
    }

    /// Two operands with a sign between them, in parentheses where the place needs them.
    #[tactic(auto, using(crate::proofs::Places::place_laws))]
    #[cycle(index)]
    fn put_pair(
        &mut self,
        sizes: &[SizeDecl],
        own: Level,
        place: Level,
        left: &Iexp,
        sign: &[u8],
        right: &Iexp,
        tighter: Level,
    ) -> Result<(), PrintFault>
        ensures { OnOk result (self.new ≡ self.old ++ in_place own place (index_fold sizes.now left.now own ++ sign.now ++ index_fold sizes.now right.now tighter)) }
    {
        self.put(own.opening(place))?;
        self.put_operand(sizes, left, own)?;
        self.put(sign)?;
        self.put_operand(sizes, right, tighter)?;
        self.put(own.closing(place))
    }

    #[cycle(index)]
    fn put_operand(
        &mut self,
        sizes: &[SizeDecl],
        index: &Iexp,
        place: Level,
    ) -> Result<(), PrintFault>
        ensures { OnOk result (self.new ≡ self.old ++ index_fold sizes.now index.now place) }
    {
        match index {
            Iexp::Lit(n) => self.put_signed(*n),
            Iexp::Size(k) => self.put_size(sizes, *k),
            Iexp::Loop(depth) => self.put_var(u64::from(*depth)),
            Iexp::Add(a, b) => self.put_pair(
                sizes,
                Level::Sum,
                place,
                a.get(),
                b" + ",
                b.get(),
                Level::Product,
            ),
            Iexp::Sub(a, b) => self.put_pair(
                sizes,
                Level::Sum,
                place,
                a.get(),
                b" - ",
                b.get(),
                Level::Product,
            ),
            Iexp::Mul(a, b) => self.put_pair(
                sizes,
                Level::Product,
                place,
                a.get(),
                b" * ",
                b.get(),
                Level::Part,
            ),
            Iexp::Div(a, k) => self.put_over(sizes, place, a.get(), b" / ", *k),
            Iexp::Rem(a, k) => self.put_over(sizes, place, a.get(), b" % ", *k),
            Iexp::Larger(_, _) => self.put(b""),
        }
    }

    fn put_index(
        &mut self,
        sizes: &[SizeDecl],
        index: &Iexp,
        place: Level,
    ) -> Result<(), PrintFault>
        ensures { OnOk result (self.new ≡ self.old ++ index_text sizes.now index.now place) }
    {
        self.put_operand(sizes, index, place)
    }

    /// A form under so many gens and sums.
    #[tactic(auto, unfolding(crate::specs::Form::form_text))]
    pub(crate) fn put_form(
        &mut self,
        alloc: Global,
        sizes: &[SizeDecl],
        vars: u32,
        form: &Aff,
    ) -> Result<(), PrintFault>
        ensures { OnOk result (self.new ≡ self.old ++ form_text sizes.now vars form.now) }
    {
        match index_tree(alloc, vars, form) {
            Ok(tree) => self.put_index(sizes, &tree, Level::Sum),
            Err(_) => Err(PrintFault::Memory),
        }
    }

    fn put_compared(
        &mut self,
        alloc: Global,
        sizes: &[SizeDecl],
        vars: u32,
        form: &Aff,
        sign: &[u8],
    ) -> Result<(), PrintFault>
        ensures { OnOk result (self.new ≡ self.old ++ (form_text sizes.now vars form.now ++ sign.now)) }
    {
        self.put_form(alloc, sizes, vars, form)?;
        self.put(sign)
    }

    pub(crate) fn put_comparison(
        &mut self,
        alloc: Global,
        sizes: &[SizeDecl],
        vars: u32,
        comparison: &Cmp,
    ) -> Result<(), PrintFault>
        ensures { OnOk result (self.new ≡ self.old ++ comparison_text sizes.now vars comparison.now) }
    {
        match comparison {
            Cmp::Ge(form) => self.put_compared(alloc, sizes, vars, form, b" >= 0"),
            Cmp::Eq(form) => self.put_compared(alloc, sizes, vars, form, b" == 0"),
        }
    }
}
