//! Forms and comparisons of source texts.

ghost use Rattle.std.specs.Prelude.{◌≡◌, OnOk};
ghost use Rattle.atl_printer.specs.FormPages.{all_pages, cmp_pages, form_pages, more_pages};
ghost use Rattle.atl_printer.specs.Page.{written};
ghost use Rattle.text_tokens.specs.Spelled.{number_token};

use crate::index::Place;
use crate::pen::{Pen, PrintFault};
use affine_index::{Aff, Cmp};
use index_trees::index_tree;
use std::alloc::Global;
use term_tree::SizeDecl;
use text_tokens::Kind;

impl Pen {
    /// A form under so many variables.
    #[tactic(auto, unfolding(crate::specs::FormPages::form_pages))]
    pub fn put_form(
        &mut self,
        alloc: Global,
        sizes: &[SizeDecl],
        vars: u32,
        form: &Aff,
    ) -> Result<(), PrintFault>
        ensures { OnOk result (self.new ≡ form_pages sizes.now vars form.now self.old) }
    {
        match index_tree(alloc, vars, form) {
            Ok(tree) => self.put_index(sizes, &tree, Place::Sum),
            Err(_) => Err(PrintFault::Memory),
        }
    }

    /// A form, the sign that compares it, and 0.
    fn put_compared(
        &mut self,
        alloc: Global,
        sizes: &[SizeDecl],
        vars: u32,
        form: &Aff,
        relation: Kind,
        text: &[u8],
    ) -> Result<(), PrintFault>
        ensures { OnOk result (self.new ≡ written (number_token 0) (written (record { kind = relation; text = text.now }) (form_pages sizes.now vars form.now self.old))) }
    {
        self.put_form(alloc, sizes, vars, form)?;
        self.put(relation, text)?;
        self.put_number(0)
    }

    pub fn put_cmp(
        &mut self,
        alloc: Global,
        sizes: &[SizeDecl],
        vars: u32,
        cmp: &Cmp,
    ) -> Result<(), PrintFault>
        ensures { OnOk result (self.new ≡ cmp_pages sizes.now vars cmp.now self.old) }
    {
        match cmp {
            Cmp::Ge(form) => self.put_compared(alloc, sizes, vars, form, Kind::GreaterEqual, b">="),
            Cmp::Eq(form) => self.put_compared(alloc, sizes, vars, form, Kind::Equal, b"=="),
        }
    }

    /// Comparisons, each after `and`.
    fn put_more(
        &mut self,
        alloc: Global,
        sizes: &[SizeDecl],
        vars: u32,
        cmps: &[Cmp],
    ) -> Result<(), PrintFault>
        ensures { OnOk result (self.new ≡ more_pages sizes.now vars cmps.now self.old) }
    {
        for cmp in cmps {
            self.put(Kind::And, b"and")?;
            self.put_cmp(alloc, sizes, vars, cmp)?;
        }
        Ok(())
    }

    /// The comparisons of a condition.
    pub fn put_all(
        &mut self,
        alloc: Global,
        sizes: &[SizeDecl],
        vars: u32,
        cmps: &[Cmp],
    ) -> Result<(), PrintFault>
        ensures { OnOk result (self.new ≡ all_pages sizes.now vars cmps.now self.old) }
    {
        match cmps.split_first() {
            None => Ok(()),
            Some((first, rest)) => {
                self.put_cmp(alloc, sizes, vars, first)?;
                self.put_more(alloc, sizes, vars, rest)
            }
        }
    }
}
