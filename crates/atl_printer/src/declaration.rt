//! Declarations and modules of source texts.

ghost use Rattle.std.specs.Prelude.{◌≡◌, IfOk, OnOk, length};
ghost use Rattle.atl_printer.specs.Canonical.{ReadsBack, canonical_module, example_of_tokens, header_tokens};
ghost use Rattle.atl_printer.specs.PrintableModule.{IsPrintableModule};
ghost use Rattle.atl_printer.specs.ModulePages.{assume_page, example_pages, extent_page, in_turn, input_page, module_page, more_example_pages, output_page, size_page};
ghost use Rattle.atl_printer.specs.Page.{blank, written_all};

use crate::pen::{Pen, PrintFault};
use crate::term::TermPlace;
use affine_index::{Aff, Cmp};
use std::alloc::Global;
use term_tree::{InputDecl, Module, OutputDecl, SizeDecl};
use text_tokens::Kind;

impl Pen {
    fn put_header(&mut self, version: u32) -> Result<(), PrintFault>
        ensures { OnOk result (self.new ≡ written_all (header_tokens version) self.old) }
    {
        self.put(Kind::Atl, b"atl")?;
        self.put(Kind::Number, if version == 1 { b"1" } else { b"2" })?;
        self.put(Kind::Semi, b";")
    }

    fn put_size_line(&mut self, size: &SizeDecl) -> Result<(), PrintFault>
        ensures { OnOk result (self.new ≡ size_page size.now self.old) }
    {
        self.put(Kind::Size, b"size")?;
        self.put_name(size.name.as_str().as_bytes())?;
        self.put(Kind::In, b"in")?;
        self.put_number(size.low)?;
        self.put(Kind::DotDot, b"..")?;
        self.put_number(size.high)?;
        self.put(Kind::Semi, b";")
    }

    fn put_sizes(&mut self, sizes: &[SizeDecl]) -> Result<(), PrintFault>
        ensures { OnOk result (self.new ≡ in_turn size_page sizes.now self.old) }
    {
        for size in sizes {
            self.put_size_line(size)?;
        }
        Ok(())
    }

    fn put_assume_line(
        &mut self,
        alloc: Global,
        sizes: &[SizeDecl],
        assume: &Cmp,
    ) -> Result<(), PrintFault>
        ensures { OnOk result (self.new ≡ assume_page sizes.now assume.now self.old) }
    {
        self.put(Kind::Assume, b"assume")?;
        self.put_cmp(alloc, sizes, 0, assume)?;
        self.put(Kind::Semi, b";")
    }

    fn put_assumes(
        &mut self,
        alloc: Global,
        sizes: &[SizeDecl],
        assumes: &[Cmp],
    ) -> Result<(), PrintFault>
        ensures { OnOk result (self.new ≡ in_turn (assume_page sizes.now) assumes.now self.old) }
    {
        for assume in assumes {
            self.put_assume_line(alloc, sizes, assume)?;
        }
        Ok(())
    }

    fn put_example_of(&mut self, size: &SizeDecl, number: u64) -> Result<(), PrintFault>
        ensures { OnOk result (self.new ≡ written_all (example_of_tokens size.now number) self.old) }
    {
        self.put_name(size.name.as_str().as_bytes())?;
        self.put(Kind::Assign, b"=")?;
        self.put_number(number)
    }

    /// The numbers of the other sizes, and what ends the line.
    fn put_more_examples(&mut self, sizes: &[SizeDecl], numbers: &[u64]) -> Result<(), PrintFault>
        requires { length numbers.now ≡ length sizes.now }
        ensures { OnOk result (self.new ≡ more_example_pages sizes.now numbers.now self.old) }
    {
        for at in 0..sizes.len() {
            self.put(Kind::Comma, b",")?;
            self.put_example_of(&sizes[at], numbers[at])?;
        }
        self.put(Kind::Semi, b";")
    }

    fn put_example(&mut self, sizes: &[SizeDecl], example: &[u64]) -> Result<(), PrintFault>
        requires { length example.now ≡ length sizes.now }
        ensures { OnOk result (self.new ≡ example_pages sizes.now example.now self.old) }
    {
        match sizes.split_first() {
            None => Ok(()),
            Some((size, sizes)) => {
                self.put(Kind::Example, b"example")?;
                self.put_example_of(size, example[0])?;
                self.put_more_examples(sizes, &example[1..])
            }
        }
    }

    fn put_extent(
        &mut self,
        alloc: Global,
        sizes: &[SizeDecl],
        extent: &Aff,
    ) -> Result<(), PrintFault>
        ensures { OnOk result (self.new ≡ extent_page sizes.now extent.now self.old) }
    {
        self.put(Kind::LBracket, b"[")?;
        self.put_form(alloc, sizes, 0, extent)?;
        self.put(Kind::RBracket, b"]")
    }

    fn put_extents(
        &mut self,
        alloc: Global,
        sizes: &[SizeDecl],
        extents: &[Aff],
    ) -> Result<(), PrintFault>
        ensures { OnOk result (self.new ≡ in_turn (extent_page sizes.now) extents.now self.old) }
    {
        for extent in extents {
            self.put_extent(alloc, sizes, extent)?;
        }
        Ok(())
    }

    fn put_input_line(
        &mut self,
        alloc: Global,
        sizes: &[SizeDecl],
        input: &InputDecl,
    ) -> Result<(), PrintFault>
        ensures { OnOk result (self.new ≡ input_page sizes.now input.now self.old) }
    {
        self.put(Kind::Input, b"input")?;
        self.put_name(input.name.as_str().as_bytes())?;
        self.put_extents(alloc, sizes, input.extents.as_slice())?;
        self.put(Kind::Semi, b";")
    }

    fn put_inputs(
        &mut self,
        alloc: Global,
        sizes: &[SizeDecl],
        inputs: &[InputDecl],
    ) -> Result<(), PrintFault>
        ensures { OnOk result (self.new ≡ in_turn (input_page sizes.now) inputs.now self.old) }
    {
        for input in inputs {
            self.put_input_line(alloc, sizes, input)?;
        }
        Ok(())
    }

    fn put_output_line(
        &mut self,
        alloc: Global,
        sizes: &[SizeDecl],
        inputs: &[InputDecl],
        output: &OutputDecl,
    ) -> Result<(), PrintFault>
        ensures { OnOk result (self.new ≡ output_page sizes.now inputs.now output.now self.old) }
    {
        self.put(Kind::Output, b"output")?;
        self.put_name(output.name.as_str().as_bytes())?;
        self.put(Kind::Assign, b"=")?;
        self.put_term(alloc, sizes, inputs, &output.term, TermPlace::Whole, 0, 0)?;
        self.put(Kind::Semi, b";")
    }

    fn put_outputs(
        &mut self,
        alloc: Global,
        sizes: &[SizeDecl],
        inputs: &[InputDecl],
        outputs: &[OutputDecl],
    ) -> Result<(), PrintFault>
        ensures { OnOk result (self.new ≡ in_turn (output_page sizes.now inputs.now) outputs.now self.old) }
    {
        for output in outputs {
            self.put_output_line(alloc, sizes, inputs, output)?;
        }
        Ok(())
    }

    /// The lines before the inputs.
    fn put_front(&mut self, alloc: Global, module: &Module) -> Result<(), PrintFault>
        requires { length «module».now.example ≡ length «module».now.sizes }
        ensures { OnOk result (self.new ≡ example_pages «module».now.sizes «module».now.example (in_turn (assume_page «module».now.sizes) «module».now.assumes (in_turn size_page «module».now.sizes (written_all (header_tokens «module».now.version) self.old)))) }
    {
        let sizes = module.sizes.as_slice();
        self.put_header(module.version)?;
        self.put_sizes(sizes)?;
        self.put_assumes(alloc, sizes, module.assumes.as_slice())?;
        self.put_example(sizes, module.example.as_slice())
    }

    /// The lines of a module.
    fn put_module(&mut self, alloc: Global, module: &Module) -> Result<(), PrintFault>
        requires blank { self.old ≡ blank }
        requires example { length «module».now.example ≡ length «module».now.sizes }
        ensures { OnOk result (self.new ≡ module_page «module».now) }
    {
        let sizes = module.sizes.as_slice();
        let inputs = module.inputs.as_slice();
        self.put_front(alloc, module)?;
        self.put_inputs(alloc, sizes, inputs)?;
        self.put_outputs(alloc, sizes, inputs, module.outputs.as_slice())
    }
}

/// The canonical text of a module: one declaration a line in the order of the grammar, variables named `i0`, `i1`, ..
/// and `t0`, `t1`, .. by the binders around them, parentheses only where they are needed. Linear in the text.
pub fn print_module(alloc: Global, module: &Module) -> Result<Vec<u8>, PrintFault>
    requires { IsPrintableModule «module».now }
    ensures text { IfOk result (λ text. text.items ≡ canonical_module «module».now) }
    ensures reads_back { IfOk result (λ text. ReadsBack text.items «module».now) }
{
    let mut pen = Pen::new(alloc);
    pen.put_module(alloc, module)?;
    pen.into_bytes()
}
