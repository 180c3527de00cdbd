//! The law of the printed text, as the contract of a function that does nothing.

ghost use Rattle.loop_lang.specs.Form.{IsWellFormed};
ghost use Rattle.c_print.specs.Program.{canonical_text};
ghost use Rattle.c_text.specs.Flat.{IsFlat};
ghost use Rattle.c_text.specs.Printable.{IsPrintable};
ghost use Rattle.c_text.specs.Statement.{CText, HasSmallNumbers};

use loop_lang::Prog;

fn small_numbers(sizes: u32, inputs: u32, outputs: u32, scratch: u32) -> bool {
    sizes <= u32::MAX && inputs <= u32::MAX && outputs <= u32::MAX && scratch <= u32::MAX
}

/// The numbers of sizes and buffers are of 32 bits, as their types say.
pub fn has_small_numbers(prog: &Prog) -> bool
    ensures { HasSmallNumbers prog.now }
{
    small_numbers(prog.sizes, prog.inputs, prog.outputs, prog.scratch)
}

/// The canonical text of a well formed program of flat bodies, within the levels of C, is a text of that program.
#[tactic(auto, using(crate::proofs::ReadsBack::reads_back))]
pub fn canonical_text_is_text(prog: &Prog)
    requires formed { IsWellFormed prog.now }
    requires flat { IsFlat prog.now }
    ensures { CText (canonical_text prog.now) prog.now }
{
    let _ = has_small_numbers(prog);
}

/// The canonical text of a printable program is a text of that program.
#[tactic(auto, using(crate::proofs::ReadsBack::printable_back))]
pub fn printable_text_is_text(prog: &Prog)
    requires printable { IsPrintable prog.now }
    ensures { CText (canonical_text prog.now) prog.now }
{
    let _ = has_small_numbers(prog);
}
