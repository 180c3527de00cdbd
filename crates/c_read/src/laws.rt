//! Laws of C texts, as the contracts of functions that do nothing.

ghost use Rattle.loop_lang.specs.Form.{IsWellFormed};
ghost use Rattle.c_print.specs.Program.{canonical_text};
ghost use Rattle.c_text.specs.Flat.{IsFlat};
ghost use Rattle.c_text.specs.Printable.{IsPrintable};
ghost use Rattle.c_text.specs.Statement.{CText};
ghost use Rattle.c_read.specs.Alone.{IsExact, IsOfFormed, IsTextOfAlone};
ghost use Rattle.c_read.specs.Refused.{AreRefused};

use loop_lang::Prog;

/// The canonical text of a well formed program of flat bodies, within the levels of C, stands for that program and for no other.
pub fn canonical_text_is_of_its_program_alone(prog: &Prog)
    requires formed { IsWellFormed prog.now }
    requires flat { IsFlat prog.now }
    ensures { IsTextOfAlone (canonical_text prog.now) prog.now }
{
    c_text::laws::canonical_text_is_text(prog);
}

/// The canonical text of a printable program stands for that program and for no other.
pub fn printable_text_is_of_its_program_alone(prog: &Prog)
    requires printable { IsPrintable prog.now }
    ensures { IsTextOfAlone (canonical_text prog.now) prog.now }
{
    c_text::laws::printable_text_is_text(prog);
}

/// Where some text stands for a program of flat bodies, within the levels of C, its canonical text stands for it too, and for no other.
pub fn canonical_text_of_a_text(text: &[u8], prog: &Prog)
    requires stands { CText text.now prog.now }
    requires flat { IsFlat prog.now }
    ensures { IsTextOfAlone (canonical_text prog.now) prog.now }
{
    text_reader_is_exact(text);
    canonical_text_is_of_its_program_alone(prog);
}

/// The reader of texts, a function of their words, answers the program that a text stands for, exactly there; and
/// where it refuses a text, the words as far as the one that decides it are the beginning of no text. What a text
/// stands for is well formed.
pub fn text_reader_is_exact(text: &[u8])
    ensures exact { IsExact text.now }
    ensures refused { AreRefused text.now }
    ensures formed { IsOfFormed text.now }
{
    let _ = text.len();
}
