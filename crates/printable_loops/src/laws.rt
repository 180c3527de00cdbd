//! Laws of printed programs, each the contract of a function that does nothing.

ghost use Rattle.printable_loops.specs.Printable.{LoopsAreFlat, TextsAreAlone};

/// The program of every module that may be lowered has flat bodies, within the levels of C, where its literals are words, its terms are at most 200 deep,
/// and its numbers are of 32 bits.
pub fn loops_are_flat()
    ensures { LoopsAreFlat }
{}

/// The canonical text of such a program stands for that program and for no other.
pub fn texts_are_alone()
    ensures { TextsAreAlone }
{}
