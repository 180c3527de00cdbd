//! Laws of lowering, each the contract of a function that does nothing.
#![tactic(auto)]

ghost use Rattle.lowering_laws.specs.Correct.{AcceptedIsFormed, LengthsAreRight, LoopsAreRight, NestsAgree};

/// Every run of the loops of a module that may be lowered ends, and leaves in the outputs the words of what the module denotes, and the inputs as they were.
pub fn loops_are_right()
    ensures { LoopsAreRight }
{}

/// The printed lengths of a program are the numbers of words of its buffers.
pub fn lengths_are_right()
    ensures { LengthsAreRight }
{}

/// The loops of a program are those of the version, and no others.
pub fn nests_agree()
    ensures { NestsAgree }
{}

/// The program of a module that may be lowered is well formed.
pub fn accepted_is_formed()
    ensures { AcceptedIsFormed }
{}
