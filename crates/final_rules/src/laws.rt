//! Laws of the final form, each the contract of a function that does nothing.

ghost use Rattle.final_rules.specs.Accepted.{AcceptedMarksFit, AcceptedStaysWithin};
ghost use Rattle.final_rules.specs.Good.{SoundFramesAreGood};

/// An accepted module stays within bounds.
pub fn accepted_stays_within()
    ensures { AcceptedStaysWithin }
{}

/// The marks of an accepted module are gens without lets, none inside another.
pub fn accepted_marks_fit()
    ensures { AcceptedMarksFit }
{}

/// In a sound module the frames around each node in a store position are good, from its extents into those of its buffer.
pub fn frames_are_good()
    ensures { SoundFramesAreGood }
{}
