//! Why nothing is told.

ghost use Rattle.std.specs.Prelude.{◌≡◌};

use std::alloc::AllocError;

/// The first fault of what the plain evaluator is given, or of its work.
#[derive(Clone, Copy, Debug, PartialEq, Eq)]
pub enum PlainFault {
    /// The given text is not of its grammar from here on.
    BadData { at: u64 },
    /// The given sizes break this constraint, counted from 1.
    SizesNotAllowed { constraint: u64 },
    /// The words of the first input or, in preorder, subterm with over 2^24 of them; 18446744073709551615 where there are as many or more.
    TooBigToRun { words: u64 },
    /// The first input, counted from 0, with another number of words than its extents say.
    WrongCount { input: u32, want: u64, got: u64 },
    /// One more than 2^27, where the turns of gen and sum are more than that.
    TooMuchWork { steps: u64 },
    Memory,
}

impl From<AllocError> for PlainFault {
    ghost use Rattle.plain_run.specs.declared.fault.PlainFault.TheVariants.{Memory};

    ghost from_gives = { λ _ e. e ≡ Memory };

    fn from(_e: AllocError) -> PlainFault {
        PlainFault::Memory
    }
}
