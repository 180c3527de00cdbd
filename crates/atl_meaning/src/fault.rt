//! Why a module is not evaluated.

ghost use Rattle.std.specs.Prelude.{◌≡◌};

use std::alloc::AllocError;

/// An input or a subterm with over 2^24 words, more turns than the limit, or want of memory.
#[derive(Debug, Drop, Clone, Copy, PartialEq, Eq)]
pub enum MeaningFault {
    /// The words of the first such input or, in preorder, subterm; 18446744073709551615 where there are as many or more.
    TooBig { words: u64 },
    /// One more than the limit.
    TooMuchWork { turns: u64 },
    Memory,
}

impl From<AllocError> for MeaningFault {
    ghost use Rattle.atl_meaning.specs.declared.fault.MeaningFault.TheVariants.{Memory};

    ghost from_gives = { λ _ e. e ≡ Memory };

    fn from(_e: AllocError) -> MeaningFault {
        MeaningFault::Memory
    }
}
