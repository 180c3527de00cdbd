//! Why a module is not lowered.

ghost use Rattle.std.specs.Prelude.{◌≡◌};

use std::alloc::AllocError;
use term_tree::Path;

/// The first fault of the last version, or want of memory. Goals, final lines and printed indices count from 1.
#[derive(Drop)]
pub enum FinalFault {
    /// The first node in preorder outside the final form.
    NotLowerable(Path),
    /// The final line whose number is no goal, or not above the one before.
    NoSuchGoal(u64),
    /// The first goal that is not shown, where it is one of a read.
    AccessNotShown(u64),
    /// The same of a truncation.
    DropNotShown(u64),
    /// The first printed index that breaks a limit of normal forms, or has a magnitude over 2^62.
    IndexTooLarge(u64),
    /// No gen stands there.
    ParallelNotGen(Path),
    /// A let stands inside.
    LetInParallel(Path),
    /// A gen that is marked before in the list stands there, around it or inside it.
    NestedParallel(Path),
    Memory,
}

impl From<AllocError> for FinalFault {
    ghost use Rattle.final_rules.specs.declared.fault.FinalFault.TheVariants.{Memory};

    ghost from_gives = { λ _ e. e ≡ Memory };

    fn from(_e: AllocError) -> FinalFault {
        FinalFault::Memory
    }
}
