//! Why a tree is not made.

ghost use Rattle.std.specs.Prelude.{◌≡◌};

use std::alloc::AllocError;

/// Want of memory, the one reason.
#[derive(Debug, Drop, Clone, Copy, PartialEq, Eq)]
pub enum TreeRefusal {
    Memory,
}

impl From<AllocError> for TreeRefusal {
    ghost use Rattle.term_tree.specs.declared.refusal.TreeRefusal.TheVariants.{Memory};

    ghost from_gives = { λ _ e. e ≡ Memory };

    fn from(_e: AllocError) -> TreeRefusal {
        TreeRefusal::Memory
    }
}
