//! Why a term is not mapped.

ghost use Rattle.std.specs.Prelude.{◌≡◌};

use std::alloc::AllocError;
use term_tree::TreeRefusal;

#[derive(Debug, Drop, Clone, Copy, PartialEq, Eq)]
pub enum MapRefusal {
    CoefficientTooLarge,
    IndexTooLong,
    NotAffine,
    TooManyNodes { nodes: u64 },
    Memory,
}

impl From<AllocError> for MapRefusal {
    ghost use Rattle.binders.specs.declared.refusal.MapRefusal.TheVariants.{Memory};

    ghost from_gives = { λ _ e. e ≡ Memory };

    fn from(_e: AllocError) -> MapRefusal {
        MapRefusal::Memory
    }
}

impl From<TreeRefusal> for MapRefusal {
    ghost use Rattle.binders.specs.declared.refusal.MapRefusal.TheVariants.{Memory};

    ghost from_gives = { λ _ e. e ≡ Memory };

    fn from(_e: TreeRefusal) -> MapRefusal {
        MapRefusal::Memory
    }
}
