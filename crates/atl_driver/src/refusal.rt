// Why no text is written.
ghost use Rattle.std.specs.Prelude.{◌≡◌};
ghost use Rattle.atl_driver.specs.declared.refusal.Refusal.TheVariants.{Memory};

use crate::Fault;
use std::alloc::AllocFailed;

/// What the program may decide but a text.
#[derive(Drop)]
pub enum Refusal {
    Refused(Fault),
    Usage,
    ReadFault,
    TooLong,
    Memory,
}

impl<T: Drop> From<AllocFailed<T>> for Refusal {
    ghost from_gives = { λ _ refusal. refusal ≡ Memory };

    fn from(_: AllocFailed<T>) -> Refusal {
        Refusal::Memory
    }
}
