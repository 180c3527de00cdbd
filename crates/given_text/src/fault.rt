//! Why a given text is not read, and why a line is not printed.

ghost use Rattle.std.specs.Prelude.{◌≡◌};

use std::alloc::AllocError;

/// The first fault of a given text.
#[derive(Clone, Copy, Debug, PartialEq, Eq)]
pub enum GivenFault {
    /// So many bytes stand before the first word with which no given text goes on, or before the first byte that is not UTF-8.
    BadData { at: u64 },
    Memory,
}

#[derive(Debug, Drop, Clone, Copy, PartialEq, Eq)]
pub enum PrintFault {
    Memory,
}

impl From<AllocError> for PrintFault {
    ghost use Rattle.given_text.specs.declared.fault.PrintFault.TheVariants.{Memory};

    ghost from_gives = { λ _ e. e ≡ Memory };

    fn from(_e: AllocError) -> PrintFault {
        PrintFault::Memory
    }
}
