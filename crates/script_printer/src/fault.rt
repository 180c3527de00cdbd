//! Why a script is not printed.

ghost use Rattle.std.specs.Prelude.{◌≡◌};

use std::alloc::AllocError;

#[derive(Debug, Drop, Clone, Copy, PartialEq, Eq)]
pub enum PrintFault {
    Memory,
}

impl From<AllocError> for PrintFault {
    ghost use Rattle.script_printer.specs.declared.fault.PrintFault.TheVariants.{Memory};

    ghost from_gives = { λ _ e. e ≡ Memory };

    fn from(_e: AllocError) -> PrintFault {
        PrintFault::Memory
    }
}
