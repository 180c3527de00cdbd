//! Why there is no text.

ghost use Rattle.std.specs.Prelude.{◌≡◌};

use fact_list::CertRefusal;
use std::alloc::AllocError;

#[derive(Debug, Drop, Clone, Copy, PartialEq, Eq)]
pub enum PrintFault {
    Memory,
}

impl From<AllocError> for PrintFault {
    ghost use Rattle.facts_text.specs.declared.fault.PrintFault.TheVariants.{Memory};

    ghost from_gives = { λ _ e. e ≡ Memory };

    fn from(_e: AllocError) -> PrintFault {
        PrintFault::Memory
    }
}

impl From<CertRefusal> for PrintFault {
    ghost use Rattle.facts_text.specs.declared.fault.PrintFault.TheVariants.{Memory};

    ghost from_gives = { λ _ e. e ≡ Memory };

    fn from(_e: CertRefusal) -> PrintFault {
        PrintFault::Memory
    }
}
