//! Why facts are not listed, or a certificate is not judged.

ghost use Rattle.std.specs.Prelude.{◌≡◌};

use std::alloc::AllocError;

#[derive(Debug, Drop, Clone, Copy, PartialEq, Eq)]
pub enum CertRefusal {
    Memory,
}

impl From<AllocError> for CertRefusal {
    ghost use Rattle.fact_list.specs.declared.refusal.CertRefusal.TheVariants.{Memory};

    ghost from_gives = { λ _ e. e ≡ Memory };

    fn from(_e: AllocError) -> CertRefusal {
        CertRefusal::Memory
    }
}
