//! Why there is no text of the facts.

ghost use Rattle.std.specs.Prelude.{◌≡◌};

use facts_text::PrintFault;
use final_rules::FinalFault;
use schedule_run::StepFault;
use std::alloc::AllocError;

/// The first fault of a script: that of a step, or that of the last version.
#[derive(Drop)]
pub enum FactsFault {
    Step(StepFault),
    Final(FinalFault),
    Memory,
}

impl From<PrintFault> for FactsFault {
    ghost use Rattle.facts_run.specs.declared.fault.FactsFault.TheVariants.{Memory};

    ghost from_gives = { λ _ e. e ≡ Memory };

    fn from(_: PrintFault) -> FactsFault {
        FactsFault::Memory
    }
}

impl From<AllocError> for FactsFault {
    ghost use Rattle.facts_run.specs.declared.fault.FactsFault.TheVariants.{Memory};

    ghost from_gives = { λ _ e. e ≡ Memory };

    fn from(_: AllocError) -> FactsFault {
        FactsFault::Memory
    }
}
