//! Why a run is not told.

ghost use Rattle.std.specs.Prelude.{◌≡◌};
ghost use Rattle.run_text.specs.Told.{fault_of as fault_for};

use loop_run::{MakeRefusal, Stuck};

/// The first fault of what a run is given, or of the run.
#[derive(Clone, Copy, Debug, PartialEq, Eq)]
pub enum RunFault {
    /// The given text is not of its grammar from here on.
    BadData { at: u64 },
    /// The given sizes break this constraint, counted from 1.
    SizesNotAllowed { constraint: u64 },
    /// A length or the run is stuck, or the run has too many steps.
    Stuck(Stuck),
    TooBigToRun { words: u64 },
    WrongCount { input: u32, want: u64, got: u64 },
    Memory,
}

/// The fault of a run that is refused so.
pub fn fault_of(refusal: MakeRefusal) -> RunFault
    ensures { result ≡ fault_for refusal }
{
    match refusal {
        MakeRefusal::Stuck(stuck) => RunFault::Stuck(stuck),
        MakeRefusal::TooBigToRun { words } => RunFault::TooBigToRun { words },
        MakeRefusal::WrongCount { input, want, got } => RunFault::WrongCount { input, want, got },
        MakeRefusal::Memory => RunFault::Memory,
    }
}
