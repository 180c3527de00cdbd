//! Why a script stops.

ghost use Rattle.std.specs.Prelude.{◌≡◌};

use path_focus::{PathRefusal, RuleFault};
use std::alloc::AllocError;

/// The first rule that a step breaks.
#[derive(Clone, Copy)]
pub enum StepKind {
    /// The name is that of no rule.
    NoSuchRule,
    /// The path names no node.
    NoSuchPath,
    /// The pattern, the arguments, surplus lines or a condition of the rule, and no other fault of it.
    Rule(RuleFault),
    /// A term of the result is deeper than 200.
    TooDeep,
    /// A node of the result has a rank over 8.
    RankTooLarge,
    /// The result has over 20,000 nodes.
    TooManyNodes { nodes: u64 },
    CoefficientTooLarge,
    IndexTooLong,
    Memory,
}

/// The first step that fails, counted from 1, and why. For want of memory the step is that at which it was wanted.
#[derive(Clone, Copy)]
pub struct StepFault {
    pub step: u64,
    pub kind: StepKind,
}

impl From<AllocError> for StepKind {
    ghost use Rattle.schedule_run.specs.declared.fault.StepKind.TheVariants.{Memory};

    ghost from_gives = { λ _ e. e ≡ Memory };

    fn from(_: AllocError) -> StepKind {
        StepKind::Memory
    }
}
