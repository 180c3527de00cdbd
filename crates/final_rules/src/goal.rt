//! Goals, and whether lines show them.

ghost use Rattle.std.specs.Prelude.{◌≡◌, ◌≤◌, length, IfOk, IsTrue};
ghost use Rattle.fact_list.specs.Facts.{moves_fit};
ghost use Rattle.final_rules.specs.Met.{is_met};

use affine_index::Aff;
use fact_list::{CertRefusal, Facts};
use linear_cert::{Lines, shown};
use std::alloc::Global;

/// What a goal keeps within bounds.
#[derive(Debug, Drop, Clone, Copy, PartialEq, Eq)]
pub enum GoalKind {
    /// An index of a read.
    Read,
    /// What a truncation keeps.
    Drop,
}

/// A form that has to be at least 0 where the facts hold. None where it breaks a limit of normal forms.
#[derive(Drop)]
pub struct Goal {
    pub kind: GoalKind,
    pub goal: Option<Aff>,
    pub facts: Facts,
}

/// Whether lines show a goal.
pub fn is_met(alloc: Global, goal: &Goal, lines: &Lines) -> Result<bool, CertRefusal>
    requires sizes { length goal.now.facts.sizes ≤ 2147483647 }
    requires path { length goal.now.facts.path ≤ 2147483647 }
    requires fit { IsTrue (moves_fit goal.now.facts.path) }
    ensures { IfOk result (λ b. b ≡ is_met goal.now lines.now) }
{
    match &goal.goal {
        None => Ok(false),
        Some(form) => shown(alloc, &goal.facts, form, lines),
    }
}
