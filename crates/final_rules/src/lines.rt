//! Final lines, and whether they show the goals.

ghost use Rattle.std.specs.Prelude.{◌≡◌, IfOk, MatchOption};
ghost use Rattle.linear_cert.specs.declared.lines.Lines.TheVariants.{Default};
ghost use Rattle.final_rules.specs.Met.{AllCanBeMet, CanBeMet, is_met};
ghost use Rattle.final_rules.specs.Rules.{goal_fault, line_fault, lines_of, not_shown};

use crate::fault::FinalFault;
use crate::goal::{Goal, GoalKind, is_met};
use fact_list::CertRefusal;
use linear_cert::{FinalLine, Lines};
use std::alloc::Global;

/// The first line whose number is no goal, or not above the one before, where there are so many goals.
pub fn line_fault(goals: usize, finals: &[FinalLine]) -> Option<FinalFault>
    ensures { result ≡ line_fault goals 0 1 finals.now }
{
    let mut last: u32 = 0;
    for i in 0..finals.len() {
        let goal = finals[i].goal;
        if goal <= last || goal as usize > goals {
            return Some(FinalFault::NoSuchGoal(i as u64 + 1));
        }
        last = goal;
    }
    None
}

/// The lines of a goal, if it has some of its own.
fn lines_of(number: usize, finals: &[FinalLine]) -> Option<&Lines>
    ensures { MatchOption result (lines_of number finals.now ≡ Default) (λ lines. lines_of number finals.now ≡ lines.now) }
{
    for line in finals {
        if line.goal as usize == number {
            return Some(&line.lines);
        }
    }
    None
}

fn is_met_by(
    alloc: Global,
    goal: &Goal,
    number: usize,
    finals: &[FinalLine],
) -> Result<bool, CertRefusal>
    requires { CanBeMet goal.now }
    ensures { IfOk result (λ b. b ≡ is_met goal.now (lines_of number finals.now)) }
{
    match lines_of(number, finals) {
        Some(lines) => is_met(alloc, goal, lines),
        None => is_met(alloc, goal, &Lines::Default),
    }
}

fn not_shown(number: u64, kind: GoalKind) -> FinalFault
    ensures { result ≡ not_shown number kind }
{
    match kind {
        GoalKind::Read => FinalFault::AccessNotShown(number),
        GoalKind::Drop => FinalFault::DropNotShown(number),
    }
}

/// The fault of the first goal that its lines, or default lines, do not show.
pub fn goal_fault(
    alloc: Global,
    finals: &[FinalLine],
    goals: &[Goal],
) -> Result<Option<FinalFault>, CertRefusal>
    requires { AllCanBeMet goals.now }
    ensures { IfOk result (λ fault. fault ≡ goal_fault finals.now 1 goals.now) }
{
    for i in 0..goals.len() {
        if !is_met_by(alloc, &goals[i], i + 1, finals)? {
            return Ok(Some(not_shown(i as u64 + 1, goals[i].kind)));
        }
    }
    Ok(None)
}
