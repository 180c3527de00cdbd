//! The blocks of the goals of a last version.

ghost use Rattle.std.specs.Prelude.{◌≡◌, ◌++◌, IfErr, IfOk, MatchOption, MatchResult, None, OnOk};
ghost use Rattle.facts_run.specs.Claims.{goal_claim, goal_claims};
ghost use Rattle.facts_run.specs.Verdict.{MayTell, Tells, final_refusal};
ghost use Rattle.facts_run.specs.declared.fault.FactsFault.TheVariants.{Memory};
ghost use Rattle.facts_text.specs.Block.{block, blocks, is_met};
ghost use Rattle.final_rules.specs.Met.{AllCanBeMet, CanBeMet};
ghost use Rattle.final_rules.specs.Rules.{final_fault, lines_of, module_goals};
ghost use Rattle.linear_cert.specs.declared.lines.Lines.TheVariants.{Default};

use crate::fault::FactsFault;
use facts_text::{PrintFault, Title, Writer};
use final_judge::goals;
use final_rules::{FinalFault, Goal};
use final_verdict::judge;
use linear_cert::{FinalLine, Lines};
use owned_values::spent;
use std::alloc::Global;
use term_tree::{Module, Path, SizeDecl};

/// The lines of a goal, if it has some of its own.
fn lines_of(number: u64, finals: &[FinalLine]) -> Option<&Lines>
    ensures { MatchOption result (lines_of number finals.now ≡ Default) (λ lines. lines_of number finals.now ≡ lines.now) }
{
    for line in finals {
        if u64::from(line.goal) == number {
            return Some(&line.lines);
        }
    }
    None
}

/// The block of the goal with this number; answers whether its lines show it.
fn put_goal(
    alloc: Global,
    text: &mut Writer,
    sizes: &[SizeDecl],
    number: u64,
    goal: &Goal,
    finals: &[FinalLine],
) -> Result<bool, PrintFault>
    requires { CanBeMet goal.now }
    ensures told { OnOk result (text.new ≡ text.old ++ block sizes.now (goal_claim finals.now number goal.now)) }
    ensures met { IfOk result (λ met. met ≡ is_met (goal_claim finals.now number goal.now)) }
{
    let title = Title::Goal(number);
    match lines_of(number, finals) {
        Some(lines) => text.put_block(alloc, sizes, title, &goal.goal, &goal.facts, lines),
        None => text.put_block(
            alloc,
            sizes,
            title,
            &goal.goal,
            &goal.facts,
            &Lines::Default,
        ),
    }
}

/// The blocks of goals, up to and with the first that is not shown.
fn put_goals(
    alloc: Global,
    text: &mut Writer,
    sizes: &[SizeDecl],
    goals: &[Goal],
    finals: &[FinalLine],
) -> Result<(), PrintFault>
    requires { AllCanBeMet goals.now }
    ensures { OnOk result (text.new ≡ text.old ++ blocks sizes.now (goal_claims finals.now 1 goals.now)) }
{
    for at in 0..goals.len() {
        if !put_goal(alloc, text, sizes, at as u64 + 1, &goals[at], finals)? {
            return Ok(());
        }
    }
    Ok(())
}

/// The blocks of the goals of a version.
fn put_module_goals(
    alloc: Global,
    text: &mut Writer,
    module: &Module,
    finals: &[FinalLine],
) -> Result<(), PrintFault>
    requires { MayTell «module».now }
    ensures { OnOk result (text.new ≡ text.old ++ blocks «module».now.sizes (goal_claims finals.now 1 (module_goals «module».now))) }
{
    match goals(alloc, module) {
        Ok(goals) => put_goals(
            alloc,
            text,
            module.sizes.as_slice(),
            goals.as_slice(),
            finals,
        ),
        Err(_) => Err(PrintFault::Memory),
    }
}

/// Whether the version breaks no rule of the final form but that of goals.
fn judged(
    alloc: Global,
    module: &Module,
    finals: &[FinalLine],
    parallel: &[Path],
) -> Result<(), FactsFault>
    requires { MayTell «module».now }
    ensures { MatchResult result (λ _. final_refusal (final_fault «module».now finals.now parallel.now) ≡ None) (Tells (final_refusal (final_fault «module».now finals.now parallel.now))) }
{
    match judge(alloc, module, finals, parallel) {
        Ok(last) => {
            spent(last);
            Ok(())
        }
        Err(FinalFault::AccessNotShown(_)) => Ok(()),
        Err(FinalFault::DropNotShown(_)) => Ok(()),
        Err(FinalFault::Memory) => Err(FactsFault::Memory),
        Err(fault) => Err(FactsFault::Final(fault)),
    }
}

/// The blocks of the goals of a last version, up to and with the first that is not shown; or the first rule of the final form that it breaks, other than
/// that of goals.
pub fn put_last(
    alloc: Global,
    text: &mut Writer,
    module: &Module,
    finals: &[FinalLine],
    parallel: &[Path],
) -> Result<(), FactsFault>
    requires { MayTell «module».now }
    ensures told { OnOk result (text.new ≡ text.old ++ blocks «module».now.sizes (goal_claims finals.now 1 (module_goals «module».now))) }
    ensures verdict { MatchResult result (λ _. final_refusal (final_fault «module».now finals.now parallel.now) ≡ None) (Tells (final_refusal (final_fault «module».now finals.now parallel.now))) }
{
    match judged(alloc, module, finals, parallel) {
        Ok(()) => {
            put_module_goals(alloc, text, module, finals)?;
            Ok(())
        }
        Err(fault) => Err(fault),
    }
}
