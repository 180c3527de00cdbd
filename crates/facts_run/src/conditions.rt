//! The blocks of the conditions of a step.

ghost use Rattle.std.specs.Prelude.{◌≡◌, ◌<◌, ◌++◌, IfErr, IfOk, OnOk};
ghost use Rattle.facts_run.specs.Claims.{condition_claim, condition_claims, step_claims};
ghost use Rattle.facts_run.specs.Verdict.{OwedListed};
ghost use Rattle.facts_run.specs.declared.fault.FactsFault.TheVariants.{Memory};
ghost use Rattle.facts_text.specs.Block.{block, blocks, is_met};
ghost use Rattle.path_focus.specs.Outcome.{AllListed, IsListed};
ghost use Rattle.schedule_run.specs.Conditions.{AnswersOwed, conditions_of_step};
ghost use Rattle.schedule_run.specs.Versions.{MayRun};

use crate::fault::FactsFault;
use facts_text::{PrintFault, Title, Writer};
use linear_cert::Lines;
use owned_values::spent;
use path_focus::{Condition, PathRefusal, focus};
use schedule_run::{StepKind, step_conditions};
use schedule_script::Step;
use sqlite_items::Items;
use std::alloc::{AllocError, Global};
use term_tree::{Module, SizeDecl};

/// Tells a proof that the facts of the conditions of a step may be listed, and does nothing else. Linear in the module.
fn told_listed(alloc: Global, module: &Module, step: &Step) -> Result<(), AllocError>
    requires { MayRun «module».now }
    ensures { IfOk result (λ _. OwedListed (conditions_of_step «module».now step.now)) }
{
    match focus(alloc, module, &step.path) {
        Ok(place) => {
            spent(place);
            Ok(())
        }
        Err(PathRefusal::NoSuchPath) => Ok(()),
        Err(PathRefusal::Memory) => Err(AllocError),
    }
}

/// The conditions of a step, whose facts may be listed.
fn listed_conditions(
    alloc: Global,
    module: &Module,
    step: &Step,
) -> Result<Items<Condition>, StepKind>
    requires { MayRun «module».now }
    ensures answers { AnswersOwed (conditions_of_step «module».now step.now) result }
    ensures listed { IfOk result AllListed }
{
    match told_listed(alloc, module, step) {
        Ok(()) => step_conditions(alloc, module, step),
        Err(_) => Err(StepKind::Memory),
    }
}

/// The block of a condition, before which so many stand; answers whether its lines show it.
fn put_condition(
    alloc: Global,
    text: &mut Writer,
    sizes: &[SizeDecl],
    step: u64,
    place: usize,
    condition: &Condition,
    lines: &[Lines],
) -> Result<bool, PrintFault>
    requires listed { IsListed condition.now }
    requires place { place < 18446744073709551615 }
    ensures told { OnOk result (text.new ≡ text.old ++ block sizes.now (condition_claim step lines.now place condition.now)) }
    ensures met { IfOk result (λ met. met ≡ is_met (condition_claim step lines.now place condition.now)) }
{
    let title = Title::Condition {
        step,
        condition: place as u64 + 1,
    };
    let default = Lines::Default;
    let own = if place < lines.len() {
        &lines[place]
    } else {
        &default
    };
    text.put_block(alloc, sizes, title, &condition.goal, &condition.facts, own)
}

/// The blocks of conditions, up to and with the first that is not shown.
fn put_conditions(
    alloc: Global,
    text: &mut Writer,
    sizes: &[SizeDecl],
    step: u64,
    conditions: &[Condition],
    lines: &[Lines],
) -> Result<(), PrintFault>
    requires { AllListed conditions.now }
    ensures { OnOk result (text.new ≡ text.old ++ blocks sizes.now (condition_claims step lines.now 0 conditions.now)) }
{
    for at in 0..conditions.len() {
        if !put_condition(alloc, text, sizes, step, at, &conditions[at], lines)? {
            return Ok(());
        }
    }
    Ok(())
}

/// The blocks of the conditions of a step, up to and with the first that is not shown; none where the step has no conditions.
pub fn put_owed(
    alloc: Global,
    text: &mut Writer,
    module: &Module,
    step: &Step,
    number: u64,
) -> Result<(), FactsFault>
    requires { MayRun «module».now }
    ensures told { OnOk result (text.new ≡ text.old ++ blocks «module».now.sizes (step_claims number «module».now step.now)) }
    ensures refused { IfErr result (λ e. e ≡ Memory) }
{
    match listed_conditions(alloc, module, step) {
        Ok(conditions) => {
            let sizes = module.sizes.as_slice();
            let lines = step.lines.as_slice();
            put_conditions(alloc, text, sizes, number, conditions.as_slice(), lines)?;
            Ok(())
        }
        Err(StepKind::Memory) => Err(FactsFault::Memory),
        Err(_) => Ok(()),
    }
}
