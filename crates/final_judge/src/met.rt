//! Whether lines show the goals.

ghost use Rattle.std.specs.Prelude.{◌≡◌, ◌≤◌, All, IfOk, length};
ghost use Rattle.term_tree.specs.Counts.{node_count};
ghost use Rattle.term_tree.specs.Modules.{IsSound};
ghost use Rattle.final_rules.specs.Met.{AllCanBeMet};
ghost use Rattle.final_rules.specs.Rules.{goal_fault, line_fault, module_goals, or_else};

use crate::outputs::goals;
use fact_list::CertRefusal;
use final_rules::lines::{goal_fault, line_fault};
use final_rules::{FinalFault, Goal};
use linear_cert::FinalLine;
use sqlite_items::Items;
use std::alloc::Global;
use term_tree::Module;

/// The goals of a module, on which lines may be tried.
fn ready_goals(alloc: Global, module: &Module) -> Result<Items<Goal>, CertRefusal>
    requires sound { IsSound «module».now }
    requires sizes { length «module».now.sizes ≤ 2147483647 }
    requires nodes { All (λ o. node_count o.term ≤ 20000) «module».now.outputs }
    ensures goals { IfOk result (λ gs. gs ≡ module_goals «module».now) }
    ensures ready { IfOk result AllCanBeMet }
{
    match goals(alloc, module) {
        Ok(goals) => Ok(goals),
        Err(_) => Err(CertRefusal::Memory),
    }
}

/// The fault of the first final line that names no goal of a sound module, or not one above the line before, and else of the first goal that its lines,
/// or default lines, do not show. Want of memory is also answered where `goals` answers it.
pub fn claims_fault(
    alloc: Global,
    module: &Module,
    finals: &[FinalLine],
) -> Result<Option<FinalFault>, CertRefusal>
    requires sound { IsSound «module».now }
    requires sizes { length «module».now.sizes ≤ 2147483647 }
    requires nodes { All (λ o. node_count o.term ≤ 20000) «module».now.outputs }
    ensures { IfOk result (λ fault. fault ≡ or_else (line_fault (length (module_goals «module».now)) 0 1 finals.now) (goal_fault finals.now 1 (module_goals «module».now))) }
{
    let goals = ready_goals(alloc, module)?;
    match line_fault(goals.len(), finals) {
        Some(fault) => Ok(Some(fault)),
        None => goal_fault(alloc, finals, goals.as_slice()),
    }
}
