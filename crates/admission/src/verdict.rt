//! The verdict on a module that was read.

ghost use Rattle.std.specs.Prelude.{◌≡◌, ◌≤◌, [], length, true, IfOk, MatchResult, OnOk, None, Some};
ghost use Rattle.std.specs.Option.{option_map};
ghost use Rattle.admission.specs.Admission.{Accepted, Tells, admission_fault, bad_example, first_false, refusal_of as refusal_for, shape_fault, shown_alone, unshown};
ghost use Rattle.admission.specs.declared.fault.AdmissionFault.TheVariants.{Memory, Shape};
ghost use Rattle.shape_rules.specs.Admitted.{AllShown, SoundByLines, module_facts as module_facts_of};
ghost use Rattle.term_tree.specs.Modules as m;

use crate::constraints::broken_constraint;
use crate::fault::AdmissionFault;
use affine_index::Aff;
use fact_list::Facts;
use linear_cert::{Lines, shown};
use shape_rules::{ShapeFault, extent_goals, module_facts};
use sqlite_items::Items;
use std::alloc::Global;
use term_tree::Module;

fn refusal_of(fault: ShapeFault) -> AdmissionFault
    ensures { result ≡ refusal_for fault }
{
    match fault {
        ShapeFault::InputRank(input) => AdmissionFault::Shape(ShapeFault::InputRank(input)),
        ShapeFault::RankMismatch(path) => AdmissionFault::Shape(ShapeFault::RankMismatch(path)),
        ShapeFault::ShapesDiffer(path) => AdmissionFault::Shape(ShapeFault::ShapesDiffer(path)),
        ShapeFault::RankTooLarge(path) => AdmissionFault::Shape(ShapeFault::RankTooLarge(path)),
        ShapeFault::CoefficientTooLarge(path) => {
            AdmissionFault::Shape(ShapeFault::CoefficientTooLarge(path))
        }
        ShapeFault::IndexTooLong(path) => AdmissionFault::Shape(ShapeFault::IndexTooLong(path)),
        ShapeFault::Memory => AdmissionFault::Memory,
    }
}

/// The extent goals, where the shape rules hold.
fn shaped(alloc: Global, module: &Module) -> Result<Items<Aff>, AdmissionFault>
    requires scoped { m.module_scoped «module».now ≡ true }
    requires inputs { length «module».now.inputs ≤ 2147483647 }
    requires outputs { length «module».now.outputs ≤ 2147483647 }
    ensures goals { IfOk result (λ goals. goals ≡ m.extent_goals «module».now) }
    ensures shapes { MatchResult result (λ _. shape_fault «module».now ≡ None) (Tells (option_map Shape (shape_fault «module».now))) }
    ensures sound { IfOk result (SoundByLines «module».now) }
{
    match extent_goals(alloc, module) {
        Ok(goals) => Ok(goals),
        Err(fault) => Err(refusal_of(fault)),
    }
}

/// The number of the first goal that default lines do not show, counted from 1.
fn first_unshown(alloc: Global, facts: &Facts, goals: &[Aff]) -> Result<Option<u64>, AdmissionFault>
    requires sizes { length facts.now.sizes ≤ 2147483647 }
    requires path { facts.now.path ≡ [] }
    ensures { MatchResult result (λ found. found ≡ first_false 1 (shown_alone facts.now goals.now)) (λ fault. fault ≡ Memory) }
{
    for at in 0..goals.len() {
        match shown(alloc, facts, &goals[at], &Lines::Default) {
            Ok(true) => {}
            Ok(false) => return Ok(Some(at as u64 + 1)),
            Err(_) => return Err(AdmissionFault::Memory),
        }
    }
    Ok(None)
}

/// Nothing where default lines show each goal, else the first that they do not show.
fn all_shown(alloc: Global, module: &Module, goals: &[Aff]) -> Result<(), AdmissionFault>
    requires sizes { length «module».now.sizes ≤ 2147483647 }
    ensures answers { MatchResult result (λ _. unshown «module».now goals.now ≡ None) (Tells (unshown «module».now goals.now)) }
    ensures shown { OnOk result (AllShown (module_facts_of «module».now) goals.now) }
{
    let facts = module_facts(alloc, module)?;
    match first_unshown(alloc, &facts, goals)? {
        Some(number) => Err(AdmissionFault::ExtentNotShown(number)),
        None => Ok(()),
    }
}

/// Nothing where the example keeps each constraint, else the first that it breaks.
fn example_kept(module: &Module) -> Result<(), AdmissionFault>
    requires scoped { m.module_scoped «module».now ≡ true }
    requires sizes { length «module».now.sizes ≤ 2147483647 }
    requires example { length «module».now.example ≡ length «module».now.sizes }
    ensures answers { MatchResult result (λ _. bad_example «module».now ≡ None) (Tells (bad_example «module».now)) }
    ensures allowed { OnOk result (m.Allowed «module».now «module».now.example) }
{
    match broken_constraint(module, module.example.as_slice()) {
        Some(number) => Err(AdmissionFault::BadExample(number)),
        None => Ok(()),
    }
}

/// Nothing where the module is admitted, else the first rule that it breaks: inputs of a rank over 8 in order, then the first
/// node of the outputs, children before their parent, at which a shape rule fails; the first extent goal that default lines do
/// not show; the first constraint that the example breaks. The time is that of the default lines of the goals, and linear beside.
pub fn admit(alloc: Global, module: &Module) -> Result<(), AdmissionFault>
    requires scoped { m.module_scoped «module».now ≡ true }
    requires sizes { length «module».now.sizes ≤ 2147483647 }
    requires inputs { length «module».now.inputs ≤ 2147483647 }
    requires outputs { length «module».now.outputs ≤ 2147483647 }
    requires example { length «module».now.example ≡ length «module».now.sizes }
    ensures answers { MatchResult result (λ _. Accepted «module».now) (Tells (admission_fault «module».now)) }
    ensures sound { OnOk result (m.IsSound «module».now) }
    ensures allowed { OnOk result (m.Allowed «module».now «module».now.example) }
{
    let goals = shaped(alloc, module)?;
    all_shown(alloc, module, goals.as_slice())?;
    example_kept(module)
}
