// The faults of texts and modules, each a number and a field.
ghost use Rattle.std.specs.Prelude.{◌≡◌, ◌≢◌, [], ◌∷◌, IfOk, MatchResult};
ghost use Rattle.atl_driver.specs.Compile.{Tells, TellsAdmission, TellsFault, TellsFinal, TellsScript, TellsStep};
ghost use Rattle.atl_driver.specs.Compile.{fault_of as fault_for, one_field, shape_fault_of, two_fields};
ghost use Rattle.atl_driver.specs.declared.compile.CompileRefusal.TheVariants.{Memory};

use crate::compile::CompileRefusal;
use crate::{Fault, FaultField, Fields};
use admission::AdmissionFault;
use atl_reader::ReadFault;
use final_rules::FinalFault;
use path_focus::RuleFault;
use schedule_run::{StepFault, StepKind};
use schedule_script::ScriptFault;
use shape_rules::ShapeFault;
use std::alloc::{AllocError, Global};

fn with_field(alloc: Global, number: u8, field: FaultField) -> Result<Fault, AllocError>
    ensures { IfOk result (λ fault. fault ≡ one_field number field) }
{
    let mut fields = Vec::new(alloc);
    fields.push(field)?;
    let fields = Fields::new(fields);
    Ok(Fault { number, fields })
}

fn with_two(
    alloc: Global,
    number: u8,
    first: FaultField,
    second: FaultField,
) -> Result<Fault, AllocError>
    ensures { IfOk result (λ fault. fault ≡ two_fields number first second) }
{
    let mut fields = Vec::new(alloc);
    fields.push(first)?;
    fields.push(second)?;
    let fields = Fields::new(fields);
    Ok(Fault { number, fields })
}

/// The fault of a text that is not read.
fn read_fault(alloc: Global, fault: ReadFault) -> Result<Fault, CompileRefusal>
    ensures { MatchResult result (λ told. (told ≡ fault_for fault) × (fault ≢ ReadFault.Memory)) (λ refusal. refusal ≡ Memory) }
{
    let (number, field) = match fault {
        ReadFault::NotUtf8 { at } => (1, FaultField::At(at)),
        ReadFault::BadToken { at } => (2, FaultField::At(at)),
        ReadFault::BadSyntax { at } => (3, FaultField::At(at)),
        ReadFault::TooDeep { at } => (4, FaultField::At(at)),
        ReadFault::UnknownName { at } => (5, FaultField::At(at)),
        ReadFault::NameTwice { at } => (6, FaultField::At(at)),
        ReadFault::ReservedName { at } => (7, FaultField::At(at)),
        ReadFault::NumberTooLarge { at } => (8, FaultField::At(at)),
        ReadFault::NotAffine { at } => (9, FaultField::At(at)),
        ReadFault::CoefficientTooLarge { at } => (16, FaultField::At(at)),
        ReadFault::IndexTooLong { at } => (17, FaultField::At(at)),
        ReadFault::TooManyNodes { nodes } => (15, FaultField::Nodes(nodes)),
        ReadFault::Memory => return Err(CompileRefusal::Memory),
    };
    Ok(with_field(alloc, number, field)?)
}

/// The refusal of a text that is not read.
pub fn unread(alloc: Global, fault: ReadFault) -> CompileRefusal
    ensures { Tells fault result }
{
    match read_fault(alloc, fault) {
        Ok(fault) => CompileRefusal::Refused(fault),
        Err(_) => CompileRefusal::Memory,
    }
}

/// The refusal with one field.
pub(crate) fn refused(alloc: Global, number: u8, field: FaultField) -> CompileRefusal
    ensures { TellsFault (one_field number field) result }
{
    match with_field(alloc, number, field) {
        Ok(fault) => CompileRefusal::Refused(fault),
        Err(_) => CompileRefusal::Memory,
    }
}

/// The refusal of a module whose shapes break a rule.
fn misshapen(alloc: Global, fault: ShapeFault) -> CompileRefusal
    ensures { TellsFault (shape_fault_of fault) result }
{
    let (number, field) = match fault {
        ShapeFault::InputRank(input) => (12, FaultField::Input(input)),
        ShapeFault::RankMismatch(path) => (10, FaultField::Path(path)),
        ShapeFault::ShapesDiffer(path) => (11, FaultField::Path(path)),
        ShapeFault::RankTooLarge(path) => (12, FaultField::Path(path)),
        ShapeFault::CoefficientTooLarge(path) => (16, FaultField::Path(path)),
        ShapeFault::IndexTooLong(path) => (17, FaultField::Path(path)),
        ShapeFault::Memory => return CompileRefusal::Memory,
    };
    refused(alloc, number, field)
}

/// The refusal of a module that is not admitted.
pub fn unadmitted(alloc: Global, fault: AdmissionFault) -> CompileRefusal
    ensures { TellsAdmission fault result }
{
    match fault {
        AdmissionFault::Shape(fault) => misshapen(alloc, fault),
        AdmissionFault::ExtentNotShown(goal) => refused(alloc, 13, FaultField::Goal(goal)),
        AdmissionFault::BadExample(constraint) => {
            refused(alloc, 14, FaultField::Constraint(constraint))
        }
        AdmissionFault::Memory => CompileRefusal::Memory,
    }
}

/// The refusal of a module that may not be lowered.
pub fn unlowerable(alloc: Global, fault: FinalFault) -> CompileRefusal
    ensures { TellsFinal fault result }
{
    let (number, field) = match fault {
        FinalFault::NotLowerable(path) => (30, FaultField::Path(path)),
        FinalFault::AccessNotShown(goal) => (31, FaultField::Goal(goal)),
        FinalFault::DropNotShown(goal) => (33, FaultField::Goal(goal)),
        FinalFault::IndexTooLarge(index) => (34, FaultField::Index(index)),
        FinalFault::ParallelNotGen(path) => (35, FaultField::Path(path)),
        FinalFault::LetInParallel(path) => (36, FaultField::Path(path)),
        FinalFault::NestedParallel(path) => (37, FaultField::Path(path)),
        FinalFault::NoSuchGoal(line) => (38, FaultField::Final(line)),
        FinalFault::Memory => return CompileRefusal::Memory,
    };
    refused(alloc, number, field)
}

/// The refusal of a script that is not read.
pub fn unscripted(alloc: Global, fault: ScriptFault) -> CompileRefusal
    ensures { TellsScript fault result }
{
    match fault {
        ScriptFault::ScriptSyntax { at } => refused(alloc, 20, FaultField::At(at)),
        ScriptFault::Memory => CompileRefusal::Memory,
    }
}

/// The refusal with a step and another field.
fn refused_at(alloc: Global, number: u8, step: u64, field: FaultField) -> CompileRefusal
    ensures { TellsFault (two_fields number (FaultField.Step step) field) result }
{
    match with_two(alloc, number, FaultField::Step(step), field) {
        Ok(fault) => CompileRefusal::Refused(fault),
        Err(_) => CompileRefusal::Memory,
    }
}

/// The refusal of a step whose rule makes nothing.
fn unmade(alloc: Global, step: u64, fault: RuleFault) -> CompileRefusal
    ensures { TellsStep (record { step = step; kind = StepKind.Rule fault }) result }
{
    let number = match fault {
        RuleFault::PatternMismatch => 23,
        RuleFault::BadArgument => 24,
        RuleFault::ExtraLines => 26,
        RuleFault::CoefficientTooLarge => 16,
        RuleFault::IndexTooLong => 17,
        RuleFault::ConditionNotShown { condition } => {
            return refused_at(alloc, 25, step, FaultField::Condition(condition));
        }
        RuleFault::TooManyNodes { nodes } => {
            return refused_at(alloc, 15, step, FaultField::Nodes(nodes));
        }
        RuleFault::Memory => return CompileRefusal::Memory,
    };
    refused(alloc, number, FaultField::Step(step))
}

/// The refusal of a script of which a step fails.
pub fn unstaged(alloc: Global, fault: StepFault) -> CompileRefusal
    ensures { TellsStep fault result }
{
    let step = fault.step;
    let number = match fault.kind {
        StepKind::NoSuchRule => 21,
        StepKind::NoSuchPath => 22,
        StepKind::TooDeep => 4,
        StepKind::RankTooLarge => 12,
        StepKind::CoefficientTooLarge => 16,
        StepKind::IndexTooLong => 17,
        StepKind::Rule(fault) => return unmade(alloc, step, fault),
        StepKind::TooManyNodes { nodes } => {
            return refused_at(alloc, 15, step, FaultField::Nodes(nodes));
        }
        StepKind::Memory => return CompileRefusal::Memory,
    };
    refused(alloc, number, FaultField::Step(step))
}
