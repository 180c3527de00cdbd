// The line of a fault.
ghost use Rattle.std.specs.Prelude.{◌≡◌, ◌<◌, ◌≤◌, IfOk, string_bytes};
ghost use Rattle.atl_driver.specs.Line.{path_text, field_word, field_value, field_text, fault_head, fault_line};
ghost use Rattle.atl_driver.specs.Names.{fault_name, source_fault_name, script_fault_name, final_fault_name, run_fault_name};

use crate::{Fault, FaultField};
use c_print::buffer_name;
use std::alloc::{AllocError, Global};
use term_tree::Path;

fn path_text(alloc: Global, path: &Path) -> Result<String, AllocError>
    ensures { IfOk result (λ text. string_bytes text ≡ path_text path.now) }
{
    let output = path.output;
    let mut text = format!(in alloc; "{output}")?;
    for step in path.steps.as_slice() {
        let more = format!(in alloc; ".{step}")?;
        text.push_str(more.as_str())?;
    }
    Ok(text)
}

fn field_word(field: &FaultField) -> &'static str
    ensures { result.now ≡ field_word field.now }
{
    match field {
        FaultField::At(_) => "at",
        FaultField::Path(_) => "path",
        FaultField::Input(_) => "input",
        FaultField::Step(_) => "step",
        FaultField::Condition(_) => "condition",
        FaultField::Goal(_) => "goal",
        FaultField::Constraint(_) => "constraint",
        FaultField::Index(_) => "index",
        FaultField::Final(_) => "final",
        FaultField::Nodes(_) => "nodes",
        FaultField::Words(_) => "words",
        FaultField::Steps(_) => "steps",
        FaultField::Actions(_) => "actions",
        FaultField::Want(_) => "want",
        FaultField::Got(_) => "got",
        FaultField::Outside(_, _) => "outside",
        FaultField::Overflow => "overflow",
        FaultField::Negative => "negative",
    }
}

fn field_value(alloc: Global, field: &FaultField) -> Result<String, AllocError>
    ensures { IfOk result (λ value. string_bytes value ≡ field_value field.now) }
{
    match field {
        FaultField::At(number)
        | FaultField::Step(number)
        | FaultField::Condition(number)
        | FaultField::Goal(number)
        | FaultField::Constraint(number)
        | FaultField::Index(number)
        | FaultField::Final(number)
        | FaultField::Nodes(number)
        | FaultField::Words(number)
        | FaultField::Steps(number)
        | FaultField::Actions(number)
        | FaultField::Want(number)
        | FaultField::Got(number) => format!(in alloc; " {number}"),
        FaultField::Input(number) => format!(in alloc; " {number}"),
        FaultField::Path(path) => {
            let path = path_text(alloc, path)?;
            format!(in alloc; " {path}")
        }
        FaultField::Outside(buffer, index) => {
            let name = buffer_name(alloc, *buffer)?;
            format!(in alloc; " {name} {index}")
        }
        FaultField::Overflow | FaultField::Negative => Ok(String::new(alloc)),
    }
}

fn field_text(alloc: Global, field: &FaultField) -> Result<String, AllocError>
    ensures { IfOk result (λ text. string_bytes text ≡ field_text field.now) }
{
    let word = field_word(field);
    let value = field_value(alloc, field)?;
    format!(in alloc; " {word}{value}")
}

fn source_fault_name(number: u8) -> &'static str
    ensures { result.now ≡ source_fault_name number }
{
    match number {
        1 => "NotUtf8",
        2 => "BadToken",
        3 => "BadSyntax",
        4 => "TooDeep",
        5 => "UnknownName",
        6 => "NameTwice",
        7 => "ReservedName",
        8 => "NumberTooLarge",
        9 => "NotAffine",
        10 => "RankMismatch",
        11 => "ShapesDiffer",
        12 => "RankTooLarge",
        13 => "ExtentNotShown",
        14 => "BadExample",
        15 => "TooManyNodes",
        16 => "CoefficientTooLarge",
        17 => "IndexTooLong",
        _ => "Unnamed",
    }
}

fn script_fault_name(number: u8) -> &'static str
    ensures { result.now ≡ script_fault_name number }
{
    match number {
        20 => "ScriptSyntax",
        21 => "NoSuchRule",
        22 => "NoSuchPath",
        23 => "PatternMismatch",
        24 => "BadArgument",
        25 => "ConditionNotShown",
        26 => "ExtraLines",
        _ => "Unnamed",
    }
}

fn final_fault_name(number: u8) -> &'static str
    ensures { result.now ≡ final_fault_name number }
{
    match number {
        30 => "NotLowerable",
        31 => "AccessNotShown",
        33 => "DropNotShown",
        34 => "IndexTooLarge",
        35 => "ParallelNotGen",
        36 => "LetInParallel",
        37 => "NestedParallel",
        38 => "NoSuchGoal",
        _ => "Unnamed",
    }
}

fn run_fault_name(number: u8) -> &'static str
    ensures { result.now ≡ run_fault_name number }
{
    match number {
        40 => "BadData",
        41 => "SizesNotAllowed",
        42 => "WrongCount",
        43 => "TooBigToRun",
        44 => "TooMuchWork",
        45 => "TooManyActions",
        50 => "BadC",
        51 => "Stuck",
        _ => "Unnamed",
    }
}

fn fault_name(number: u8) -> &'static str
    ensures { result.now ≡ fault_name number }
{
    if number < 20 {
        source_fault_name(number)
    } else if number < 30 {
        script_fault_name(number)
    } else if number < 40 {
        final_fault_name(number)
    } else {
        run_fault_name(number)
    }
}

fn fault_head(alloc: Global, number: u8) -> Result<String, AllocError>
    ensures { IfOk result (λ head. string_bytes head ≡ fault_head number) }
{
    let name = fault_name(number);
    if number < 10 {
        format!(in alloc; "F0{number} {name}")
    } else {
        format!(in alloc; "F{number} {name}")
    }
}

/// The number, the name and the fields of a fault, with a line end.
pub fn fault_line(alloc: Global, fault: &Fault) -> Result<String, AllocError>
    ensures { IfOk result (λ line. string_bytes line ≡ fault_line fault.now) }
{
    let mut line = fault_head(alloc, fault.number)?;
    for field in fault.fields.as_slice() {
        let text = field_text(alloc, field)?;
        line.push_str(text.as_str())?;
    }
    line.push_str("\n")?;
    Ok(line)
}
