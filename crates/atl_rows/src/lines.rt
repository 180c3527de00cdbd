//! Faults with their lines.

use atl_driver::{Fault, FaultField, Fields, fault_line};
use loop_lang::Buf;
use sqlite_items::Items;
use std::alloc::{AllocError, Global};
use std::process::Abort;
use std::test::Fail;
use term_tree::Path;

fn path(alloc: Global, steps: &[u32]) -> Result<FaultField, AllocError> {
    let steps = Items::from_slice(alloc, steps)?;
    Ok(FaultField::Path(Path { output: 0, steps }))
}

fn has_line(
    rt: &impl Abort,
    alloc: Global,
    number: u8,
    fields: Vec<FaultField>,
    want: &str,
) -> Result<(), Fail> {
    let fields = Fields::new(fields);
    let line = fault_line(alloc, &Fault { number, fields })?;
    assert_eq!(rt; line.as_str().strip_suffix("\n"), Some(want));
    Ok(())
}

#[test]
fn lines_with_a_number(rt: HostRuntime) -> Result<(), Fail> {
    use FaultField::{Actions, At, Constraint, Final, Goal, Index, Nodes, Step, Steps, Words};
    use FaultField::{Negative, Outside, Overflow};
    let alloc = rt.alloc();
    let table = [
        (1, At(7), "F01 NotUtf8 at 7"),
        (4, At(1018), "F04 TooDeep at 1018"),
        (9, At(56), "F09 NotAffine at 56"),
        (13, Goal(1), "F13 ExtentNotShown goal 1"),
        (14, Constraint(2), "F14 BadExample constraint 2"),
        (15, Nodes(20001), "F15 TooManyNodes nodes 20001"),
        (26, Step(1), "F26 ExtraLines step 1"),
        (34, Index(1), "F34 IndexTooLarge index 1"),
        (38, Final(1), "F38 NoSuchGoal final 1"),
        (
            43,
            Words(4_611_686_018_427_387_904),
            "F43 TooBigToRun words 4611686018427387904",
        ),
        (44, Steps(134_217_729), "F44 TooMuchWork steps 134217729"),
        (45, Actions(1_048_577), "F45 TooManyActions actions 1048577"),
        (51, Outside(Buf::Output(0), -1), "F51 Stuck outside b0 -1"),
        (51, Outside(Buf::Input(0), 1), "F51 Stuck outside a0 1"),
        (51, Outside(Buf::Scratch(3), 0), "F51 Stuck outside s3 0"),
        (51, Overflow, "F51 Stuck overflow"),
        (51, Negative, "F51 Stuck negative"),
    ];
    for (number, field, want) in Vec::from_array(alloc, table)? {
        let mut fields = Vec::new(alloc);
        fields.push(field)?;
        has_line(&rt, alloc, number, fields, want)?;
    }
    Ok(())
}

#[test]
fn lines_with_a_path_or_several_fields(rt: HostRuntime) -> Result<(), Fail> {
    use FaultField::{Condition, Got, Input, Step, Want};
    let alloc = rt.alloc();
    let output = Vec::from_array(alloc, [path(alloc, &[])?])?;
    has_line(&rt, alloc, 10, output, "F10 RankMismatch path 0")?;
    let within = Vec::from_array(alloc, [path(alloc, &[0, 0, 0, 0, 1])?])?;
    has_line(&rt, alloc, 30, within, "F30 NotLowerable path 0.0.0.0.0.1")?;
    let fields = Vec::from_array(alloc, [Step(1), Condition(2)])?;
    has_line(
        &rt,
        alloc,
        25,
        fields,
        "F25 ConditionNotShown step 1 condition 2",
    )?;
    let fields = Vec::from_array(alloc, [Input(0), Want(3), Got(2)])?;
    has_line(
        &rt,
        alloc,
        42,
        fields,
        "F42 WrongCount input 0 want 3 got 2",
    )
}
