//! Runs of sources on given texts by the plain evaluator.

use crate::calls::{PLAIN, over};
use crate::run::{COLUMNS, OUTPUTS, STEPLESS};
use crate::scheduled::{ATTENTION, ATTENTION_STEPS, BEHIND, SCALE, SEVENS};
use atl_driver::Status;
use std::alloc::Global;
use std::process::Abort;
use std::test::Fail;

/// The status of a run by the plain evaluator: what it writes is compared.
fn plain(
    rt: &impl Abort,
    alloc: Global,
    (source, script, given): (&str, &str, &str),
    texts: (&str, &str),
) -> Result<Status, Fail> {
    let files = [
        ("a.atl", source.as_bytes()),
        ("a.sched", script.as_bytes()),
        ("a.given", given.as_bytes()),
    ];
    over(rt, alloc, &PLAIN, &files, 1024, texts)
}

#[test]
fn the_source_is_computed_without_its_loops(rt: HostRuntime) -> Result<(), Fail> {
    let alloc = rt.alloc();
    let table = [
        ((SCALE, STEPLESS, "N: 3; A: 1 2 3;"), "B: 2 4 6;\n"),
        ((COLUMNS, STEPLESS, "N: 0; A:;"), "B:;\n"),
        (
            (COLUMNS, STEPLESS, "N: 2; A: 1 2 3 4 5 6 7 8 9 10;"),
            "B: 1 6 2 7 3 8 4 9 5 10;\n",
        ),
        (
            (OUTPUTS, STEPLESS, "N: 3; A: 5 6 7;"),
            "B: 5 12 21;\nC: 0;\n",
        ),
        (
            (
                ATTENTION,
                ATTENTION_STEPS,
                "N: 2; D: 2; Q: 1 2 3 4; K: 1 0 0 1; V: 1 2 3 4;",
            ),
            "O: 7 10 15 22;\n",
        ),
    ];
    for (files, text) in table {
        let status = plain(&rt, alloc, files, (text, ""))?;
        assert!(rt; matches!(status, Status::Done));
    }
    Ok(())
}

#[test]
fn what_is_not_computed_has_its_first_fault(rt: HostRuntime) -> Result<(), Fail> {
    let alloc = rt.alloc();
    let table = [
        // The last version has to be in final form, though its loops are not run.
        (
            (BEHIND, STEPLESS, "N: 1; A: 1;"),
            "F30 NotLowerable path 0\n",
        ),
        ((SCALE, STEPLESS, "N: 3; A: 1 2 x;"), "F40 BadData at 13\n"),
        (
            (SCALE, STEPLESS, "N: 9; A:;"),
            "F41 SizesNotAllowed constraint 1\n",
        ),
        (
            (SCALE, STEPLESS, "N: 3; A: 1 2;"),
            "F42 WrongCount input 0 want 3 got 2\n",
        ),
        // The source has turns of two loops, one in the other, of which the last version has one.
        (
            (SEVENS, "schedule 1; at 0.0 do beta;", "N: 1048576;"),
            "F44 TooMuchWork steps 134217729\n",
        ),
    ];
    for (files, line) in table {
        let status = plain(&rt, alloc, files, ("", line))?;
        assert!(rt; matches!(status, Status::Refused(_)));
    }
    Ok(())
}
