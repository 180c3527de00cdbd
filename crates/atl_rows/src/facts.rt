//! What scripts have to show of sources, with the facts that may show it.

use crate::calls::{FACTS, refuses, under, writes};
use crate::scheduled::{BEHIND, CUT, LONG, NEXT, REREAD, SCALE};
use atl_driver::Status;
use std::test::Fail;

const REREAD_TEXT: &str = "step 1 condition 1: shown
goal i0 >= 0
1: N >= 0
2: 8 - N >= 0
3: i0 >= 0
4: N - i0 - 1 >= 0
step 1 condition 2: shown
goal N - i0 - 1 >= 0
1: N >= 0
2: 8 - N >= 0
3: i0 >= 0
4: N - i0 - 1 >= 0
goal 1: shown
goal i0 >= 0
1: N >= 0
2: 8 - N >= 0
3: i0 >= 0
4: N - i0 - 1 >= 0
goal 2: shown
goal N - i0 - 1 >= 0
1: N >= 0
2: 8 - N >= 0
3: i0 >= 0
4: N - i0 - 1 >= 0
";

// With lines of its own that do not show it, though the default lines would.
const REREAD_NOT_SHOWN: &str = "step 1 condition 1: shown
goal i0 >= 0
1: N >= 0
2: 8 - N >= 0
3: i0 >= 0
4: N - i0 - 1 >= 0
step 1 condition 2: not shown
goal N - i0 - 1 >= 0
1: N >= 0
2: 8 - N >= 0
3: i0 >= 0
4: N - i0 - 1 >= 0
";

const NEXT_TEXT: &str = "goal 1: shown
goal i0 + 1 >= 0
1: N >= 0
2: 8 - N >= 0
3: i0 >= 0
4: N - i0 - 1 >= 0
goal 2: not shown
goal N - i0 - 2 >= 0
1: N >= 0
2: 8 - N >= 0
3: i0 >= 0
4: N - i0 - 1 >= 0
";

// The goal of a truncation.
const CUT_TEXT: &str = "goal 1: not shown
goal N - i0 - 3 >= 0
1: N - 2 >= 0
2: 8 - N >= 0
3: i0 >= 0
4: N - i0 - 1 >= 0
";

// The row behind the last is none of the generation.
const BEHIND_TEXT: &str = "step 1 condition 1: shown
goal N >= 0
1: N - 1 >= 0
2: 8 - N >= 0
step 1 condition 2: not shown
goal 0 - 1 >= 0
1: N - 1 >= 0
2: 8 - N >= 0
";

// In tiles: the goal of the truncation, then those of the read; a guard's fact, and the two of a quotient at the end.
const LONG_TEXT: &str = "goal 1: shown
goal N - 4 * i0 - i1 - 1 >= 0
1: N >= 0
2: 100 - N >= 0
3: i0 >= 0
4: (N + 3) / 4 - i0 - 1 >= 0
5: i1 >= 0
6: 3 - i1 >= 0
7: N - 4 * i0 - i1 - 1 >= 0
8: N + 3 - 4 * ((N + 3) / 4) >= 0
9: 4 * ((N + 3) / 4) - N >= 0
goal 2: shown
goal 4 * i0 + i1 >= 0
1: N >= 0
2: 100 - N >= 0
3: i0 >= 0
4: (N + 3) / 4 - i0 - 1 >= 0
5: i1 >= 0
6: 3 - i1 >= 0
7: N - 4 * i0 - i1 - 1 >= 0
8: N + 3 - 4 * ((N + 3) / 4) >= 0
9: 4 * ((N + 3) / 4) - N >= 0
goal 3: shown
goal N - 4 * i0 - i1 - 1 >= 0
1: N >= 0
2: 100 - N >= 0
3: i0 >= 0
4: (N + 3) / 4 - i0 - 1 >= 0
5: i1 >= 0
6: 3 - i1 >= 0
7: N - 4 * i0 - i1 - 1 >= 0
8: N + 3 - 4 * ((N + 3) / 4) >= 0
9: 4 * ((N + 3) / 4) - N >= 0
";

#[test]
fn what_is_to_be_shown_stands_up_to_the_first_that_is_not(rt: HostRuntime) -> Result<(), Fail> {
    let alloc = rt.alloc();
    let table = [
        ("atl 1; output B = 5;", "schedule 1;", ""),
        (REREAD, "schedule 1; at 0.0 do beta;", REREAD_TEXT),
        (
            REREAD,
            "schedule 1; at 0.0 do beta by {3: 1} by {4: 2};",
            REREAD_NOT_SHOWN,
        ),
        (NEXT, "schedule 1;", NEXT_TEXT),
        (CUT, "schedule 1;", CUT_TEXT),
        (LONG, "schedule 1; at 0 do split_gen(4);", LONG_TEXT),
        (BEHIND, "schedule 1; at 0 do beta;", BEHIND_TEXT),
        // Behind a condition that is not shown nothing is looked at.
        (
            BEHIND,
            "schedule 1; at 0 do beta; at 0 do nosuch; goal 9 by default;",
            BEHIND_TEXT,
        ),
    ];
    for (source, script, text) in table {
        writes(&rt, alloc, &FACTS, source, script, text)?;
    }
    Ok(())
}

const WIDE: &str =
    "atl 1; size N in 0..1099511627776; size M in 0..1099511627776; example N = 2, M = 3; \
     input A[N][M]; output B = gen i < N. gen j < M. A[i][j];";

#[test]
fn faults_but_of_what_is_not_shown_refuse(rt: HostRuntime) -> Result<(), Fail> {
    let alloc = rt.alloc();
    let table = [
        (
            "atl 1;\noutput B = x;",
            "schedule",
            "F05 UnknownName at 18\n",
        ),
        (BEHIND, "schedule", "F20 ScriptSyntax at 8\n"),
        (
            SCALE,
            "schedule 1; at 0 do nosuch;",
            "F21 NoSuchRule step 1\n",
        ),
        (
            SCALE,
            "schedule 1; at 0 do beta;",
            "F23 PatternMismatch step 1\n",
        ),
        (
            REREAD,
            "schedule 1; at 0.0 do beta(1);",
            "F24 BadArgument step 1\n",
        ),
        (
            REREAD,
            "schedule 1; at 0.0 do beta by {3: 1} by {4: 1} by default;",
            "F26 ExtraLines step 1\n",
        ),
        (
            REREAD,
            "schedule 1; at 0.0 do beta; at 0.7 do beta;",
            "F22 NoSuchPath step 2\n",
        ),
        (BEHIND, "schedule 1;", "F30 NotLowerable path 0\n"),
        (WIDE, "schedule 1;", "F34 IndexTooLarge index 1\n"),
        // A final line that names no goal, also where a goal is not shown.
        (
            NEXT,
            "schedule 1; goal 9 by default;",
            "F38 NoSuchGoal final 1\n",
        ),
    ];
    for (source, script, line) in table {
        refuses(&rt, alloc, &FACTS, source, script, line)?;
    }
    Ok(())
}

#[test]
fn facts_that_find_no_room_are_a_write_fault(rt: HostRuntime) -> Result<(), Fail> {
    let alloc = rt.alloc();
    let status = under(&rt, alloc, &FACTS, NEXT, "schedule 1;", 6, ("goal 1", ""))?;
    assert!(rt; matches!(status, Status::WriteFault));
    Ok(())
}
