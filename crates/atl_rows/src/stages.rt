//! The versions of sources under scripts.

use crate::calls::{STAGES, refuses, under, writes};
use crate::scheduled::{BEHIND, LONG, SCALE};
use atl_driver::Status;
use std::test::Fail;

const SCALE_TEXT: &str = "# version 0
atl 1;
size N in 0..8;
example N = 3;
input A[N];
output B = gen i0 < N. A[i0] * 2;
";

// The text below the line.
const SCALE_BELOW: &str = "atl 1;
size N in 0..8;
example N = 3;
input A[N];
output B = gen i0 < N. A[i0] * 2;
";

const LONG_TEXT: &str = "# version 0
atl 1;
size N in 0..100;
example N = 3;
input A[N];
output B = gen i0 < N. A[i0] * 2;
# version 1
atl 1;
size N in 0..100;
example N = 3;
input A[N];
output B = truncr(4 * ((N + 3) / 4) - N, flatten(gen i0 < (N + 3) / 4. gen i1 < 4. guard N - 4 * i0 - i1 - 1 >= 0. A[4 * i0 + i1] * 2));
";

// Two outputs, of which one is rewritten, with an index as a word in the other.
const PAIR: &str =
    "atl 2; size N in 0..8; example N = 3; input A[N]; output B = sum i < N. A[i] + 1; output C = gen j < N. word(j);";

const PAIR_TEXT: &str = "# version 0
atl 2;
size N in 0..8;
example N = 3;
input A[N];
output B = sum i0 < N. A[i0] + 1;
output C = gen i0 < N. word(i0);
# version 1
atl 2;
size N in 0..8;
example N = 3;
input A[N];
output B = (sum i0 < N. A[i0]) + (sum i0 < N. 1);
output C = gen i0 < N. word(i0);
# version 2
atl 2;
size N in 0..8;
example N = 3;
input A[N];
output B = sum i0 < N. A[i0] + 1;
output C = gen i0 < N. word(i0);
";

// The definition of a let is put for its variable, under a binder of the same name.
const LET: &str =
    "atl 1; size N in 0..8; size M in 0..8; example N = 1, M = 1; input A[N]; input W[M]; output B = gen i < N. let t = A[i] in sum i < M. W[i] * t;";

const LET_TEXT: &str = "# version 0
atl 1;
size N in 0..8;
size M in 0..8;
example N = 1, M = 1;
input A[N];
input W[M];
output B = gen i0 < N. let t0 = A[i0] in sum i1 < M. W[i1] * t0;
# version 1
atl 1;
size N in 0..8;
size M in 0..8;
example N = 1, M = 1;
input A[N];
input W[M];
output B = gen i0 < N. sum i1 < M. W[i1] * A[i0];
";

// Nothing of the final form is asked for: this one can't be lowered, and a script may name no goal of it.
const BEHIND_TEXT: &str = "# version 0
atl 1;
size N in 1..8;
example N = 3;
input A[N];
output B = (gen i0 < N. A[i0])[N];
";

#[test]
fn each_version_stands_below_its_line(rt: HostRuntime) -> Result<(), Fail> {
    let alloc = rt.alloc();
    let table = [
        (SCALE, "schedule 1;", SCALE_TEXT),
        (LONG, "schedule 1; at 0 do split_gen(4);", LONG_TEXT),
        (
            PAIR,
            "schedule 1; at 0 do sum_add; at 0 do add_sum;",
            PAIR_TEXT,
        ),
        (LET, "schedule 1; at 0.0 do let_inline;", LET_TEXT),
        (BEHIND, "schedule 1;", BEHIND_TEXT),
        (BEHIND, "schedule 1; goal 9 by default;", BEHIND_TEXT),
    ];
    for (source, script, text) in table {
        writes(&rt, alloc, &STAGES, source, script, text)?;
    }
    Ok(())
}

#[test]
fn parts_of_the_verdict_but_the_last_refuse(rt: HostRuntime) -> Result<(), Fail> {
    let alloc = rt.alloc();
    let table = [
        (
            "atl 1;\noutput B = x;",
            "schedule",
            "F05 UnknownName at 18\n",
        ),
        (
            "atl 1; output B = transpose(1);",
            "schedule",
            "F10 RankMismatch path 0\n",
        ),
        (BEHIND, "schedule", "F20 ScriptSyntax at 8\n"),
        (
            SCALE,
            "schedule 1; at 0.5 do beta;",
            "F22 NoSuchPath step 1\n",
        ),
        (
            LONG,
            "schedule 1; at 0 do split_gen(4); at 0 do beta;",
            "F23 PatternMismatch step 2\n",
        ),
        (
            BEHIND,
            "schedule 1; at 0 do beta;",
            "F25 ConditionNotShown step 1 condition 2\n",
        ),
    ];
    for (source, script, line) in table {
        refuses(&rt, alloc, &STAGES, source, script, line)?;
    }
    Ok(())
}

#[test]
fn versions_that_find_no_room_are_a_write_fault(rt: HostRuntime) -> Result<(), Fail> {
    let alloc = rt.alloc();
    let status = under(
        &rt,
        alloc,
        &STAGES,
        SCALE,
        "schedule 1;",
        12,
        ("# version 0\n", ""),
    )?;
    assert!(rt; matches!(status, Status::WriteFault));
    Ok(())
}

// The text below the line is a source, whose first version is itself.
#[test]
fn the_text_of_a_version_reads_back(rt: HostRuntime) -> Result<(), Fail> {
    let alloc = rt.alloc();
    writes(&rt, alloc, &STAGES, SCALE_BELOW, "schedule 1;", SCALE_TEXT)
}
