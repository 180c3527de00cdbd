//! Runs of sources under scripts on given texts.

use crate::calls::{RUN, over};
use crate::scheduled::{ATTENTION, ATTENTION_STEPS, BEHIND, CUT, LONG, NEXT, SCALE, SEVENS};
use atl_driver::Status;
use std::alloc::Global;
use std::process::Abort;
use std::test::Fail;

pub const STEPLESS: &str = "schedule 1;";

const NEXT_WORD: &str =
    "atl 1; size N in 0..8; example N = 3; input A[N]; output B = gen i < N. A[i] + 1;";

const MATRIX_VECTOR: &str =
    "atl 1; size N in 0..100; size M in 0..100; example N = 2, M = 2; input A[N][M]; input x[M]; \
     output y = gen i < N. sum j < M. A[i][j] * x[j];";

const WINDOW: &str =
    "atl 1; size N in 1..1000; size K in 1..64; assume N >= K; example N = 5, K = 2; \
     input A[N]; input W[K]; output B = gen i < N - K + 1. sum j < K. A[i + j] * W[j];";

pub const COLUMNS: &str =
    "atl 1; size N in 0..8; example N = 3; input A[N][5]; output B = transpose(gen i < N. gen j < 5. A[i][j]);";

pub const GUARDED_LET: &str =
    "atl 1; input A[1]; output B = gen i < 2. let t = guard i == 0. A[0] in t;";

const JOINED: &str =
    "atl 1; size N in 0..100; size M in 0..100; size K in 0..100; example N = 2, M = 2, K = 1; \
     input A[N][M]; input C[K]; output B = concat(flatten(gen i < N. gen j < M. A[i][j]), gen k < K. C[k]);";

// Two outputs, of which one is a word; the first turn of the second adds the word below 0.
pub const OUTPUTS: &str = "atl 2; size N in 0..8; example N = 3; input A[N]; \
     output B = gen i < N. A[i] * word(i + 1); output C = sum i < N. word(i - 1);";

const HUGE: &str = "atl 1; size N in 0..2147483648; size M in 0..1073741824; example N = 2, M = 3; \
     input A[N][M]; output B = gen i < N. gen j < M. A[i][j];";

const SQUARE: &str = "atl 1; output B = sum i < 20000. sum j < 20000. 1;";

/// The status of a run: what it writes is compared.
fn run(
    rt: &impl Abort,
    alloc: Global,
    (source, script, given): (&str, &str, &str),
    texts: (&str, &str),
) -> Result<Status, Fail> {
    let files = [
        ("a.atl", source.as_bytes()),
        ("a.sched", script.as_bytes()),
        ("a.given", given.as_bytes()),
    ];
    over(rt, alloc, &RUN, &files, 1024, texts)
}

#[test]
fn outputs_have_the_words_of_the_source(rt: HostRuntime) -> Result<(), Fail> {
    let alloc = rt.alloc();
    let table = [
        (
            (SCALE, STEPLESS, "N: 3; A: 1 2 3;"),
            "B: 2 4 6;\nstores 6\n",
        ),
        ((SCALE, STEPLESS, "N: 0; A:;"), "B:;\nstores 0\n"),
        (
            (
                SCALE,
                STEPLESS,
                "# three\nN : 003 ;\n\tA: 1\n2 3 ;# no more",
            ),
            "B: 2 4 6;\nstores 6\n",
        ),
        (
            (MATRIX_VECTOR, STEPLESS, "N: 2; M: 0; A:; x:;"),
            "y: 0 0;\nstores 2\n",
        ),
        (
            (NEXT_WORD, STEPLESS, "N: 2; A: 18446744073709551615 5;"),
            "B: 0 6;\nstores 4\n",
        ),
        (
            (WINDOW, STEPLESS, "N: 5; K: 2; A: 1 2 3 4 5; W: 10 1;"),
            "B: 12 23 34 45;\nstores 12\n",
        ),
        ((COLUMNS, STEPLESS, "N: 0; A:;"), "B:;\nstores 0\n"),
        (
            (COLUMNS, STEPLESS, "N: 2; A: 1 2 3 4 5 6 7 8 9 10;"),
            "B: 1 6 2 7 3 8 4 9 5 10;\nstores 20\n",
        ),
        ((GUARDED_LET, STEPLESS, "A: 7;"), "B: 7 0;\nstores 7\n"),
        (
            (JOINED, STEPLESS, "N: 2; M: 2; K: 1; A: 1 2 3 4; C: 9;"),
            "B: 1 2 3 4 9;\nstores 10\n",
        ),
        (
            (OUTPUTS, STEPLESS, "N: 3; A: 5 6 7;"),
            "B: 5 12 21;\nC: 0;\nstores 10\n",
        ),
    ];
    for (files, text) in table {
        let status = run(&rt, alloc, files, (text, ""))?;
        assert!(rt; matches!(status, Status::Done));
    }
    Ok(())
}

#[test]
fn under_a_script_outputs_have_the_same_words(rt: HostRuntime) -> Result<(), Fail> {
    let alloc = rt.alloc();
    let table = [
        (
            (
                LONG,
                "schedule 1; at 0 do split_gen(4);",
                "N: 10; A: 1 2 3 4 5 6 7 8 9 10;",
            ),
            "B: 2 4 6 8 10 12 14 16 18 20;\nstores 20\n",
        ),
        (
            (
                LONG,
                "schedule 1; at 0 do split_gen(4);",
                "N: 12; A: 1 2 3 4 5 6 7 8 9 10 11 12;",
            ),
            "B: 2 4 6 8 10 12 14 16 18 20 22 24;\nstores 24\n",
        ),
        (
            (
                NEXT,
                "schedule 1; at 0.0 do access_guard;",
                "N: 3; A: 5 6 7;",
            ),
            "B: 6 7 0;\nstores 5\n",
        ),
        (
            (CUT, "schedule 1; at 0 do trunc_gen_r;", "N: 4; A: 1 2 3 4;"),
            "B: 1 2;\nstores 4\n",
        ),
        (
            (
                ATTENTION,
                ATTENTION_STEPS,
                "N: 2; D: 2; Q: 1 2 3 4; K: 1 0 0 1; V: 1 2 3 4;",
            ),
            "O: 7 10 15 22;\nstores 24\n",
        ),
        (
            (SEVENS, "schedule 1; at 0.0 do beta;", "N: 1048576;"),
            "B: 7340032;\nstores 1048577\n",
        ),
    ];
    for (files, text) in table {
        let status = run(&rt, alloc, files, (text, ""))?;
        assert!(rt; matches!(status, Status::Done));
    }
    Ok(())
}

#[test]
fn what_is_not_run_has_its_first_fault(rt: HostRuntime) -> Result<(), Fail> {
    let alloc = rt.alloc();
    let table = [
        // The verdict comes before what is given, and that before the sizes.
        ((BEHIND, STEPLESS, "x"), "F30 NotLowerable path 0\n"),
        ((SCALE, STEPLESS, "N: 3; A: 1 2 x;"), "F40 BadData at 13\n"),
        ((SCALE, STEPLESS, "N: 9; A: x;"), "F40 BadData at 9\n"),
        ((SCALE, STEPLESS, "N: 3; A: 1 2 3"), "F40 BadData at 14\n"),
        (
            (SCALE, STEPLESS, "N: 3; A: 18446744073709551616;"),
            "F40 BadData at 9\n",
        ),
        (
            (SCALE, STEPLESS, "N: 9; A:;"),
            "F41 SizesNotAllowed constraint 1\n",
        ),
        (
            (WINDOW, STEPLESS, "N: 1; K: 2; A: 1; W: 1 2;"),
            "F41 SizesNotAllowed constraint 3\n",
        ),
        (
            (SCALE, STEPLESS, "N: 3; A: 1 2;"),
            "F42 WrongCount input 0 want 3 got 2\n",
        ),
        (
            (MATRIX_VECTOR, STEPLESS, "N: 1; M: 2; A: 1 2; x: 1 2 3;"),
            "F42 WrongCount input 1 want 2 got 3\n",
        ),
        (
            (HUGE, STEPLESS, "N: 2147483648; M: 1073741824; A:;"),
            "F43 TooBigToRun words 4611686018427387904\n",
        ),
        ((SQUARE, STEPLESS, ""), "F44 TooMuchWork steps 134217729\n"),
    ];
    for (files, line) in table {
        let status = run(&rt, alloc, files, ("", line))?;
        assert!(rt; matches!(status, Status::Refused(_)));
    }
    Ok(())
}
