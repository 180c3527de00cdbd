//! Sources under scripts: the texts of last versions, and first faults.

use crate::calls::{becomes, compiles, compiles_under, is_refused};
use crate::lowered::BY_FOURS_LINES;
use std::alloc::{AllocError, Global};
use std::test::Fail;

pub const SCALE: &str =
    "atl 1; size N in 0..8; example N = 3; input A[N]; output B = gen i < N. A[i] * 2;";

const SCALE_LINES: &str = "int64_t len_a0(int64_t n0) { return n0; }
int64_t len_b0(int64_t n0) { return n0; }
void atl(int64_t n0, const uint64_t *a0, uint64_t *b0) {
  fill(b0, INT64_C(0), n0);
  for (int64_t i0 = INT64_C(0); i0 < n0; i0 = i0 + INT64_C(1)) {
    b0[i0] = a0[i0] * UINT64_C(2);
  }
}
";

pub const LONG: &str =
    "atl 1; size N in 0..100; example N = 3; input A[N]; output B = gen i < N. A[i] * 2;";

// A row of a generation, which is in final form only after beta.
pub const REREAD: &str =
    "atl 1; size N in 0..8; example N = 3; input A[N]; output B = gen i < N. (gen j < N. A[j])[i];";

const REREAD_LINES: &str = "int64_t len_a0(int64_t n0) { return n0; }
int64_t len_b0(int64_t n0) { return n0; }
void atl(int64_t n0, const uint64_t *a0, uint64_t *b0) {
  fill(b0, INT64_C(0), n0);
  for (int64_t i0 = INT64_C(0); i0 < n0; i0 = i0 + INT64_C(1)) {
    b0[i0] = a0[i0];
  }
}
";

// The row behind the last, which is zero, and not an element of A.
pub const BEHIND: &str =
    "atl 1; size N in 1..8; example N = 3; input A[N]; output B = (gen i < N. A[i])[N];";

// Nothing is computed there, so any index is shown to be within.
const NOWHERE: &str =
    "atl 1; size N in 0..8; example N = 3; input A[N]; output B = gen i < N. guard i < 0. (gen j < N. A[j])[i + N];";

const NOWHERE_LINES: &str = "int64_t len_a0(int64_t n0) { return n0; }
int64_t len_b0(int64_t n0) { return n0; }
void atl(int64_t n0, const uint64_t *a0, uint64_t *b0) {
  fill(b0, INT64_C(0), n0);
  for (int64_t i0 = INT64_C(0); i0 < n0; i0 = i0 + INT64_C(1)) {
    if (INT64_C(0) - i0 - INT64_C(1) >= INT64_C(0)) {
      b0[i0] = a0[n0 + i0];
    }
  }
}
";

pub const SEVENS: &str =
    "atl 1; size N in 0..1048576; example N = 3; output B = sum i < N. (gen j < N. 7)[i];";

const SEVENS_LINES: &str = "int64_t len_b0(int64_t n0) { return INT64_C(1); }
void atl(int64_t n0, uint64_t *b0) {
  fill(b0, INT64_C(0), INT64_C(1));
  for (int64_t i0 = INT64_C(0); i0 < n0; i0 = i0 + INT64_C(1)) {
    b0[INT64_C(0)] += UINT64_C(7);
  }
}
";

const MATRIX: &str =
    "atl 1; size N in 0..8; size M in 0..8; example N = 2, M = 3; input A[N][M]; output B = gen i < N. gen j < M. A[i][j];";

// The loops of the columns stand outside, and each word goes where it went.
const SWAPPED_LINES: &str = "int64_t len_a0(int64_t n0, int64_t n1) { return n0 * n1; }
int64_t len_b0(int64_t n0, int64_t n1) { return n0 * n1; }
void atl(int64_t n0, int64_t n1, const uint64_t *a0, uint64_t *b0) {
  fill(b0, INT64_C(0), n0 * n1);
  for (int64_t i0 = INT64_C(0); i0 < n1; i0 = i0 + INT64_C(1)) {
    for (int64_t i1 = INT64_C(0); i1 < n0; i1 = i1 + INT64_C(1)) {
      b0[i0 + n1 * i1] = a0[i0 + n1 * i1];
    }
  }
}
";

const PAIRS: &str =
    "atl 1; size N in 0..8; example N = 3; input A[N]; output B = sum i < N. A[i] + 1;";

const PAIRS_LINES: &str = "int64_t len_a0(int64_t n0) { return n0; }
int64_t len_b0(int64_t n0) { return INT64_C(1); }
void atl(int64_t n0, const uint64_t *a0, uint64_t *b0) {
  fill(b0, INT64_C(0), INT64_C(1));
  for (int64_t i0 = INT64_C(0); i0 < n0; i0 = i0 + INT64_C(1)) {
    b0[INT64_C(0)] += a0[i0] + UINT64_C(1);
  }
}
";

#[test]
fn steps_lead_to_the_last_version(rt: HostRuntime) -> Result<(), Fail> {
    let alloc = rt.alloc();
    compiles(&rt, alloc, SCALE, SCALE_LINES)?;
    let table = [
        (SCALE, "schedule 1;", SCALE_LINES),
        (REREAD, "schedule 1; at 0.0 do beta;", REREAD_LINES),
        (
            REREAD,
            "schedule 1; at 0.0 do beta by {3: 1} by {4: 1};",
            REREAD_LINES,
        ),
        (
            NOWHERE,
            "schedule 1; at 0.0.0 do beta by default by {0: 0, 3: 1, 5: 1};",
            NOWHERE_LINES,
        ),
        (SEVENS, "schedule 1; at 0.0 do beta;", SEVENS_LINES),
        (MATRIX, "schedule 1; at 0 do swap_gen;", SWAPPED_LINES),
        (LONG, "schedule 1; at 0 do split_gen(4);", BY_FOURS_LINES),
        (
            SCALE,
            "schedule 1; goal 1 by {3: 1}; goal 2 by {4: 1};",
            SCALE_LINES,
        ),
    ];
    for (source, script, lines) in table {
        compiles_under(&rt, alloc, source, script, lines)?;
    }
    Ok(())
}

#[test]
fn the_first_fault_under_a_script_is_told(rt: HostRuntime) -> Result<(), Fail> {
    let alloc = rt.alloc();
    let table = [
        (SCALE, "schedule 1; at", "F20 ScriptSyntax at 14\n"),
        (
            SCALE,
            "schedule 1; at 0 do nosuch;",
            "F21 NoSuchRule step 1\n",
        ),
        (
            SCALE,
            "schedule 1; at 0.5 do beta;",
            "F22 NoSuchPath step 1\n",
        ),
        (
            SCALE,
            "schedule 1; at 0 do beta;",
            "F23 PatternMismatch step 1\n",
        ),
        (
            REREAD,
            "schedule 1; at 0.0 do beta(1);",
            "F24 BadArgument step 1\n",
        ),
        (
            SCALE,
            "schedule 1; at 0 do split_gen(0);",
            "F24 BadArgument step 1\n",
        ),
        (
            BEHIND,
            "schedule 1; at 0 do beta;",
            "F25 ConditionNotShown step 1 condition 2\n",
        ),
        (
            REREAD,
            "schedule 1; at 0.0 do beta by {3: 1} by {4: 2};",
            "F25 ConditionNotShown step 1 condition 2\n",
        ),
        (
            REREAD,
            "schedule 1; at 0.0 do beta by {3: 1} by {4: 1} by default;",
            "F26 ExtraLines step 1\n",
        ),
        (
            REREAD,
            "schedule 1; at 0.0 do beta; at 0.0 do beta; at 0 do nosuch;",
            "F23 PatternMismatch step 2\n",
        ),
        (
            SCALE,
            "schedule 1; goal 9 by default;",
            "F38 NoSuchGoal final 1\n",
        ),
        (
            SCALE,
            "schedule 1; goal 2 by default; goal 1 by default;",
            "F38 NoSuchGoal final 2\n",
        ),
        (
            SCALE,
            "schedule 1; goal 2 by {3: 1};",
            "F31 AccessNotShown goal 2\n",
        ),
    ];
    for (source, script, line) in table {
        is_refused(&rt, alloc, source, script, line)?;
    }
    Ok(())
}

// The source is read and judged before the script is read, and the script before a step is taken.
#[test]
fn parts_of_the_verdict_have_their_order(rt: HostRuntime) -> Result<(), Fail> {
    let alloc = rt.alloc();
    let table = [
        (
            "atl 1;\noutput B = x;",
            "schedule",
            "F05 UnknownName at 18\n",
        ),
        (
            "atl 1; output B = transpose(1);",
            "schedule",
            "F10 RankMismatch path 0\n",
        ),
        (
            "atl 1; size N in 0..8; example N = 9; output B = 1;",
            "schedule",
            "F14 BadExample constraint 1\n",
        ),
        (BEHIND, "schedule", "F20 ScriptSyntax at 8\n"),
        (BEHIND, "schedule 1;", "F30 NotLowerable path 0\n"),
        (
            BEHIND,
            "schedule 1; at 0 do nosuch; goal 9 by default;",
            "F21 NoSuchRule step 1\n",
        ),
        (
            BEHIND,
            "schedule 1; goal 9 by default;",
            "F30 NotLowerable path 0\n",
        ),
    ];
    for (source, script, line) in table {
        is_refused(&rt, alloc, source, script, line)?;
    }
    Ok(())
}

/// A script of so many pairs of steps, of which the second undoes the first, and then this text.
fn there_and_back(alloc: Global, pairs: u32, end: &str) -> Result<String, AllocError> {
    let mut text = String::from_str(alloc, "schedule 1;")?;
    for _ in 0..pairs {
        text.push_str(" at 0 do sum_add; at 0 do add_sum;")?;
    }
    text.push_str(end)?;
    Ok(text)
}

#[test]
fn a_script_has_up_to_a_thousand_steps(rt: HostRuntime) -> Result<(), Fail> {
    let alloc = rt.alloc();
    let most = there_and_back(alloc, 500, "")?;
    compiles_under(&rt, alloc, PAIRS, most.as_str(), PAIRS_LINES)?;
    let more = there_and_back(alloc, 500, " at 0 do sum_add;")?;
    is_refused(
        &rt,
        alloc,
        PAIRS,
        more.as_str(),
        "F20 ScriptSyntax at 17012\n",
    )?;
    let last = there_and_back(alloc, 499, " at 0 do sum_add; at 0 do sum_add;")?;
    is_refused(
        &rt,
        alloc,
        PAIRS,
        last.as_str(),
        "F23 PatternMismatch step 1000\n",
    )
}

// The row behind the last, which a guard takes away.
pub const NEXT: &str =
    "atl 1; size N in 0..8; example N = 3; input A[N]; output B = gen i < N. A[i + 1];";

const GUARDED_NEXT: &str =
    "atl 1; size N in 0..8; example N = 3; input A[N]; output B = gen i < N. guard i + 1 >= 0 and i + 1 < N. A[i + 1];";

const SHARED: &str =
    "atl 1; size N in 0..8; size M in 0..8; example N = 1, M = 1; input A[N]; input W[M]; \
     output B = gen i < N. let t = A[i] in sum i < M. W[i] * t;";

const INLINED: &str =
    "atl 1; size N in 0..8; size M in 0..8; example N = 1, M = 1; input A[N]; input W[M]; \
     output B = gen i < N. sum j < M. W[j] * A[i];";

#[test]
fn steps_of_guards_and_lets_make_sources_of_their_results(rt: HostRuntime) -> Result<(), Fail> {
    let alloc = rt.alloc();
    is_refused(
        &rt,
        alloc,
        NEXT,
        "schedule 1;",
        "F31 AccessNotShown goal 2\n",
    )?;
    becomes(
        &rt,
        alloc,
        NEXT,
        "schedule 1; at 0.0 do access_guard;",
        GUARDED_NEXT,
    )?;
    becomes(
        &rt,
        alloc,
        SHARED,
        "schedule 1; at 0.0 do let_inline;",
        INLINED,
    )
}

const TWO: &str = "atl 1; input A[2]; output B = A[0] + A[1];";

/// A script of so many exchanges of the operands of a sum.
fn exchanges(alloc: Global, steps: u32) -> Result<String, AllocError> {
    let mut text = String::from_str(alloc, "schedule 1;")?;
    for _ in 0..steps {
        text.push_str(" at 0 do ring(add_comm);")?;
    }
    Ok(text)
}

#[test]
fn operands_are_exchanged_up_to_a_thousand_times(rt: HostRuntime) -> Result<(), Fail> {
    let alloc = rt.alloc();
    let most = exchanges(alloc, 1000)?;
    becomes(&rt, alloc, TWO, most.as_str(), TWO)?;
    let more = exchanges(alloc, 1001)?;
    is_refused(
        &rt,
        alloc,
        TWO,
        more.as_str(),
        "F20 ScriptSyntax at 24012\n",
    )
}

// examples/attention.atl
pub const ATTENTION: &str = "atl 1; size N in 1..64; size D in 1..64; example N = 2, D = 2; \
     input Q[N][D]; input K[N][D]; input V[N][D]; output O = \
     let s = gen i < N. gen j < N. sum d < D. Q[i][d] * transpose(K)[d][j] in \
     gen i < N. gen e < D. sum j < N. s[i][j] * V[j][e];";

// examples/attention.sched
pub const ATTENTION_STEPS: &str = "schedule 1; \
     at 0.0.0.0.0.1.0 do transpose_index; \
     at 0.0.0.0.0.1 do beta; \
     at 0.0 do split_gen(4); \
     at 0.0.0.0.0.0 do guard_gen; \
     at 0.0.0.0.0.0.0 do guard_sum; \
     at 0.1.0 do gen_sum; \
     at 0.1 do split_gen(2); \
     at 0.1.0.0.0.0 do guard_sum; \
     at 0.1.0.0.0.0.0 do guard_gen; \
     at 0.1.0.0.0.0.0.0.0 do ring(mul_comm); \
     at 0.0.0.0.0.0.0 do split_sum(2); \
     at 0.0.0.0.0.0.0.0.0 do guard_merge;";

// What its steps make of it, by the rules.
const ATTENTION_IN_TILES: &str = "atl 1; size N in 1..64; size D in 1..64; example N = 2, D = 2; \
     input Q[N][D]; input K[N][D]; input V[N][D]; output O = \
     let s = truncr(4 * ((N + 3) / 4) - N, flatten(gen p < (N + 3) / 4. gen q < 4. gen j < N. \
     sum u < (D + 1) / 2. sum v < 2. guard 2 * u + v < D and 4 * p + q < N. \
     Q[4 * p + q][2 * u + v] * K[j][2 * u + v])) in \
     truncr(2 * ((N + 1) / 2) - N, flatten(gen p < (N + 1) / 2. gen q < 2. sum j < N. gen e < D. \
     guard 2 * p + q < N. V[j][e] * s[2 * p + q][j]));";

#[test]
fn attention_goes_in_tiles_by_twelve_steps(rt: HostRuntime) -> Result<(), Fail> {
    let alloc = rt.alloc();
    is_refused(
        &rt,
        alloc,
        ATTENTION,
        "schedule 1;",
        "F30 NotLowerable path 0.0.0.0.0.1\n",
    )?;
    becomes(&rt, alloc, ATTENTION, ATTENTION_STEPS, ATTENTION_IN_TILES)
}

pub const CUT: &str =
    "atl 1; size N in 2..8; example N = 3; input A[N]; output B = truncr(2, gen i < N. A[i]);";

const SHORTER: &str =
    "atl 1; size N in 2..8; example N = 3; input A[N]; output B = gen i < N - 2. A[i];";

#[test]
fn rows_that_are_cut_off_are_not_computed_after_a_step(rt: HostRuntime) -> Result<(), Fail> {
    let alloc = rt.alloc();
    is_refused(&rt, alloc, CUT, "schedule 1;", "F33 DropNotShown goal 1\n")?;
    becomes(&rt, alloc, CUT, "schedule 1; at 0 do trunc_gen_r;", SHORTER)
}
