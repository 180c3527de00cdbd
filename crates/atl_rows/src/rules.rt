//! Each rule of docs/SCHEDULES.md with its example: the source before it, under a step, has the text of the source after it.

use crate::calls::becomes;
use std::test::Fail;

const DECLARED: &str =
    "atl 1; size N in 0..8; size M in 0..8; size K in 3..8; example N = 3, M = 2, K = 4; \
     input A[N][M]; input X[N]; input Y[N]; input Z[K]; input W[2 * N]; output B = ";

#[test]
fn each_rule_does_what_its_example_shows(rt: HostRuntime) -> Result<(), Fail> {
    let alloc = rt.alloc();
    let table = [
        (
            "gen i < N. (gen j < N. X[j] * 2)[i]",
            "at 0.0 do beta",
            "gen i < N. X[i] * 2",
        ),
        ("gen i < N. X[i]", "at 0 do eta", "X"),
        (
            "gen i < N. gen j < M. A[i][j]",
            "at 0 do swap_gen",
            "transpose(gen j < M. gen i < N. A[i][j])",
        ),
        (
            "sum i < N. sum j < M. A[i][j]",
            "at 0 do swap_sum",
            "sum j < M. sum i < N. A[i][j]",
        ),
        (
            "sum i < N. gen j < M. A[i][j]",
            "at 0 do sum_gen",
            "gen j < M. sum i < N. A[i][j]",
        ),
        (
            "gen j < M. sum i < N. A[i][j]",
            "at 0 do gen_sum",
            "sum i < N. gen j < M. A[i][j]",
        ),
        (
            "gen j < M. (sum i < N. A[i])[j]",
            "at 0.0 do sum_index",
            "gen j < M. sum i < N. A[i][j]",
        ),
        (
            "sum i < N. X[i] + Y[i]",
            "at 0 do sum_add",
            "(sum i < N. X[i]) + (sum i < N. Y[i])",
        ),
        (
            "(sum i < N. X[i]) + (sum i < N. Y[i])",
            "at 0 do add_sum",
            "sum i < N. X[i] + Y[i]",
        ),
        (
            "gen i < N. (X + Y)[i]",
            "at 0.0 do add_index",
            "gen i < N. X[i] + Y[i]",
        ),
        (
            "gen i < K. Z[i] * 2",
            "at 0 do cut_gen(3)",
            "concat(gen i < 3. Z[i] * 2, gen i < K - 3. Z[i + 3] * 2)",
        ),
        (
            "sum i < K. Z[i]",
            "at 0 do cut_sum(3)",
            "(sum i < 3. Z[i]) + (sum i < K - 3. Z[i + 3])",
        ),
        (
            "gen i < N. X[i]",
            "at 0 do split_gen(4)",
            "truncr(4 * ((N + 3) / 4) - N, flatten(gen p < (N + 3) / 4. gen q < 4. guard 4 * p + q < N. X[4 * p + q]))",
        ),
        (
            "gen i < 2 * N. W[i]",
            "at 0 do split_gen_exact(2)",
            "flatten(gen p < N. gen q < 2. W[2 * p + q])",
        ),
        (
            "sum i < N. X[i]",
            "at 0 do split_sum(4)",
            "sum p < (N + 3) / 4. sum q < 4. guard 4 * p + q < N. X[4 * p + q]",
        ),
        (
            "flatten(gen i < N. gen j < 4. X[i])",
            "at 0 do fuse_gen",
            "gen p < 4 * N. X[p / 4]",
        ),
        ("sum i < 1. Z[i]", "at 0 do sum_one", "Z[0]"),
        (
            "gen j < N. sum i < N. guard i == j. X[i]",
            "at 0.0 do sum_pick",
            "gen j < N. X[j]",
        ),
        ("X", "at 0 do uneta", "gen i < N. X[i]"),
        (
            "3 * (sum i < N. X[i])",
            "at 0 do mul_into_sum",
            "sum i < N. 3 * X[i]",
        ),
        (
            "sum i < N. 3 * X[i]",
            "at 0 do mul_out_of_sum; at 0 do mul_into_sum",
            "sum i < N. 3 * X[i]",
        ),
    ];
    for (before, step, after) in table {
        let source = format!(in alloc; "{DECLARED}{before};")?;
        let script = format!(in alloc; "schedule 1; {step};")?;
        let wanted = format!(in alloc; "{DECLARED}{after};")?;
        becomes(
            &rt,
            alloc,
            source.as_str(),
            script.as_str(),
            wanted.as_str(),
        )?;
    }
    Ok(())
}
