//! Rules of lets, guards and shapes with their examples in docs/SCHEDULES.md: the step makes of the source before it exactly the source
//! after it; and what no such rule takes.

use crate::tests::{becomes, ending, joined};
use std::alloc::Global;
use std::process::Abort;
use std::test::Fail;

const DECLARED: &str =
    "atl 1; size N in 0..8; size M in 0..8; size K in 3..8; example N = 3, M = 2, K = 4; \
     input A[N][M]; input X[N]; input Y[N]; input Z[K]; input W[2 * N]; output B = ";

/// Each source becomes the third under the step.
fn all_become(rt: &impl Abort, alloc: Global, rows: &[(&str, &str, &str)]) -> Result<(), Fail> {
    for (before, step, after) in rows {
        let text = joined(alloc, DECLARED, before)?;
        let wanted = joined(alloc, DECLARED, after)?;
        let script = format!(in alloc; "schedule 1; {step};")?;
        assert_eq!(rt;
            becomes(alloc, text.as_str(), script.as_str(), 2, wanted.as_str()),
            Some(true)
        );
    }
    Ok(())
}

/// The first step fails on each source by this rule and detail.
fn all_fail(rt: &impl Abort, alloc: Global, rows: &[(&str, &str, u64, u64)]) -> Result<(), Fail> {
    for (term, step, rule, detail) in rows {
        let text = joined(alloc, DECLARED, term)?;
        let script = format!(in alloc; "schedule 1; {step};")?;
        assert_eq!(rt;
            ending(alloc, text.as_str(), script.as_str()),
            Some((1, *rule, *detail))
        );
    }
    Ok(())
}

#[test]
fn rules_of_lets_do_what_their_examples_show(rt: HostRuntime) -> Result<(), Fail> {
    let table = [
        ("X", "at 0 do let_intro", "let t = X in t"),
        (
            "gen i < N. let t = X[i] in sum j < M. A[i][j] * t",
            "at 0.0 do let_inline",
            "gen i < N. sum j < M. A[i][j] * X[i]",
        ),
        (
            "let t = X + Y in gen i < N. (X + Y)[i]",
            "at 0.1.0.0 do let_use(t0)",
            "let t = X + Y in gen i < N. t[i]",
        ),
        (
            "gen i < N. let t = X[i] * 2 in t + Y[i]",
            "at 0 do let_out_of_gen",
            "let t = gen i < N. X[i] * 2 in gen i < N. t[i] + Y[i]",
        ),
        (
            "gen i < N. let t = Z[0] in X[i] * t",
            "at 0 do let_lift_gen",
            "let t = Z[0] in gen i < N. X[i] * t",
        ),
        (
            "sum i < N. let t = Z[0] in X[i] * t",
            "at 0 do let_out_of_sum",
            "let t = Z[0] in sum i < N. X[i] * t",
        ),
        (
            "gen i < N. (let t = X + Y in t - X)[i]",
            "at 0.0 do let_index",
            "gen i < N. let t = X + Y in (t - X)[i]",
        ),
        (
            "gen i < N. guard i >= 1. let t = X[i] in t * t",
            "at 0.0 do let_guard",
            "gen i < N. let t = X[i] in guard i >= 1. t * t",
        ),
        (
            "let t = (let u = Z[0] in u * 2) in t * Z[1]",
            "at 0 do let_let",
            "let u = Z[0] in let t = u * 2 in t * Z[1]",
        ),
        ("let t = X in Y", "at 0 do let_drop", "Y"),
        (
            "let s = X in s + (let t = Y in s - t)",
            "at 0.1 do let_op(1)",
            "let s = X in let t = Y in s + (s - t)",
        ),
    ];
    all_become(&rt, rt.alloc(), &table)
}

#[test]
fn terms_put_in_place_of_lets_are_moved(rt: HostRuntime) -> Result<(), Fail> {
    let table = [
        // the i of X[i] is not that of the inner gen
        (
            "gen i < N. let t = X[i] in gen j < N. gen l < M. t * Y[j]",
            "at 0.0 do let_inline",
            "gen i < N. gen j < N. gen l < M. X[i] * Y[j]",
        ),
        // the let around is not the one that goes
        (
            "let s = X in let t = s + Y in let u = Y in t + u",
            "at 0.1 do let_inline",
            "let s = X in let u = Y in s + Y + u",
        ),
        (
            "gen i < N. let t = gen j < M. A[i][j] in gen j < M. t[j]",
            "at 0 do let_out_of_gen",
            "let t = gen i < N. gen j < M. A[i][j] in gen i < N. gen j < M. t[i][j]",
        ),
        // a definition is looked for as it is at the place
        (
            "let s = X in let t = s + Y in gen i < N. (s + Y)[i]",
            "at 0.1.1.0.0 do let_use(t1)",
            "let s = X in let t = s + Y in gen i < N. t[i]",
        ),
        (
            "gen i < N. let t = X[i] in sum j < M. A[i][j] * X[i]",
            "at 0.0.1.0.1 do let_use(t0)",
            "gen i < N. let t = X[i] in sum j < M. A[i][j] * t",
        ),
    ];
    all_become(&rt, rt.alloc(), &table)
}

#[test]
fn lets_of_another_form_are_refused(rt: HostRuntime) -> Result<(), Fail> {
    let table = [
        ("X", "at 0 do let_inline", 23, 0),
        ("X", "at 0 do let_intro(1)", 24, 0),
        ("let t = X in t + Y", "at 0.1.1 do let_use(t0)", 24, 0),
        ("let t = X in t + X", "at 0.1.1 do let_use(t1)", 24, 0),
        (
            "let s = X in let t = s + Y in gen i < N. (s + Y)[i]",
            "at 0.1.1.0.0 do let_use(t0)",
            24,
            0,
        ),
        ("let t = X in t + X", "at 0.1.1 do let_use", 24, 0),
        (
            "gen i < N. let t = X[i] in t * t",
            "at 0 do let_lift_gen",
            23,
            0,
        ),
        (
            "sum i < N. let t = X[i] in t * t",
            "at 0 do let_out_of_sum",
            23,
            0,
        ),
        ("let t = X in t", "at 0 do let_drop", 23, 0),
        ("let t = X in t", "at 0 do let_op(0)", 23, 0),
        ("X + (let t = Y in t)", "at 0 do let_op(0)", 24, 0),
        ("X + (let t = Y in t)", "at 0 do let_op(2)", 24, 0),
        ("X + (let t = Y in t)", "at 0 do let_op", 24, 0),
        ("let t = X in Y", "at 0 do let_drop by default", 26, 0),
    ];
    all_fail(&rt, rt.alloc(), &table)
}

#[test]
fn rules_of_guards_do_what_their_examples_show(rt: HostRuntime) -> Result<(), Fail> {
    let table = [
        (
            "gen i < N. X[i]",
            "at 0.0 do guard_intro(i0 < N)",
            "gen i < N. guard i < N. X[i]",
        ),
        (
            "gen i < N. guard i < N. X[i]",
            "at 0.0 do guard_elim",
            "gen i < N. X[i]",
        ),
        (
            "gen i < N. guard i >= 1. guard i < 5. X[i]",
            "at 0.0 do guard_merge",
            "gen i < N. guard i >= 1 and i < 5. X[i]",
        ),
        (
            "gen i < N. guard i >= 1 and i < 5. X[i]",
            "at 0.0 do guard_part(1)",
            "gen i < N. guard i >= 1. guard i < 5. X[i]",
        ),
        (
            "guard M >= 1. gen i < N. X[i]",
            "at 0 do guard_gen",
            "gen i < N. guard M >= 1. X[i]",
        ),
        (
            "gen i < N. guard M >= 1. X[i]",
            "at 0 do gen_guard",
            "guard M >= 1. gen i < N. X[i]",
        ),
        (
            "gen j < M. guard j >= 1. sum i < N. A[i][j]",
            "at 0.0 do guard_sum",
            "gen j < M. sum i < N. guard j >= 1. A[i][j]",
        ),
        (
            "gen i < N. guard i >= 1. X[i] + Y[i]",
            "at 0.0 do guard_add",
            "gen i < N. (guard i >= 1. X[i]) + (guard i >= 1. Y[i])",
        ),
        (
            "gen i < N. guard i >= 1. X[i] * Y[i]",
            "at 0.0 do guard_mul",
            "gen i < N. (guard i >= 1. X[i]) * Y[i]",
        ),
        (
            "gen i < N. (guard M >= 1. X)[i]",
            "at 0.0 do guard_index",
            "gen i < N. guard M >= 1. X[i]",
        ),
        (
            "gen i < N. X[i]",
            "at 0.0 do guard_cases(i0 >= 1)",
            "gen i < N. (guard i >= 1. X[i]) + (guard i < 1. X[i])",
        ),
        (
            "gen i < N. X[i + 1]",
            "at 0.0 do access_guard",
            "gen i < N. guard i + 1 >= 0 and i + 1 < N. X[i + 1]",
        ),
        (
            "sum i < K. guard i >= 1 and i < 3. Z[i]",
            "at 0 do sum_narrow(1, 2)",
            "sum i < 2. guard i + 1 >= 1 and i + 1 < 3. Z[i + 1]",
        ),
        (
            "gen i < 4. Z[i / 4]",
            "at 0.0 do div_zero(i0 / 4)",
            "gen i < 4. Z[0]",
        ),
    ];
    all_become(&rt, rt.alloc(), &table)
}

#[test]
fn conditions_of_guards_are_those_of_comparisons(rt: HostRuntime) -> Result<(), Fail> {
    let alloc = rt.alloc();
    let rows = [
        (
            "gen i < 1. guard i == 0. X[i]",
            "at 0.0 do guard_elim by default by default",
            "gen i < 1. X[i]",
        ),
        (
            "gen i < N. guard i >= 1. X[i] - Y[i]",
            "at 0.0 do guard_add",
            "gen i < N. (guard i >= 1. X[i]) - (guard i >= 1. Y[i])",
        ),
        (
            "gen i < N. guard i >= 1. X[i]",
            "at 0.0.0 do guard_intro(i0 > 0 and i0 <= 7)",
            "gen i < N. guard i >= 1. guard i > 0 and i <= 7. X[i]",
        ),
    ];
    all_become(&rt, alloc, &rows)?;
    let table = [
        (
            "gen i < N. X[i]",
            "at 0.0 do guard_intro(i0 < N - 1)",
            25,
            1,
        ),
        ("gen i < N. X[i]", "at 0.0 do guard_intro(i1 >= 0)", 24, 0),
        ("gen i < N. X[i]", "at 0.0 do guard_intro(i0)", 24, 0),
        ("gen i < N. X[i]", "at 0.0 do guard_intro", 24, 0),
        (
            "gen i < N. guard i >= 1. X[i]",
            "at 0.0 do guard_elim",
            25,
            1,
        ),
        (
            "gen i < N. guard i == 0. X[i]",
            "at 0.0 do guard_elim",
            25,
            2,
        ),
        ("gen i < N. X[i]", "at 0.0 do guard_elim", 23, 0),
        ("gen i < N. guard i >= 1. X[i]", "at 0 do gen_guard", 23, 0),
        ("guard N >= 1 and M >= 1. X", "at 0 do guard_part(0)", 24, 0),
        ("guard N >= 1 and M >= 1. X", "at 0 do guard_part(2)", 24, 0),
        ("gen i < N. X[i]", "at 0.0 do guard_cases(i0 == 0)", 24, 0),
        (
            "gen i < N. X[i]",
            "at 0.0 do guard_cases(i0 >= 0 and i0 < N)",
            24,
            0,
        ),
        ("X", "at 0 do access_guard", 23, 0),
    ];
    all_fail(&rt, alloc, &table)
}

#[test]
fn narrow_sums_and_quotients_of_zero_are_shown(rt: HostRuntime) -> Result<(), Fail> {
    let alloc = rt.alloc();
    let rows = [(
        "gen i < 4. guard i / 4 + i < K. Z[i / 4 + i]",
        "at 0.0 do div_zero(i0 / 4)",
        "gen i < 4. guard i < K. Z[i / 4 + i]",
    )];
    all_become(&rt, alloc, &rows)?;
    let table = [
        ("sum i < K. Z[i]", "at 0 do sum_narrow(1, 2)", 23, 0),
        (
            "sum i < K. guard i >= 1. Z[i]",
            "at 0 do sum_narrow(1)",
            24,
            0,
        ),
        (
            "sum i < K. guard i < 3. Z[i]",
            "at 0 do sum_narrow(0, i0)",
            24,
            0,
        ),
        (
            "sum i < K. guard i >= 1 and i < 4. Z[i]",
            "at 0 do sum_narrow(1, 3)",
            25,
            3,
        ),
        (
            "sum i < K. guard i < 3. Z[i]",
            "at 0 do sum_narrow(1, 2)",
            25,
            4,
        ),
        (
            "sum i < K. guard i >= 1. Z[i]",
            "at 0 do sum_narrow(1, 2)",
            25,
            5,
        ),
        ("gen i < 5. Z[i / 4]", "at 0.0 do div_zero(i0 / 4)", 25, 1),
        ("gen i < 4. Z[i]", "at 0.0 do div_zero(i0 / 4)", 24, 0),
        (
            "gen i < 4. Z[i / 4] + 1",
            "at 0.0 do div_zero(i0 / 4)",
            23,
            0,
        ),
    ];
    all_fail(&rt, alloc, &table)
}

#[test]
fn rules_of_rows_do_what_their_examples_show(rt: HostRuntime) -> Result<(), Fail> {
    let table = [
        (
            "gen i < N + 1. padl(1, X)[i]",
            "at 0.0 do padl_index",
            "gen i < N + 1. X[i - 1]",
        ),
        (
            "gen i < N + 1. padr(1, X)[i]",
            "at 0.0 do padr_index",
            "gen i < N + 1. X[i]",
        ),
        (
            "gen i < K - 1. truncl(1, Z)[i]",
            "at 0.0 do truncl_index",
            "gen i < K - 1. Z[i + 1]",
        ),
        (
            "gen i < K - 1. truncr(1, Z)[i]",
            "at 0.0 do truncr_index",
            "gen i < K - 1. Z[i]",
        ),
        (
            "gen i < N. concat(X, Z)[i]",
            "at 0.0 do concat_index_left",
            "gen i < N. X[i]",
        ),
        (
            "gen i < K. concat(X, Z)[i + N]",
            "at 0.0 do concat_index_right",
            "gen i < K. Z[i]",
        ),
    ];
    all_become(&rt, rt.alloc(), &table)
}

#[test]
fn rules_of_tensors_do_what_their_examples_show(rt: HostRuntime) -> Result<(), Fail> {
    let table = [
        (
            "gen j < M. transpose(A)[j]",
            "at 0.0 do transpose_index",
            "gen j < M. gen i < N. A[i][j]",
        ),
        (
            "gen i < N. gen j < M. flatten(A)[M * i + j]",
            "at 0.0.0 do flatten_index(i0, i1)",
            "gen i < N. gen j < M. A[i][j]",
        ),
        (
            "gen p < (N + 3) / 4. split(4, X)[p]",
            "at 0.0 do split_index",
            "gen p < (N + 3) / 4. gen q < 4. X[4 * p + q]",
        ),
        ("transpose(transpose(A))", "at 0 do transpose_twice", "A"),
        (
            "split(4, flatten(gen i < N. gen j < 4. X[i]))",
            "at 0 do split_flatten",
            "gen i < N. gen j < 4. X[i]",
        ),
        (
            "flatten(split(4, X))",
            "at 0 do flatten_split",
            "padr(4 * ((N + 3) / 4) - N, X)",
        ),
        ("truncl(1, padl(1, X))", "at 0 do pad_trunc_l", "X"),
        ("truncr(M, padr(M, X))", "at 0 do pad_trunc_r", "X"),
        (
            "concat(concat(X, Y), Z)",
            "at 0 do concat_assoc",
            "concat(X, concat(Y, Z))",
        ),
    ];
    all_become(&rt, rt.alloc(), &table)
}

#[test]
fn tensors_of_another_form_are_refused(rt: HostRuntime) -> Result<(), Fail> {
    let table = [
        ("transpose(A)", "at 0 do transpose_twice", 23, 0),
        ("truncl(1, padl(2, X))", "at 0 do pad_trunc_l", 23, 0),
        ("truncl(1, padr(1, X))", "at 0 do pad_trunc_l", 23, 0),
        (
            "split(3, flatten(gen i < N. gen j < 4. X[i]))",
            "at 0 do split_flatten",
            23,
            0,
        ),
        (
            "gen i < N. gen j < M. flatten(A)[M * i + j]",
            "at 0.0.0 do flatten_index(i1, i0)",
            24,
            0,
        ),
        (
            "gen i < N. gen j < M. flatten(A)[M * i + j]",
            "at 0.0.0 do flatten_index(i0)",
            24,
            0,
        ),
        (
            "gen i < N. gen j < M + 1. flatten(A)[M * i + j]",
            "at 0.0.0 do flatten_index(i0, i1)",
            25,
            2,
        ),
        (
            "gen i < N. flatten(A)[i]",
            "at 0.0 do transpose_index",
            23,
            0,
        ),
    ];
    all_fail(&rt, rt.alloc(), &table)
}

#[test]
fn rules_of_shapes_of_gens_do_what_their_examples_show(rt: HostRuntime) -> Result<(), Fail> {
    let table = [
        (
            "truncl(1, gen i < K. Z[i])",
            "at 0 do trunc_gen_l",
            "gen i < K - 1. Z[i + 1]",
        ),
        (
            "truncr(1, gen i < K. Z[i])",
            "at 0 do trunc_gen_r",
            "gen i < K - 1. Z[i]",
        ),
        (
            "padl(1, gen i < N. X[i])",
            "at 0 do pad_gen_l",
            "gen i < N + 1. guard i >= 1. X[i - 1]",
        ),
        (
            "padr(1, gen i < N. X[i])",
            "at 0 do pad_gen_r",
            "gen i < N + 1. guard i < N. X[i]",
        ),
        (
            "concat(gen i < N. X[i], gen i < K. Z[i])",
            "at 0 do concat_gen",
            "gen i < N + K. (guard i < N. X[i]) + (guard i >= N. Z[i - N])",
        ),
        (
            "split(4, gen i < N. X[i])",
            "at 0 do split_of_gen",
            "gen p < (N + 3) / 4. gen q < 4. guard 4 * p + q < N. X[4 * p + q]",
        ),
        (
            "flatten(gen i < 1. gen j < N. X[i + j])",
            "at 0 do flatten_of_gen",
            "gen j < N. X[j]",
        ),
    ];
    all_become(&rt, rt.alloc(), &table)
}

#[test]
fn gens_of_another_form_are_refused(rt: HostRuntime) -> Result<(), Fail> {
    let table = [
        ("truncl(1, Z)", "at 0 do trunc_gen_l", 23, 0),
        ("padl(1, gen i < N. X[i])", "at 0 do pad_gen_r", 23, 0),
        ("concat(X, gen i < N. X[i])", "at 0 do concat_gen", 23, 0),
        ("split(4, X)", "at 0 do split_of_gen", 23, 0),
        (
            "flatten(gen i < 2. gen j < N. X[j])",
            "at 0 do flatten_of_gen",
            23,
            0,
        ),
        (
            "truncr(1, gen i < K. Z[i])",
            "at 0 do trunc_gen_r(1)",
            24,
            0,
        ),
    ];
    all_fail(&rt, rt.alloc(), &table)
}

#[test]
fn laws_do_what_their_examples_show(rt: HostRuntime) -> Result<(), Fail> {
    let table = [
        ("X + Y", "at 0 do ring(add_comm)", "Y + X"),
        ("X + Y + X", "at 0 do ring(add_assoc)", "X + (Y + X)"),
        ("X + (Y + X)", "at 0 do ring(add_assoc_back)", "X + Y + X"),
        ("Z[0] * Z[1]", "at 0 do ring(mul_comm)", "Z[1] * Z[0]"),
        (
            "Z[0] * Z[1] * Z[2]",
            "at 0 do ring(mul_assoc)",
            "Z[0] * (Z[1] * Z[2])",
        ),
        (
            "Z[0] * (Z[1] * Z[2])",
            "at 0 do ring(mul_assoc_back)",
            "Z[0] * Z[1] * Z[2]",
        ),
        (
            "Z[0] * (Z[1] + Z[2])",
            "at 0 do ring(distrib)",
            "Z[0] * Z[1] + Z[0] * Z[2]",
        ),
        (
            "Z[0] * Z[1] + Z[0] * Z[2]",
            "at 0 do ring(undistrib)",
            "Z[0] * (Z[1] + Z[2])",
        ),
        ("Z[0] + 0", "at 0 do ring(add_zero)", "Z[0]"),
        ("Z[0] * 1", "at 0 do ring(mul_one)", "Z[0]"),
        ("Z[0] * 0", "at 0 do ring(mul_zero)", "0"),
        (
            "Z[0] - Z[1]",
            "at 0 do ring(sub_add)",
            "Z[0] + Z[1] * 18446744073709551615",
        ),
        ("2 - 3", "at 0 do ring(fold)", "18446744073709551615"),
    ];
    all_become(&rt, rt.alloc(), &table)
}

#[test]
fn shapes_and_laws_of_another_form_are_refused(rt: HostRuntime) -> Result<(), Fail> {
    let table = [
        (
            "gen i < K. truncl(1, Z)[i - 1]",
            "at 0.0 do truncl_index",
            25,
            1,
        ),
        (
            "gen i < K. truncr(1, Z)[i]",
            "at 0.0 do truncr_index",
            25,
            1,
        ),
        (
            "gen i < K. concat(X, Z)[i]",
            "at 0.0 do concat_index_left",
            25,
            1,
        ),
        (
            "gen i < K. concat(X, Z)[i]",
            "at 0.0 do concat_index_right",
            25,
            1,
        ),
        ("gen i < N. X[i]", "at 0.0 do padl_index", 23, 0),
        ("X + Y", "at 0 do ring", 24, 0),
        ("X + Y", "at 0 do ring(mul_comm)", 24, 0),
        ("X + Y", "at 0 do ring(add_assoc)", 24, 0),
        ("X + Y", "at 0 do ring(nosuch)", 24, 0),
        ("X + Y", "at 0 do ring(N)", 24, 0),
        ("X", "at 0 do ring(add_comm)", 23, 0),
        ("X - Y", "at 0 do ring(sub_add)", 24, 0),
        (
            "Z[0] * Z[1] + Z[2] * Z[0]",
            "at 0 do ring(undistrib)",
            24,
            0,
        ),
        ("Z[0] + 1", "at 0 do ring(add_zero)", 24, 0),
        ("X + Y", "at 0 do ring(add_comm) by default", 26, 0),
    ];
    all_fail(&rt, rt.alloc(), &table)
}
