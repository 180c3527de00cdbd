//! Sources, and the first of their printed indices that is too large.

ghost use Rattle.std.specs.Prelude.{◌≡◌, ◌≤◌, length, true};
ghost use Rattle.term_tree.specs.Modules.{module_scoped};

use admission::admit;
use atl_reader::read_module;
use index_limits::first_large;
use owned_values::spent;
use std::alloc::Global;
use term_tree::Module;

/// Whether the module is admitted, and this is the number of its first printed index that is too large, 0 where none is.
fn is_module(alloc: Global, module: &Module, number: u64) -> bool
    requires scoped { module_scoped «module».now ≡ true }
    requires sizes { length «module».now.sizes ≤ 2147483647 }
    requires inputs { length «module».now.inputs ≤ 2147483647 }
    requires outputs { length «module».now.outputs ≤ 2147483647 }
    requires example { length «module».now.example ≡ length «module».now.sizes }
{
    if admit(alloc, module).is_err() {
        return false;
    }
    match first_large(alloc, module) {
        Ok(Some(large)) => large == number,
        Ok(None) => number == 0,
        Err(_) => false,
    }
}

/// Whether the source is read, its module is admitted, and this is the number.
fn is_first(alloc: Global, source: &[u8], number: u64) -> bool {
    if source.len() > 1_048_576 {
        return false;
    }
    match read_module(alloc, source) {
        Ok(module) => {
            let is = is_module(alloc, &module, number);
            spent(module);
            is
        }
        Err(_) => false,
    }
}

#[test]
fn lengths_and_places(rt: HostRuntime) {
    let rows: [(&[u8], u64); 6] = [
        (
            b"atl 1; size N in 0..1099511627776; size M in 0..1099511627776; example N = 1, M = 1; output B = gen i < N. gen j < M. 1;",
            1,
        ),
        (
            b"atl 1; size N in 0..2147483648; size M in 0..1073741824; example N = 1, M = 1; output B = gen i < N. gen j < M. 1;",
            0,
        ),
        (
            b"atl 1; size N in 0..2147483648; size M in 0..2147483648; example N = 1, M = 1; output B = gen i < N. gen j < M. 1;",
            6,
        ),
        (
            b"atl 1; size N in 0..2147483648; size M in 0..2147483648; example N = 1, M = 1; input A[N][M]; output B = A;",
            7,
        ),
        (
            b"atl 1; size N in 0..2147483648; example N = 1; input A[N][2147483648]; output B = gen i < N. A[i][i];",
            7,
        ),
        (
            b"atl 2; size N in 0..2147483648; size M in 0..2147483648; example N = 1, M = 1; output A = 1; output B = gen i < N. gen j < M. 1;",
            10,
        ),
    ];
    for (source, number) in &rows {
        assert!(rt; is_first(rt.alloc(), *source, *number));
    }
}

#[test]
fn comparisons_and_words(rt: HostRuntime) {
    let rows: [(&[u8], u64); 4] = [
        (
            b"atl 1; size N in 0..2147483648; size M in 0..2147483648; example N = 1, M = 1; output B = gen i < N. gen j < M. guard i >= 1. 1;",
            7,
        ),
        (
            b"atl 1; size N in 0..1099511627776; example N = 1; output B = gen i < N. guard i >= 1 and 1099511627776 * i >= 1. 1;",
            6,
        ),
        (
            b"atl 2; size N in 0..1099511627776; example N = 1; output B = gen i < N. word(1099511627776 * i);",
            6,
        ),
        (
            b"atl 1; size N in 0..69; size S in 0..69; assume (N + S + 3) / 4 >= 1; example N = 4, S = 4; output B = truncl(1, split(4, padl(S, gen i < N. guard (S + i) / 4 >= 1. 1)));",
            0,
        ),
    ];
    for (source, number) in &rows {
        assert!(rt; is_first(rt.alloc(), *source, *number));
    }
}

#[test]
fn fills_of_lets_and_scratch(rt: HostRuntime) {
    let rows: [(&[u8], u64); 4] = [
        (
            b"atl 1; size N in 0..2147483648; size M in 0..2147483648; example N = 1, M = 1; output B = sum i < 4. let t = gen j < N. gen k < M. 1 in t[0][0];",
            10,
        ),
        (
            b"atl 1; size N in 0..2147483648; size M in 0..2147483648; size K in 0..2147483648; example N = 1, M = 1, K = 1; output B = concat(gen a < 1. let t = gen i < N. gen j < M. 1 in t[0][0], gen a < 1. let u = gen i < K. gen j < M. 1 in u[0][0]);",
            10,
        ),
        (
            b"atl 1; size N in 0..2147483648; size M in 0..2147483648; example N = 1, M = 1; output B = let t = gen i < N. gen j < M. 1 in let u = gen i < N. 1 in t[0][0] + u[0];",
            2,
        ),
        (
            b"atl 1; size N in 0..1073741824; size M in 0..1073741824; example N = 1, M = 1; output B = let t = gen i < N. gen j < M. 1 in let u = gen i < N. t[i][0] in u[0];",
            0,
        ),
    ];
    for (source, number) in &rows {
        assert!(rt; is_first(rt.alloc(), *source, *number));
    }
}
