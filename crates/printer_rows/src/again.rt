//! Sources that are read, printed, and read again.

use atl_printer::laws::what_is_read_is_printable;
use atl_printer::print_module;
use atl_reader::read_module;
use std::alloc::Global;

/// The canonical text of a source of at most 2^20 bytes; none where it is not read.
fn canonical(alloc: Global, source: &[u8]) -> Option<Vec<u8>> {
    what_is_read_is_printable();
    if source.len() > 1_048_576 {
        return None;
    }
    match read_module(alloc, source) {
        Ok(module) => match print_module(alloc, &module) {
            Ok(text) => Some(text),
            Err(_) => None,
        },
        Err(_) => None,
    }
}

/// Whether the source is read, and these bytes are its canonical text.
fn prints_as(alloc: Global, source: &[u8], wanted: &[u8]) -> bool {
    match canonical(alloc, source) {
        Some(text) => text.as_slice() == wanted,
        None => false,
    }
}

#[test]
fn sources_print_as_canonical_texts(rt: HostRuntime) {
    let rows: [(&[u8], &[u8]); 6] = [
        (
            b"# Each element of a vector, doubled.\natl 1;\n\nsize N in 0..8;\nexample N = 3;\ninput A[N];\noutput B =\n  gen i < N.\n    A[i] * 2;\n",
            b"atl 1;\nsize N in 0..8;\nexample N = 3;\ninput A[N];\noutput B = gen i0 < N. A[i0] * 2;\n",
        ),
        (
            b"atl 1; size N in 0..1024; size M in 0..1024; example N = 2, M = 3; input A[N][M]; input X[N]; input Y[M]; output B = gen i < N. gen j < M. A[i][j] + X[i] * Y[j];",
            b"atl 1;\nsize N in 0..1024;\nsize M in 0..1024;\nexample N = 2, M = 3;\ninput A[N][M];\ninput X[N];\ninput Y[M];\noutput B = gen i0 < N. gen i1 < M. A[i0][i1] + X[i0] * Y[i1];\n",
        ),
        (
            b"atl 1; input word; output B = word;",
            b"atl 1;\ninput word;\noutput B = word;\n",
        ),
        (
            b"atl 2; output B = ((1 + 2)) * 3; output C = word(2 + 3);",
            b"atl 2;\noutput B = (1 + 2) * 3;\noutput C = word(5);\n",
        ),
        (
            b"atl 1; output B = 1 - (2 - 3) - (4 * 5);",
            b"atl 1;\noutput B = 1 - (2 - 3) - 4 * 5;\n",
        ),
        (
            b"atl 2; output B = 1; output C = transpose(1);",
            b"atl 2;\noutput B = 1;\noutput C = transpose(1);\n",
        ),
    ];
    for (source, wanted) in &rows {
        assert!(rt; prints_as(rt.alloc(), *source, *wanted));
        assert!(rt; prints_as(rt.alloc(), *wanted, *wanted));
    }
}

/// Whether the source is read, and its canonical text is that text's own canonical text.
fn prints_again(alloc: Global, source: &[u8]) -> bool {
    match canonical(alloc, source) {
        Some(text) => prints_as(alloc, text.as_slice(), text.as_slice()),
        None => false,
    }
}

#[test]
fn a_canonical_text_prints_as_itself(rt: HostRuntime) {
    let rows: [&[u8]; 12] = [
        b"atl 1; size N in 0..9; assume N >= 5; example N = 4; output B = 1;",
        b"atl 1; input A[4]; output B = flatten(A);",
        b"atl 1; input A[4]; input C[5]; output B = A + C;",
        b"atl 1; output B = gen i0 < 2. guard i0 < 1 and -(i0 - 3) % 2 == 0. 1 - 2 * 3;",
        b"atl 1; size N in 0..9; example N = 4; input A[N][2 * N]; output B = gen N < N. A[N][N];",
        b"atl 1; input A[4]; output B = concat(padl(1, A), truncr(1, flatten(split(2, transpose(A)))));",
        b"atl 1; size N in 1..9; assume N > 1 and N <= 8; example N = 3; input A[N][N]; input x; output B = gen i < N. sum j < N. guard i < j + 1 and i % 2 == 0. let t = A[i][j] * x in (t + 1 - 2) * t;",
        b"atl 2; output B = 1; output C = transpose(1);",
        b"atl 2; size N in 0..8; assume N >= 1; example N = 3; input A[N + 1]; output B = gen i < N. A[i] * word(i + 1); output C = let t = A in t[0];",
        b"atl 2; size N in 1..9; example N = 3; input A[N][N]; output B = concat(padl(1, flatten(A)), padr(N, truncl(1, truncr(1, transpose(split(4, flatten(A)))))));",
        b"atl 2; size N in 1..9; example N = 3; output B = gen i < 4 * N / 3. sum i < N. word((i + N) / 2 % 3 * N - 7);",
        b"atl 2; input A[4]; output B = let A = A in let B = A * (A - 18446744073709551615) in (gen A < 2. B[A])[1];",
    ];
    for source in &rows {
        assert!(rt; prints_again(rt.alloc(), *source));
    }
}
