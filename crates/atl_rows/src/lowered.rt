//! Sources over the whole language with their C texts.

use crate::calls::compiles;
use std::test::Fail;

// A let under a loop: its words are put to 0 in each turn.
const GUARDED: &str = "atl 1; input A[1]; output B = gen i < 2. let t = guard i == 0. A[0] in t;";

const GUARDED_LINES: &str = "int64_t len_a0(void) { return INT64_C(1); }
int64_t len_b0(void) { return INT64_C(2); }
int64_t len_s0(void) { return INT64_C(1); }
void atl(const uint64_t *a0, uint64_t *b0, uint64_t *s0) {
  fill(b0, INT64_C(0), INT64_C(2));
  for (int64_t i0 = INT64_C(0); i0 < INT64_C(2); i0 = i0 + INT64_C(1)) {
    fill(s0, INT64_C(0), INT64_C(1));
    if (i0 == INT64_C(0)) {
      s0[INT64_C(0)] = a0[INT64_C(0)];
    }
    b0[i0] = s0[INT64_C(0)];
  }
}
";

// Two lets of which neither is inside the other share their words.
const APART: &str =
    "atl 1; size N in 0..8; size M in 0..8; example N = 1, M = 1; input A[N]; input C[M]; output B = concat(let t = gen i < N. A[i] in gen i < N. t[i], let u = gen j < M. C[j] in gen j < M. u[j]);";

const APART_LINES: &str = "int64_t len_a0(int64_t n0, int64_t n1) { return n0; }
int64_t len_a1(int64_t n0, int64_t n1) { return n1; }
int64_t len_b0(int64_t n0, int64_t n1) { return n0 + n1; }
int64_t len_s0(int64_t n0, int64_t n1) { return top(n0, n1); }
void atl(int64_t n0, int64_t n1, const uint64_t *a0, const uint64_t *a1, uint64_t *b0, uint64_t *s0) {
  fill(b0, INT64_C(0), n0 + n1);
  fill(s0, INT64_C(0), n0);
  for (int64_t i0 = INT64_C(0); i0 < n0; i0 = i0 + INT64_C(1)) {
    s0[i0] = a0[i0];
  }
  for (int64_t i0 = INT64_C(0); i0 < n0; i0 = i0 + INT64_C(1)) {
    b0[i0] = s0[i0];
  }
  fill(s0, INT64_C(0), n1);
  for (int64_t i0 = INT64_C(0); i0 < n1; i0 = i0 + INT64_C(1)) {
    s0[i0] = a1[i0];
  }
  for (int64_t i0 = INT64_C(0); i0 < n1; i0 = i0 + INT64_C(1)) {
    b0[n0 + i0] = s0[i0];
  }
}
";

// A let inside another stands behind it.
const NESTED: &str =
    "atl 1; size N in 0..8; size M in 0..8; example N = 1, M = 1; input A[N]; input C[M]; output B = let t = gen i < N. A[i] in let u = gen j < M. C[j] in concat(gen i < N. t[i], gen j < M. u[j]);";

const NESTED_LINES: &str = "int64_t len_a0(int64_t n0, int64_t n1) { return n0; }
int64_t len_a1(int64_t n0, int64_t n1) { return n1; }
int64_t len_b0(int64_t n0, int64_t n1) { return n0 + n1; }
int64_t len_s0(int64_t n0, int64_t n1) { return n0 + n1; }
void atl(int64_t n0, int64_t n1, const uint64_t *a0, const uint64_t *a1, uint64_t *b0, uint64_t *s0) {
  fill(b0, INT64_C(0), n0 + n1);
  fill(s0, INT64_C(0), n0);
  for (int64_t i0 = INT64_C(0); i0 < n0; i0 = i0 + INT64_C(1)) {
    s0[i0] = a0[i0];
  }
  fill(s0, n0, n1);
  for (int64_t i0 = INT64_C(0); i0 < n1; i0 = i0 + INT64_C(1)) {
    s0[n0 + i0] = a1[i0];
  }
  for (int64_t i0 = INT64_C(0); i0 < n0; i0 = i0 + INT64_C(1)) {
    b0[i0] = s0[i0];
  }
  for (int64_t i0 = INT64_C(0); i0 < n1; i0 = i0 + INT64_C(1)) {
    b0[n0 + i0] = s0[n0 + i0];
  }
}
";

const NUMBERS: &str = "atl 1; output B = let t = 1 in let u = 2 in t + u;";

const NUMBERS_LINES: &str = "int64_t len_b0(void) { return INT64_C(1); }
int64_t len_s0(void) { return INT64_C(2); }
void atl(uint64_t *b0, uint64_t *s0) {
  fill(b0, INT64_C(0), INT64_C(1));
  fill(s0, INT64_C(0), INT64_C(1));
  s0[INT64_C(0)] = UINT64_C(1);
  fill(s0, INT64_C(1), INT64_C(1));
  s0[INT64_C(1)] = UINT64_C(2);
  b0[INT64_C(0)] = s0[INT64_C(0)] + s0[INT64_C(1)];
}
";

// A sum around a let: what the let holds is put, what the output holds is added to.
const SQUARES: &str =
    "atl 1; size N in 0..8; example N = 2; input A[N]; output B = sum i < N. let t = A[i] * A[i] in t * t;";

const SQUARES_LINES: &str = "int64_t len_a0(int64_t n0) { return n0; }
int64_t len_b0(int64_t n0) { return INT64_C(1); }
int64_t len_s0(int64_t n0) { return INT64_C(1); }
void atl(int64_t n0, const uint64_t *a0, uint64_t *b0, uint64_t *s0) {
  fill(b0, INT64_C(0), INT64_C(1));
  for (int64_t i0 = INT64_C(0); i0 < n0; i0 = i0 + INT64_C(1)) {
    fill(s0, INT64_C(0), INT64_C(1));
    s0[INT64_C(0)] = a0[i0] * a0[i0];
    b0[INT64_C(0)] += s0[INT64_C(0)] * s0[INT64_C(0)];
  }
}
";

const DIFFERENCE: &str = "atl 1; output B = 5 - 2;";

const DIFFERENCE_LINES: &str = "int64_t len_b0(void) { return INT64_C(1); }
void atl(uint64_t *b0) {
  fill(b0, INT64_C(0), INT64_C(1));
  b0[INT64_C(0)] = UINT64_C(5) - UINT64_C(2);
}
";

const WINDOW: &str =
    "atl 1; size N in 1..1000; size K in 1..64; assume N >= K; example N = 5, K = 2; input A[N]; input W[K]; output B = gen i < N - K + 1. sum j < K. A[i + j] * W[j];";

const WINDOW_LINES: &str = "int64_t len_a0(int64_t n0, int64_t n1) { return n0; }
int64_t len_a1(int64_t n0, int64_t n1) { return n1; }
int64_t len_b0(int64_t n0, int64_t n1) { return n0 + INT64_C(1) - n1; }
void atl(int64_t n0, int64_t n1, const uint64_t *a0, const uint64_t *a1, uint64_t *b0) {
  fill(b0, INT64_C(0), n0 + INT64_C(1) - n1);
  for (int64_t i0 = INT64_C(0); i0 < n0 + INT64_C(1) - n1; i0 = i0 + INT64_C(1)) {
    for (int64_t i1 = INT64_C(0); i1 < n1; i1 = i1 + INT64_C(1)) {
      b0[i0] += a0[i0 + i1] * a1[i1];
    }
  }
}
";

// Two outputs, and words of indices.
const OUTPUTS: &str =
    "atl 2; size N in 0..8; example N = 3; input A[N]; output B = gen i < N. A[i] * word(i + 1); output C = sum i < N. word(i - 1);";

const OUTPUTS_LINES: &str = "int64_t len_a0(int64_t n0) { return n0; }
int64_t len_b0(int64_t n0) { return n0; }
int64_t len_b1(int64_t n0) { return INT64_C(1); }
void atl(int64_t n0, const uint64_t *a0, uint64_t *b0, uint64_t *b1) {
  fill(b0, INT64_C(0), n0);
  for (int64_t i0 = INT64_C(0); i0 < n0; i0 = i0 + INT64_C(1)) {
    b0[i0] = a0[i0] * (uint64_t)(i0 + INT64_C(1));
  }
  fill(b1, INT64_C(0), INT64_C(1));
  for (int64_t i0 = INT64_C(0); i0 < n0; i0 = i0 + INT64_C(1)) {
    b1[INT64_C(0)] += (uint64_t)(i0 - INT64_C(1));
  }
}
";

// A guard within a word loads nothing where its test fails.
const CHOICE: &str =
    "atl 1; size N in 0..8; example N = 3; input A[N]; output B = gen i < N. 3 * (guard i + 1 < N. A[i + 1]);";

const CHOICE_LINES: &str = "int64_t len_a0(int64_t n0) { return n0; }
int64_t len_b0(int64_t n0) { return n0; }
void atl(int64_t n0, const uint64_t *a0, uint64_t *b0) {
  fill(b0, INT64_C(0), n0);
  for (int64_t i0 = INT64_C(0); i0 < n0; i0 = i0 + INT64_C(1)) {
    b0[i0] = UINT64_C(3) * (n0 - i0 - INT64_C(2) >= INT64_C(0) ? a0[i0 + INT64_C(1)] : UINT64_C(0));
  }
}
";

// A sum of vectors: both parts add. Indices from the end, and halves.
const TWICE: &str =
    "atl 1; size N in 1..8; example N = 3; input A[N]; output B = (gen i < N. A[N - 1 - i]) + (gen i < N. A[i / 2]);";

const TWICE_LINES: &str = "int64_t len_a0(int64_t n0) { return n0; }
int64_t len_b0(int64_t n0) { return n0; }
void atl(int64_t n0, const uint64_t *a0, uint64_t *b0) {
  fill(b0, INT64_C(0), n0);
  for (int64_t i0 = INT64_C(0); i0 < n0; i0 = i0 + INT64_C(1)) {
    b0[i0] += a0[n0 - i0 - INT64_C(1)];
  }
  for (int64_t i0 = INT64_C(0); i0 < n0; i0 = i0 + INT64_C(1)) {
    b0[i0] += a0[i0 / INT64_C(2)];
  }
}
";

const TRANSPOSED: &str =
    "atl 1; size N in 0..8; example N = 3; input A[N][5]; output B = transpose(gen i < N. gen j < 5. A[i][j]);";

const TRANSPOSED_LINES: &str = "int64_t len_a0(int64_t n0) { return INT64_C(5) * n0; }
int64_t len_b0(int64_t n0) { return INT64_C(5) * n0; }
void atl(int64_t n0, const uint64_t *a0, uint64_t *b0) {
  fill(b0, INT64_C(0), INT64_C(5) * n0);
  for (int64_t i0 = INT64_C(0); i0 < n0; i0 = i0 + INT64_C(1)) {
    for (int64_t i1 = INT64_C(0); i1 < INT64_C(5); i1 = i1 + INT64_C(1)) {
      b0[i0 + n0 * i1] = a0[INT64_C(5) * i0 + i1];
    }
  }
}
";

// A matrix as one row, and a vector behind it.
const JOINED: &str =
    "atl 1; size N in 0..100; size M in 0..100; size K in 0..100; example N = 2, M = 2, K = 1; input A[N][M]; input C[K]; output B = concat(flatten(gen i < N. gen j < M. A[i][j]), gen k < K. C[k]);";

const JOINED_LINES: &str = "int64_t len_a0(int64_t n0, int64_t n1, int64_t n2) { return n0 * n1; }
int64_t len_a1(int64_t n0, int64_t n1, int64_t n2) { return n2; }
int64_t len_b0(int64_t n0, int64_t n1, int64_t n2) { return n2 + n0 * n1; }
void atl(int64_t n0, int64_t n1, int64_t n2, const uint64_t *a0, const uint64_t *a1, uint64_t *b0) {
  fill(b0, INT64_C(0), n2 + n0 * n1);
  for (int64_t i0 = INT64_C(0); i0 < n0; i0 = i0 + INT64_C(1)) {
    for (int64_t i1 = INT64_C(0); i1 < n1; i1 = i1 + INT64_C(1)) {
      b0[i1 + n1 * i0] = a0[i1 + n1 * i0];
    }
  }
  for (int64_t i0 = INT64_C(0); i0 < n2; i0 = i0 + INT64_C(1)) {
    b0[i0 + n0 * n1] = a1[i0];
  }
}
";

// A vector taken by fours, and the end that was filled up cut off again.
const BY_FOURS: &str =
    "atl 1; size N in 0..100; example N = 3; input A[N]; output B = truncr(4 * ((N + 3) / 4) - N, flatten(gen i < (N + 3) / 4. gen j < 4. guard N - 4 * i - j - 1 >= 0. A[4 * i + j] * 2));";

pub const BY_FOURS_LINES: &str = "int64_t len_a0(int64_t n0) { return n0; }
int64_t len_b0(int64_t n0) { return n0; }
void atl(int64_t n0, const uint64_t *a0, uint64_t *b0) {
  fill(b0, INT64_C(0), n0);
  for (int64_t i0 = INT64_C(0); i0 < (n0 + INT64_C(3)) / INT64_C(4); i0 = i0 + INT64_C(1)) {
    for (int64_t i1 = INT64_C(0); i1 < INT64_C(4); i1 = i1 + INT64_C(1)) {
      if (n0 - INT64_C(4) * i0 - i1 - INT64_C(1) >= INT64_C(0)) {
        b0[INT64_C(4) * i0 + i1] = a0[INT64_C(4) * i0 + i1] * UINT64_C(2);
      }
    }
  }
}
";

// Chunks of four as columns: each element goes to its remainder and its quotient.
const COLUMNS: &str =
    "atl 1; size N in 0..8; example N = 3; input A[N]; output B = transpose(split(4, A));";

const COLUMNS_LINES: &str = "int64_t len_a0(int64_t n0) { return n0; }
int64_t len_b0(int64_t n0) { return INT64_C(4) * ((n0 + INT64_C(3)) / INT64_C(4)); }
void atl(int64_t n0, const uint64_t *a0, uint64_t *b0) {
  fill(b0, INT64_C(0), INT64_C(4) * ((n0 + INT64_C(3)) / INT64_C(4)));
  for (int64_t i0 = INT64_C(0); i0 < n0; i0 = i0 + INT64_C(1)) {
    b0[i0 / INT64_C(4) + i0 * ((n0 + INT64_C(3)) / INT64_C(4)) - INT64_C(4) * ((n0 + INT64_C(3)) / INT64_C(4)) * (i0 / INT64_C(4))] = a0[i0];
  }
}
";

// Rows before and behind, and a row cut off that the guard leaves out.
const MOVED: &str =
    "atl 1; size N in 1..8; example N = 3; input A[N][2]; output B = padl(2, padr(N, truncl(1, gen i < N. guard i >= 1. A[i])));";

const MOVED_LINES: &str = "int64_t len_a0(int64_t n0) { return INT64_C(2) * n0; }
int64_t len_b0(int64_t n0) { return INT64_C(4) * n0 + INT64_C(2); }
void atl(int64_t n0, const uint64_t *a0, uint64_t *b0) {
  fill(b0, INT64_C(0), INT64_C(4) * n0 + INT64_C(2));
  for (int64_t i0 = INT64_C(0); i0 < n0; i0 = i0 + INT64_C(1)) {
    if (i0 - INT64_C(1) >= INT64_C(0)) {
      for (int64_t i1 = INT64_C(0); i1 < INT64_C(2); i1 = i1 + INT64_C(1)) {
        b0[INT64_C(2) * i0 + i1 + INT64_C(2)] = a0[INT64_C(2) * i0 + i1];
      }
    }
  }
}
";

#[test]
fn lets_share_one_region(rt: HostRuntime) -> Result<(), Fail> {
    let table = [
        (GUARDED, GUARDED_LINES),
        (APART, APART_LINES),
        (NESTED, NESTED_LINES),
        (NUMBERS, NUMBERS_LINES),
        (SQUARES, SQUARES_LINES),
    ];
    for (source, lines) in table {
        compiles(&rt, rt.alloc(), source, lines)?;
    }
    Ok(())
}

#[test]
fn words_sums_and_outputs_have_their_loops(rt: HostRuntime) -> Result<(), Fail> {
    let table = [
        (DIFFERENCE, DIFFERENCE_LINES),
        (WINDOW, WINDOW_LINES),
        (OUTPUTS, OUTPUTS_LINES),
        (CHOICE, CHOICE_LINES),
        (TWICE, TWICE_LINES),
    ];
    for (source, lines) in table {
        compiles(&rt, rt.alloc(), source, lines)?;
    }
    Ok(())
}

#[test]
fn shapes_move_places_alone(rt: HostRuntime) -> Result<(), Fail> {
    let table = [
        (TRANSPOSED, TRANSPOSED_LINES),
        (JOINED, JOINED_LINES),
        (BY_FOURS, BY_FOURS_LINES),
        (COLUMNS, COLUMNS_LINES),
        (MOVED, MOVED_LINES),
    ];
    for (source, lines) in table {
        compiles(&rt, rt.alloc(), source, lines)?;
    }
    Ok(())
}
