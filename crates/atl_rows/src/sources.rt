//! Sources with their C texts.

use crate::calls::compiles;
use std::test::Fail;

const SCALE: &str =
    "atl 1; size N in 0..8; example N = 3; input A[N]; output B = gen i < N. A[i] * 2;";

const SCALE_LINES: &str = "int64_t len_a0(int64_t n0) { return n0; }
int64_t len_b0(int64_t n0) { return n0; }
void atl(int64_t n0, const uint64_t *a0, uint64_t *b0) {
  fill(b0, INT64_C(0), n0);
  for (int64_t i0 = INT64_C(0); i0 < n0; i0 = i0 + INT64_C(1)) {
    b0[i0] = a0[i0] * UINT64_C(2);
  }
}
";

const MATRIX: &str =
    "atl 1; size N in 0..8; size M in 0..8; example N = 1, M = 1; input A[N][M]; output B = gen i < N. gen j < M. A[i][j] + 5;";

const MATRIX_LINES: &str = "int64_t len_a0(int64_t n0, int64_t n1) { return n0 * n1; }
int64_t len_b0(int64_t n0, int64_t n1) { return n0 * n1; }
void atl(int64_t n0, int64_t n1, const uint64_t *a0, uint64_t *b0) {
  fill(b0, INT64_C(0), n0 * n1);
  for (int64_t i0 = INT64_C(0); i0 < n0; i0 = i0 + INT64_C(1)) {
    for (int64_t i1 = INT64_C(0); i1 < n1; i1 = i1 + INT64_C(1)) {
      b0[i1 + n1 * i0] = a0[i1 + n1 * i0] + UINT64_C(5);
    }
  }
}
";

// Two inputs, the second read with its indices the other way round.
const TURNED: &str =
    "atl 1; size N in 0..8; size M in 0..8; example N = 1, M = 1; input A[N]; input C[M][N]; output B = gen i < N. gen j < M. A[i] * C[j][i];";

const TURNED_LINES: &str = "int64_t len_a0(int64_t n0, int64_t n1) { return n0; }
int64_t len_a1(int64_t n0, int64_t n1) { return n0 * n1; }
int64_t len_b0(int64_t n0, int64_t n1) { return n0 * n1; }
void atl(int64_t n0, int64_t n1, const uint64_t *a0, const uint64_t *a1, uint64_t *b0) {
  fill(b0, INT64_C(0), n0 * n1);
  for (int64_t i0 = INT64_C(0); i0 < n0; i0 = i0 + INT64_C(1)) {
    for (int64_t i1 = INT64_C(0); i1 < n1; i1 = i1 + INT64_C(1)) {
      b0[i1 + n1 * i0] = a0[i0] * a1[i0 + n0 * i1];
    }
  }
}
";

// Three gens over one size, of which the last hides the first.
const CUBE: &str =
    "atl 1; size N in 0..8; example N = 2; input A[N]; output B = gen i < N. gen j < N. gen i < N. A[i];";

const CUBE_LINES: &str = "int64_t len_a0(int64_t n0) { return n0; }
int64_t len_b0(int64_t n0) { return n0 * n0 * n0; }
void atl(int64_t n0, const uint64_t *a0, uint64_t *b0) {
  fill(b0, INT64_C(0), n0 * n0 * n0);
  for (int64_t i0 = INT64_C(0); i0 < n0; i0 = i0 + INT64_C(1)) {
    for (int64_t i1 = INT64_C(0); i1 < n0; i1 = i1 + INT64_C(1)) {
      for (int64_t i2 = INT64_C(0); i2 < n0; i2 = i2 + INT64_C(1)) {
        b0[i2 + n0 * n0 * i0 + n0 * i1] = a0[i2];
      }
    }
  }
}
";

const NUMBER: &str = "atl 1; output B = 5 * 2 + 1;";

const NUMBER_LINES: &str = "int64_t len_b0(void) { return INT64_C(1); }
void atl(uint64_t *b0) {
  fill(b0, INT64_C(0), INT64_C(1));
  b0[INT64_C(0)] = UINT64_C(5) * UINT64_C(2) + UINT64_C(1);
}
";

// examples/rank_one_update.atl
const UPDATE: &str = "# A matrix, to which a column times a row is added.
atl 1;

size N in 0..1024;
size M in 0..1024;
example N = 2, M = 3;

input A[N][M];
input X[N];
input Y[M];

output B =
  gen i < N.
    gen j < M.
      A[i][j] + X[i] * Y[j];
";

const UPDATE_LINES: &str = "int64_t len_a0(int64_t n0, int64_t n1) { return n0 * n1; }
int64_t len_a1(int64_t n0, int64_t n1) { return n0; }
int64_t len_a2(int64_t n0, int64_t n1) { return n1; }
int64_t len_b0(int64_t n0, int64_t n1) { return n0 * n1; }
void atl(int64_t n0, int64_t n1, const uint64_t *a0, const uint64_t *a1, const uint64_t *a2, uint64_t *b0) {
  fill(b0, INT64_C(0), n0 * n1);
  for (int64_t i0 = INT64_C(0); i0 < n0; i0 = i0 + INT64_C(1)) {
    for (int64_t i1 = INT64_C(0); i1 < n1; i1 = i1 + INT64_C(1)) {
      b0[i1 + n1 * i0] = a0[i1 + n1 * i0] + a1[i0] * a2[i1];
    }
  }
}
";

#[test]
fn sources_have_their_texts(rt: HostRuntime) -> Result<(), Fail> {
    let alloc = rt.alloc();
    let table = [
        (SCALE, SCALE_LINES),
        (MATRIX, MATRIX_LINES),
        (TURNED, TURNED_LINES),
        (CUBE, CUBE_LINES),
        (NUMBER, NUMBER_LINES),
        (UPDATE, UPDATE_LINES),
    ];
    for (source, lines) in table {
        compiles(&rt, alloc, source, lines)?;
    }
    Ok(())
}
