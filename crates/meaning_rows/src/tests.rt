ghost use Rattle.std.specs.Prelude.{◌≤◌};

use crate::check::denoted;
use crate::sources::Kind::{Gen, PadL, PadR, Row, Sum, TruncL, TruncR, WhereZero};
use crate::sources::Node::{Both, Flatten, Lit, Split, Tensor as Var, Transpose, With, Word};
use crate::sources::Pair::{Add, Concat, Let, Mul};
use crate::sources::{Form, Node, Source, module};
use atl_meaning::{MeaningFault, Tensor};
use sqlite_items::Items;
use std::alloc::Global;
use std::test::Fail;

/// The sizes N, M and K, the variables i and j of the innermost and the next binder, and numbers.
const N: Form = Form::Size(0);

const M: Form = Form::Size(1);

const K: Form = Form::Size(2);

const I: Form = Form::Var(0);

const OUTER: Form = Form::Var(1);

const ZERO: Form = Form::Number(0);

const TWO: Form = Form::Number(2);

/// `size N in 0..8; input A[N]; output B = ..`
fn of_vector(term: &[Node]) -> Source<'_> {
    Source {
        sizes: &[(0, 8)],
        assumes: &[],
        first: &[N],
        second: &[],
        term,
    }
}

/// A row of words.
fn row(alloc: Global, words: &[u64]) -> Result<Tensor, Fail> {
    let mut row = Items::new(alloc);
    for word in words {
        row.push(Tensor::Word(*word))?;
    }
    Ok(Tensor::Row(row))
}

/// Rows of words.
fn table(alloc: Global, rows: &[&[u64]]) -> Result<Tensor, Fail> {
    let mut table = Items::new(alloc);
    for words in rows {
        table.push(row(alloc, words)?)?;
    }
    Ok(Tensor::Row(table))
}

#[cycle(same)]
fn same(a: &Tensor, b: &Tensor) -> bool {
    match (a, b) {
        (Tensor::Word(a), Tensor::Word(b)) => *a == *b,
        (Tensor::Row(a), Tensor::Row(b)) => same_rows(a.as_slice(), b.as_slice()),
        (Tensor::Word(_), Tensor::Row(_)) => false,
        (Tensor::Row(_), Tensor::Word(_)) => false,
    }
}

#[cycle(same)]
fn same_rows(a: &[Tensor], b: &[Tensor]) -> bool {
    if a.len() != b.len() {
        return false;
    }
    for at in 0..a.len() {
        if !same(&a[at], &b[at]) {
            return false;
        }
    }
    true
}

/// Whether the output is this tensor, where at most so many turns are taken.
fn gives(
    alloc: Global,
    source: &Source,
    sizes: &[u64],
    inputs: &[Tensor],
    limit: u64,
    output: &Tensor,
) -> Result<bool, Fail>
    requires { limit ≤ 1000000 }
{
    let module = module(alloc, source)?;
    match denoted(alloc, &module, sizes, inputs, limit)? {
        Some(Ok(tensors)) => Ok(tensors.len() == 1 && same(&tensors.as_slice()[0], output)),
        _ => Ok(false),
    }
}

/// Whether a term over a row gives a tensor.
fn from_row(
    alloc: Global,
    term: &[Node],
    input: &[u64],
    limit: u64,
    output: &Tensor,
) -> Result<bool, Fail>
    requires { limit ≤ 1000000 }
{
    let words = row(alloc, input)?;
    let sizes = [input.len() as u64];
    gives(alloc, &of_vector(term), &sizes, &[words], limit, output)
}

/// Whether a term over a row gives a row.
fn row_to_row(
    alloc: Global,
    term: &[Node],
    input: &[u64],
    limit: u64,
    output: &[u64],
) -> Result<bool, Fail>
    requires { limit ≤ 1000000 }
{
    let output = row(alloc, output)?;
    from_row(alloc, term, input, limit, &output)
}

/// Whether a source over rows, or words, and words gives a row.
fn from_two(
    alloc: Global,
    source: &Source,
    sizes: &[u64],
    first: Tensor,
    second: &[u64],
    output: &[u64],
) -> Result<bool, Fail> {
    let second = row(alloc, second)?;
    let output = row(alloc, output)?;
    gives(alloc, source, sizes, &[first, second], 100, &output)
}

/// Why a source is refused.
fn refusal(
    alloc: Global,
    source: &Source,
    sizes: &[u64],
    input: Tensor,
    limit: u64,
) -> Result<Option<MeaningFault>, Fail>
    requires { limit ≤ 1000000 }
{
    let module = module(alloc, source)?;
    match denoted(alloc, &module, sizes, &[input], limit)? {
        Some(Err(fault)) => Ok(Some(fault)),
        _ => Ok(None),
    }
}

/// Why a term over a row is refused.
fn refused(
    alloc: Global,
    term: &[Node],
    input: &[u64],
    limit: u64,
) -> Result<Option<MeaningFault>, Fail>
    requires { limit ≤ 1000000 }
{
    let words = row(alloc, input)?;
    let sizes = [input.len() as u64];
    refusal(alloc, &of_vector(term), &sizes, words, limit)
}

#[test]
fn each_word_of_a_row(rt: HostRuntime) -> Result<(), Fail> {
    let alloc = rt.alloc();
    // gen i < N. A[i] * 2
    let scaled = &[With(Gen, N), Both(Mul), With(Row, I), Var(0), Lit(2)];
    assert!(rt; row_to_row(alloc, scaled, &[1, 2, 3], 3, &[2, 4, 6])?);
    assert!(rt; row_to_row(alloc, scaled, &[], 0, &[])?);
    // gen i < N. A[i] + 1
    let increased = &[With(Gen, N), Both(Add), With(Row, I), Var(0), Lit(1)];
    assert!(rt; row_to_row(alloc, increased, &[18446744073709551615, 5], 2, &[0, 6])?);
    // gen i < N. A[i - 1]
    let moved = &[With(Gen, N), With(Row, Form::Before), Var(0)];
    assert!(rt; row_to_row(alloc, moved, &[7, 8, 9], 3, &[0, 7, 8])?);
    Ok(())
}

#[test]
fn a_row_that_is_not_there_is_zero(rt: HostRuntime) -> Result<(), Fail> {
    let alloc = rt.alloc();
    // (gen i < N. A[i])[N]
    let past = &[With(Row, N), With(Gen, N), With(Row, I), Var(0)];
    assert!(rt; from_row(alloc, past, &[7], 1, &Tensor::Word(0))?);
    // (gen i < N. gen j < 2. A[i])[-1]
    let before = &[
        With(Row, Form::Number(-1)),
        With(Gen, N),
        With(Gen, TWO),
        With(Row, OUTER),
        Var(0),
    ];
    assert!(rt; row_to_row(alloc, before, &[7], 3, &[0, 0])?);
    Ok(())
}

#[test]
fn sums(rt: HostRuntime) -> Result<(), Fail> {
    let alloc = rt.alloc();
    // sum i < N. A[i]
    let added = &[With(Sum, N), With(Row, I), Var(0)];
    assert!(rt; from_row(alloc, added, &[], 0, &Tensor::Word(0))?);
    let sum = Tensor::Word(1);
    assert!(rt; from_row(alloc, added, &[18446744073709551615, 2], 2, &sum)?);
    Ok(())
}

/// `size N in 0..100; size M in 0..100; input A[N][M]; input C[M]; output B = gen i < N. sum j < M. A[i][j] * C[j]`
#[test]
fn empty_sums(rt: HostRuntime) -> Result<(), Fail> {
    let alloc = rt.alloc();
    let multiplied = Source {
        sizes: &[(0, 100), (0, 100)],
        assumes: &[],
        first: &[N, M],
        second: &[M],
        term: &[
            With(Gen, N),
            With(Sum, M),
            Both(Mul),
            With(Row, I),
            With(Row, OUTER),
            Var(0),
            With(Row, I),
            Var(1),
        ],
    };
    let empty = table(alloc, &[&[], &[]])?;
    assert!(rt; from_two(alloc, &multiplied, &[2, 0], empty, &[], &[0, 0])?);
    Ok(())
}

/// `assume N - M >= 0; input A[N]; input C[M]; output B = gen i < N - M + 1. sum j < M. A[i + j] * C[j]`
#[test]
fn a_convolution(rt: HostRuntime) -> Result<(), Fail> {
    let alloc = rt.alloc();
    let convolved = Source {
        sizes: &[(1, 1000), (1, 64)],
        assumes: &[Form::Rest(0)],
        first: &[N],
        second: &[M],
        term: &[
            With(Gen, Form::Rest(1)),
            With(Sum, M),
            Both(Mul),
            With(Row, Form::Window),
            Var(0),
            With(Row, I),
            Var(1),
        ],
    };
    let words = row(alloc, &[1, 2, 3, 4, 5])?;
    assert!(rt;
        from_two(
            alloc,
            &convolved,
            &[5, 2],
            words,
            &[10, 1],
            &[12, 23, 34, 45]
        )?
    );
    Ok(())
}

/// Whether a term over N words and M weights gives a row.
fn weighs(alloc: Global, term: &[Node]) -> Result<bool, Fail> {
    let source = Source {
        sizes: &[(0, 100), (0, 100)],
        assumes: &[],
        first: &[N],
        second: &[M],
        term,
    };
    let words = row(alloc, &[3, 5])?;
    from_two(alloc, &source, &[2, 2], words, &[1, 2], &[9, 15])
}

#[test]
fn definitions(rt: HostRuntime) -> Result<(), Fail> {
    let alloc = rt.alloc();
    // gen i < N. let t = A[i] in sum j < M. C[j] * t
    let bound = &[
        With(Gen, N),
        Both(Let),
        With(Row, I),
        Var(0),
        With(Sum, M),
        Both(Mul),
        With(Row, I),
        Var(2),
        Var(0),
    ];
    assert!(rt; weighs(alloc, bound)?);
    // gen i < N. sum j < M. C[j] * A[i]
    let inlined = &[
        With(Gen, N),
        With(Sum, M),
        Both(Mul),
        With(Row, I),
        Var(1),
        With(Row, OUTER),
        Var(0),
    ];
    assert!(rt; weighs(alloc, inlined)?);
    // gen i < 2. let t = guard i == 0. A[0] in t
    let guarded = &[
        With(Gen, TWO),
        Both(Let),
        With(WhereZero, I),
        With(Row, ZERO),
        Var(0),
        Var(0),
    ];
    assert!(rt; row_to_row(alloc, guarded, &[7], 2, &[7, 0])?);
    Ok(())
}

/// `input A[N][5]; output B = transpose(gen i < N. gen j < 5. A[i][j])`
#[test]
fn rows_become_columns(rt: HostRuntime) -> Result<(), Fail> {
    let alloc = rt.alloc();
    let source = Source {
        sizes: &[(0, 8)],
        assumes: &[],
        first: &[N, Form::Number(5)],
        second: &[],
        term: &[
            Transpose,
            With(Gen, N),
            With(Gen, Form::Number(5)),
            With(Row, I),
            With(Row, OUTER),
            Var(0),
        ],
    };
    let none = table(alloc, &[])?;
    let empty = table(alloc, &[&[], &[], &[], &[], &[]])?;
    assert!(rt; gives(alloc, &source, &[0], &[none], 0, &empty)?);
    let rows = table(alloc, &[&[1, 2, 3, 4, 5], &[6, 7, 8, 9, 10]])?;
    let columns = table(alloc, &[&[1, 6], &[2, 7], &[3, 8], &[4, 9], &[5, 10]])?;
    assert!(rt; gives(alloc, &source, &[2], &[rows], 12, &columns)?);
    Ok(())
}

/// `input A[N][M]; input C[K]; output B = concat(flatten(gen i < N. gen j < M. A[i][j]), gen k < K. C[k])`
#[test]
fn rows_are_joined(rt: HostRuntime) -> Result<(), Fail> {
    let alloc = rt.alloc();
    let source = Source {
        sizes: &[(0, 100), (0, 100), (0, 100)],
        assumes: &[],
        first: &[N, M],
        second: &[K],
        term: &[
            Both(Concat),
            Flatten,
            With(Gen, N),
            With(Gen, M),
            With(Row, I),
            With(Row, OUTER),
            Var(0),
            With(Gen, K),
            With(Row, I),
            Var(1),
        ],
    };
    let rows = table(alloc, &[&[1, 2], &[3, 4]])?;
    assert!(rt; from_two(alloc, &source, &[2, 2, 1], rows, &[9], &[1, 2, 3, 4, 9])?);
    Ok(())
}

#[test]
fn rows_are_cut(rt: HostRuntime) -> Result<(), Fail> {
    let alloc = rt.alloc();
    // concat(flatten(gen i < N. gen j < 2. A[i]), A)
    let doubled = &[
        Both(Concat),
        Flatten,
        With(Gen, N),
        With(Gen, TWO),
        With(Row, OUTER),
        Var(0),
        Var(0),
    ];
    assert!(rt; row_to_row(alloc, doubled, &[3, 9], 6, &[3, 3, 9, 9, 3, 9])?);
    // split(2, truncr(1, truncl(2, padl(1, padr(3, A)))))
    let cut = &[
        Split(2),
        With(TruncR, Form::Number(1)),
        With(TruncL, TWO),
        With(PadL, Form::Number(1)),
        With(PadR, Form::Number(3)),
        Var(0),
    ];
    let chunks = table(alloc, &[&[6, 7], &[8, 0], &[0, 0]])?;
    assert!(rt; from_row(alloc, cut, &[5, 6, 7, 8], 0, &chunks)?);
    Ok(())
}

#[test]
fn turns_are_counted_as_they_are_computed(rt: HostRuntime) -> Result<(), Fail> {
    let alloc = rt.alloc();
    // gen i < 4. 1
    let four = &[With(Gen, Form::Number(4)), Lit(1)];
    assert!(rt; row_to_row(alloc, four, &[], 4, &[1, 1, 1, 1])?);
    assert_eq!(rt;
        refused(alloc, four, &[], 3)?,
        Some(MeaningFault::TooMuchWork { turns: 4 })
    );
    // gen i < 2. let t = guard i == 0. sum j < 3. A[0] in t * t
    let guarded = &[
        With(Gen, TWO),
        Both(Let),
        With(WhereZero, I),
        With(Sum, Form::Number(3)),
        With(Row, ZERO),
        Var(0),
        Both(Mul),
        Var(0),
        Var(0),
    ];
    assert!(rt; row_to_row(alloc, guarded, &[7], 5, &[441, 0])?);
    assert_eq!(rt;
        refused(alloc, guarded, &[7], 4)?,
        Some(MeaningFault::TooMuchWork { turns: 5 })
    );
    Ok(())
}

#[test]
fn a_definition_is_computed_once(rt: HostRuntime) -> Result<(), Fail> {
    let alloc = rt.alloc();
    let words = &[1, 2, 3];
    // let t = sum j < N. A[j] in gen i < N. A[i] * t
    let shared = &[
        Both(Let),
        With(Sum, N),
        With(Row, I),
        Var(0),
        With(Gen, N),
        Both(Mul),
        With(Row, I),
        Var(1),
        Var(0),
    ];
    assert!(rt; row_to_row(alloc, shared, words, 6, &[6, 12, 18])?);
    assert_eq!(rt;
        refused(alloc, shared, words, 5)?,
        Some(MeaningFault::TooMuchWork { turns: 6 })
    );
    // gen i < N. A[i] * (sum j < N. A[j])
    let repeated = &[
        With(Gen, N),
        Both(Mul),
        With(Row, I),
        Var(0),
        With(Sum, N),
        With(Row, I),
        Var(0),
    ];
    assert!(rt; row_to_row(alloc, repeated, words, 12, &[6, 12, 18])?);
    assert_eq!(rt;
        refused(alloc, repeated, words, 11)?,
        Some(MeaningFault::TooMuchWork { turns: 12 })
    );
    Ok(())
}

#[test]
fn what_is_too_big_comes_before_work(rt: HostRuntime) -> Result<(), Fail> {
    let alloc = rt.alloc();
    // gen i < N. gen j < 8388608. 1
    let wide = &[With(Gen, N), With(Gen, Form::Number(8388608)), Lit(1)];
    let words = &[0, 0, 0];
    assert_eq!(rt;
        refused(alloc, wide, &words[1..], 0)?,
        Some(MeaningFault::TooMuchWork { turns: 1 })
    );
    assert_eq!(rt;
        refused(alloc, wide, words, 0)?,
        Some(MeaningFault::TooBig { words: 25165824 })
    );
    // gen i < 16777217. gen j < N. 1
    let tall = &[With(Gen, Form::Number(16777217)), With(Gen, N), Lit(1)];
    assert_eq!(rt;
        refused(alloc, tall, &[], 0)?,
        Some(MeaningFault::TooBig { words: 16777217 })
    );
    Ok(())
}

/// `size N in 0..8388608; size M in 0..8; input A[M]; output B = word(1099511627776 * N)`
#[test]
fn a_form_of_magnitude_two_to_the_63(rt: HostRuntime) -> Result<(), Fail> {
    let alloc = rt.alloc();
    let source = Source {
        sizes: &[(0, 8388608), (0, 8)],
        assumes: &[],
        first: &[M],
        second: &[],
        term: &[Word(Form::Square(1048576, 0))],
    };
    let word = Tensor::Word(9223370937343148032);
    let none = row(alloc, &[])?;
    assert!(rt; gives(alloc, &source, &[8388607, 0], &[none], 0, &word)?);
    let none = row(alloc, &[])?;
    assert_eq!(rt;
        refusal(alloc, &source, &[8388608, 0], none, 0)?,
        Some(MeaningFault::TooBig {
            words: 18446744073709551615
        })
    );
    Ok(())
}

/// `size N in 0..20000000; size M in 0..8; input A[M][N]; output B = gen i < 33554432. 1`
#[test]
fn an_input_too_big_comes_before_an_output(rt: HostRuntime) -> Result<(), Fail> {
    let alloc = rt.alloc();
    let source = Source {
        sizes: &[(0, 20000000), (0, 8)],
        assumes: &[],
        first: &[M, N],
        second: &[],
        term: &[With(Gen, Form::Number(33554432)), Lit(1)],
    };
    let none = row(alloc, &[])?;
    assert_eq!(rt;
        refusal(alloc, &source, &[16777217, 0], none, 0)?,
        Some(MeaningFault::TooBig { words: 16777217 })
    );
    let none = row(alloc, &[])?;
    assert_eq!(rt;
        refusal(alloc, &source, &[16777216, 0], none, 0)?,
        Some(MeaningFault::TooBig { words: 33554432 })
    );
    Ok(())
}
