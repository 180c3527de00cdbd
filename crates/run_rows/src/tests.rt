use crate::programs::Node::{
    AddTo, Both, Choose, For, If, Index, Load, Loop, Number, OfIndex, Over, Put, Seq, Size, Test,
    Word, Zero,
};
use crate::programs::{Node, Pair, Source};
use crate::runs::{Told, ran};
use crate::texts::{are, given};
use affine_index::Rel;
use given_text::{GivenFault, print_words};
use loop_lang::Buf;
use loop_run::{Counted, MakeRefusal, Stuck};
use std::alloc::Global;
use std::process::Abort;
use std::test::Fail;

const A: Buf = Buf::Input(0);

const B: Buf = Buf::Output(0);

/// The word of outputs and scratch at the start.
const START: u64 = 6_148_914_691_236_517_205;

/// A program with so many sizes, the input a0 and the output b0.
fn of_one<'a>(sizes: u32, lengths: &'a [&'a [Node]], body: &'a [Node]) -> Source<'a> {
    Source {
        sizes,
        inputs: 1,
        outputs: 1,
        scratch: 0,
        lengths,
        body,
    }
}

fn counts(steps: u64, stores: u64, loads: u64, products: u64) -> Told {
    Told::Ended(Counted {
        steps,
        stores,
        loads,
        products,
    })
}

/// A run: sizes, the words of a0, the limit on steps, what is told, and the words of b0 after it.
type Run<'a> = (&'a [u64], &'a [u64], u64, Told, &'a [u64]);

/// Whether runs are told so, and leave these words in b0.
fn are_told(rt: &impl Abort, alloc: Global, source: &Source, runs: &[Run]) -> Result<(), Fail> {
    for (sizes, input, limit, told, words) in runs {
        let (found, same) = ran(alloc, source, *sizes, &[*input], *limit, *words)?;
        assert_eq!(rt; found, *told);
        assert!(rt; same);
    }
    Ok(())
}

/// `fill(b0, 0, n0); for i0 < n0 { b0[i0] = a0[i0] * 2 }`
#[test]
fn scaling(rt: HostRuntime) -> Result<(), Fail> {
    let lengths: [&[Node]; 2] = [&[Size(0)], &[Size(0)]];
    let body = [
        Seq(2),
        Zero(B),
        Number(0),
        Size(0),
        For,
        Size(0),
        Seq(1),
        Put(B),
        Loop(0),
        Both(Pair::Mul),
        Load(A),
        Loop(0),
        Word(2),
    ];
    let short = MakeRefusal::WrongCount {
        input: 0,
        want: 3,
        got: 2,
    };
    // Too many words come before an input of another count.
    let big = MakeRefusal::TooBigToRun { words: 16_777_218 };
    let runs: [Run; 5] = [
        (&[3], &[1, 2, 3], 9, counts(9, 6, 3, 3), &[2, 4, 6]),
        (
            &[3],
            &[1, 2, 3],
            8,
            Told::Stopped(Stuck::TooMuchWork { steps: 9 }),
            &[2, 4, 0],
        ),
        (&[0], &[], 0, counts(0, 0, 0, 0), &[]),
        (&[3], &[1, 2], 9, Told::Unmade(short), &[]),
        (&[8_388_609], &[], 9, Told::Unmade(big), &[]),
    ];
    are_told(&rt, rt.alloc(), &of_one(1, &lengths, &body), &runs)
}

/// `fill(b0, 0, n0); for i0 < n0 { for i1 < n1 { b0[i0] += a0[i0 * n1 + i1] } }`: rows without words, a sum modulo 2^64, and a length that is too
/// large are among these.
#[test]
fn sums_of_rows(rt: HostRuntime) -> Result<(), Fail> {
    let lengths: [&[Node]; 2] = [&[Index(Pair::Mul), Size(0), Size(1)], &[Size(0)]];
    let body = [
        Seq(2),
        Zero(B),
        Number(0),
        Size(0),
        For,
        Size(0),
        For,
        Size(1),
        AddTo(B),
        Loop(0),
        Load(A),
        Index(Pair::Add),
        Index(Pair::Mul),
        Loop(0),
        Size(1),
        Loop(1),
    ];
    let overflow = MakeRefusal::Stuck(Stuck::Overflow);
    let runs: [Run; 4] = [
        (&[2, 2], &[1, 2, 3, 4], 12, counts(12, 6, 4, 0), &[3, 7]),
        (&[2, 0], &[], 4, counts(4, 2, 0, 0), &[0, 0]),
        (
            &[1, 2],
            &[18_446_744_073_709_551_615, 2],
            9,
            counts(6, 3, 2, 0),
            &[1],
        ),
        (
            &[1_099_511_627_776, 1_099_511_627_776],
            &[],
            9,
            Told::Unmade(overflow),
            &[],
        ),
    ];
    are_told(&rt, rt.alloc(), &of_one(2, &lengths, &body), &runs)
}

/// `for i0 < n0 { b0[i0] = i0 < 1 ? a0[i0] : 7 * 9 }`, where a0 has one word: the other side would be outside.
#[test]
fn one_side_of_a_choice(rt: HostRuntime) -> Result<(), Fail> {
    let lengths: [&[Node]; 2] = [&[Number(1)], &[Size(0)]];
    let body = [
        For,
        Size(0),
        Put(B),
        Loop(0),
        Choose,
        Test(Rel::Lt),
        Loop(0),
        Number(1),
        Load(A),
        Loop(0),
        Both(Pair::Mul),
        Word(7),
        Word(9),
    ];
    let run: Run = (&[3], &[4], 6, counts(6, 3, 1, 2), &[4, 63, 63]);
    are_told(&rt, rt.alloc(), &of_one(1, &lengths, &body), &[run])
}

/// `for i0 < n0 { if (i0 >= 1) b0[i0] = word(0 - i0) - 5 }`
#[test]
fn wrapping_words_behind_a_test(rt: HostRuntime) -> Result<(), Fail> {
    let lengths: [&[Node]; 2] = [&[Number(0)], &[Size(0)]];
    let body = [
        For,
        Size(0),
        If,
        Test(Rel::Ge),
        Loop(0),
        Number(1),
        Put(B),
        Loop(0),
        Both(Pair::Sub),
        OfIndex,
        Index(Pair::Sub),
        Number(0),
        Loop(0),
        Word(5),
    ];
    let last = 18_446_744_073_709_551_610;
    let run: Run = (&[2], &[], 5, counts(5, 1, 0, 0), &[START, last]);
    are_told(&rt, rt.alloc(), &of_one(1, &lengths, &body), &[run])
}

/// Programs over a0 without words, and b0 with n0 - 3, which below 0 is none: a body, n0, the limit, what is told, and the words of b0.
#[test]
fn lengths_below_0_and_stuck_places(rt: HostRuntime) -> Result<(), Fail> {
    let lengths: [&[Node]; 2] = [&[Number(0)], &[Index(Pair::Sub), Size(0), Number(3)]];
    let behind: &[Node] = &[Put(B), Index(Pair::Sub), Size(0), Number(5), Word(5)];
    let far: &[Node] = &[
        Put(B),
        Index(Pair::Add),
        Number(9_223_372_036_854_775_807),
        Size(0),
        Word(5),
    ];
    let halved: &[Node] = &[
        Put(B),
        Over(2),
        Index(Pair::Sub),
        Number(0),
        Size(0),
        Word(5),
    ];
    // A load outside comes before the trouble of the place behind it.
    let load: &[Node] = &[
        Put(B),
        Over(2),
        Index(Pair::Sub),
        Number(0),
        Size(0),
        Load(A),
        Size(0),
    ];
    // A trouble in the place of a fill is no step.
    let fill: &[Node] = &[
        Zero(B),
        Over(2),
        Index(Pair::Sub),
        Number(0),
        Size(0),
        Number(1),
    ];
    let rows: [(&[Node], u64, Stuck); 6] = [
        (
            behind,
            1,
            Stuck::Outside {
                buffer: B,
                index: -1,
            },
        ),
        // A step beyond the limit comes before its own trouble.
        (behind, 0, Stuck::TooMuchWork { steps: 1 }),
        (far, 1, Stuck::Overflow),
        (halved, 1, Stuck::NegativeDividend),
        (
            load,
            1,
            Stuck::Outside {
                buffer: A,
                index: 4,
            },
        ),
        (fill, 0, Stuck::NegativeDividend),
    ];
    for (body, limit, stuck) in rows {
        let run: Run = (&[4], &[], limit, Told::Stopped(stuck), &[START]);
        are_told(&rt, rt.alloc(), &of_one(1, &lengths, body), &[run])?;
    }
    let nothing: Run = (&[1], &[], 0, counts(0, 0, 0, 0), &[]);
    are_told(&rt, rt.alloc(), &of_one(1, &lengths, &[Seq(0)]), &[nothing])
}

#[test]
fn texts_that_are_read(rt: HostRuntime) {
    let rows: [(&[u8], u64, &[u64]); 5] = [
        (b"N: 3; A: 1 2 3;", 3, &[1, 2, 3]),
        (b"N:0;A:;", 0, &[]),
        (
            b"N: 03; A: 1 0002 18446744073709551615;",
            3,
            &[1, 2, 18_446_744_073_709_551_615],
        ),
        (b"# a run\nN : 4\n; A : 7 # the first\r\n\t8 ;", 4, &[7, 8]),
        (
            b"N: 18446744073709551615; A: 0;",
            18_446_744_073_709_551_615,
            &[0],
        ),
    ];
    for (text, size, words) in rows {
        match given(rt.alloc(), &["N", "A"], 1, text) {
            Ok(found) => {
                assert!(rt; are(&found.sizes, &[size]));
                assert_eq!(rt; found.inputs.len(), 1);
                assert!(rt;
                    found
                        .inputs
                        .as_slice()
                        .iter()
                        .all(|input| are(input, words))
                );
            }
            Err(_) => assert!(rt; false),
        }
    }
}

#[test]
fn first_places_that_are_no_given_text(rt: HostRuntime) {
    let rows: [(&[u8], u64); 17] = [
        (b"", 0),
        (b"N: 3; A: 1 2", 12),
        (b"N: 3; A: 1 2 x;", 13),
        (b"M: 3; A:;", 0),
        (b"N 3; A:;", 2),
        (b"N: ; A:;", 3),
        (b"N: 3 4; A:;", 5),
        (b"N: 18446744073709551616; A:;", 3),
        (b"N: 3; A: 1 18446744073709551616;", 11),
        (b"N: 3; A: 1;;", 11),
        (b"N: 3; A: 1; B: 2;", 12),
        (b"N: 3; A: 1, 2;", 10),
        (b"N: 3; A: -1;", 9),
        (b"N: 3; N: 1;", 6),
        (b"N: 3; A: 1x;", 10),
        (b"N: x; A:; \xff", 10),
        (b"N: 3; A: \xc3", 9),
    ];
    for (text, at) in rows {
        let fault = given(rt.alloc(), &["N", "A"], 1, text).err();
        assert_eq!(rt; fault, Some(GivenFault::BadData { at }));
    }
}

#[test]
fn lines_of_outputs(rt: HostRuntime) {
    let rows: [(&str, &[u64], &[u8]); 3] = [
        ("B", &[2, 4, 6], b"B: 2 4 6;\n"),
        (
            "b0",
            &[18_446_744_073_709_551_615, 0],
            b"b0: 18446744073709551615 0;\n",
        ),
        ("B", &[], b"B:;\n"),
    ];
    for (name, words, line) in rows {
        match print_words(rt.alloc(), name, words) {
            Ok(text) => assert_eq!(rt; text.as_slice(), line),
            Err(_) => assert!(rt; false),
        }
    }
}
