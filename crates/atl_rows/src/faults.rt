//! Sources that are refused, each with the line of its first fault, and long ones that are not.

use crate::calls::{COMPILE, answered, told};
use atl_driver::Status;
use std::alloc::{AllocError, Global};
use std::test::Fail;

const ONE_WORD: &str = "atl 1;\noutput B = ";

// Of 2^61 words.
const WIDE: &str =
    "atl 1; size N in 0..2147483648; size M in 0..1073741824; example N = 1, M = 1; input A[N][M]; output B = gen i < N. gen j < M. A[i][j];";

#[test]
fn a_text_that_is_no_source_has_its_first_fault(rt: HostRuntime) -> Result<(), Fail> {
    let alloc = rt.alloc();
    let table: [(&[u8], &str); 17] = [
        (b"atl 1;\n\xff", "F01 NotUtf8 at 7\n"),
        (b"atl 1;\noutput B = !;", "F02 BadToken at 18\n"),
        (b"", "F03 BadSyntax at 0\n"),
        (b"atl 1;\noutput B = ", "F03 BadSyntax at 18\n"),
        (b"atl 1; # to the end", "F03 BadSyntax at 19\n"),
        (
            b"atl 1; size N in 0..8; output B = 1;",
            "F03 BadSyntax at 23\n",
        ),
        (b"atl 2; input word; output B = 1;", "F03 BadSyntax at 13\n"),
        (b"atl 3; output B = 1;", "F03 BadSyntax at 4\n"),
        (
            b"atl 1; output B = 1; output C = 1;",
            "F03 BadSyntax at 21\n",
        ),
        (b"atl 1;\noutput B = x;", "F05 UnknownName at 18\n"),
        (
            b"atl 1; size N in 0..8; example N = 3; output B = gen i < N. gen j < i. 1;",
            "F05 UnknownName at 68\n",
        ),
        (
            b"atl 1;\ninput A;\ninput A;\noutput B = A;",
            "F06 NameTwice at 22\n",
        ),
        (
            b"atl 1;\ninput i0;\noutput B = i0;",
            "F07 ReservedName at 13\n",
        ),
        (
            b"atl 1;\noutput B = 18446744073709551616;",
            "F08 NumberTooLarge at 18\n",
        ),
        (
            b"atl 1;\ninput A[4];\noutput B = gen i < 2. gen j < 2. A[i * j];",
            "F09 NotAffine at 56\n",
        ),
        (
            b"atl 1;\ninput A[4];\noutput B = gen i < 2. gen j < 2. A[i * j !];",
            "F09 NotAffine at 56\n",
        ),
        (
            b"atl 1;\ninput A[4];\noutput B = gen i < 2. A[1099511627776 * i * 2];",
            "F16 CoefficientTooLarge at 61\n",
        ),
    ];
    for (source, line) in table {
        let status = told(&rt, alloc, &COMPILE, source, &[], ("", line))?;
        assert!(rt; matches!(status, Status::Refused(_)));
    }
    Ok(())
}

#[test]
fn a_module_that_is_not_admitted_has_its_first_fault(rt: HostRuntime) -> Result<(), Fail> {
    let alloc = rt.alloc();
    let table: [(&[u8], &str); 8] = [
        (
            b"atl 1; input A[4]; output B = flatten(A);",
            "F10 RankMismatch path 0\n",
        ),
        (
            b"atl 2; output B = 1; output C = transpose(1);",
            "F10 RankMismatch path 1\n",
        ),
        (
            b"atl 1; input A[4]; input C[5]; output B = A + C;",
            "F11 ShapesDiffer path 0\n",
        ),
        (
            b"atl 1; input A[1][1][1][1][1][1][1][1]; output B = split(1, A);",
            "F12 RankTooLarge path 0\n",
        ),
        (
            b"atl 1; input A[1][1][1][1][1][1][1][1][1]; output B = 1;",
            "F12 RankTooLarge input 0\n",
        ),
        (
            b"atl 1; size N in 0..8; example N = 3; input A[N - 1]; output B = 1;",
            "F13 ExtentNotShown goal 1\n",
        ),
        (
            b"atl 1; size N in 0..9; assume N >= 5; example N = 4; output B = 1;",
            "F14 BadExample constraint 2\n",
        ),
        (
            b"atl 1; size N in 0..8; example N = 9; output B = 1;",
            "F14 BadExample constraint 1\n",
        ),
    ];
    for (source, line) in table {
        let status = told(&rt, alloc, &COMPILE, source, &[], ("", line))?;
        assert!(rt; matches!(status, Status::Refused(_)));
    }
    Ok(())
}

#[test]
fn a_module_that_may_not_be_lowered_has_its_first_fault(rt: HostRuntime) -> Result<(), Fail> {
    let alloc = rt.alloc();
    let table: [(&[u8], &str); 11] = [
        (
            b"atl 1; size N in 1..8; example N = 3; input A[N]; output B = (gen i < N. A[i])[N];",
            "F30 NotLowerable path 0\n",
        ),
        (
            b"atl 1; size N in 0..1048576; example N = 3; output B = sum i < N. (gen j < N. 7)[i];",
            "F30 NotLowerable path 0.0\n",
        ),
        (
            b"atl 1; size N in 1..64; size D in 1..64; example N = 2, D = 2; input Q[N][D]; input K[N][D]; input V[N][D]; output O = let s = gen i < N. gen j < N. sum d < D. Q[i][d] * transpose(K)[d][j] in gen i < N. gen e < D. sum j < N. s[i][j] * V[j][e];",
            "F30 NotLowerable path 0.0.0.0.0.1\n",
        ),
        (
            b"atl 1; input A[4]; output B = A - A;",
            "F30 NotLowerable path 0\n",
        ),
        (
            b"atl 2; output B = 1; output C = 2 * (gen i < 2. 1)[0];",
            "F30 NotLowerable path 1.1\n",
        ),
        (
            b"atl 1; size N in 0..8; example N = 3; input A[N]; output B = gen i < N. A[i + 1];",
            "F31 AccessNotShown goal 2\n",
        ),
        (
            b"atl 1; size N in 0..8; example N = 3; input A[N]; output B = gen i < N. A[i] * A[i - 1];",
            "F31 AccessNotShown goal 3\n",
        ),
        (
            b"atl 1; size N in 2..8; example N = 3; input A[N]; output B = truncr(2, gen i < N. A[i]);",
            "F33 DropNotShown goal 1\n",
        ),
        (
            b"atl 1; size N in 2..8; example N = 3; input A[N]; output B = truncl(1, gen i < N. A[i]);",
            "F33 DropNotShown goal 1\n",
        ),
        (
            b"atl 1; size N in 0..1099511627776; size M in 0..1099511627776; example N = 1, M = 1; input A[N][M]; output B = gen i < N. gen j < M. A[i][j];",
            "F34 IndexTooLarge index 1\n",
        ),
        (
            b"atl 2; size N in 0..1099511627776; example N = 1; output B = sum i < N. word(N * i);",
            "F34 IndexTooLarge index 6\n",
        ),
    ];
    for (source, line) in table {
        let status = told(&rt, alloc, &COMPILE, source, &[], ("", line))?;
        assert!(rt; matches!(status, Status::Refused(_)));
    }
    Ok(())
}

/// A piece, so many times, with a separator between.
fn joined(alloc: Global, piece: &str, separator: &str, count: u32) -> Result<String, AllocError> {
    let mut text = String::new(alloc);
    for at in 0..count {
        if at > 0 {
            text.push_str(separator)?;
        }
        text.push_str(piece)?;
    }
    Ok(text)
}

/// A source of one output.
fn output_of(alloc: Global, term: &str) -> Result<String, AllocError> {
    let mut text = String::from_str(alloc, ONE_WORD)?;
    text.push_str(term)?;
    text.push_str(";")?;
    Ok(text)
}

/// So many sums of a hundred ones each, and one of this many more.
fn sums(alloc: Global, sums: u32, last: u32) -> Result<String, AllocError> {
    let mut hundred = String::from_str(alloc, "(")?;
    hundred.push_str(joined(alloc, "1", " + ", 100)?.as_str())?;
    hundred.push_str(")")?;
    let mut text = joined(alloc, hundred.as_str(), " + ", sums)?;
    text.push_str(" + (")?;
    text.push_str(joined(alloc, "1", " + ", last)?.as_str())?;
    text.push_str(")")?;
    Ok(text)
}

#[test]
fn levels_depth_nodes_and_indices_have_their_limits(rt: HostRuntime) -> Result<(), Fail> {
    let alloc = rt.alloc();
    let mut levels = String::from_str(alloc, ONE_WORD)?;
    levels.push_str(joined(alloc, "(", "", 1001)?.as_str())?;
    let deep = output_of(alloc, joined(alloc, "1", " + ", 202)?.as_str())?;
    let large = output_of(alloc, sums(alloc, 99, 101)?.as_str())?;
    let table = [
        (levels, "F04 TooDeep at 1018\n"),
        (deep, "F04 TooDeep at 18\n"),
        (large, "F15 TooManyNodes nodes 20001\n"),
    ];
    for (source, line) in Vec::from_array(alloc, table)? {
        let status = told(&rt, alloc, &COMPILE, source.as_bytes(), &[], ("", line))?;
        assert!(rt; matches!(status, Status::Refused(_)));
    }
    let table = [
        output_of(alloc, joined(alloc, "1", " + ", 201)?.as_str())?,
        output_of(alloc, sums(alloc, 99, 100)?.as_str())?,
        String::from_str(alloc, "atl 1; input word; output B = word;")?,
        String::from_str(alloc, WIDE)?,
    ];
    for source in Vec::from_array(alloc, table)? {
        let status = answered(alloc, source.as_str())?;
        assert!(rt; matches!(status, Status::Done));
    }
    Ok(())
}
