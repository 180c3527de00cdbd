use atl_reader::{ReadFault, read_module};
use std::alloc::Global;
use term_tree::Term;

#[test]
fn a_source_of_version_two_is_read(rt: HostRuntime) {
    let text =
        "atl 2; size N in 0..8; assume N >= 1; example N = 3; input A[N + 1]; output B = gen i < N. A[i] * word(i + 1); output C = let t = A in t[0];";
    let Ok(module) = read_module(rt.alloc(), text.as_bytes()) else {
        assert!(rt; false);
        return;
    };
    assert_eq!(rt; module.version, 2);
    assert_eq!(rt; module.sizes.len(), 1);
    assert_eq!(rt; module.sizes.as_slice()[0].name.as_str(), "N");
    assert_eq!(rt; module.assumes.len(), 1);
    assert_eq!(rt; module.example.as_slice(), [3].as_slice());
    assert_eq!(rt; module.inputs.len(), 1);
    assert_eq!(rt; module.inputs.as_slice()[0].extents.len(), 1);
    assert_eq!(rt; module.outputs.len(), 2);
    let first = &module.outputs.as_slice()[0];
    assert_eq!(rt; first.name.as_str(), "B");
    let Term::Gen(_, body) = &first.term else {
        assert!(rt; false);
        return;
    };
    let Term::Mul(left, right) = body.get() else {
        assert!(rt; false);
        return;
    };
    assert!(rt; matches!(left.get(), Term::Index(_, _)));
    assert!(rt; matches!(right.get(), Term::WordOf(_)));
    let Term::Let(definition, _) = &module.outputs.as_slice()[1].term else {
        assert!(rt; false);
        return;
    };
    assert!(rt; matches!(definition.get(), Term::TVar(0)));
}

/// The fault of a text, or want of memory where it is read.
fn fault_of(alloc: Global, text: &[u8]) -> ReadFault {
    match read_module(alloc, text) {
        Ok(_) => ReadFault::Memory,
        Err(fault) => fault,
    }
}

#[test]
fn first_faults(rt: HostRuntime) {
    let rows: [(&[u8], ReadFault); 22] = [
        (b"atl 1;\n\xff", ReadFault::NotUtf8 { at: 7 }),
        (b"atl 1;\noutput B = !;", ReadFault::BadToken { at: 18 }),
        (b"atl 1;\noutput B = ", ReadFault::BadSyntax { at: 18 }),
        (b"atl 1;\noutput B = x;", ReadFault::UnknownName { at: 18 }),
        (
            b"atl 1;\ninput A;\ninput A;\noutput B = A;",
            ReadFault::NameTwice { at: 22 },
        ),
        (
            b"atl 1;\ninput i0;\noutput B = i0;",
            ReadFault::ReservedName { at: 13 },
        ),
        (
            b"atl 1;\noutput B = 18446744073709551616;",
            ReadFault::NumberTooLarge { at: 18 },
        ),
        (
            b"atl 1;\ninput A[4];\noutput B = gen i < 2. gen j < 2. A[i * j];",
            ReadFault::NotAffine { at: 56 },
        ),
        (
            b"atl 1;\ninput A[4];\noutput B = gen i < 2. A[1099511627776 * i * 2];",
            ReadFault::CoefficientTooLarge { at: 61 },
        ),
        (
            b"atl 2; input word; output B = 1;",
            ReadFault::BadSyntax { at: 13 },
        ),
        (b"atl 3; output B = 1;", ReadFault::BadSyntax { at: 4 }),
        (b"atl 01; output B = 1;", ReadFault::BadSyntax { at: 4 }),
        (b"", ReadFault::BadSyntax { at: 0 }),
        (
            b"atl 1; output B = 1; output C = 1;",
            ReadFault::BadSyntax { at: 21 },
        ),
        (
            b"atl 2; output B = 1; output B = 1;",
            ReadFault::NameTwice { at: 28 },
        ),
        (
            b"atl 1; output B = word(1);",
            ReadFault::UnknownName { at: 18 },
        ),
        (b"atl 1; example N = 1;", ReadFault::BadSyntax { at: 7 }),
        (
            b"atl 1; size N in 0..9; example M = 1;",
            ReadFault::BadSyntax { at: 31 },
        ),
        (
            b"atl 1; input A; output B = gen i < 2. gen A < i. 1;",
            ReadFault::UnknownName { at: 46 },
        ),
        (
            b"atl 1; input A; output B = gen A < 2. A;",
            ReadFault::UnknownName { at: 38 },
        ),
        (
            b"atl 1; output B = split(0, 1);",
            ReadFault::BadSyntax { at: 24 },
        ),
        (
            b"atl 1; output B = gen i < 2. guard i / 2147483648 == 0. 1;",
            ReadFault::NumberTooLarge { at: 39 },
        ),
    ];
    for (text, fault) in &rows {
        assert_eq!(rt; fault_of(rt.alloc(), *text), *fault);
    }
}

#[test]
fn sources_that_are_read(rt: HostRuntime) {
    let rows: [&[u8]; 6] = [
        b"atl 1; input word; output B = word;",
        b"atl 1; size N in 0..9; assume N >= 5; example N = 4; output B = 1;",
        b"atl 1; output B = gen i0 < 2. guard i0 < 1 and -(i0 - 3) % 2 == 0. 1 - 2 * 3;",
        b"atl 1; size N in 0..9; example N = 4; input A[N][2 * N]; output B = gen N < N. A[N][N];",
        b"atl 1; input A[4]; output B = concat(padl(1, A), truncr(1, flatten(split(2, transpose(A)))));",
        b"atl 2; output B = 1; output C = transpose(1);",
    ];
    for text in &rows {
        assert!(rt; read_module(rt.alloc(), *text).is_ok());
    }
}

/// A text in which this part stands so many times between a front and an end.
fn repeated(alloc: Global, front: &[u8], part: &[u8], times: usize, end: &[u8]) -> Vec<u8> {
    let mut text = Vec::new(alloc);
    let mut whole = text.extend_from_slice(front).is_ok();
    for _turn in 0..times {
        whole = text.extend_from_slice(part).is_ok() && whole;
    }
    whole = text.extend_from_slice(end).is_ok() && whole;
    if !whole {
        text.clear();
    }
    text
}

#[test]
fn levels_depth_and_nodes(rt: HostRuntime) {
    let alloc = rt.alloc();
    let opened = repeated(alloc, b"atl 1;\noutput B = ", b"(", 1_001, b"");
    assert_eq!(rt;
        fault_of(alloc, opened.as_slice()),
        ReadFault::TooDeep { at: 1_018 }
    );
    let deep = repeated(alloc, b"atl 1;\noutput B = 1", b" + 1", 201, b";");
    assert_eq!(rt;
        fault_of(alloc, deep.as_slice()),
        ReadFault::TooDeep { at: 18 }
    );
    let shallow = repeated(alloc, b"atl 1;\noutput B = 1", b" + 1", 200, b";");
    assert!(rt; read_module(alloc, shallow.as_slice()).is_ok());
    let signs = repeated(alloc, b"atl 1;\noutput B = 1", b"+1", 1_001, b";");
    assert_eq!(rt;
        fault_of(alloc, signs.as_slice()),
        ReadFault::TooDeep { at: 2_019 }
    );
    let sum = repeated(alloc, b"(1", b" + 1", 99, b")");
    let joined = repeated(alloc, b" + ", sum.as_slice(), 1, b"");
    let front = repeated(alloc, b"atl 1;\noutput B = ", sum.as_slice(), 1, b"");
    let many = repeated(alloc, front.as_slice(), joined.as_slice(), 99, b";");
    assert!(rt; read_module(alloc, many.as_slice()).is_ok());
    let more = repeated(alloc, front.as_slice(), joined.as_slice(), 99, b" + 1;");
    assert_eq!(rt;
        fault_of(alloc, more.as_slice()),
        ReadFault::TooManyNodes { nodes: 20_001 }
    );
}
