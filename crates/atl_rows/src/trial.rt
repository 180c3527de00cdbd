//! Trials.

use crate::calls::{text_of, told};
use atl_driver::Status;
use std::alloc::Global;
use std::test::Fail;

/// The line of a trial.
fn trial(alloc: Global, word: &str) -> Result<Vec<u8>, Fail> {
    text_of(alloc, &["trial", word], &[])
}

/// What stands behind the first word of a line.
fn behind_a_word(line: &[u8]) -> &[u8] {
    match line.iter().position(|byte| *byte == b' ') {
        Some(at) => line.get(at..).unwrap_or(&[]),
        None => &[],
    }
}

// Each let has a definition of 12 nodes, zeroes 1,000 words and adds 3,000 times; the output has 6 nodes, and zeroes and
// puts 1,000 words.
#[test]
fn all_sixteen_have_their_nodes_and_stores(rt: HostRuntime) -> Result<(), Fail> {
    let alloc = rt.alloc();
    for steps in 1u64..=16 {
        let word = format!(in alloc; "{steps}")?;
        let nodes = 13 * steps + 6;
        let stores = 4000 * steps + 2000;
        let head = format!(in alloc; "trial {steps} nodes {nodes} steps {steps} bytes ")?;
        let tail = format!(in alloc; " stores {stores} sum ")?;
        let line = trial(alloc, word.as_str())?;
        let rest = line.as_slice().strip_prefix(head.as_bytes());
        assert!(rt; rest.is_some_and(|rest| behind_a_word(rest).starts_with(tail.as_bytes())));
    }
    Ok(())
}

// The sums were computed by another program.
#[test]
fn sums_are_those_of_the_words_of_the_output(rt: HostRuntime) -> Result<(), Fail> {
    let alloc = rt.alloc();
    let table = [
        ("1", " stores 6000 sum 10309771878476362040\n"),
        ("8", " stores 34000 sum 10031852112048304752\n"),
        ("16", " stores 66000 sum 15720501196476559092\n"),
    ];
    for (word, end) in table {
        let line = trial(alloc, word)?;
        assert!(rt; line.ends_with(end.as_bytes()));
        let again = trial(alloc, word)?;
        assert_eq!(rt; line, again);
    }
    Ok(())
}

#[test]
fn other_numbers_are_usage(rt: HostRuntime) -> Result<(), Fail> {
    let alloc = rt.alloc();
    for word in ["", "0", "17", "08", "8 ", "+8", "-8", "100", "eight"] {
        let words = ["trial", word];
        let status = told(&rt, alloc, &words, b"", &[], ("", crate::outside::USAGE))?;
        assert!(rt; matches!(status, Status::Usage));
    }
    Ok(())
}
