//! What the program answers and writes: statuses, refusals, words that are Usage, and puts that fail.

use crate::calls::{COMPILE, EXEC, FACTS, PLAIN, RUN, SCHEDULE, STAGES, told, written};
use atl_driver::Status;
use atl_edges::FILE_LIMIT;
use std::test::Fail;

/// The line that is written for words of no form.
pub const USAGE: &str =
    "usage: atl compile SRC [SCHED] | stages SRC SCHED | facts SRC SCHED | run [--plain] SRC SCHED GIVEN | exec CFILE GIVEN | trial K\n";

#[test]
fn a_file_that_is_not_read_has_its_line(rt: HostRuntime) -> Result<(), Fail> {
    let alloc = rt.alloc();
    let texts = ("", "ReadFault\n");
    // All files are read before anything is decided: a script that is not there comes before the fault of the source.
    let table: [(&[&str], &[u64]); 12] = [
        (&COMPILE, &[1]),
        (&["compile", "b"], &[]),
        (&SCHEDULE, &[]),
        (&["compile", "a.atl", "a.atl"], &[2]),
        (&STAGES, &[]),
        (&FACTS, &[]),
        (&RUN, &[]),
        (&PLAIN, &[]),
        (&["run", "a.atl", "a.atl", "a.given"], &[]),
        (&["run", "a.atl", "a.atl", "a.atl"], &[3]),
        (&EXEC, &[]),
        (&["exec", "a.atl", "a.atl"], &[2]),
    ];
    for (words, failing) in table {
        let status = told(&rt, alloc, words, b"atl 1;", failing, texts)?;
        assert!(rt; matches!(status, Status::ReadFault));
    }
    let long = vec![in alloc; 97u8; FILE_LIMIT + 1]?;
    let texts = ("", "TooLong taken 1048577\n");
    let status = told(&rt, alloc, &COMPILE, long.as_slice(), &[], texts)?;
    assert!(rt; matches!(status, Status::TooLong { taken: 1_048_577 }));
    Ok(())
}

#[test]
fn other_words_are_usage(rt: HostRuntime) -> Result<(), Fail> {
    let alloc = rt.alloc();
    let table: [&[&str]; 23] = [
        &[],
        &[""],
        &["frob"],
        &["compile"],
        &["compile", "a.atl", "a.atl", "a.atl"],
        &["compile", ""],
        &["compile", "a.atl", "-a"],
        &["stages", "a.atl"],
        &["stages", "a.atl", "a.atl", "a.atl"],
        &["facts", "a.atl"],
        &["facts", "a.atl", ""],
        &["run", "a.atl", "a.atl"],
        &["run", "a.atl", "a.atl", "a.atl", "a.atl"],
        &["run", "--mix", "a.atl", "a.atl", "a.atl"],
        &["run", "--plain", "a.atl", "a.atl"],
        &["run", "a.atl", "--plain", "a.atl", "a.atl"],
        &["exec", "--plain", "a.atl", "a.atl"],
        &["exec", "a.atl"],
        &["exec", "a.atl", "a.atl", "a.atl"],
        &["exec", "a.atl", "--"],
        &["trial"],
        &["trial", "8", "a.atl"],
        &["trial", "8", "8"],
    ];
    for words in table {
        let status = told(&rt, alloc, words, b"atl 1;", &[], ("", USAGE))?;
        assert!(rt; matches!(status, Status::Usage));
    }
    Ok(())
}

// A text that is due on `out`, and one whose line is due on `err`, each cut by the room, and where the first put
// fails.
#[test]
fn a_failing_put_is_a_write_fault(rt: HostRuntime) -> Result<(), Fail> {
    let alloc = rt.alloc();
    let number = "atl 1; output B = 5;";
    let table: [(&str, u64, &[u64], (&str, &str)); 4] = [
        (number, 8, &[], ("#include", "")),
        ("", 4, &[], ("", "F03 ")),
        (number, 1024, &[1], ("", "")),
        ("", 1024, &[1], ("", "")),
    ];
    for (content, room, failing, texts) in table {
        let status = written(&rt, alloc, content, room, failing, texts)?;
        assert!(rt; matches!(status, Status::WriteFault));
    }
    Ok(())
}
