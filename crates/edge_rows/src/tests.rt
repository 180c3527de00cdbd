use atl_edges::{
    FILE_LIMIT, Files, MemFiles, MemSink, ReadRefusal, Sink, StdFiles, StdSink, SureFiles,
};
use std::alloc::{AllocError, Global};
use std::fs;
use std::io::Cursor;
use std::process::Abort;
use std::test::Fail;

type Held = Vec<(String, Vec<u8>)>;

fn held(alloc: Global, entries: &[(&str, &str)]) -> Result<Held, AllocError> {
    let mut held = Vec::new(alloc);
    for (name, content) in entries {
        let name = String::from_str(alloc, name)?;
        let content = content.as_bytes().to_vec(alloc)?;
        held.push((name, content))?;
    }
    Ok(held)
}

// Reads the names in order, and compares each answer.
fn reads<F: Files>(
    rt: &impl Abort,
    alloc: Global,
    files: &mut F,
    table: &[(&str, Result<&str, ReadRefusal>)],
) {
    for (name, want) in table {
        match (files.read(alloc, name), want) {
            (Ok(bytes), Ok(text)) => {
                assert_eq!(rt; bytes.as_slice(), text.as_bytes(), "reading {name}");
            }
            (Err(refusal), Err(wanted)) => {
                assert_eq!(rt; refusal, *wanted, "reading {name}");
            }
            (answer, _) => assert!(rt; answer.is_ok() == want.is_ok(), "reading {name}"),
        }
    }
}

// Puts the pieces in order, and compares whether each was taken.
fn puts<S: Sink>(rt: &impl Abort, sink: &mut S, table: &[(&str, bool)]) {
    for (piece, taken) in table {
        assert_eq!(rt;
            sink.put(piece.as_bytes()).is_ok(),
            *taken,
            "putting {piece}"
        );
    }
}

#[test]
fn files_in_memory(rt: HostRuntime) -> Result<(), Fail> {
    let alloc = rt.alloc();
    let entries = [("a", "one"), ("a", "two"), ("empty", "")];
    let failing = [2].to_vec(alloc)?;
    let mut files = MemFiles::new(held(alloc, &entries)?, failing);
    let failed = Err(ReadRefusal::Failed);
    let table = [
        ("a", Ok("one")),
        ("a", failed),
        ("b", failed),
        ("a", Ok("one")),
        ("empty", Ok("")),
    ];
    reads(&rt, alloc, &mut files, &table);
    let mut sure = SureFiles::new(held(alloc, &entries)?);
    let table = [("a", Ok("one")), ("b", Ok("")), ("empty", Ok(""))];
    reads(&rt, alloc, &mut sure, &table);
    Ok(())
}

#[test]
fn a_sink_in_memory(rt: HostRuntime) -> Result<(), Fail> {
    let alloc = rt.alloc();
    let mut sink = MemSink::new(alloc, 5, [2].to_vec(alloc)?)?;
    let table = [("ab", true), ("", true), ("cd", false), ("efgh", false)];
    puts(&rt, &mut sink, &table);
    assert_eq!(rt; sink.written(), b"abefg".as_slice());
    puts(&rt, &mut sink, &[("", true), ("i", false)]);
    assert_eq!(rt; sink.written(), b"abefg".as_slice());
    Ok(())
}

#[test]
fn real_files(rt: HostRuntime) -> Result<(), Fail> {
    let alloc = rt.alloc();
    fs::write(&rt, "held.txt", "content")?;
    let full = vec![in alloc; 97u8; FILE_LIMIT]?;
    fs::write(&rt, "full.txt", full.as_slice())?;
    let longer = vec![in alloc; 97u8; FILE_LIMIT + 1]?;
    fs::write(&rt, "longer.txt", longer.as_slice())?;
    let mut files = StdFiles::new(&rt);
    let table = [
        ("held.txt", Ok("content")),
        ("none.txt", Err(ReadRefusal::Failed)),
        ("longer.txt", Err(ReadRefusal::TooLong)),
    ];
    reads(&rt, alloc, &mut files, &table);
    let read = files.read(alloc, "full.txt")?;
    assert_eq!(rt; read.len(), FILE_LIMIT);
    Ok(())
}

#[test]
fn a_writer(rt: HostRuntime) -> Result<(), Fail> {
    let alloc = rt.alloc();
    let mut cursor = Cursor::new(Vec::new(alloc));
    let mut sink = StdSink::new(&mut cursor);
    puts(&rt, &mut sink, &[("ab", true), ("", true), ("c", true)]);
    assert_eq!(rt; cursor.get_ref().as_slice(), b"abc".as_slice());
    // A writer over a slice takes nothing past its end.
    let mut room = [0u8; 4];
    let mut sink = StdSink::new(Cursor::new(room.as_mut_slice()));
    puts(
        &rt,
        &mut sink,
        &[("abc", true), ("de", false), ("f", false)],
    );
    assert_eq!(rt; room.as_slice(), b"abcd".as_slice());
    Ok(())
}
