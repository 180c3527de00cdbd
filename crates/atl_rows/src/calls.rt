//! Calls of the program over files in memory.

use atl_driver::{Status, atl};
use atl_edges::{Files, MemFiles, MemSink, Sink, SureFiles};
use std::alloc::{AllocError, Global};
use std::process::Abort;
use std::test::Fail;

/// The words that compile the file.
pub const COMPILE: [&str; 2] = ["compile", "a.atl"];

/// The words that compile it under a script.
pub const SCHEDULE: [&str; 3] = ["compile", "a.atl", "a.sched"];

/// The words that write its versions under a script.
pub const STAGES: [&str; 3] = ["stages", "a.atl", "a.sched"];

/// The words that write what a script has to show of it.
pub const FACTS: [&str; 3] = ["facts", "a.atl", "a.sched"];

/// The words that run it under a script on a given text.
pub const RUN: [&str; 4] = ["run", "a.atl", "a.sched", "a.given"];

/// The words that compute it on a given text by the plain evaluator.
pub const PLAIN: [&str; 5] = ["run", "--plain", "a.atl", "a.sched", "a.given"];

/// The words that run a C text on a given text.
pub const EXEC: [&str; 3] = ["exec", "a.c", "a.given"];

/// The lines that all texts begin with.
pub const HEAD: &str = "#include <stdint.h>
static int64_t top(int64_t x, int64_t y) { return x > y ? x : y; }
static void fill(uint64_t *p, int64_t at, int64_t n) { for (int64_t i = 0; i < n; i = i + 1) p[at + i] = 0; }
";

type Held = Vec<(String, Vec<u8>)>;

fn held(alloc: Global, content: &[u8]) -> Result<Held, AllocError> {
    let mut held = Vec::new(alloc);
    held.push((String::from_str(alloc, "a.atl")?, content.to_vec(alloc)?))?;
    Ok(held)
}

fn holding(alloc: Global, files: &[(&str, &[u8])]) -> Result<Held, AllocError> {
    let mut held = Vec::new(alloc);
    for (name, content) in files {
        held.push((String::from_str(alloc, name)?, content.to_vec(alloc)?))?;
    }
    Ok(held)
}

fn held_with(alloc: Global, content: &str, script: &str) -> Result<Held, AllocError> {
    let files = [
        ("a.atl", content.as_bytes()),
        ("a.sched", script.as_bytes()),
    ];
    holding(alloc, &files)
}

fn texts(alloc: Global, words: &[&str]) -> Result<Vec<String>, AllocError> {
    let mut texts = Vec::new(alloc);
    for word in words {
        texts.push(String::from_str(alloc, word)?)?;
    }
    Ok(texts)
}

/// A call over files and sinks of any kind.
fn call<F: Files, O: Sink, E: Sink>(
    alloc: Global,
    words: &[&str],
    files: &mut F,
    out: &mut O,
    err: &mut E,
) -> Result<Status, AllocError> {
    let words = texts(alloc, words)?;
    Ok(atl(alloc, words.as_slice(), files, out, err))
}

/// The status of a call where the file can be read, with sinks of this room of which the puts of these numbers
/// fail: what it writes is compared.
pub fn written(
    rt: &impl Abort,
    alloc: Global,
    content: &str,
    room: u64,
    failing: &[u64],
    texts: (&str, &str),
) -> Result<Status, Fail> {
    let mut files = SureFiles::new(held(alloc, content.as_bytes())?);
    let mut out = MemSink::new(alloc, room, failing.to_vec(alloc)?)?;
    let mut err = MemSink::new(alloc, room, failing.to_vec(alloc)?)?;
    let status = call(alloc, &COMPILE, &mut files, &mut out, &mut err)?;
    assert_eq!(rt; out.written(), texts.0.as_bytes());
    assert_eq!(rt; err.written(), texts.1.as_bytes());
    Ok(status)
}

/// The status of a call of these words over a file of which the reads of these numbers fail, with sinks of ample
/// room: what it writes is compared.
pub fn told(
    rt: &impl Abort,
    alloc: Global,
    words: &[&str],
    content: &[u8],
    failing: &[u64],
    texts: (&str, &str),
) -> Result<Status, Fail> {
    let mut files = MemFiles::new(held(alloc, content)?, failing.to_vec(alloc)?);
    let mut out = MemSink::new(alloc, 1024, Vec::new(alloc))?;
    let mut err = MemSink::new(alloc, 256, Vec::new(alloc))?;
    let status = call(alloc, words, &mut files, &mut out, &mut err)?;
    assert_eq!(rt; out.written(), texts.0.as_bytes());
    assert_eq!(rt; err.written(), texts.1.as_bytes());
    Ok(status)
}

/// The status of a call over a source, with sinks of ample room.
pub fn answered(alloc: Global, content: &str) -> Result<Status, Fail> {
    let mut files = SureFiles::new(held(alloc, content.as_bytes())?);
    let mut out = MemSink::new(alloc, 1_048_576, Vec::new(alloc))?;
    let mut err = MemSink::new(alloc, 64, Vec::new(alloc))?;
    Ok(call(alloc, &COMPILE, &mut files, &mut out, &mut err)?)
}

/// A source is compiled to these lines behind those that all texts begin with.
pub fn compiles(rt: &impl Abort, alloc: Global, source: &str, lines: &str) -> Result<(), Fail> {
    let text = format!(in alloc; "{HEAD}{lines}")?;
    let status = written(rt, alloc, source, 4096, &[], (text.as_str(), ""))?;
    assert!(rt; matches!(status, Status::Done));
    Ok(())
}

/// The status of a call of these words over these files, with a sink of this room for its text: what it writes is
/// compared.
pub fn over(
    rt: &impl Abort,
    alloc: Global,
    words: &[&str],
    files: &[(&str, &[u8])],
    room: u64,
    texts: (&str, &str),
) -> Result<Status, Fail> {
    let mut files = SureFiles::new(holding(alloc, files)?);
    let mut out = MemSink::new(alloc, room, Vec::new(alloc))?;
    let mut err = MemSink::new(alloc, 64, Vec::new(alloc))?;
    let status = call(alloc, words, &mut files, &mut out, &mut err)?;
    assert_eq!(rt; out.written(), texts.0.as_bytes());
    assert_eq!(rt; err.written(), texts.1.as_bytes());
    Ok(status)
}

/// The status of a call of these words over a source and a script, with a sink of this room for its text: what it
/// writes is compared.
pub fn under(
    rt: &impl Abort,
    alloc: Global,
    words: &[&str],
    source: &str,
    script: &str,
    room: u64,
    texts: (&str, &str),
) -> Result<Status, Fail> {
    let files = [("a.atl", source.as_bytes()), ("a.sched", script.as_bytes())];
    over(rt, alloc, words, &files, room, texts)
}

/// The status of a compilation of a source under a script, with sinks of ample room: what it writes is compared.
pub fn scheduled(
    rt: &impl Abort,
    alloc: Global,
    source: &str,
    script: &str,
    texts: (&str, &str),
) -> Result<Status, Fail> {
    under(rt, alloc, &SCHEDULE, source, script, 4096, texts)
}

/// A command writes this text of a source and a script.
pub fn writes(
    rt: &impl Abort,
    alloc: Global,
    words: &[&str],
    source: &str,
    script: &str,
    text: &str,
) -> Result<(), Fail> {
    let status = under(rt, alloc, words, source, script, 4096, (text, ""))?;
    assert!(rt; matches!(status, Status::Done));
    Ok(())
}

/// A command is refused with this line over a source and a script.
pub fn refuses(
    rt: &impl Abort,
    alloc: Global,
    words: &[&str],
    source: &str,
    script: &str,
    line: &str,
) -> Result<(), Fail> {
    let status = under(rt, alloc, words, source, script, 4096, ("", line))?;
    assert!(rt; matches!(status, Status::Refused(_)));
    Ok(())
}

/// What a command that ends with Done writes over these files, within 64 kibibytes; nothing for any other status.
pub fn text_of(alloc: Global, words: &[&str], files: &[(&str, &[u8])]) -> Result<Vec<u8>, Fail> {
    let mut files = SureFiles::new(holding(alloc, files)?);
    let mut out = MemSink::new(alloc, 65_536, Vec::new(alloc))?;
    let mut err = MemSink::new(alloc, 256, Vec::new(alloc))?;
    match call(alloc, words, &mut files, &mut out, &mut err)? {
        Status::Done => Ok(out.written().to_vec(alloc)?),
        _ => Ok(Vec::new(alloc)),
    }
}

/// A source under a script is compiled to these lines behind those that all texts begin with.
pub fn compiles_under(
    rt: &impl Abort,
    alloc: Global,
    source: &str,
    script: &str,
    lines: &str,
) -> Result<(), Fail> {
    let text = format!(in alloc; "{HEAD}{lines}")?;
    let status = scheduled(rt, alloc, source, script, (text.as_str(), ""))?;
    assert!(rt; matches!(status, Status::Done));
    Ok(())
}

/// A source under a script is refused with this line.
pub fn is_refused(
    rt: &impl Abort,
    alloc: Global,
    source: &str,
    script: &str,
    line: &str,
) -> Result<(), Fail> {
    let status = scheduled(rt, alloc, source, script, ("", line))?;
    assert!(rt; matches!(status, Status::Refused(_)));
    Ok(())
}

/// A source under a script has the text of another source without one.
pub fn becomes(
    rt: &impl Abort,
    alloc: Global,
    before: &str,
    script: &str,
    after: &str,
) -> Result<(), Fail> {
    let mut files = SureFiles::new(held_with(alloc, before, script)?);
    let mut out = MemSink::new(alloc, 4096, Vec::new(alloc))?;
    let mut err = MemSink::new(alloc, 64, Vec::new(alloc))?;
    let status = call(alloc, &SCHEDULE, &mut files, &mut out, &mut err)?;
    assert!(rt; matches!(status, Status::Done));
    let mut files = SureFiles::new(held(alloc, after.as_bytes())?);
    let mut want = MemSink::new(alloc, 4096, Vec::new(alloc))?;
    let status = call(alloc, &COMPILE, &mut files, &mut want, &mut err)?;
    assert!(rt; matches!(status, Status::Done));
    assert_eq!(rt; out.written(), want.written());
    Ok(())
}
