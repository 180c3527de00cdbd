// The adapter over a writer of the system.
ghost use Rattle.std.specs.Prelude.{◌≡◌, ◌≤◌, [], is_err, IsOk, OnOk, OnErr};
ghost use Rattle.atl_edges.specs.Causes.{Rose, faults_after};
ghost use Rattle.atl_edges.specs.Pieces.{Appended, AppendedPrefix};

use crate::{Sink, SinkFailed};
use std::io::Write;
use std::marker::Model;

/// A sink over a writer. It tells what the writer tells, so of standard output nothing, and counts each piece
/// that the writer did not take to its end as a fault.
#[derive(Drop)]
pub struct StdSink<W: Write + Drop> {
    writer: W,
    faults: u64,
}

impl<W: Write + Drop> Model for StdSink<W> {
    ghost use Rattle.atl_edges.specs.Adapters.{WriterState};

    ghost Value = { WriterState };

    ghost view = { λ sink. record { written = W.contents sink.writer; faults = sink.faults } };
}

impl<W: Write + Drop> StdSink<W> {
    pub fn new(writer: W) -> StdSink<W>
        ensures { result ≡ record { written = W.contents writer; faults = 0 } }
    {
        StdSink { writer, faults: 0 }
    }
}

// Writes the piece to its end. A writer that takes nothing has failed.
fn write_whole<W: Write>(writer: &mut W, piece: &[u8]) -> Result<(), SinkFailed>
    ensures whole { OnOk result (Appended (W.contents writer.old) (W.contents writer.new) piece.now) }
    ensures prefix { OnErr result (AppendedPrefix (W.contents writer.old) (W.contents writer.new) piece.now) }
{
    let mut done = 0;
    while done < piece.len() {
        match writer.write(&piece[done..]) {
            Ok(count) => {
                if count == 0 {
                    return Err(SinkFailed);
                }
                done += count;
            }
            Err(_) => return Err(SinkFailed),
        }
    }
    Ok(())
}

impl<W: Write + Drop> Sink for StdSink<W> {
    ghost written = { λ sink. sink.written };

    ghost faults = { λ sink. sink.faults };

    fn put(&mut self, piece: &[u8]) -> Result<(), SinkFailed>
        ensures whole { OnOk result (Appended self.old.written self.new.written piece.now) }
        ensures prefix { OnErr result (AppendedPrefix self.old.written self.new.written piece.now) }
        ensures later { self.old.faults ≤ self.new.faults }
        ensures failed { OnErr result (Rose self.old.faults self.new.faults) }
        ensures empty { piece.now ≡ [] → IsOk result × (self.new ≡ self.old) }
        // A piece that failed counts one fault.
        ensures counts { self.new.faults ≡ faults_after (is_err result) self.old.faults }
    {
        if piece.is_empty() {
            return Ok(());
        }
        let answer = write_whole(&mut self.writer, piece);
        if answer.is_err() {
            self.faults = self.faults.saturating_add(1);
        }
        answer
    }
}
