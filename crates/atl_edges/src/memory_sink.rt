// A sink in memory.
ghost use Rattle.std.specs.Prelude.{◌≡◌, ◌≤◌, [], Some, not, is_ok, IfOk, IsOk, OnOk, OnErr};
ghost use Rattle.atl_edges.specs.Causes.{Rose};
ghost use Rattle.atl_edges.specs.InMemory.{after_put, fails_put};
ghost use Rattle.atl_edges.specs.Pieces.{Appended, AppendedPrefix};

use crate::listed::is_listed;
use crate::{EdgeRefusal, Sink, SinkFailed};
use std::alloc::Global;
use std::marker::Model;

/// A sink of a fixed room, which fails at the calls of a list and at a piece past the room. Calls are numbered
/// from 1, and one with an empty piece has no number.
#[derive(Drop)]
pub struct MemSink {
    written: Vec<u8>,
    room: usize,
    failing: Vec<u64>,
    calls: u64,
    faults: u64,
}

impl Model for MemSink {
    ghost use Rattle.std.specs.Prelude.{◌≤◌, vec_len, vec_capacity};
    ghost use Rattle.atl_edges.specs.InMemory.{SinkState};

    ghost Value = { SinkState };

    ghost view = { λ sink. record {
      written = sink.written.items;
      room = sink.room;
      failing = sink.failing.items;
      calls = sink.calls;
      faults = sink.faults;
    } };

    ghost invariant = { λ sink. (vec_len sink.written ≤ sink.room) × (sink.room ≤ vec_capacity sink.written) };
}

impl MemSink {
    /// Takes the whole room, so that no put wants memory.
    pub fn new(alloc: Global, room: u64, failing: Vec<u64>) -> Result<MemSink, EdgeRefusal>
        ensures { IfOk result (λ sink. sink ≡ record { written = []; room = room; failing = failing.items; calls = 0; faults = 0 }) }
    {
        let room = room as usize;
        match Vec::with_capacity(alloc, room) {
            Ok(written) => Ok(MemSink {
                written,
                room,
                failing,
                calls: 0,
                faults: 0,
            }),
            Err(_) => Err(EdgeRefusal::Memory),
        }
    }

    /// All that was appended.
    pub fn written(&self) -> &[u8]
        ensures { result.now ≡ self.now.written }
    {
        self.written.as_slice()
    }
}

impl Sink for MemSink {
    ghost written = { λ sink. Some sink.written };

    ghost faults = { λ sink. sink.faults };

    fn put(&mut self, piece: &[u8]) -> Result<(), SinkFailed>
        ensures answers { is_ok result ≡ not (fails_put self.old piece.now) }
        ensures after { self.new ≡ after_put self.old piece.now }
        ensures later { self.old.faults ≤ self.new.faults }
    {
        if piece.is_empty() {
            return Ok(());
        }
        let listed = is_listed(&self.failing, self.calls);
        self.calls = self.calls.saturating_add(1);
        if listed {
            self.faults = self.faults.saturating_add(1);
            return Err(SinkFailed);
        }
        let room = self.room - self.written.len();
        let fitting = piece.len().min(room);
        match self.written.extend_from_slice(&piece[..fitting]) {
            Ok(()) => {}
            Err(_) => unreachable!(),
        }
        if fitting < piece.len() {
            self.faults = self.faults.saturating_add(1);
            return Err(SinkFailed);
        }
        Ok(())
    }
}
