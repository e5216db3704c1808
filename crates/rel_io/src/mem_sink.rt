//! A sink in memory, for tests of what stands above: it fails where it is told to.
ghost use Rattle.std.specs.Prelude.{◌≡◌, ◌≤◌, ◌↔◌, IfOk, IsErr, IsTrue, [], length};
ghost use Rattle.rel_io.specs.MemSink.{after_write, refuses, sink_of};
ghost use Rattle.rel_io.specs.Sink.{Writes};

use crate::{NoMemory, Sink, SinkFailed};
use std::alloc::Global;
use std::marker::Model;

/// A sink that keeps what is written to it, and whose writes fail where it was told that they fail.
#[derive(Drop)]
pub struct MemSink {
    bytes: Vec<u8>,
    room: usize,
    failing: Vec<u64>,
    writes: u64,
    faults: u64,
}

impl Model for MemSink {
    ghost use Rattle.std.specs.Prelude.{◌≤◌};
    ghost use Rattle.std.specs.Vec.{vec_capacity, vec_len};
    ghost use Rattle.rel_io.specs.MemSink.{MemSinkState};

    ghost Value = { MemSinkState };

    ghost view = { λ m. record {
      bytes = m.bytes.items;
      room = m.room;
      failing = m.failing.items;
      writes = m.writes;
      faults = m.faults;
    } };

    ghost invariant = { λ m. (m.room ≤ vec_capacity m.bytes) × (vec_len m.bytes ≤ m.room) };
}

impl MemSink {
    /// An empty sink with room for so many bytes, for which it takes the memory now. The writes are
    /// numbered from 0; a write fails, and writes nothing, exactly where its number stands in `failing`
    /// or the bytes would outgrow the room.
    pub fn new(alloc: Global, room: usize, failing: Vec<u64>) -> Result<MemSink, NoMemory>
        ensures { IfOk result (λ sink. sink ≡ record {
          bytes = [];
          room = room;
          failing = failing.items;
          writes = 0;
          faults = 0;
        }) }
    {
        let bytes = Vec::with_capacity(alloc, room)?;
        Ok(MemSink {
            bytes,
            room,
            failing,
            writes: 0,
            faults: 0,
        })
    }

    /// The bytes written so far.
    pub fn bytes(&self) -> &[u8]
        ensures { result.now ≡ self.now.bytes }
    {
        self.bytes.as_slice()
    }
}

impl Sink for MemSink {
    ghost state = { sink_of };

    fn write_all(&mut self, bytes: &[u8]) -> Result<(), SinkFailed>
        ensures writes { Writes bytes.now (sink_of self.old) result (sink_of self.new) }
        ensures counts { (sink_of self.old).faults ≤ (sink_of self.new).faults }
        ensures fails { IsErr result ↔ IsTrue (refuses self.old bytes.now) }
        ensures after { self.new ≡ after_write self.old bytes.now }
    {
        let failing = self.failing.contains(&self.writes);
        self.writes = self.writes.saturating_add(1);
        if failing || bytes.len() > self.room - self.bytes.len() {
            self.faults = self.faults.saturating_add(1);
            return Err(SinkFailed);
        }
        self.bytes.extend_from_slice(bytes).unwrap();
        Ok(())
    }
}
