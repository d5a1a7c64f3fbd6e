// Bytes in memory, with writes that fail by their number.
ghost use Rattle.std.specs.Prelude.{◌≡◌, ◌≤◌, ◌↔◌, ◌++◌, ◌-◌, ◌+◌, ◌^◌, [], Some, IfOk, IsOk, List, ℕ, Contains, length, min, take, vec_capacity};
ghost use Rattle.shelf_io.specs.Cause.{Rose};
ghost use Rattle.shelf_io.specs.Sink.{WriteCause, WritesAll};

use crate::sink::{Sink, SinkError};
use bits_core::NoMemory;
use std::alloc::Global;

/// Bytes in memory, up to `room` of them. `failing` lists writes by number, counted from 0: each of these is refused whole. A piece for which the room
/// does not suffice fills it, and fails.
#[derive(Drop)]
pub struct MemSink {
    bytes: Vec<u8>,
    room: usize,
    failing: Vec<u64>,
    writes: u64,
    faults: u64,
    ghost fits: { length bytes.items ≤ room },
    ghost has_room: { room ≤ vec_capacity bytes },
}

impl MemSink {
    ghost use Rattle.shelf_io.specs.MemSink.{sink_bytes, sink_room, sink_failing, sink_writes, sink_faults};

    /// An empty sink with room for so many bytes, before its first write.
    pub fn new(alloc: Global, room: usize, failing: Vec<u64>) -> Result<MemSink, NoMemory>
        ensures empty { IfOk result (λ s. sink_bytes s ≡ []) }
        ensures room { IfOk result (λ s. sink_room s ≡ room) }
        ensures failing { IfOk result (λ s. sink_failing s ≡ failing.items) }
        ensures fresh { IfOk result (λ s. (sink_writes s ≡ 0) × (sink_faults s ≡ 0)) }
    {
        Ok(MemSink {
            bytes: Vec::with_capacity(alloc, room)?,
            room,
            failing,
            writes: 0,
            faults: 0,
        })
    }

    /// The bytes taken so far.
    pub fn taken(&self) -> &[u8]
        ensures { result.now ≡ sink_bytes self.now }
    {
        self.bytes.as_slice()
    }

    // Counts a fault.
    fn fail(&mut self) -> SinkError
        ensures rose { Rose self.old.faults self.new.faults }
        ensures rest { self.new ≡ record self.old { faults = self.new.faults } }
    {
        self.faults = self.faults.saturating_add(1);
        SinkError::Failed
    }
}

impl Sink for MemSink {
    ghost use Rattle.shelf_io.specs.MemSink.{sink_bytes, sink_room, sink_failing, sink_writes};

    ghost taken = { λ s. Some s.bytes.items };

    ghost faults = { λ s. s.faults };

    /// Takes no memory. Linear in the piece and in the list of failing numbers.
    fn write_all(&mut self, bytes: &[u8]) -> Result<(), SinkError>
        ensures cause { WriteCause self.old.faults self.new.faults result }
        ensures bytes { WritesAll (Some (sink_bytes self.old)) (Some (sink_bytes self.new)) bytes.now result }
        ensures failing { Contains (sink_failing self.old) (sink_writes self.old) → (result ≡ Err SinkError.Failed) × (sink_bytes self.new ≡ sink_bytes self.old) }
        ensures works { (Contains (sink_failing self.old) (sink_writes self.old) → ⊥)
            → (sink_bytes self.new ≡ sink_bytes self.old ++ take (sink_room self.old - length (sink_bytes self.old)) bytes.now)
            × (IsOk result ↔ (length bytes.now ≤ sink_room self.old - length (sink_bytes self.old))) }
        ensures counts { sink_writes self.new ≡ min (sink_writes self.old + 1) (2 ^ 64 - 1) }
        ensures keeps { (sink_failing self.new ≡ sink_failing self.old) × (sink_room self.new ≡ sink_room self.old) }
    {
        let number = self.writes;
        self.writes = self.writes.saturating_add(1);
        if self.failing.contains(&number) {
            return Err(self.fail());
        }
        let left = self.room - self.bytes.len();
        if bytes.len() <= left {
            self.bytes.extend_from_slice(bytes).unwrap();
            return Ok(());
        }
        self.bytes.extend_from_slice(&bytes[..left]).unwrap();
        Err(self.fail())
    }
}
