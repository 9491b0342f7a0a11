// A sink in memory.
ghost use Rattle.std.specs.Prelude.{◌≡◌, ◌≤◌, ◌+◌, ◌-◌, ◌++◌, ◌↔◌, [], IfOk, IsOk, take, length, OnOk, OnErr, Some};
ghost use Rattle.dsc_base.specs.Outside.{Rose};

use super::sink::{Sink, SinkFailed};
use crate::NoMemory;
use std::alloc::Global;
use std::marker::Model;

/// Keeps what it takes, up to the room that it was made with. It tells its bytes.
#[derive(Drop)]
pub struct MemSink {
    bytes: Vec<u8>,
    room: usize,
    faults: u64,
}

impl Model for MemSink {
    ghost use Rattle.std.specs.Prelude.{◌≤◌, length};
    ghost use Rattle.std.specs.Vec.{vec_capacity};
    ghost use Rattle.dsc_base.specs.InMemory.{SinkState};

    ghost Value = { SinkState };

    ghost view = { λ s. record { written = s.bytes.items; room = s.room; faults = s.faults } };

    // The room was taken at the start, so that no put needs memory.
    ghost invariant = { λ s. (length s.bytes.items ≤ s.room) × (s.room ≤ vec_capacity s.bytes) };
}

impl MemSink {
    /// An empty sink for `room` bytes, or `NoMemory` where there is none for them.
    pub fn with_room(alloc: Global, room: usize) -> Result<MemSink, NoMemory>
        ensures { IfOk result (λ sink. sink ≡ record { written = []; room = room; faults = 0 }) }
    {
        let bytes = Vec::with_capacity(alloc, room)?;
        Ok(MemSink {
            bytes,
            room,
            faults: 0,
        })
    }

    /// The bytes that it has taken.
    pub fn bytes(&self) -> &[u8]
        ensures { result.now ≡ self.now.written }
    {
        self.bytes.as_slice()
    }
}

impl Sink for MemSink {
    ghost written = { λ s. Some s.written };

    ghost faults = { λ s. s.faults };

    /// Takes what fits. Where that isn't all, it fails and counts a fault.
    fn put(&mut self, bytes: &[u8]) -> Result<(), SinkFailed>
        ensures fits { IsOk result ↔ (length self.old.written + length bytes.now ≤ self.old.room) }
        ensures written { self.new.written ≡ self.old.written ++ take (self.old.room - length self.old.written) bytes.now }
        ensures room { self.new.room ≡ self.old.room }
        ensures sound { OnOk result (self.new.faults ≡ self.old.faults) }
        ensures fault { OnErr result (Rose self.old.faults self.new.faults) }
    {
        let taken = bytes.len().min(self.room - self.bytes.len());
        self.bytes.extend_from_slice(&bytes[..taken]).unwrap();
        if taken < bytes.len() {
            self.faults = self.faults.saturating_add(1);
            return Err(SinkFailed);
        }
        Ok(())
    }
}
