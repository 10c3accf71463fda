ghost use Rattle.std.specs.Prelude.{◌≡◌, [], ◌<◌, ◌≤◌, ◌-◌, ◌↔◌, min, length, Some, IfOk, IsErr};
ghost use Rattle.std.specs.Io.KnownBytes.{WriteAppends};
ghost use Rattle.mdg_port.specs.Causes.{HasCause};

use crate::{Sink, SinkFailed};
use mdg_base::NoMemory;
use std::alloc::Global;
use std::marker::Model;

/// A sink in memory, with room for so many bytes. It fails exactly where no room is left.
#[derive(Drop)]
pub struct MemSink {
    written: Vec<u8>,
    room: usize,
    faults: u64,
}

impl Model for MemSink {
    ghost use Rattle.std.specs.Prelude.{◌≤◌, vec_len, vec_capacity};
    ghost use Rattle.mdg_port.specs.MemSink.{SinkState};

    ghost Value = { SinkState };

    ghost view = { λ s. record { bytes = s.written.items; room = s.room; faults = s.faults } };

    ghost invariant = { λ s. (vec_len s.written ≤ s.room) × (s.room ≤ vec_capacity s.written) };
}

impl MemSink {
    /// Takes the memory for `room` bytes. Nothing is written yet.
    pub fn create(alloc: Global, room: usize) -> Result<MemSink, NoMemory>
        ensures { IfOk result (λ s. s ≡ record { bytes = []; room = room; faults = 0 }) }
    {
        Ok(MemSink {
            written: Vec::with_capacity(alloc, room)?,
            room,
            faults: 0,
        })
    }

    /// What was written.
    pub fn written(&self) -> &[u8]
        ensures { result.now ≡ self.now.bytes }
    {
        self.written.as_slice()
    }
}

impl Sink for MemSink {
    ghost written = { λ s. Some s.bytes };

    ghost faults = { λ s. s.faults };

    fn put(&mut self, bytes: &[u8]) -> Result<usize, SinkFailed>
        requires { 0 < length bytes.now }
        ensures some { IfOk result (λ n. 0 < n) }
        ensures bound { IfOk result (λ n. n ≤ length bytes.now) }
        ensures bytes { WriteAppends (Some self.old.bytes) (Some self.new.bytes) result bytes.now }
        ensures cause { HasCause self.old.faults self.new.faults result (record {}) }

        // It takes what still fits, and fails exactly where there is no room.
        ensures all { IfOk result (λ n. n ≡ min (self.old.room - length self.old.bytes) (length bytes.now)) }
        ensures full { IsErr result ↔ (self.old.room ≤ length self.old.bytes) }
        ensures room { self.new.room ≡ self.old.room }
    {
        let left = self.room - self.written.len();
        if left == 0 {
            self.faults = self.faults.saturating_add(1);
            return Err(SinkFailed);
        }
        let count = left.min(bytes.len());
        match self.written.extend_from_slice(&bytes[..count]) {
            Ok(()) => Ok(count),
            Err(_) => unreachable!(),
        }
    }
}
