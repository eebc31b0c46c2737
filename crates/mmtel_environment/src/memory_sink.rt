//! A sink in memory.
ghost use Rattle.std.specs.Prelude.{◌≡◌, ◌≤◌, ◌+◌, length, [], Some, IfOk, Ok, vec_capacity};
ghost use Rattle.std.specs.Io.KnownBytes.{WriteAppends};
ghost use Rattle.mmtel_environment.specs.Counts.{HasCause};
ghost use Rattle.mmtel_environment.specs.Memory.{MemorySinkView, WritesAs, next_write, sink_after};

use crate::failing::fails_by_number;
use crate::sinks::Sink;
use mmtel_base::{List, NoMemory};
use mmtel_types::Failed;
use std::alloc::Global;
use std::marker::Model;

/// A sink in memory, of limited space, whose writes of given numbers fail.
#[derive(Drop)]
pub struct MemorySink {
    written: Vec<u8>,
    capacity: usize,
    most: usize,
    failing: List<u64>,
    calls: u64,
    faults: u64,
}

impl Model for MemorySink {
    ghost use Rattle.std.specs.Prelude.{◌≤◌, ◌+◌, length, vec_capacity};
    ghost use Rattle.mmtel_environment.specs.Memory.{MemorySinkView};

    ghost Value = { MemorySinkView };

    ghost view = { λ m. record {
      written = m.written.items;
      capacity = m.capacity;
      most = m.most;
      failing = m.failing;
      calls = m.calls;
      faults = m.faults;
    } };

    ghost invariant = { λ m. length m.written.items + m.capacity ≤ vec_capacity m.written };
}

impl MemorySink {
    /// An empty sink, which accepts `room` bytes in all and at most `most` in one write. Its memory is allocated now. The writes whose numbers, counted from 1, are in `failing`
    /// fail.
    ///
    /// # Errors
    ///
    /// Out of memory only.
    pub fn new(
        alloc: Global,
        room: usize,
        most: usize,
        failing: List<u64>,
    ) -> Result<MemorySink, NoMemory>
        ensures fresh { IfOk result (λ sink. sink ≡ record {
          written = [];
          capacity = room;
          most = most;
          failing = failing;
          calls = 0;
          faults = 0;
        }) }
    {
        let written = Vec::with_capacity(alloc, room)?;
        Ok(MemorySink {
            written,
            capacity: room,
            most,
            failing,
            calls: 0,
            faults: 0,
        })
    }

    /// What was written.
    pub fn written(&self) -> &[u8]
        ensures reported { result.now ≡ self.now.written }
    {
        self.written.as_slice()
    }
}

impl Sink for MemorySink {
    ghost written = { λ m. Some m.written };

    ghost faults = { λ m. m.faults };

    fn write(&mut self, bytes: &[u8]) -> Result<usize, Failed>
        ensures bound { IfOk result (λ count. count ≤ length bytes.now) }
        ensures progress { IfOk result (λ count. count ≡ 0 → bytes.now ≡ []) }
        ensures empty { bytes.now ≡ [] → result ≡ Ok 0 }
        ensures appended { WriteAppends (Some self.old.written) (Some self.new.written) result bytes.now }
        ensures cause { HasCause self.old.faults self.new.faults result }
        ensures exact { WritesAs (next_write self.old bytes.now) result }
        ensures sink { self.new ≡ sink_after self.old bytes.now }
    {
        if bytes.is_empty() {
            return Ok(0);
        }
        let fails = fails_by_number(self.failing.items(), self.calls);
        self.calls = self.calls.saturating_add(1);
        let count = bytes.len().min(self.most).min(self.capacity);
        if fails || count == 0 || self.written.extend_from_slice(&bytes[..count]).is_err() {
            self.faults = self.faults.saturating_add(1);
            return Err(Failed);
        }
        self.capacity -= count;
        Ok(count)
    }
}
