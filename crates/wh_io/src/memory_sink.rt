//! A sink in memory, which takes little at a time and fails when it is told to: for tests of what
//! writes.
//!
//! Its contract is exact: it says which puts fail, how many bytes the others take, and what the
//! sink is afterwards. A put takes no memory, since the room is taken when the sink is made.

ghost use Rattle.std.specs.Prelude.{◌≡◌, ◌↔◌, ◌≤◌, ℕ, List, [], IsErr, IfOk, Some};
ghost use Rattle.wh_io.specs.Outside.{Puts, HasCause};
ghost use Rattle.wh_io.specs.Memory.{SinkState, PutFails, taken, after_put};

use crate::shelf::Failed;
use crate::sink::Sink;
use std::alloc::{AllocError, Global};
use std::marker::Model;

/// A sink that holds what was written in memory, and tells it.
#[derive(Drop)]
pub struct MemorySink {
    written: Vec<u8>,
    most: u64,
    room: u64,
    failing: Vec<u64>,
    calls: u64,
    faults: u64,
}

impl Model for MemorySink {
    ghost use Rattle.std.specs.Prelude.{◌+◌, ◌≤◌, vec_len};
    ghost use Rattle.std.specs.Vec.{vec_capacity};
    ghost use Rattle.wh_io.specs.Memory.{SinkState};

    ghost Value = { SinkState };

    ghost view = { λ sink. record {
      written = sink.written.items;
      most = sink.most;
      room = sink.room;
      failing = sink.failing.items;
      calls = sink.calls;
      faults = sink.faults;
    } };

    ghost invariant = { λ sink. (1 ≤ sink.most) × (vec_len sink.written + sink.room ≤ vec_capacity sink.written) };
}

impl MemorySink {
    /// A sink that takes at most `most` bytes in a call and `room` bytes in all. The puts with the
    /// numbers in `failing`, counted from 0, are to fail.
    pub fn new(alloc: Global, most: u64, room: u64, failing: &[u64]) -> Result<Self, AllocError>
        requires { 1 ≤ most }
        ensures { IfOk result
            (λ sink. sink ≡ record { written = []; most = most; room = room; failing = failing.now; calls = 0; faults = 0 }) }
    {
        Ok(MemorySink {
            written: Vec::with_capacity(alloc, room as usize)?,
            most,
            room,
            failing: Vec::from_slice(alloc, failing)?,
            calls: 0,
            faults: 0,
        })
    }

    /// What was written.
    pub fn bytes(&self) -> &[u8]
        ensures { result.now ≡ self.now.written }
    {
        self.written.as_slice()
    }
}

impl Sink for MemorySink {
    ghost written = { λ sink. Some sink.written };

    ghost faults = { λ sink. sink.faults };

    /// Fails exactly where the call is to fail, or where there are bytes and no room is left.
    fn put(&mut self, bytes: &[u8]) -> Result<usize, Failed>
        ensures bytes { Puts (Some self.old.written) (Some self.new.written) bytes.now result }
        ensures cause { HasCause self.old.faults self.new.faults result }
        ensures fails { IsErr result ↔ PutFails self.old bytes.now }
        ensures most { IfOk result (λ n. n ≡ taken self.old bytes.now) }
        ensures state { self.new ≡ after_put self.old bytes.now result }
    {
        let call = self.calls;
        self.calls = call.saturating_add(1);
        if self.failing.contains(&call) || (self.room == 0 && !bytes.is_empty()) {
            self.faults = self.faults.saturating_add(1);
            return Err(Failed);
        }
        let count = (bytes.len() as u64).min(self.most.min(self.room));
        let piece = &bytes[..count as usize];
        self.written.extend_from_slice(piece).unwrap();
        self.room -= count;
        Ok(count as usize)
    }
}
