//! A sink into memory, which tells what it took and fails at chosen calls: what tests write to.

ghost use Rattle.std.specs.Prelude.{◌≡◌, ◌≤◌, ◌<◌, [], IfOk, OnOk, OnErr, length, take};
ghost use Rattle.io_ports.specs.Writes.{Takes, FailsToTake};
ghost use Rattle.io_ports.specs.Memory.{sink_shows, WritesNext, FlushesNext};

use crate::calls::Calls;
use crate::fault::Failed;
use crate::sink::Sink;
use std::alloc::{AllocError, Global};
use std::marker::Model;

/// A sink into memory with room for `capacity` bytes. It takes at most `step` bytes a call, and fails at
/// chosen calls and where there is no room.
#[derive(Drop)]
pub struct MemSink {
    bytes: Vec<u8>,
    capacity: usize,
    step: usize,
    calls: Calls,
}

impl Model for MemSink {
    ghost use Rattle.std.specs.Prelude.{◌≤◌, ◌<◌, vec_len, vec_capacity};
    ghost use Rattle.io_ports.specs.Memory.{SinkState};

    ghost Value = { SinkState };

    ghost view = { λ s. record {
      taken = s.bytes.items;
      capacity = s.capacity;
      step = s.step;
      fails = s.calls.fails.items;
      calls = s.calls.made;
      faults = s.calls.faults;
    } };

    ghost invariant = { λ s. (vec_len s.bytes ≤ s.capacity) × (s.capacity ≤ vec_capacity s.bytes) × (0 < s.step) };
}

impl MemSink {
    /// An empty sink; `fails` has the numbers of the calls that fail, writes and flushes counted together
    /// from 1. All its memory is taken here.
    pub fn of(
        alloc: Global,
        capacity: usize,
        step: usize,
        fails: &[u64],
    ) -> Result<MemSink, AllocError>
        requires { 1 ≤ step }
        ensures { IfOk result (λ s. s ≡ record
            { taken = []; capacity = capacity; step = step; fails = fails.now; calls = 0; faults = 0 }) }
    {
        Ok(MemSink {
            bytes: Vec::with_capacity(alloc, capacity)?,
            capacity,
            step,
            calls: Calls {
                fails: Vec::from_slice(alloc, fails)?,
                made: 0,
                faults: 0,
            },
        })
    }

    /// The bytes taken so far.
    pub fn taken(&self) -> &[u8]
        ensures { result.now ≡ self.now.taken }
    {
        &self.bytes
    }

    /// How many calls failed.
    pub fn faults(&self) -> u64
        ensures { result ≡ self.now.faults }
    {
        self.calls.faults
    }
}

impl Sink for MemSink {
    ghost shows = { sink_shows };

    fn write(&mut self, piece: &[u8]) -> Result<usize, Failed>
        ensures bound { IfOk result (λ n. n ≤ length piece.now) }
        ensures some { IfOk result (λ n. 0 < length piece.now → 0 < n) }
        ensures taken { IfOk result (λ n. Takes (sink_shows self.old) (sink_shows self.new) (take n piece.now)) }
        ensures failed { OnErr result (FailsToTake (sink_shows self.old) (sink_shows self.new) piece.now) }
        ensures exact { WritesNext self.old self.new piece.now result }
    {
        let room = self.capacity - self.bytes.len();
        let is_full = room == 0 && !piece.is_empty();
        if self.calls.next_fails() || is_full {
            self.calls.add_fault();
            return Err(Failed);
        }
        let count = self.step.min(room).min(piece.len());
        let Ok(()) = self.bytes.extend_from_slice(&piece[..count]) else {
            unreachable!();
        };
        Ok(count)
    }

    fn flush(&mut self) -> Result<(), Failed>
        ensures done { OnOk result (Takes (sink_shows self.old) (sink_shows self.new) []) }
        ensures failed { OnErr result (FailsToTake (sink_shows self.old) (sink_shows self.new) []) }
        ensures exact { FlushesNext self.old self.new result }
    {
        if self.calls.next_fails() {
            self.calls.add_fault();
            return Err(Failed);
        }
        Ok(())
    }
}
