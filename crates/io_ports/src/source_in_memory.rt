//! A source over bytes in memory, which tells them and fails at chosen calls: what tests read from.

ghost use Rattle.std.specs.Prelude.{◌≡◌, ◌<◌, ◌≤◌, Some, IfOk, OnErr, length, take};
ghost use Rattle.std.specs.Io.KnownBytes.{IsAtEnd};
ghost use Rattle.io_ports.specs.Reads.{Gives, FailsToGive};
ghost use Rattle.io_ports.specs.Memory.{source_shows, ReadsNext};

use crate::calls::Calls;
use crate::fault::Failed;
use crate::source::Source;
use std::alloc::{AllocError, Global};
use std::marker::Model;

/// A source over bytes in memory. It gives at most `step` bytes a call, and fails at chosen calls.
#[derive(Drop)]
pub struct MemSource {
    bytes: Vec<u8>,
    place: usize,
    step: usize,
    calls: Calls,
}

impl Model for MemSource {
    ghost use Rattle.std.specs.Prelude.{◌≤◌, ◌<◌, drop, vec_len};
    ghost use Rattle.io_ports.specs.Memory.{SourceState};

    ghost Value = { SourceState };

    ghost view = { λ s. record {
      left = drop s.place s.bytes.items;
      step = s.step;
      fails = s.calls.fails.items;
      calls = s.calls.made;
      faults = s.calls.faults;
    } };

    ghost invariant = { λ s. (s.place ≤ vec_len s.bytes) × (0 < s.step) };
}

impl MemSource {
    /// A source of these bytes; `fails` has the numbers of the calls that fail, counted from 1.
    pub fn of(
        alloc: Global,
        bytes: &[u8],
        step: usize,
        fails: &[u64],
    ) -> Result<MemSource, AllocError>
        requires { 1 ≤ step }
        ensures { IfOk result (λ s. s ≡ record
            { left = bytes.now; step = step; fails = fails.now; calls = 0; faults = 0 }) }
    {
        Ok(MemSource {
            bytes: Vec::from_slice(alloc, bytes)?,
            place: 0,
            step,
            calls: Calls {
                fails: Vec::from_slice(alloc, fails)?,
                made: 0,
                faults: 0,
            },
        })
    }

    /// The bytes still to come.
    pub fn left(&self) -> &[u8]
        ensures { result.now ≡ self.now.left }
    {
        &self.bytes[self.place..]
    }

    /// How many calls failed.
    pub fn faults(&self) -> u64
        ensures { result ≡ self.now.faults }
    {
        self.calls.faults
    }
}

impl Source for MemSource {
    ghost shows = { source_shows };

    fn read(&mut self, buf: &mut [u8]) -> Result<usize, Failed>
        ensures bound { IfOk result (λ n. n ≤ length buf.old) }
        ensures given { IfOk result (λ n. Gives (source_shows self.old) (source_shows self.new) (take n buf.new)) }
        ensures end { IfOk result (λ n. n ≡ 0 → 0 < length buf.old → IsAtEnd (Some self.new.left)) }
        ensures failed { OnErr result (FailsToGive (source_shows self.old) (source_shows self.new)) }
        ensures exact { ReadsNext self.old self.new (length buf.old) result }
    {
        if self.calls.next_fails() {
            self.calls.add_fault();
            return Err(Failed);
        }
        let left = &self.bytes[self.place..];
        let count = self.step.min(buf.len()).min(left.len());
        put_front(buf, &left[..count]);
        self.place += count;
        Ok(count)
    }
}

/// Puts bytes at the front of a buffer.
fn put_front(buf: &mut [u8], bytes: &[u8])
    requires { length bytes.now ≤ length buf.old }
    ensures { take (length bytes.now) buf.new ≡ bytes.now }
{
    buf[..bytes.len()].copy_from_slice(bytes);
}
