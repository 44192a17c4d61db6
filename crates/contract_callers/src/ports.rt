//! Callers of the ports in memory and over std's streams.
ghost use Rattle.std.specs.Prelude.{◌≡◌, ◌≤◌, ◌+◌, [], IfOk, OnOk, OnErr, IsOk};
ghost use Rattle.io_ports.specs.Faults.{next_count};
ghost use Rattle.io_ports.specs.Streams.{read_faults, write_faults};

use io_ports::{Failed, MemSink, MemSource, Sink, Source, StdSink, StdSource};
use std::io::{Read, Write};

/// A source in memory gives at most its step a call, and counts the fault where it fails, by `exact` of its `read`.
pub fn read_from_memory(source: &mut MemSource, buf: &mut [u8]) -> Result<usize, Failed>
    ensures given { IfOk result (λ count. count ≤ source.old.step) }
    ensures failed { OnErr result (source.new.faults ≡ next_count source.old.faults) }
{
    source.read(buf)
}

/// A sink in memory of which no call is to fail takes at most its step a call, by `exact` of its `write`.
pub fn write_to_memory(sink: &mut MemSink, piece: &[u8]) -> Result<usize, Failed>
    ensures given { IfOk result (λ count. count ≤ sink.old.step) }
    ensures fails { sink.old.fails ≡ [] → piece.now ≡ [] → IsOk result }
    ensures failed { OnErr result (sink.new.faults ≡ next_count sink.old.faults) }
{
    sink.write(piece)
}

/// A sink in memory of which no call is to fail flushes and counts the call, by `exact` of its `flush`.
pub fn flush_to_memory(sink: &mut MemSink) -> Result<(), Failed>
    ensures fails { sink.old.fails ≡ [] → IsOk result }
    ensures done { OnOk result (sink.new.calls ≡ next_count sink.old.calls) }
    ensures failed { OnErr result (sink.new.faults ≡ next_count sink.old.faults) }
{
    sink.flush()
}

/// A source over a reader counts no fault where it gives, and one where it fails, by `faults` of its `read`.
pub fn read_counted<R: Read>(source: &mut StdSource<R>, buf: &mut [u8]) -> Result<usize, Failed>
    ensures given { OnOk result (read_faults source.new ≡ read_faults source.old) }
    ensures failed { OnErr result (read_faults source.new ≤ read_faults source.old + 1) }
{
    source.read(buf)
}

/// A sink over a writer counts no fault where it takes, and one where it fails, by `faults` of its `write`.
pub fn write_counted<W: Write>(sink: &mut StdSink<W>, piece: &[u8]) -> Result<usize, Failed>
    ensures taken { OnOk result (write_faults sink.new ≡ write_faults sink.old) }
    ensures failed { OnErr result (write_faults sink.new ≤ write_faults sink.old + 1) }
{
    sink.write(piece)
}

/// The same of its `flush`, by `faults`.
pub fn flush_counted<W: Write>(sink: &mut StdSink<W>) -> Result<(), Failed>
    ensures done { OnOk result (write_faults sink.new ≡ write_faults sink.old) }
    ensures failed { OnErr result (write_faults sink.new ≤ write_faults sink.old + 1) }
{
    sink.flush()
}
