//! The ports over std's readers and writers. What such a stream holds is told as far as its own
//! type tells it, which the streams of the system do not. Each error counts as a fault.

ghost use Rattle.std.specs.Prelude.{◌≡◌, ◌≤◌, ◌<◌, [], length, take, IfOk, OnOk, OnErr, is_ok, if◌then◌else◌};
ghost use Rattle.std.specs.Io.KnownBytes.{IsAtEnd};
ghost use Rattle.io_ports.specs.Faults.{next_count};
ghost use Rattle.io_ports.specs.Reads.{Gives, FailsToGive};
ghost use Rattle.io_ports.specs.Writes.{Takes, FailsToTake};
ghost use Rattle.io_ports.specs.Streams.{reader_of, read_faults, source_shows, writer_of, write_faults, sink_shows};

use crate::fault::Failed;
use crate::sink::Sink;
use crate::source::Source;
use std::io::{Read, Write};

/// A source over a reader.
#[derive(Drop)]
pub struct StdSource<R> {
    reader: R,
    faults: u64,
}

impl<R: Read> StdSource<R> {
    /// The source over this reader, with no fault counted.
    pub fn of(reader: R) -> Self
        ensures reader { reader_of result ≡ reader }
        ensures faults { read_faults result ≡ 0 }
    {
        StdSource { reader, faults: 0 }
    }
}

impl<R: Read> Source for StdSource<R> {
    ghost shows = { λ source. source_shows R.remaining source };

    fn read(&mut self, buf: &mut [u8]) -> Result<usize, Failed>
        ensures bound { IfOk result (λ count. count ≤ length buf.old) }
        ensures given { IfOk result (λ count.
            Gives (source_shows R.remaining self.old) (source_shows R.remaining self.new) (take count buf.new)) }
        ensures end { IfOk result (λ count. count ≡ 0 → 0 < length buf.old
            → IsAtEnd (R.remaining (reader_of self.new))) }
        ensures failed { OnErr result (FailsToGive (source_shows R.remaining self.old)
            (source_shows R.remaining self.new)) }
        ensures faults { read_faults self.new
            ≡ (if is_ok result then read_faults self.old else next_count (read_faults self.old)) }
    {
        let Ok(count) = self.reader.read(buf) else {
            self.faults = self.faults.saturating_add(1);
            return Err(Failed);
        };
        Ok(count)
    }
}

/// A sink over a writer.
#[derive(Drop)]
pub struct StdSink<W> {
    writer: W,
    faults: u64,
}

impl<W: Write> StdSink<W> {
    /// The sink over this writer, with no fault counted.
    pub fn of(writer: W) -> Self
        ensures writer { writer_of result ≡ writer }
        ensures faults { write_faults result ≡ 0 }
    {
        StdSink { writer, faults: 0 }
    }
}

impl<W: Write> Sink for StdSink<W> {
    ghost shows = { λ sink. sink_shows W.contents sink };

    fn write(&mut self, piece: &[u8]) -> Result<usize, Failed>
        ensures bound { IfOk result (λ count. count ≤ length piece.now) }
        ensures some { IfOk result (λ count. 0 < length piece.now → 0 < count) }
        ensures taken { IfOk result (λ count.
            Takes (sink_shows W.contents self.old) (sink_shows W.contents self.new) (take count piece.now)) }
        ensures failed { OnErr result (FailsToTake (sink_shows W.contents self.old) (sink_shows W.contents self.new)
            piece.now) }
        ensures faults { write_faults self.new
            ≡ (if is_ok result then write_faults self.old else next_count (write_faults self.old)) }
    {
        match self.writer.write(piece) {
            Ok(count) if count > 0 || piece.is_empty() => Ok(count),
            _ => {
                self.faults = self.faults.saturating_add(1);
                Err(Failed)
            }
        }
    }

    fn flush(&mut self) -> Result<(), Failed>
        ensures done { OnOk result (Takes (sink_shows W.contents self.old) (sink_shows W.contents self.new) []) }
        ensures failed { OnErr result (FailsToTake (sink_shows W.contents self.old) (sink_shows W.contents self.new)
            []) }
        ensures faults { write_faults self.new
            ≡ (if is_ok result then write_faults self.old else next_count (write_faults self.old)) }
    {
        let Ok(()) = self.writer.flush() else {
            self.faults = self.faults.saturating_add(1);
            return Err(Failed);
        };
        Ok(())
    }
}
