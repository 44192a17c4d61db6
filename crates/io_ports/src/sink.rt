//! Sinks of bytes, and the loop that writes a whole text to one.

ghost use Rattle.std.specs.Prelude.{◌<◌, ◌≤◌, [], IfOk, OnOk, OnErr, length, take};
ghost use Rattle.io_ports.specs.Writes.{SinkShows, Takes, FailsToTake, Writes};

use crate::fault::Failed;

/// Something that bytes are written to.
pub trait Sink {
    /// What the sink shows of itself.
    ghost shows: { Self → SinkShows };

    /// Takes a front of the piece and answers its length; none only of an empty piece.
    fn write(&mut self, piece: &[u8]) -> Result<usize, Failed>
        ensures bound { IfOk result (λ n. n ≤ length piece.now) }
        ensures some { IfOk result (λ n. 0 < length piece.now → 0 < n) }
        ensures taken { IfOk result (λ n. Takes (shows self.old) (shows self.new) (take n piece.now)) }
        ensures failed { OnErr result (FailsToTake (shows self.old) (shows self.new) piece.now) };

    /// Hands on what was taken.
    fn flush(&mut self) -> Result<(), Failed>
        ensures done { OnOk result (Takes (shows self.old) (shows self.new) []) }
        ensures failed { OnErr result (FailsToTake (shows self.old) (shows self.new) []) };
}

/// Writes a whole text, or a front of it where the sink fails.
pub fn write_whole<K: Sink>(sink: &mut K, text: &[u8]) -> Result<(), Failed>
    ensures { Writes (K.shows sink.old) (K.shows sink.new) text.now result }
{
    let mut at = 0;
    while at < text.len() {
        match sink.write(&text[at..]) {
            Ok(count) => at += count,
            Err(failed) => return Err(failed),
        }
    }
    Ok(())
}
