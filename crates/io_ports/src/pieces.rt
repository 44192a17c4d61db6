//! A buffer before a sink, so that many short texts go out in few pieces. It takes no memory.
//!
//! What the sink has taken, followed by what is pending here, is the text that was put.

ghost use Rattle.std.specs.Prelude.{◌≡◌, ◌+◌, ◌≤◌, ◌++◌, [], OnOk, length};
ghost use Rattle.io_ports.specs.Writes.{Writes, Puts};
ghost use Rattle.io_ports.specs.declared.pieces.TheConstants.{ROOM};

use crate::fault::Failed;
use crate::sink::{Sink, write_whole};
use std::marker::Model;

/// Bytes that are kept back at most.
const ROOM: usize = 8192;

/// The text that was put and has not reached the sink yet.
#[derive(Drop)]
pub struct Pieces {
    bytes: [u8; ROOM],
    length: usize,
}

impl Model for Pieces {
    ghost use Rattle.std.specs.Prelude.{ℕ, List, ◌≤◌, take};
    ghost use Rattle.io_ports.specs.declared.pieces.TheConstants.{ROOM};

    ghost Value = { List ℕ };

    ghost view = { λ p. take p.length p.bytes };

    ghost invariant = { λ p. p.length ≤ ROOM };
}

impl Pieces {
    /// Nothing pending.
    pub fn new() -> Pieces
        ensures { result ≡ [] }
    {
        Pieces {
            bytes: [0; ROOM],
            length: 0,
        }
    }

    /// Puts a text behind what is pending, and sends on what has no room.
    pub fn put<K: Sink>(&mut self, sink: &mut K, text: &[u8]) -> Result<(), Failed>
        ensures { Puts (K.shows sink.old) self.old (K.shows sink.new) self.new text.now result }
    {
        if text.len() > ROOM - self.length {
            self.finish(sink)?;
            if text.len() > ROOM {
                write_whole(sink, text)?;
                return Ok(());
            }
        }
        self.keep(text);
        Ok(())
    }

    /// Sends on all that is pending; the sink is not flushed.
    pub fn finish<K: Sink>(&mut self, sink: &mut K) -> Result<(), Failed>
        ensures sent { Writes (K.shows sink.old) (K.shows sink.new) self.old result }
        ensures none { OnOk result (self.new ≡ []) }
    {
        write_whole(sink, &self.bytes[..self.length])?;
        self.length = 0;
        Ok(())
    }

    /// Puts a text for which there is room behind what is pending.
    fn keep(&mut self, text: &[u8])
        requires { length self.old + length text.now ≤ ROOM }
        ensures { self.new ≡ self.old ++ text.now }
    {
        let end = self.length + text.len();
        self.bytes[self.length..end].copy_from_slice(text);
        self.length = end;
    }
}
