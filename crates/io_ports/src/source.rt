//! Sources of bytes, and the loop that reads one to its end.

ghost use Rattle.std.specs.Prelude.{◌≡◌, ◌+◌, ◌<◌, ◌≤◌, ◌^◌, max, IfOk, IsErrOf, OnOk, OnErr, is_ok, if◌then◌else◌};
ghost use Rattle.std.specs.Prelude.{◌++◌, length, take, vec_len, vec_capacity};
ghost use Rattle.std.specs.Io.KnownBytes.{IsAtEnd};
ghost use Rattle.io_ports.specs.Bytes.{IsAllOf, IsLonger};
ghost use Rattle.io_ports.specs.Reads.{SourceShows, IsSteady, IsReadFault, Gives, FailsToGive};

use crate::fault::Failed;
use std::alloc::{AllocError, Global};

/// Something that bytes are read from.
pub trait Source {
    /// What the source shows of itself.
    ghost shows: { Self → SourceShows };

    /// Reads some bytes into the front of the buffer and answers how many; none only at the end.
    fn read(&mut self, buf: &mut [u8]) -> Result<usize, Failed>
        ensures bound { IfOk result (λ n. n ≤ length buf.old) }
        ensures given { IfOk result (λ n. Gives (shows self.old) (shows self.new) (take n buf.new)) }
        ensures end { IfOk result (λ n. n ≡ 0 → 0 < length buf.old → IsAtEnd (shows self.new).left) }
        ensures failed { OnErr result (FailsToGive (shows self.old) (shows self.new)) };
}

/// Why a source was not read to its end.
#[derive(Clone, Copy, Debug)]
pub enum ReadError {
    /// The source failed.
    Failed,
    /// More bytes than the limit were left.
    TooLong,
    /// Memory ran out.
    NoMemory,
}

/// Bytes that one call reads at most.
const BLOCK: usize = 65536;

/// All bytes that are left in a source, at most `limit` of them.
pub fn read_to_end<S: Source>(
    alloc: Global,
    source: &mut S,
    limit: usize,
) -> Result<Vec<u8>, ReadError>
    requires { limit < 2 ^ 62 }
    ensures bytes { IfOk result (λ bytes. IsAllOf (S.shows source.old).left bytes.items) }
    ensures end { OnOk result (IsAtEnd (S.shows source.new).left) }
    ensures short { IfOk result (λ bytes. vec_len bytes ≤ limit) }
    ensures later { (S.shows source.old).faults ≤ (S.shows source.new).faults }
    ensures failed { IsErrOf result ReadError.Failed → IsReadFault (S.shows source.old) (S.shows source.new) }
    ensures too_long { IsErrOf result ReadError.TooLong → IsLonger (S.shows source.old).left limit }
    ensures steady { IsSteady (S.shows source.old) → (S.shows source.new).faults ≡ (S.shows source.old).faults }
{
    let mut bytes = Vec::new(alloc);
    let mut block = [0u8; BLOCK];
    while bytes.len() <= limit {
        let room = BLOCK.min(limit + 1 - bytes.len());
        let Ok(count) = source.read(&mut block[..room]) else {
            return Err(ReadError::Failed);
        };
        if count == 0 {
            return Ok(bytes);
        }
        if add_bytes(&mut bytes, &block[..count], limit + 1).is_err() {
            return Err(ReadError::NoMemory);
        }
    }
    Err(ReadError::TooLong)
}

/// Puts a block behind bytes of which there are never more than `most`.
fn add_bytes(bytes: &mut Vec<u8>, block: &[u8], most: usize) -> Result<(), AllocError>
    requires { vec_len bytes.old + length block.now ≤ most }
    ensures { bytes.new.items ≡ (if is_ok result then bytes.old.items ++ block.now else bytes.old.items) }
{
    make_room(bytes, block.len(), most)?;
    bytes.extend_from_slice(block)
}

/// Makes room for more bytes: twice the room that there was where more is not wanted, and room for `most` at most.
fn make_room(bytes: &mut Vec<u8>, more: usize, most: usize) -> Result<(), AllocError>
    requires { vec_len bytes.old + more ≤ most }
    ensures items { bytes.new.items ≡ bytes.old.items }
    ensures room { OnOk result (vec_len bytes.old + more ≤ vec_capacity bytes.new) }
    ensures most { vec_capacity bytes.new ≤ max (vec_capacity bytes.old) most }
{
    if bytes.capacity() - bytes.len() >= more {
        return Ok(());
    }
    let wanted = bytes.len().max(more).min(most - bytes.len());
    bytes.reserve_exact(wanted)
}
