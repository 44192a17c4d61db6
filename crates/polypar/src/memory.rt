//! A whole call over ports in memory, as tests make it.

ghost use Rattle.std.specs.Prelude.{◌≡◌, ◌⊎◌, map, string_bytes};
ghost use Rattle.plan_search.specs.Status.{Status};
ghost use Rattle.io_ports.specs.Memory.{source_shows};
ghost use Rattle.command_line.specs.Command.{command_of};
ghost use Rattle.polypar.specs.Deserves.{Deserves, IsReadBy};
ghost use Rattle.polypar.specs.InMemory.{NeverFail, HoldsText, HoldsLine};

use crate::call::plain_command;
use io_ports::{MemSink, MemSource};
use plan_search::Status;
use std::alloc::Global;

/// Calls `plain_command` over ports in memory that fail at no call. Where they have room, the status is the one
/// that the words and the input deserve, or memory ran out, and no fault is counted. At Done the source is read as the
/// command reads it.
pub fn command_in_memory(
    alloc: Global,
    words: &[String],
    source: &mut MemSource,
    out: &mut MemSink,
    err: &mut MemSink,
) -> Status
    requires { NeverFail source.old out.old err.old }
    ensures whole { result ≡ Status.Done → IsReadBy (command_of (map string_bytes words.now)) (source_shows source.old)
        (source_shows source.new) }
    ensures decided { (verdict : Status) → Deserves (map string_bytes words.now) source.old.left verdict
        → HoldsText (map string_bytes words.now) source.old.left out.old err.old
        → HoldsLine source.old.left result err.old → (result ≡ verdict) ⊎ (result ≡ Status.NoMemory) }
    ensures calm { HoldsText (map string_bytes words.now) source.old.left out.old err.old
        → HoldsLine source.old.left result err.old
        → (source.new.faults ≡ 0) × (out.new.faults ≡ 0) × (err.new.faults ≡ 0) }
{
    plain_command(alloc, words, source, out, err)
}
