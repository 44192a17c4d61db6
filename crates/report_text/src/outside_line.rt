//! The line of a subscript outside its extent.

ghost use Rattle.io_ports.specs.Writes.{Puts};
ghost use Rattle.report_text.specs.StatusText.{outside_text};

use crate::parts::{Part, put_parts};
use io_ports::{Failed, Pieces, Sink};
use scop_meaning::Outside;

/// Puts `outside: SN access A dimension D value V extent E` and a line feed.
pub(crate) fn put_outside<K: Sink>(
    pieces: &mut Pieces,
    sink: &mut K,
    f: Outside,
) -> Result<(), Failed>
    ensures { Puts (K.shows sink.old) pieces.old (K.shows sink.new) pieces.new (outside_text f) result }
{
    put_parts(
        pieces,
        sink,
        &[
            Part::Text(b"outside: S"),
            Part::Number(f.stmt as u64),
            Part::Text(b" access "),
            Part::Number(f.access as u64),
            Part::Text(b" dimension "),
            Part::Number(f.dim as u64),
            Part::Text(b" value "),
            Part::Signed(f.value),
            Part::Text(b" extent "),
            Part::Number(f.extent),
            Part::Text(b"\n"),
        ],
    )
}
