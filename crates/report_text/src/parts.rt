//! The parts of status lines, put one after another.

ghost use Rattle.io_ports.specs.Writes.{Puts};
ghost use Rattle.report_text.specs.steps.Parts.{part_text, parts_text};
ghost use Rattle.report_text.specs.StatusText.{named, numbered};

use io_ports::{Failed, Pieces, Sink};
use itoa::Buffer;

/// A part of a line: a text, or a number.
#[derive(Clone, Copy)]
pub(crate) enum Part<'a> {
    Number(u64),
    Signed(i64),
    Text(&'a [u8]),
}

/// Puts a part.
fn put_part<K: Sink>(pieces: &mut Pieces, sink: &mut K, part: Part) -> Result<(), Failed>
    ensures { Puts (K.shows sink.old) pieces.old (K.shows sink.new) pieces.new (part_text part.entry) result }
{
    match part {
        Part::Text(text) => pieces.put(sink, text),
        Part::Number(number) => pieces.put(sink, Buffer::new().format(number).as_bytes()),
        Part::Signed(number) => pieces.put(sink, Buffer::new().format(number).as_bytes()),
    }
}

/// Puts some parts.
pub(crate) fn put_parts<K: Sink>(
    pieces: &mut Pieces,
    sink: &mut K,
    parts: &[Part],
) -> Result<(), Failed>
    ensures { Puts (K.shows sink.old) pieces.old (K.shows sink.new) pieces.new (parts_text parts.now) result }
{
    for part in parts {
        match put_part(pieces, sink, *part) {
            Ok(()) => {}
            Err(failed) => return Err(failed),
        }
    }
    Ok(())
}

/// Puts a number between two texts.
pub(crate) fn put_numbered<'a, K: Sink>(
    pieces: &mut Pieces,
    sink: &mut K,
    front: &'a [u8],
    number: u64,
    end: &'a [u8],
) -> Result<(), Failed>
    ensures { Puts (K.shows sink.old) pieces.old (K.shows sink.new) pieces.new (numbered front.now number end.now)
        result }
{
    put_parts(
        pieces,
        sink,
        &[Part::Text(front), Part::Number(number), Part::Text(end)],
    )
}

/// Puts a name between two texts.
pub(crate) fn put_named<'a, K: Sink>(
    pieces: &mut Pieces,
    sink: &mut K,
    front: &'a [u8],
    name: &'a [u8],
    end: &'a [u8],
) -> Result<(), Failed>
    ensures { Puts (K.shows sink.old) pieces.old (K.shows sink.new) pieces.new
        (named front.now name.now end.now) result }
{
    put_parts(
        pieces,
        sink,
        &[Part::Text(front), Part::Text(name), Part::Text(end)],
    )
}
