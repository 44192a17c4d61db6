//! The line of data that was refused.

ghost use Rattle.std.specs.Prelude.{◌≡◌, codes, option_map};
ghost use Rattle.scop_syntax.specs.View.{program_of};
ghost use Rattle.io_ports.specs.Writes.{Puts};
ghost use Rattle.report_text.specs.StatusText.{array_name, count_text, data_text, extent_text, numbered};
ghost use Rattle.report_text.specs.StatusText.{parameter_name};

use crate::parts::{Part, put_named, put_numbered, put_parts};
use data_text::DataRefusal;
use io_ports::{Failed, Pieces, Sink};
use itoa::Buffer;
use scop_syntax::Kernel;

/// Puts the line of a refusal of data.
pub(crate) fn put_data<K: Sink>(
    pieces: &mut Pieces,
    sink: &mut K,
    kernel: Option<&Kernel>,
    refusal: DataRefusal,
) -> Result<(), Failed>
    ensures { Puts (K.shows sink.old) pieces.old (K.shows sink.new) pieces.new
        (data_text (option_map (λ k. program_of k.now) kernel.entry) refusal) result }
{
    match refusal {
        DataRefusal::Line(line) => put_numbered(pieces, sink, b"data: Line line ", line, b"\n"),
        DataRefusal::UnknownName(line) => {
            put_numbered(pieces, sink, b"data: UnknownName line ", line, b"\n")
        }
        DataRefusal::Repeated(line) => {
            put_numbered(pieces, sink, b"data: Repeated line ", line, b"\n")
        }
        DataRefusal::Number(line) => put_numbered(pieces, sink, b"data: Number line ", line, b"\n"),
        DataRefusal::ParameterRange(line) => {
            put_numbered(pieces, sink, b"data: ParameterRange line ", line, b"\n")
        }
        DataRefusal::Missing(i) => {
            put_named(
                pieces,
                sink,
                b"data: Missing ",
                parameter_name(kernel, i),
                b"\n",
            )
        }
        DataRefusal::Extent {
            array,
            dimension,
            value,
        } => { put_extent(pieces, sink, array_name(kernel, array), dimension, value) },
        DataRefusal::Cells(total) => put_total(pieces, sink, total),
        DataRefusal::Count {
            line,
            expected,
            found,
        } => put_count(pieces, sink, line, expected, found),
    }
}

/// The name of a parameter, nothing where no kernel was read.
fn parameter_name(kernel: Option<&Kernel>, i: usize) -> &[u8]
    ensures { result.now ≡ parameter_name (option_map (λ k. program_of k.now) kernel.entry) i }
{
    match kernel {
        Some(kernel) => match kernel.parameters.get(i) {
            Some(name) => name,
            None => &[],
        },
        None => &[],
    }
}

/// The name of an array, nothing where no kernel was read.
pub(crate) fn array_name(kernel: Option<&Kernel>, j: usize) -> &[u8]
    ensures { result.now ≡ array_name (option_map (λ k. program_of k.now) kernel.entry) j }
{
    match kernel {
        Some(kernel) => match kernel.arrays.get(j) {
            Some(array) => &array.name,
            None => &[],
        },
        None => &[],
    }
}

/// Puts `data: Cells TOTAL` and a line feed.
fn put_total<K: Sink>(pieces: &mut Pieces, sink: &mut K, total: u128) -> Result<(), Failed>
    ensures { Puts (K.shows sink.old) pieces.old (K.shows sink.new) pieces.new
        (numbered (codes "data: Cells ") total (codes "\n")) result }
{
    put_named(
        pieces,
        sink,
        b"data: Cells ",
        Buffer::new().format(total).as_bytes(),
        b"\n",
    )
}

/// Puts `data: Extent NAME DIM value V` and a line feed.
fn put_extent<K: Sink>(
    pieces: &mut Pieces,
    sink: &mut K,
    name: &[u8],
    dimension: u64,
    value: i64,
) -> Result<(), Failed>
    ensures { Puts (K.shows sink.old) pieces.old (K.shows sink.new) pieces.new
        (extent_text name.now dimension value) result }
{
    put_parts(
        pieces,
        sink,
        &[
            Part::Text(b"data: Extent "),
            Part::Text(name),
            Part::Text(b" "),
            Part::Number(dimension),
            Part::Text(b" value "),
            Part::Signed(value),
            Part::Text(b"\n"),
        ],
    )
}

/// Puts `data: Count line L expected E found F` and a line feed.
fn put_count<K: Sink>(
    pieces: &mut Pieces,
    sink: &mut K,
    line: u64,
    expected: u64,
    found: u64,
) -> Result<(), Failed>
    ensures { Puts (K.shows sink.old) pieces.old (K.shows sink.new) pieces.new (count_text line expected found) result }
{
    put_parts(
        pieces,
        sink,
        &[
            Part::Text(b"data: Count line "),
            Part::Number(line),
            Part::Text(b" expected "),
            Part::Number(expected),
            Part::Text(b" found "),
            Part::Number(found),
            Part::Text(b"\n"),
        ],
    )
}
