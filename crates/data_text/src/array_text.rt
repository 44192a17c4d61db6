//! Writes arrays as text: for each array in declared order `NAME =`, then a space and the decimal of each
//! cell, then a line feed. Nothing is allocated, and the text goes out in pieces of some KiB.

ghost use Rattle.std.specs.Prelude.{◌++◌, map, codes};
ghost use Rattle.io_ports.specs.Writes.{Writes, Puts};
ghost use Rattle.scop_syntax.specs.View.{program_of};
ghost use Rattle.data_text.specs.ArrayText.{array_text, cell_text, cells_text, row_text, rows_text};

use crate::case::Case;
use io_ports::{Failed, Pieces, Sink};
use itoa::write_digits;
use scop_syntax::{Array, Arrays, Kernel};

/// The most bytes that a cell takes: a space and the twenty digits of 2^64 - 1.
const CELL_ROOM: usize = 21;

/// Puts a space and the decimal of a cell.
fn put_cell<K: Sink>(pieces: &mut Pieces, sink: &mut K, cell: u64) -> Result<(), Failed>
    ensures { Puts (K.shows sink.old) pieces.old (K.shows sink.new) pieces.new (cell_text cell) result }
{
    let mut text = [b' '; CELL_ROOM];
    let start = write_digits(cell, &mut text, CELL_ROOM);
    pieces.put(sink, &text[start - 1..])
}

/// Puts the cells of an array.
fn put_cells<K: Sink>(pieces: &mut Pieces, sink: &mut K, cells: &[u64]) -> Result<(), Failed>
    ensures { Puts (K.shows sink.old) pieces.old (K.shows sink.new) pieces.new (cells_text cells.now) result }
{
    for cell in cells {
        match put_cell(pieces, sink, *cell) {
            Ok(()) => {}
            Err(failed) => return Err(failed),
        }
    }
    Ok(())
}

/// Puts `NAME =`.
fn put_name<K: Sink>(pieces: &mut Pieces, sink: &mut K, name: &[u8]) -> Result<(), Failed>
    ensures { Puts (K.shows sink.old) pieces.old (K.shows sink.new) pieces.new (name.now ++ codes " =") result }
{
    match pieces.put(sink, name) {
        Ok(()) => pieces.put(sink, b" ="),
        Err(failed) => Err(failed),
    }
}

/// Puts the name and the cells of an array.
fn put_array<K: Sink>(
    pieces: &mut Pieces,
    sink: &mut K,
    name: &[u8],
    cells: &[u64],
) -> Result<(), Failed>
    ensures { Puts (K.shows sink.old) pieces.old (K.shows sink.new) pieces.new (row_text name.now cells.now) result }
{
    match put_name(pieces, sink, name) {
        Ok(()) => put_cells(pieces, sink, cells),
        Err(failed) => Err(failed),
    }
}

/// Puts the line of an array.
fn put_row<K: Sink>(
    pieces: &mut Pieces,
    sink: &mut K,
    name: &[u8],
    cells: &[u64],
) -> Result<(), Failed>
    ensures { Puts (K.shows sink.old) pieces.old (K.shows sink.new) pieces.new
        (row_text name.now cells.now ++ codes "\n") result }
{
    match put_array(pieces, sink, name, cells) {
        Ok(()) => pieces.put(sink, b"\n"),
        Err(failed) => Err(failed),
    }
}

/// Puts the lines of arrays and their contents.
fn put_rows<K: Sink>(
    pieces: &mut Pieces,
    sink: &mut K,
    arrays: &[Array],
    contents: &Arrays,
) -> Result<(), Failed>
    ensures { Puts (K.shows sink.old) pieces.old (K.shows sink.new) pieces.new
        (rows_text (map (λ a. a.name) arrays.now) contents.now) result }
{
    for at in 0..arrays.len().min(contents.count()) {
        let declaration = &arrays[at];
        match put_row(pieces, sink, &declaration.name, contents.array(at)) {
            Ok(()) => {}
            Err(failed) => return Err(failed),
        }
    }
    Ok(())
}

/// Writes the text of a case's arrays; the sink is not flushed.
pub fn write_arrays<K: Sink>(kernel: &Kernel, case: &Case, sink: &mut K) -> Result<(), Failed>
    ensures { Writes (K.shows sink.old) (K.shows sink.new) (array_text (program_of kernel.now) case.now.arrays) result }
{
    let mut pieces = Pieces::new();
    match put_rows(&mut pieces, sink, &kernel.arrays, &case.arrays) {
        Ok(()) => pieces.finish(sink),
        Err(failed) => Err(failed),
    }
}
