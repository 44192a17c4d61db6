//! The lines of rows with one parameter more.
ghost use Rattle.std.specs.Prelude.{◌≡◌, ◌+◌, ◌*◌, ◌<◌, pos, [], ◌∷◌, ◌++◌, length, map, IfOk, OnOk};
ghost use Rattle.tableau_rows.specs.Moves.{rows_in};
ghost use Rattle.lexmin_runs.specs.Nodes.{longer_row};
ghost use Rattle.checked_tableau.specs.Lines.{Holds};

use crate::first::room_for;
use std::alloc::{AllocError, Global};

/// Appends a line with 0 behind it.
fn append_line(cells: &mut Vec<i128>, line: &[i128]) -> Result<(), AllocError>
    ensures { OnOk result (cells.new.items ≡ cells.old.items ++ (line.now ++ pos 0 ∷ [])) }
{
    match cells.extend_from_slice(line) {
        Err(error) => return Err(error),
        Ok(()) => {}
    }
    match cells.push(0) {
        Err(_) => Err(AllocError),
        Ok(()) => Ok(()),
    }
}

/// Appends `count` lines, each with 0 behind it.
fn append_longer(
    cells: &mut Vec<i128>,
    lines: &[i128],
    stride: usize,
    count: usize,
) -> Result<(), AllocError>
    requires none { cells.old.items ≡ [] }
    requires some { 0 < stride }
    requires lengths { length lines.now ≡ count * stride }
    ensures { OnOk result (Holds (stride + 1) count cells.new.items (map longer_row (rows_in stride count lines.now))) }
{
    let mut rest = lines;
    for _ in 0..count {
        let (line, others) = rest.split_at(stride);
        match append_line(cells, line) {
            Err(error) => return Err(error),
            Ok(()) => {}
        }
        rest = others;
    }
    Ok(())
}

/// `count` lines, each with 0 behind it, and room for one more.
pub fn longer_lines(
    alloc: Global,
    lines: &[i128],
    stride: usize,
    count: usize,
) -> Result<Vec<i128>, AllocError>
    requires some { 0 < stride }
    requires lengths { length lines.now ≡ count * stride }
    ensures { IfOk result (λ v. Holds (stride + 1) count v.items (map longer_row (rows_in stride count lines.now))) }
{
    let room = room_for(alloc, count.saturating_add(1), stride.saturating_add(1));
    let mut cells = match room {
        Err(error) => return Err(error),
        Ok(cells) => cells,
    };
    match append_longer(&mut cells, lines, stride, count) {
        Err(error) => Err(error),
        Ok(()) => Ok(cells),
    }
}
