//! The lines of data, one after another.

ghost use Rattle.std.specs.Prelude.{◌≡◌, Ok, IfOk, IfErr, OnOk};
ghost use Rattle.scop_syntax.specs.View.{program_of};
ghost use Rattle.data_lines.specs.Sheets.{IsSheetOf, sheet_of};
ghost use Rattle.data_lines.specs.Entries.{StopsAs, sheet_said, with_line, with_lines};
ghost use Rattle.data_lines.specs.Words.{lines_of};

use crate::entry::write_list;
use crate::head::head_of;
use crate::refusal::{DataRefusal, DataStop};
use crate::sheet::Sheet;
use crate::words::{line_len, unindented};
use scop_syntax::Kernel;
use std::alloc::{AllocError, Global};

/// What the lines of a text say of a kernel, or the first line that breaks a rule.
pub fn read_lines(alloc: Global, kernel: &Kernel, text: &[u8]) -> Result<Sheet, DataStop>
    ensures ok { IfOk result (λ sheet. sheet_said (program_of kernel.now) text.now ≡ Ok (sheet_of sheet)) }
    ensures shape { IfOk result (λ sheet. IsSheetOf (program_of kernel.now) (sheet_of sheet)) }
    ensures refused { IfErr result (StopsAs (sheet_said (program_of kernel.now) text.now)) }
{
    match Sheet::of(alloc, kernel) {
        Ok(mut sheet) => match write_lines(alloc, kernel, &mut sheet, text) {
            Ok(()) => Ok(sheet),
            Err(stop) => Err(stop),
        },
        Err(AllocError) => Err(DataStop::NoMemory),
    }
}

/// Writes what the lines of a text say.
fn write_lines(
    alloc: Global,
    kernel: &Kernel,
    sheet: &mut Sheet,
    text: &[u8],
) -> Result<(), DataStop>
    requires { IsSheetOf (program_of kernel.now) (sheet_of sheet.old) }
    ensures ok { OnOk result (with_lines (program_of kernel.now) 1 (Ok (sheet_of sheet.old))
        (lines_of text.now) ≡ Ok (sheet_of sheet.new)) }
    ensures shape { IsSheetOf (program_of kernel.now) (sheet_of sheet.new) }
    ensures refused { IfErr result (StopsAs
        (with_lines (program_of kernel.now) 1 (Ok (sheet_of sheet.old)) (lines_of text.now))) }
{
    let mut rest = text;
    let mut number = 1;
    loop {
        let (line, behind) = rest.split_at(line_len(rest));
        match write_line(alloc, kernel, sheet, number, line) {
            Ok(()) => {}
            Err(stop) => return Err(stop),
        }
        match behind.split_first() {
            Some((_, next)) => rest = next,
            None => return Ok(()),
        }
        number += 1;
    }
}

/// Writes what a line says.
fn write_line(
    alloc: Global,
    kernel: &Kernel,
    sheet: &mut Sheet,
    number: u64,
    line: &[u8],
) -> Result<(), DataStop>
    requires { IsSheetOf (program_of kernel.now) (sheet_of sheet.old) }
    ensures ok { OnOk result (with_line (program_of kernel.now) (sheet_of sheet.old) number line.now ≡ Ok
        (sheet_of sheet.new)) }
    ensures refused { IfErr result (StopsAs (with_line (program_of kernel.now) (sheet_of sheet.old) number line.now)) }
    ensures shape { IsSheetOf (program_of kernel.now) (sheet_of sheet.new) }
{
    let text = unindented(line);
    if text.is_empty() {
        return Ok(());
    }
    match head_of(text) {
        Some(head) => write_list(alloc, kernel, sheet, number, head.name, head.list),
        None => Err(DataStop::Refused(DataRefusal::Line(number))),
    }
}
