//! What a line says of a parameter or an array, by the words behind its `=`.

ghost use Rattle.std.specs.Prelude.{◌≡◌, ◌<◌, ◌≤◌, Ok, Err, IfOk, IfErr, OnOk, length};
ghost use Rattle.scop_syntax.specs.Limits.{most_parameter};
ghost use Rattle.scop_syntax.specs.View.{program_of};
ghost use Rattle.data_lines.specs.Words.{words_of};
ghost use Rattle.data_lines.specs.Sheets.{KeepsShape, IsSheetOf, given_of, seeded, sheet_of};
ghost use Rattle.data_lines.specs.Entries.{StopsAs, is_seed, row_at, row_said, seed_said, value_at, value_said};
ghost use Rattle.data_lines.specs.Entries.{with_words};

use crate::numbers::{ListError, cells_of, number_of};
use crate::places::{Place, is_narrow, place_of};
use crate::refusal::{DataRefusal, DataStop};
use crate::sheet::{Given, Sheet};
use crate::words::first_word;
use scop_syntax::{Kernel, MOST_PARAMETER_VALUE};
use std::alloc::Global;

/// Whether a word is `seed`.
fn is_seed(word: &[u8]) -> bool
    ensures { result ≡ is_seed word.now }
{
    word == b"seed".as_slice()
}

/// The value that a list gives a parameter.
fn value_said(line: u64, list: &[u8]) -> Result<u64, DataRefusal>
    ensures value { result ≡ value_said line (words_of list.now) }
    ensures small { IfOk result (λ value. value ≤ most_parameter) }
{
    let Some(first) = first_word(list) else {
        return Err(DataRefusal::Line(line));
    };
    if first_word(first.behind).is_some() || is_seed(first.word) {
        return Err(DataRefusal::Line(line));
    }
    match number_of(first.word) {
        Some(value) if value <= MOST_PARAMETER_VALUE => Ok(value),
        Some(_) => Err(DataRefusal::ParameterRange(line)),
        None => Err(DataRefusal::Number(line)),
    }
}

/// The seed that stands behind `seed`.
fn seed_said(line: u64, list: &[u8]) -> Result<u64, DataRefusal>
    ensures ok { IfOk result (λ seed. seed_said line (words_of list.now) ≡ Ok (seeded seed)) }
    ensures refused { IfErr result (λ refusal. seed_said line (words_of list.now) ≡ Err refusal) }
{
    let Some(first) = first_word(list) else {
        return Err(DataRefusal::Line(line));
    };
    if first_word(first.behind).is_some() {
        return Err(DataRefusal::Line(line));
    }
    match number_of(first.word) {
        Some(seed) => Ok(seed),
        None => Err(DataRefusal::Number(line)),
    }
}

/// What a list says of an array.
fn row_said(alloc: Global, narrow: bool, line: u64, list: &[u8]) -> Result<Given, DataStop>
    ensures ok { IfOk result (λ given. row_said narrow line (words_of list.now) ≡ Ok (given_of given)) }
    ensures refused { IfErr result (StopsAs (row_said narrow line (words_of list.now))) }
{
    let Some(first) = first_word(list) else {
        return Err(DataStop::Refused(DataRefusal::Line(line)));
    };
    if is_seed(first.word) {
        return match seed_said(line, first.behind) {
            Ok(seed) => Ok(Given::Seeded(seed)),
            Err(refusal) => Err(DataStop::Refused(refusal)),
        };
    }
    match cells_of(alloc, narrow, list) {
        Ok(cells) => Ok(Given::Listed(line, cells)),
        Err(ListError::NotANumber) => Err(DataStop::Refused(DataRefusal::Number(line))),
        Err(ListError::NoMemory) => Err(DataStop::NoMemory),
    }
}

/// Writes what a list says of a parameter.
fn write_value(
    sheet: &mut Sheet,
    line: u64,
    parameter: usize,
    list: &[u8],
) -> Result<(), DataRefusal>
    requires { parameter < length (sheet_of sheet.old).values }
    ensures ok { OnOk result (value_at (sheet_of sheet.old) line parameter (words_of list.now) ≡ Ok
        (sheet_of sheet.new)) }
    ensures shape { KeepsShape (sheet_of sheet.old) (sheet_of sheet.new) }
    ensures refused { IfErr result (λ refusal. value_at (sheet_of sheet.old) line parameter
        (words_of list.now) ≡ Err refusal) }
{
    if sheet.values[parameter].is_some() {
        return Err(DataRefusal::Repeated(line));
    }
    match value_said(line, list) {
        Ok(value) => {
            sheet.set_value(parameter, value);
            Ok(())
        }
        Err(refusal) => Err(refusal),
    }
}

/// Writes what a list says of an array.
fn write_row(
    alloc: Global,
    narrow: bool,
    sheet: &mut Sheet,
    line: u64,
    array: usize,
    list: &[u8],
) -> Result<(), DataStop>
    requires { array < length (sheet_of sheet.old).rows }
    ensures ok { OnOk result (row_at narrow (sheet_of sheet.old) line array (words_of list.now) ≡ Ok
        (sheet_of sheet.new)) }
    ensures shape { KeepsShape (sheet_of sheet.old) (sheet_of sheet.new) }
    ensures refused { IfErr result (StopsAs (row_at narrow (sheet_of sheet.old) line array (words_of list.now))) }
{
    if sheet.is_given(array) {
        return Err(DataStop::Refused(DataRefusal::Repeated(line)));
    }
    match row_said(alloc, narrow, line, list) {
        Ok(given) => {
            sheet.set_row(array, given);
            Ok(())
        }
        Err(stop) => Err(stop),
    }
}

/// Writes what a list says into the place of its name.
pub(crate) fn write_list(
    alloc: Global,
    kernel: &Kernel,
    sheet: &mut Sheet,
    line: u64,
    name: &[u8],
    list: &[u8],
) -> Result<(), DataStop>
    requires { IsSheetOf (program_of kernel.now) (sheet_of sheet.old) }
    ensures ok { OnOk result (with_words (program_of kernel.now) (sheet_of sheet.old) line name.now
        (words_of list.now) ≡ Ok (sheet_of sheet.new)) }
    ensures shape { IsSheetOf (program_of kernel.now) (sheet_of sheet.new) }
    ensures refused { IfErr result (StopsAs
        (with_words (program_of kernel.now) (sheet_of sheet.old) line name.now (words_of list.now))) }
{
    if first_word(list).is_none() {
        return Err(DataStop::Refused(DataRefusal::Line(line)));
    }
    match place_of(kernel, name) {
        Place::Nowhere => Err(DataStop::Refused(DataRefusal::UnknownName(line))),
        Place::Parameter(parameter) => match write_value(sheet, line, parameter, list) {
            Ok(()) => Ok(()),
            Err(refusal) => Err(DataStop::Refused(refusal)),
        },
        Place::Array(array) => {
            let narrow = is_narrow(kernel, array);
            write_row(alloc, narrow, sheet, line, array, list)
        }
    }
}
