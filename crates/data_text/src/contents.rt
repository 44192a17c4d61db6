//! What arrays hold at first: the cells of a list, cells by a seed, or zeros.

ghost use Rattle.std.specs.Prelude.{◌≡◌, ◌+◌, ◌<◌, ◌≤◌, ◌^◌, None, IfOk, IfErr, length, map, drop, slice_index_or};
ghost use Rattle.std.specs.List.{range_with_len};
ghost use Rattle.scop_syntax.specs.Kernel.{narrow_arrays};
ghost use Rattle.scop_syntax.specs.View.{program_of};
ghost use Rattle.data_lines.specs.Sheets.{given_of, nothing};
ghost use Rattle.data_text.specs.Cases.{StopsBy, cells_said, contents_said, first_miscount, miscounted, seed_cell};
ghost use Rattle.data_text.specs.Cases.{seeded_cell};
ghost use Rattle.data_text.specs.steps.Conditions.{IsLayout};

use crate::counts::{count_of, first_miscount};
use data_lines::{DataRefusal, DataStop, Given, is_narrow};
use scop_syntax::{Arrays, Extents, Kernel};
use std::alloc::{AllocError, Global};
use std::mem;

/// The contents of the arrays, if each list is as long as its array.
pub(crate) fn contents_said(
    alloc: Global,
    kernel: &Kernel,
    extents: &Extents,
    rows: Vec<Given>,
) -> Result<Arrays, DataStop>
    requires layout { IsLayout extents.now }
    requires count { length rows.items ≡ length extents.now }
    ensures contents { IfOk result (λ arrays. arrays
        ≡ contents_said (narrow_arrays (program_of kernel.now)) extents.now (map given_of rows.items)) }
    ensures good { IfOk result (λ arrays. miscounted (first_miscount None extents.now (map given_of rows.items)) ≡
        None) }
    ensures refused { IfErr result (StopsBy (miscounted (first_miscount None extents.now (map given_of rows.items)))) }
{
    match first_miscount(extents, &rows) {
        Some(found) => Err(DataStop::Refused(DataRefusal::Count {
            line: found.line,
            expected: found.expected,
            found: found.found,
        })),
        None => match contents_of(alloc, kernel, extents, rows) {
            Ok(arrays) => Ok(arrays),
            Err(AllocError) => Err(DataStop::NoMemory),
        },
    }
}

/// The contents of the arrays.
pub(crate) fn contents_of(
    alloc: Global,
    kernel: &Kernel,
    extents: &Extents,
    rows: Vec<Given>,
) -> Result<Arrays, AllocError>
    requires layout { IsLayout extents.now }
    requires count { length rows.items ≡ length extents.now }
    ensures { IfOk result (λ arrays. arrays
        ≡ contents_said (narrow_arrays (program_of kernel.now)) extents.now (map given_of rows.items)) }
{
    let mut rows = rows;
    let mut cells = Vec::with_capacity(alloc, rows.len())?;
    for at in 0..rows.len() {
        let given = take_row(&mut rows, at);
        let narrow = is_narrow(kernel, at);
        cells.push(cells_of(alloc, narrow, count_of(extents, at), given)?)?;
    }
    Ok(Arrays { cells })
}

/// Takes what is said of an array out of its place.
fn take_row(rows: &mut Vec<Given>, at: usize) -> Given
    requires { at < length rows.old.items }
    ensures row { given_of result ≡ slice_index_or (map given_of rows.old.items) at nothing }
    ensures others { drop (at + 1) rows.new.items ≡ drop (at + 1) rows.old.items }
    ensures count { length rows.new.items ≡ length rows.old.items }
{
    mem::replace(&mut rows[at], Given::Nothing)
}

/// The cells of an array, narrow or not, that has so many, by what is said of it.
fn cells_of(alloc: Global, narrow: bool, count: usize, given: Given) -> Result<Vec<u64>, AllocError>
    requires { count ≤ 2 ^ 22 }
    ensures { IfOk result (λ cells. cells.items ≡ cells_said narrow count (given_of given)) }
{
    match given {
        Given::Nothing => vec![in alloc; 0; count],
        Given::Listed(_, cells) => Ok(cells),
        Given::Seeded(seed) => seeded_cells(alloc, narrow, seed, count),
    }
}

/// So many cells by a seed, of a narrow array or of another.
fn seeded_cells(
    alloc: Global,
    narrow: bool,
    seed: u64,
    count: usize,
) -> Result<Vec<u64>, AllocError>
    ensures { IfOk result (λ cells. cells.items ≡ map (seeded_cell narrow seed) (range_with_len 0 count)) }
{
    (0..count)
        .map(|k| seeded_cell(narrow, seed, k as u64))
        .collect(alloc)
}

/// The k-th cell by a seed, of a narrow array or of another.
fn seeded_cell(narrow: bool, seed: u64, k: u64) -> u64
    ensures { result ≡ seeded_cell narrow seed k }
{
    let cell = seed_cell(seed, k);
    if narrow { cell % (1 << 32) } else { cell }
}

/// 2^64 divided by the golden ratio, made odd.
const GOLDEN: u64 = 11400714819323198485;

/// The k-th cell by a seed.
pub fn seed_cell(seed: u64, k: u64) -> u64
    ensures { result ≡ seed_cell seed k }
{
    seed.wrapping_add(k).wrapping_add(1).wrapping_mul(GOLDEN)
}
