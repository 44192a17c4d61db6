//! How many cells arrays have, and the lists that are not as long.

ghost use Rattle.std.specs.Prelude.{◌≡◌, ◌<◌, ◌≤◌, ◌^◌, [], None, length, map, slice_index_or};
ghost use Rattle.scop_syntax.specs.Execution.{cell_count, total_cells};
ghost use Rattle.data_lines.specs.Sheets.{given_of};
ghost use Rattle.data_text.specs.Cases.{earlier, first_miscount, miscount_of};
ghost use Rattle.data_text.specs.steps.Conditions.{AreLayouts, AreSizes, IsLayout};

use data_lines::Given;
use scop_syntax::Extents;

/// A list that is not as long as its array.
#[derive(Clone, Copy)]
pub(crate) struct Miscount {
    pub(crate) line: u64,
    pub(crate) expected: u64,
    pub(crate) found: u64,
}

/// How many cells an array with these extents has.
fn cell_count(extents: &[u64]) -> u128
    requires { AreSizes extents.now }
    ensures value { result ≡ cell_count extents.now }
    ensures small { result ≤ 2 ^ 92 }
{
    let mut count: u128 = 1;
    for extent in extents {
        count *= u128::from(*extent);
    }
    count
}

/// How many cells all arrays together have.
pub(crate) fn total_cells(extents: &Extents) -> u128
    requires { AreLayouts extents.now }
    ensures { result ≡ total_cells extents.now }
{
    let mut total: u128 = 0;
    for array in 0..extents.count() {
        total += cell_count(extents.array(array));
    }
    total
}

/// How many cells an array has.
pub(crate) fn count_of(extents: &Extents, array: usize) -> usize
    requires layout { IsLayout extents.now }
    requires array { array < length extents.now }
    ensures value { result ≡ cell_count (slice_index_or extents.now array []) }
    ensures small { result ≤ 2 ^ 22 }
{
    cell_count(extents.array(array)) as usize
}

/// Whether the list of an array is not as long as it.
fn miscount_of(expected: u64, given: &Given) -> Option<Miscount>
    ensures { result ≡ miscount_of expected (given_of given.now) }
{
    match given {
        Given::Listed(line, cells) => {
            let found = cells.len() as u64;
            if found == expected {
                return None;
            }
            Some(Miscount {
                line: *line,
                expected,
                found,
            })
        }
        Given::Nothing => None,
        Given::Seeded(_) => None,
    }
}

/// Of two lists the one on the earlier line.
fn earlier(best: Option<Miscount>, other: Option<Miscount>) -> Option<Miscount>
    ensures { result ≡ earlier best other }
{
    match (best, other) {
        (Some(first), Some(second)) => {
            if second.line < first.line {
                Some(second)
            } else {
                Some(first)
            }
        }
        (Some(first), None) => Some(first),
        (None, second) => second,
    }
}

/// The list on the earliest line that is not as long as its array.
pub(crate) fn first_miscount(extents: &Extents, rows: &[Given]) -> Option<Miscount>
    requires layout { IsLayout extents.now }
    requires count { length rows.now ≡ length extents.now }
    ensures { result ≡ first_miscount None extents.now (map given_of rows.now) }
{
    let mut best = None;
    for at in 0..rows.len() {
        best = earlier(best, miscount_of(count_of(extents, at) as u64, &rows[at]));
    }
    best
}
