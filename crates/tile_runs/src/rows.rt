//! The cells of all arrays in one row, one array behind another. The row has the memory of the first array.
ghost use Rattle.std.specs.Prelude.{◌≡◌, ◌<◌, ◌++◌, ℕ, List, [], IfErr, OnOk, length, map, slice_index_or, slice_set};
ghost use Rattle.std.specs.Prelude.{◌≤◌, ◌^◌, drop, replicate, take};
ghost use Rattle.tile_events.specs.Flat.{flat};
ghost use Rattle.tile_runs.specs.steps.Rows.{Begins};

use scop_syntax::Arrays;
use std::alloc::{AllocError, Global};
use std::mem;

/// How many cells the arrays have, where that is below 2^64.
fn cells_in(arrays: &Arrays) -> usize
    ensures { length (flat arrays.now) < 2 ^ 64 → result ≡ length (flat arrays.now) }
{
    let mut count: usize = 0;
    for array in 0..arrays.count() {
        count = count.saturating_add(arrays.array(array).len());
    }
    count
}

/// How many cells the row and these arrays have together, where that is below 2^64.
pub(crate) fn cells_with(row: &Vec<u64>, arrays: &Arrays) -> usize
    ensures { length (row.now.items ++ flat arrays.now) < 2 ^ 64 → result ≡ length (row.now.items ++ flat arrays.now) }
{
    row.len().saturating_add(cells_in(arrays))
}

/// Puts an array's cells behind others.
fn append(row: &mut Vec<u64>, cells: &[u64]) -> Result<(), AllocError>
    ensures ok { OnOk result (row.new.items ≡ row.old.items ++ cells.now) }
    ensures err { IfErr result (λ _. row.new.items ≡ row.old.items) }
{
    row.extend_from_slice(cells)
}

/// Puts the cells of all arrays behind those of the row, and makes room for so many more.
///
/// # Errors
/// `AllocError`; the row begins as it was.
pub(crate) fn append_all(row: &mut Vec<u64>, arrays: &Arrays, room: usize) -> Result<(), AllocError>
    ensures all { OnOk result (row.new.items ≡ row.old.items ++ flat arrays.now) }
    ensures begins { IfErr result (λ _. Begins row.old.items row.new.items) }
{
    row.reserve_exact(cells_in(arrays).saturating_add(room))?;
    for array in 0..arrays.count() {
        append(row, arrays.array(array))?;
    }
    Ok(())
}

/// Puts so many zeros behind the cells of the row.
///
/// # Errors
/// `AllocError`; the row begins as it was.
pub(crate) fn append_zeros(row: &mut Vec<u64>, count: usize) -> Result<(), AllocError>
    ensures zeros { OnOk result (row.new.items ≡ row.old.items ++ replicate count 0) }
    ensures begins { IfErr result (λ _. Begins row.old.items row.new.items) }
{
    for _ in 0..count {
        row.push(0)?;
    }
    Ok(())
}

/// Puts another first array in place of the one that there is, which is given back.
fn exchange(arrays: &mut Arrays, first: Vec<u64>) -> Vec<u64>
    requires { 0 < length arrays.old }
    ensures given { result.items ≡ slice_index_or arrays.old 0 [] }
    ensures arrays { arrays.new ≡ slice_set arrays.old 0 first.items }
{
    mem::replace(&mut arrays.cells[0], first)
}

/// Takes the first array's cells away; none where there is no array.
pub(crate) fn take_first(alloc: Global, arrays: &mut Arrays) -> Vec<u64>
    ensures first { result.items ≡ slice_index_or arrays.old 0 [] }
    ensures arrays { arrays.new ≡ slice_set arrays.old 0 [] }
{
    if arrays.count() == 0 {
        return Vec::new(alloc);
    }
    exchange(arrays, Vec::new(alloc))
}

/// Gives the first array so many cells of a row, and its memory.
pub(crate) fn give_first(arrays: &mut Arrays, mut row: Vec<u64>, count: usize)
    ensures { arrays.new ≡ slice_set arrays.old 0 (take count row.items) }
{
    if arrays.count() == 0 {
        return;
    }
    row.truncate(count);
    drop(exchange(arrays, row));
}

/// The array's cells are those given.
fn set_array(arrays: &mut Arrays, array: usize, cells: &[u64])
    requires array { array < length arrays.old }
    requires count { length cells.now ≡ length (slice_index_or arrays.old array []) }
    ensures { arrays.new ≡ slice_set arrays.old array cells.now }
{
    arrays.cells[array].as_mut_slice().copy_from_slice(cells);
}

/// The arrays are those of a row.
fn put_back(row: &[u64], arrays: &mut Arrays)
    requires { length row.now ≡ length (flat arrays.old) }
    ensures { (contents : List (List ℕ)) → map length contents ≡ map length arrays.old → row.now ≡ flat contents
        → arrays.new ≡ contents }
{
    let mut start = 0;
    for array in 0..arrays.count() {
        let end = start + arrays.array(array).len();
        set_array(arrays, array, &row[start..end]);
        start = end;
    }
}

/// Gives the arrays the cells of a row: so many of its front, and its memory, to the first one, the rest to the others.
pub(crate) fn give_back(arrays: &mut Arrays, row: Vec<u64>, first: usize)
    requires first { first ≤ length row.items }
    requires rest { length (drop first row.items) ≡ length (flat arrays.old) }
    ensures { (others : List (List ℕ)) → map length others ≡ map length arrays.old
        → drop first row.items ≡ flat others → arrays.new ≡ slice_set others 0 (take first row.items) }
{
    put_back(&row[first..], arrays);
    give_first(arrays, row, first);
}
