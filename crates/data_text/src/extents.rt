//! The extents of a kernel's arrays: each is positive, and there are at most 2^22 cells.

ghost use Rattle.std.specs.Prelude.{◌≡◌, All, None, IfOk, IfErr, length, map};
ghost use Rattle.whole_numbers.specs.Affine.{value_of};
ghost use Rattle.scop_syntax.specs.View.{program_of};
ghost use Rattle.scop_syntax.specs.Cells.{values};
ghost use Rattle.scop_syntax.specs.Execution.{layout, size_of};
ghost use Rattle.scop_syntax.specs.Kernel.{IsAffine, IsDeclaration, IsKernel};
ghost use Rattle.data_text.specs.Cases.{StopsBy, bad_dimension, bad_extent, bad_layout};
ghost use Rattle.data_text.specs.steps.Conditions.{AreParameters, IsLayout};

use crate::counts::total_cells;
use data_lines::{DataRefusal, DataStop};
use scop_syntax::{Aff, Array, Extents, Kernel, MOST_CELLS, exact_at};
use std::alloc::{AllocError, Global};

/// The most cells, beside a number of them that 64 bits may not hold.
const MOST: u128 = MOST_CELLS as u128;

/// The extents of a kernel's arrays for these parameters, if the language has them.
pub(crate) fn layout_said(
    alloc: Global,
    kernel: &Kernel,
    params: &[i64],
) -> Result<Extents, DataStop>
    requires kernel { IsKernel (program_of kernel.now) }
    requires count { length params.now ≡ length (program_of kernel.now).parameters }
    requires params { AreParameters params.now }
    ensures extents { IfOk result (λ extents. extents ≡ layout (program_of kernel.now) params.now) }
    ensures good { IfOk result (λ extents. bad_layout (program_of kernel.now) params.now ≡ None) }
    ensures limits { IfOk result (λ extents. IsLayout extents) }
    ensures refused { IfErr result (StopsBy (bad_layout (program_of kernel.now) params.now)) }
{
    match bad_extent(&kernel.arrays, params) {
        Some(refusal) => return Err(DataStop::Refused(refusal)),
        None => {}
    }
    let Ok(extents) = layout_of(alloc, &kernel.arrays, params) else {
        return Err(DataStop::NoMemory);
    };
    let total = total_cells(&extents);
    if total > MOST {
        return Err(DataStop::Refused(DataRefusal::Cells(total)));
    }
    Ok(extents)
}

/// The value of an extent for these parameters.
fn extent_at(form: &Aff, params: &[i64]) -> i64
    requires form { IsAffine (length params.now) form.now }
    requires params { AreParameters params.now }
    ensures { result ≡ value_of form.now params.now }
{
    exact_at(form, params)
}

/// The first extent of an array that is at most 0.
fn bad_dimension(array: usize, extents: &[Aff], params: &[i64]) -> Option<DataRefusal>
    requires extents { All (IsAffine (length params.now)) extents.now }
    requires params { AreParameters params.now }
    ensures { result ≡ bad_dimension array 1 (values extents.now params.now) }
{
    for (i, extent) in extents.iter().enumerate() {
        let value = extent_at(extent, params);
        if value <= 0 {
            return Some(DataRefusal::Extent {
                array,
                dimension: i as u64 + 1,
                value,
            });
        }
    }
    None
}

/// The first extent of all arrays that is at most 0.
fn bad_extent(arrays: &[Array], params: &[i64]) -> Option<DataRefusal>
    requires arrays { All (IsDeclaration (length params.now)) arrays.now }
    requires params { AreParameters params.now }
    ensures { result ≡ bad_extent params.now 0 arrays.now }
{
    for (j, array) in arrays.iter().enumerate() {
        match bad_dimension(j, &array.extents, params) {
            Some(refusal) => return Some(refusal),
            None => {}
        }
    }
    None
}

/// The extents of one array, 0 where one is negative.
fn sizes_at(alloc: Global, extents: &[Aff], params: &[i64]) -> Result<Vec<u64>, AllocError>
    requires extents { All (IsAffine (length params.now)) extents.now }
    requires params { AreParameters params.now }
    ensures { IfOk result (λ sizes. sizes.items ≡ map size_of (values extents.now params.now)) }
{
    let mut sizes = Vec::with_capacity(alloc, extents.len())?;
    for extent in extents {
        sizes.push(size_of(extent_at(extent, params)))?;
    }
    Ok(sizes)
}

/// A number as a size, 0 where it is negative.
fn size_of(value: i64) -> u64
    ensures { result ≡ size_of value }
{
    u64::try_from(value).unwrap_or(0)
}

/// The extents of all arrays.
pub(crate) fn layout_of(
    alloc: Global,
    arrays: &[Array],
    params: &[i64],
) -> Result<Extents, AllocError>
    requires arrays { All (IsDeclaration (length params.now)) arrays.now }
    requires params { AreParameters params.now }
    ensures { IfOk result (λ extents. extents ≡ map (λ d. map size_of (values d.extents params.now)) arrays.now) }
{
    let mut sizes = Vec::with_capacity(alloc, arrays.len())?;
    for array in arrays {
        sizes.push(sizes_at(alloc, &array.extents, params)?)?;
    }
    Ok(Extents { sizes })
}
