//! The number of an access's cell as a form of the turns of the loops round its statement: what it is at no turns, and
//! what one turn of each loop adds, since all that stands between is affine. An affine part is the number of a cell in a
//! single row.
ghost use Rattle.std.specs.Prelude.{◌≡◌, ◌+◌, ◌<◌, ◌≤◌, ◌^◌, All, IfOk, get_or, length, map, pos};
ghost use Rattle.std.specs.Int.{int_wrap, w64};
ghost use Rattle.whole_numbers.specs.Lists.{zeros};
ghost use Rattle.scop_meaning.specs.Instances.{AreLayout};
ghost use Rattle.scop_syntax.specs.declared.limits.TheConstants.{MOST_ENTRIES};
ghost use Rattle.scop_syntax.specs.declared.limits.TheConstants.{MOST_LOOPS};
ghost use Rattle.tile_table.specs.Numbers.{number_behind as exact_number};
ghost use Rattle.tile_table.specs.Points.{point_in as exact_point};
ghost use Rattle.tile_table.specs.Tables.{Tells};
ghost use Rattle.tile_table.specs.steps.Forms.{IsFormOver, TellsNumber, number_form};

use crate::numbers::number_behind;
use crate::points::point_in;
use scop_meaning::cells_before;
use scop_syntax::{Access, Aff, Extents, Loop, MOST_LOOPS};
use std::alloc::{AllocError, Global};
use std::slice;

/// The number at these turns of `heads`, modulo 2^64.
fn number_in(
    before: usize,
    extents: &[u64],
    subscripts: &[Aff],
    heads: &[&Loop],
    params: &[i64],
    turns: &[i64],
) -> i64
    requires few { before ≤ 2 ^ 22 }
    requires extents { All (λ e. (1 ≤ e) × (e ≤ 2 ^ 22)) extents.now }
    requires turns { length heads.now ≤ length turns.now }
    requires room { length params.now + length heads.now ≤ MOST_ENTRIES }
    ensures { result ≡ int_wrap w64 (exact_number before extents.now subscripts.now
        (exact_point (map (λ h. h.now) heads.now) params.now turns.now)) }
{
    let point = point_in(heads, params, turns);
    number_behind(before, extents, subscripts, point.as_slice())
}

/// What a turn of loop `at` adds to the number at no turns, modulo 2^64.
fn stride_of(
    before: usize,
    extents: &[u64],
    subscripts: &[Aff],
    heads: &[&Loop],
    params: &[i64],
    base: i64,
    at: usize,
) -> i64
    requires few { before ≤ 2 ^ 22 }
    requires extents { All (λ e. (1 ≤ e) × (e ≤ 2 ^ 22)) extents.now }
    requires loops { length heads.now ≤ MOST_LOOPS }
    requires room { length params.now + length heads.now ≤ MOST_ENTRIES }
    requires base { base ≡ int_wrap w64 (exact_number before extents.now subscripts.now
        (exact_point (map (λ h. h.now) heads.now) params.now (zeros MOST_LOOPS))) }
    requires at { at < MOST_LOOPS }
    ensures { result ≡ int_wrap w64 (get_or (number_form MOST_LOOPS before extents.now subscripts.now
        (map (λ h. h.now) heads.now) params.now).coefficients at (pos 0)) }
{
    let mut turns = [0; MOST_LOOPS];
    turns[at] = 1;
    number_in(before, extents, subscripts, heads, params, &turns).wrapping_sub(base)
}

/// The form of the number of the cell with these subscripts, in an array with these extents behind so many cells.
fn form_behind(
    alloc: Global,
    before: usize,
    extents: &[u64],
    subscripts: &[Aff],
    heads: &[&Loop],
    params: &[i64],
) -> Result<Aff, AllocError>
    requires few { before ≤ 2 ^ 22 }
    requires extents { All (λ e. (1 ≤ e) × (e ≤ 2 ^ 22)) extents.now }
    requires loops { length heads.now ≤ MOST_LOOPS }
    requires room { length params.now + length heads.now ≤ MOST_ENTRIES }
    ensures { IfOk result (TellsNumber before extents.now subscripts.now (map (λ h. h.now) heads.now) params.now) }
{
    let constant = number_in(before, extents, subscripts, heads, params, &[0; MOST_LOOPS]);
    let mut coefficients = Vec::with_capacity(alloc, MOST_LOOPS)?;
    for at in 0..MOST_LOOPS {
        coefficients.push(stride_of(before, extents, subscripts, heads, params, constant, at))?;
    }
    Ok(Aff {
        coefficients,
        constant,
    })
}

/// The form of the access's cell.
///
/// # Errors
/// `AllocError` alone.
pub(crate) fn form_of(
    alloc: Global,
    access: &Access,
    extents: &Extents,
    heads: &[&Loop],
    params: &[i64],
) -> Result<Aff, AllocError>
    requires layout { AreLayout extents.now }
    requires array { access.now.array < length extents.now }
    requires loops { length heads.now ≤ MOST_LOOPS }
    requires room { length params.now + length heads.now ≤ MOST_ENTRIES }
    ensures { IfOk result (Tells extents.now params.now (map (λ h. h.now) heads.now) access.now) }
{
    let before = cells_before(extents, access.array);
    let own = extents.array(access.array);
    form_behind(alloc, before, own, &access.subscripts, heads, params)
}

/// A form over the turns of `heads` with the value of `form` at the point within them: the number of the cell of a row
/// at which `form` points.
///
/// # Errors
/// `AllocError` alone.
pub(crate) fn form_over(
    alloc: Global,
    form: &Aff,
    heads: &[&Loop],
    params: &[i64],
) -> Result<Aff, AllocError>
    requires loops { length heads.now ≤ MOST_LOOPS }
    requires room { length params.now + length heads.now ≤ MOST_ENTRIES }
    ensures { IfOk result (IsFormOver params.now (map (λ h. h.now) heads.now) form.now) }
{
    form_behind(alloc, 0, &[1], slice::from_ref(form), heads, params)
}
