//! Stretches of the walk: how many of the next instances a tile may hold, and going on by many of them at once.
ghost use Rattle.std.specs.Prelude.{◌≡◌, ◌≤◌, All};
ghost use Rattle.loop_tree.specs.Conditions.{IsHeld};
ghost use Rattle.loop_tree.specs.Stretches.{left_of};
ghost use Rattle.tile_edges.specs.steps.Ahead.{left_on};

use loop_tree::{Stretch, TileRow, Tiling};
use scop_syntax::value_at;
use tile_list::{after, band_at};

/// How far a number stands above the next multiple of the size below it.
fn offset_in(value: i64, size: u64) -> u64
    requires { 1 ≤ size }
{
    if value >= 0 {
        value as u64 % size
    } else {
        (size - 1).wrapping_sub((-1 - value) as u64 % size)
    }
}

/// For how many steps a row's value stays within its coordinate, modulo 2^64.
fn steps_within(row: &TileRow, size: u64, turns: &[i64], steps: &[i64]) -> u64
    requires { 1 ≤ size }
{
    let step = value_at(&row.form, steps).wrapping_sub(row.form.constant);
    let pace = step.unsigned_abs();
    if pace == 0 {
        return u64::MAX;
    }
    let offset = offset_in(value_at(&row.form, turns), size);
    if step < 0 {
        offset / pace
    } else {
        (size - 1).wrapping_sub(offset) / pace
    }
}

/// For how many steps the values of all rows do, `most` at most.
fn all_within(rows: &[TileRow], size: u64, turns: &[i64], steps: &[i64], most: u64) -> u64
    requires { 1 ≤ size }
    ensures { result ≤ most }
{
    let mut least = most;
    for row in rows {
        least = least.min(steps_within(row, size, turns, steps));
    }
    least
}

/// How many of the instances that are left of a stretch lie in the tile of the one in front, if no number is too large:
/// who wants to be sure looks at the last of them.
pub(crate) fn likely_ahead(tiling: &Tiling, stretch: &Stretch) -> u64
    ensures { result ≤ stretch.now.left }
{
    match tiling {
        Tiling::Kept => stretch.left,
        Tiling::Tiled(size, statements) => all_within(
            band_at(statements, stretch.before.statement),
            size.get(),
            stretch.before.turns(),
            &stretch.steps[..stretch.before.loops],
            stretch.left,
        ),
    }
}

/// Passes so many of the instances that are left of a stretch.
pub(crate) fn go_along(stretch: &mut Stretch, count: u64)
    requires some { 1 ≤ count }
    requires few { count ≤ stretch.old.left }
    requires held { All IsHeld (left_of stretch.old) }
    ensures { left_of stretch.new ≡ left_on stretch.old count }
{
    stretch.before = after(&stretch.before, &stretch.steps, count);
    stretch.left -= count;
}
