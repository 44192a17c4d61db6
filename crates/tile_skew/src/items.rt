//! The items of each statement of a schedule in order, as forms over the turns of its loops.
ghost use Rattle.std.specs.Prelude.{◌≡◌, ◌<◌, ◌≤◌, ◌+◌, ◌-◌, ◌++◌, ◌∷◌, [], All, IfOk, OnOk, drop, length, map, take};
ghost use Rattle.whole_numbers.specs.Affine.{form_of};
ghost use Rattle.loop_tree.specs.TilingView.{item_of as tile_item_of, items_of as tile_items_of};
ghost use Rattle.schedule_rows.specs.Schedule.{item_of, row, row_of, loops_in, IsScheduled};
ghost use Rattle.schedule_rows.specs.Posed.{loops_of};
ghost use Rattle.schedule_rows.specs.Sized.{IsSmall};
ghost use Rattle.tile_skew.specs.Tilings.{form_at, statement_items};
ghost use Rattle.tile_skew.specs.steps.Sizes.{FitItems};
ghost use Rattle.tile_skew.specs.steps.Listed.{AreBounds, HasStatement, IsInside, item_at, leading_in, rows_in};

use affine_forms::push;
use loop_tree::{TileItem, TileItems, TileRow};
use schedule_rows::{Band, Item, Part, Row, Schedule, schedules_have_small_items};
use scop_syntax::Aff;
use std::alloc::{AllocError, Global};

/// A small number in 64 bits.
fn narrow(number: i128) -> i64
    requires { IsSmall number }
    ensures { result ≡ number }
{
    number as i64
}

/// A statement's part of a row as a form over the turns.
fn part_form(alloc: Global, part: &Part) -> Result<Aff, AllocError>
    requires coefficients { All IsSmall part.now.coefficients.items }
    requires shift { IsSmall part.now.shift }
    ensures { IfOk result (λ f. f ≡ form_of part.now.coefficients.items part.now.shift) }
{
    let coefficients = part
        .coefficients
        .iter()
        .map(|number| narrow(*number))
        .collect(alloc)?;
    Ok(Aff {
        coefficients,
        constant: narrow(part.shift),
    })
}

/// The form of statement `k` in a row.
fn row_form(alloc: Global, source: &Row, k: usize) -> Result<Aff, AllocError>
    requires { HasStatement k (row (row_of source.now)) }
    ensures { IfOk result (λ f. f ≡ form_at (row_of source.now) k) }
{
    part_form(alloc, &source.parts[k])
}

/// Where the first band begins, and the place behind it; behind all items where there is no band.
fn band_bounds(bands: &[Band], count: usize) -> (usize, usize)
    requires { IsInside bands.now count }
    ensures { AreBounds bands.now count result.0 result.1 }
{
    match bands.first() {
        None => (count, count),
        Some(band) => (band.first, band.last + 1),
    }
}

/// The numbers of statement `k` in the scalars before the first row.
fn leading(alloc: Global, items: &[Item], k: usize) -> Result<Vec<usize>, AllocError>
    requires { All (λ i. HasStatement k (item_of i)) items.now }
    ensures { IfOk result (λ v. v.items ≡ leading_in (map item_of items.now) k) }
{
    let mut found = Vec::new(alloc);
    for item in items {
        match item {
            Item::Row(_) => return Ok(found),
            Item::Scalar(numbers) => found.push(numbers[k])?,
        }
    }
    Ok(found)
}

/// Appends the item's row of the first band at statement `k`.
fn push_row(
    alloc: Global,
    rows: &mut Vec<TileRow>,
    item: &Item,
    parallel: bool,
    k: usize,
) -> Result<(), AllocError>
    requires { HasStatement k (item_of item.now) }
    ensures { OnOk result (rows.new.items ≡ rows.old.items ++ rows_in (item_of item.now ∷ []) (parallel ∷ []) k) }
{
    match item {
        Item::Scalar(_) => Ok(()),
        Item::Row(row) => {
            let form = row_form(alloc, row, k)?;
            let carries = !parallel;
            push(rows, TileRow { form, carries })
        }
    }
}

/// The rows of the first band at statement `k`, which are the items from `first` up to `behind`.
fn first_band(
    alloc: Global,
    schedule: &Schedule,
    first: usize,
    behind: usize,
    k: usize,
) -> Result<Vec<TileRow>, AllocError>
    requires place { behind ≤ length schedule.now.items }
    requires statement { All (HasStatement k) schedule.now.items }
    ensures { IfOk result (λ v. v.items ≡ rows_in (take (behind - first) (drop first schedule.now.items))
        (drop first schedule.now.parallel) k) }
{
    let items = schedule.items();
    let mut rows = Vec::new(alloc);
    for at in first..behind {
        match push_row(alloc, &mut rows, &items[at], schedule.is_parallel(at), k) {
            Err(_) => return Err(AllocError),
            Ok(()) => {}
        }
    }
    Ok(rows)
}

/// The item at statement `k`.
fn tile_item(alloc: Global, item: &Item, k: usize) -> Result<TileItem, AllocError>
    requires { HasStatement k (item_of item.now) }
    ensures { IfOk result (λ i. tile_item_of i ≡ item_at k (item_of item.now)) }
{
    match item {
        Item::Row(row) => match row_form(alloc, row, k) {
            Err(_) => Err(AllocError),
            Ok(form) => Ok(TileItem::Row(form)),
        },
        Item::Scalar(numbers) => Ok(TileItem::Scalar(numbers[k])),
    }
}

/// The items from `first` on at statement `k`.
fn tile_items(
    alloc: Global,
    items: &[Item],
    first: usize,
    k: usize,
) -> Result<Vec<TileItem>, AllocError>
    requires { All (λ i. HasStatement k (item_of i)) items.now }
    ensures { IfOk result (λ v. map tile_item_of v.items
        ≡ map (item_at k) (drop first (map item_of items.now))) }
{
    let mut found = Vec::new(alloc);
    for at in first..items.len() {
        found.push(tile_item(alloc, &items[at], k)?)?;
    }
    Ok(found)
}

/// The items of statement `k`.
pub fn statement(alloc: Global, schedule: &Schedule, k: usize) -> Result<TileItems, AllocError>
    requires { k < length schedule.now.model.statements }
    ensures items { IfOk result (λ found. (s : IsScheduled schedule.now)
        → tile_items_of found ≡ statement_items s.blocks k) }
    ensures fit { IfOk result (λ found.
        FitItems (loops_of (loops_in schedule.now.model) k) (tile_items_of found)) }
{
    schedules_have_small_items();
    let items = schedule.items();
    let (first, behind) = band_bounds(schedule.bands(), items.len());
    Ok(TileItems {
        leading: leading(alloc, items, k)?,
        band: first_band(alloc, schedule, first, behind, k)?,
        behind: tile_items(alloc, items, behind, k)?,
    })
}
