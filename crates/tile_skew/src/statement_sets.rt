//! The tiling of a schedule, and the scan sets of its statements, in textual order.
ghost use Rattle.std.specs.Prelude.{◌≡◌, ◌+◌, ◌<◌, ◌≤◌, pos, IfOk, length, max};
ghost use Rattle.loop_tree.specs.TilingView.{items_of, tiling_of};
ghost use Rattle.schedule_rows.specs.Schedule.{IsScheduled};
ghost use Rattle.tile_skew.specs.ScanSets.{most_iterators as greatest, parallel_place as place_in, points_of};
ghost use Rattle.tile_skew.specs.ScanSets.{scan_set as set_of, scan_sets};
ghost use Rattle.tile_skew.specs.Tilings.{schedule_tiling};
ghost use Rattle.tile_skew.specs.steps.Sizes.{FitItems};

use crate::items::statement;
use crate::layout::layout_of;
use crate::scattering::Scattering;
use crate::sets::{equalities, rows};
use integer_sets::{ScanSet, System};
use iteration_domains::StatementModel;
use loop_tree::{TileItems, Tiling};
use schedule_rows::Schedule;
use std::alloc::{AllocError, Global};
use std::num::NonZeroU64;

/// The points of a statement's scan set.
fn points(alloc: Global, scattering: &Scattering) -> Result<System, AllocError>
    ensures { IfOk result (λ s. s ≡ points_of scattering.now.layout (pos scattering.now.size)
        scattering.now.statement.now (items_of scattering.now.items.now)) }
{
    let layout = scattering.layout;
    let equal = equalities(alloc, scattering)?;
    let least = rows(alloc, scattering)?;
    let dimensions = layout.front + (layout.turns + layout.missing);
    Ok(System::from_parts(dimensions, layout.parameters, equal, least))
}

/// The dimension of the first tile coordinate, which may run in parallel.
fn parallel_place(items: &TileItems) -> Option<usize>
    ensures { result ≡ place_in (length items.now.leading.items + 1) items.now.band.items }
{
    if items.band.is_empty() {
        None
    } else {
        Some(items.leading.len() + 1)
    }
}

/// The scan set of a statement, where `most` is the greatest number of iterators of a statement.
fn scan_set(
    alloc: Global,
    size: u64,
    most: usize,
    statement: &StatementModel,
    items: &TileItems,
) -> Result<ScanSet, AllocError>
    requires size { (0 < size) × (size ≤ 1024) }
    requires most { statement.now.domain.dimensions ≤ most }
    requires fit { FitItems statement.now.domain.dimensions (items_of items.now) }
    ensures { IfOk result (λ s. s ≡ set_of (pos size) most statement.now (items_of items.now)) }
{
    let layout = match layout_of(statement, items, most) {
        None => return Err(AllocError),
        Some(layout) => layout,
    };
    let scattering = Scattering {
        statement,
        items,
        size,
        layout,
    };
    let points = points(alloc, &scattering)?;
    let parallel = parallel_place(items);
    Ok(ScanSet::of(
        statement.number(),
        parallel,
        layout.front,
        layout.turns,
        points,
    ))
}

/// The larger of two numbers.
fn larger(first: usize, second: usize) -> usize
    ensures { result ≡ max first second }
{
    if first < second { second } else { first }
}

/// The greatest number of iterators of a statement.
fn most_iterators(statements: &[StatementModel]) -> usize
    ensures { result ≡ greatest statements.now }
{
    let mut most = 0;
    for statement in statements {
        most = larger(most, statement.domain().dimensions());
    }
    most
}

/// The tiling of a schedule, for tiles of this size, and the scan sets of its statements, in textual order. A set's
/// dimensions: the scalars before the first row, the wave sum, the tile coordinates, all items, the iterators, and
/// zeros where another statement has more of them. The mark is the first tile coordinate's dimension.
///
/// # Errors
/// `AllocError` alone.
pub fn tiling_and_sets(
    alloc: Global,
    schedule: &Schedule,
    size: u64,
) -> Result<(Tiling, Vec<ScanSet>), AllocError>
    requires { (0 < size) × (size ≤ 1024) }
    ensures tiling { IfOk result (λ found. (s : IsScheduled schedule.now)
        → tiling_of found.0 ≡ schedule_tiling size (length schedule.now.model.statements) s.blocks) }
    ensures sets { IfOk result (λ found. (s : IsScheduled schedule.now)
        → found.1.items ≡ scan_sets (pos size) s.blocks schedule.now.model) }
{
    let statements = schedule.model().statements();
    let most = most_iterators(statements);
    let mut tiles = Vec::new(alloc);
    let mut sets = Vec::new(alloc);
    for k in 0..statements.len() {
        let items = statement(alloc, schedule, k)?;
        let set = scan_set(alloc, size, most, &statements[k], &items)?;
        sets.push(set)?;
        tiles.push(items)?;
    }
    Ok((Tiling::Tiled(NonZeroU64::new(size).unwrap(), tiles), sets))
}

/// The tiling alone.
///
/// # Errors
/// `AllocError` alone.
pub fn tiling(alloc: Global, schedule: &Schedule, size: u64) -> Result<Tiling, AllocError>
    requires { (0 < size) × (size ≤ 1024) }
    ensures { IfOk result (λ found. (s : IsScheduled schedule.now)
        → tiling_of found ≡ schedule_tiling size (length schedule.now.model.statements) s.blocks) }
{
    let (tiling, _sets) = tiling_and_sets(alloc, schedule, size)?;
    Ok(tiling)
}

/// The scan sets alone.
///
/// # Errors
/// `AllocError` alone.
pub fn tiled(alloc: Global, schedule: &Schedule, size: u64) -> Result<Vec<ScanSet>, AllocError>
    requires { (0 < size) × (size ≤ 1024) }
    ensures { IfOk result (λ sets. (s : IsScheduled schedule.now)
        → sets.items ≡ scan_sets (pos size) s.blocks schedule.now.model) }
{
    let (_tiling, sets) = tiling_and_sets(alloc, schedule, size)?;
    Ok(sets)
}
