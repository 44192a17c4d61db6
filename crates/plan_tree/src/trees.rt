//! The trees of both kinds of plans.

ghost use Rattle.std.specs.Prelude.{◌≡◌, ◌≤◌, ◌<◌, ◌^◌, ℕ, pos, IfErr, IfOk, List, length};
ghost use Rattle.scop_syntax.specs.Kernel.{IsKernel};
ghost use Rattle.scop_syntax.specs.Tree.{Program};
ghost use Rattle.scop_syntax.specs.View.{program_of};
ghost use Rattle.loop_tree.specs.Fits.{AreSmallTrees};
ghost use Rattle.loop_tree.specs.Shape.{TreesAreUpTo};
ghost use Rattle.loop_tree.specs.Source.{source_of};
ghost use Rattle.loop_tree.specs.Tiling.{kept};
ghost use Rattle.loop_tree.specs.TilingView.{tiling_of as tiling_in};
ghost use Rattle.loop_tree.specs.View.{trees_in};
ghost use Rattle.plain_scan.specs.Scanning.{AreScanned, IsScan, StopsScan, dimensions_of};
ghost use Rattle.plain_scan.specs.Sets.{NumbersRise};
ghost use Rattle.tile_skew.specs.Schedule.{IsScheduled};
ghost use Rattle.tile_skew.specs.ScanSets.{scan_sets};
ghost use Rattle.tile_skew.specs.Tilings.{schedule_tiling};
ghost use Rattle.planned_trees.specs.Trees.{AreTreesOf};
ghost use Rattle.plan_tree.specs.Schedules.{IsScheduleFor, StopsTiled, tiling_of};

use crate::tiles::{scans_are_trees_of_tilings, sets_can_be_scanned};
use integer_sets::ScanSet;
use loop_tree::{Tiling, Tree};
use plain_scan::FmStop;
use scop_syntax::Kernel;
use std::alloc::{AllocError, Global};
use tile_skew::{Schedule, kept_orders_are_good_plans, tiling_and_sets};
use tree_simplification::simplified;

/// The tiling of a kernel's schedule, and its scan sets, which can be scanned together.
fn tiled_sets(
    alloc: Global,
    schedule: &Schedule,
    size: u64,
) -> Result<(Tiling, Vec<ScanSet>), AllocError>
    requires size { (0 < size) × (size ≤ 1024) }
    requires schedule { (program : Program) × (marked : List ℕ) × IsScheduleFor program marked schedule.now }
    requires scheduled { IsScheduled schedule.now }
    ensures tiling { IfOk result (λ found. (s : IsScheduled schedule.now)
        → tiling_in found.0 ≡ schedule_tiling size (length schedule.now.model.statements) s.blocks) }
    ensures sets { IfOk result (λ found. (s : IsScheduled schedule.now)
        → found.1.items ≡ scan_sets (pos size) s.blocks schedule.now.model) }
    ensures scanned { IfOk result (λ found. AreScanned found.1.items) }
    ensures rise { IfOk result (λ found. NumbersRise found.1.items) }
    ensures few { IfOk result (λ found. dimensions_of found.1.items < 2 ^ 32) }
{
    sets_can_be_scanned();
    let found = tiling_and_sets(alloc, schedule, size)?;
    Ok(found)
}

/// How many dimensions stand before those of so many items.
fn before_items(sets: &[ScanSet], items: usize) -> usize {
    match sets.first() {
        None => 0,
        Some(set) => set.first().saturating_sub(items),
    }
}

/// The tree of sets: separated, where each question may make so many moves of the solver, or else the hull of all.
fn tree_of_sets(
    alloc: Global,
    sets: &[ScanSet],
    items: usize,
    budget: Option<u64>,
) -> Result<Tree, FmStop>
    requires scanned { AreScanned sets.now }
    requires rise { NumbersRise sets.now }
    ensures scan { IfOk result (λ t. IsScan sets.now (trees_in t)) }
    ensures stops { IfErr result (StopsScan sets.now) }
{
    match budget {
        Some(budget) => split_scan::scan(alloc, sets, before_items(sets, items), budget),
        None => plain_scan::scan(alloc, sets),
    }
}

/// The tree that scans the sets of a kernel's schedule, for tiles of this size, and the tiling.
fn scanned_tree(
    alloc: Global,
    schedule: &Schedule,
    size: u64,
    budget: Option<u64>,
) -> Result<(Tree, Tiling), FmStop>
    requires size { (0 < size) × (size ≤ 1024) }
    requires schedule { (program : Program) × (marked : List ℕ) × IsScheduleFor program marked schedule.now }
    ensures scheduled { IfOk result (λ found. IsScheduled schedule.now) }
    ensures tree { IfOk result (λ found. (program : Program) (marked : List ℕ)
        → IsScheduleFor program marked schedule.now → (s : IsScheduled schedule.now)
        → AreTreesOf program marked (tiling_of program size s.blocks) (trees_in found.0)) }
    ensures tiling { IfOk result (λ found. (s : IsScheduled schedule.now)
        → tiling_in found.1 ≡ schedule_tiling size (length schedule.now.model.statements) s.blocks) }
    ensures numbers { IfOk result (λ found. TreesAreUpTo (2 ^ 40) (trees_in found.0)) }
    ensures small { IfOk result (λ found. (d : ℕ) × (d < 2 ^ 32) × AreSmallTrees d (trees_in found.0)) }
    ensures stops { IfErr result (λ stop. (s : IsScheduled schedule.now)
        → StopsTiled schedule.now.model size s.blocks stop) }
{
    scans_are_trees_of_tilings();
    let items = schedule.items().len();
    let (tiling, sets) = match tiled_sets(alloc, schedule, size) {
        Err(_) => return Err(FmStop::NoMemory),
        Ok(found) => found,
    };
    match tree_of_sets(alloc, &sets, items, budget) {
        Err(stop) => Err(stop),
        Ok(tree) => Ok((tree, tiling)),
    }
}

/// The loop tree of a kernel's schedule, for tiles of this size, as the hull of its scan sets: one loop
/// a dimension round all statements, each under all constraints of its set; and the tiling.
///
/// # Errors
/// `Wide`, `Crowded` and `Large` only where the scan of the schedule's scan sets stops so; `NoMemory`.
pub fn hull_tree(alloc: Global, schedule: &Schedule, size: u64) -> Result<(Tree, Tiling), FmStop>
    requires size { (0 < size) × (size ≤ 1024) }
    requires schedule { (program : Program) × (marked : List ℕ) × IsScheduleFor program marked schedule.now }
    ensures tree { IfOk result (λ found. (program : Program) (marked : List ℕ)
        → IsScheduleFor program marked schedule.now → (s : IsScheduled schedule.now)
        → AreTreesOf program marked (tiling_of program size s.blocks) (trees_in found.0)) }
    ensures tiling { IfOk result (λ found. (s : IsScheduled schedule.now)
        → tiling_in found.1 ≡ schedule_tiling size (length schedule.now.model.statements) s.blocks) }
    ensures stops { IfErr result (λ stop. (s : IsScheduled schedule.now)
        → StopsTiled schedule.now.model size s.blocks stop) }
{
    scanned_tree(alloc, schedule, size, None)
}

/// The loop tree of a kernel's schedule, for tiles of this size: tile by tile within rising waves, the
/// loop over the first tile coordinate parallel. Each question of the separation of the schedule's scan sets, and each
/// whether a test or a bound is implied, may make so many moves of the solver; where it wants more the tree is another
/// one that does the same. Also the tiling.
///
/// # Errors
/// `Wide`, `Crowded` and `Large` only where the scan of the schedule's scan sets stops so; `NoMemory`.
pub fn tiled_tree(
    alloc: Global,
    schedule: &Schedule,
    size: u64,
    budget: u64,
) -> Result<(Tree, Tiling), FmStop>
    requires size { (0 < size) × (size ≤ 1024) }
    requires schedule { (program : Program) × (marked : List ℕ) × IsScheduleFor program marked schedule.now }
    ensures tree { IfOk result (λ found. (program : Program) (marked : List ℕ)
        → IsScheduleFor program marked schedule.now → (s : IsScheduled schedule.now)
        → AreTreesOf program marked (tiling_of program size s.blocks) (trees_in found.0)) }
    ensures tiling { IfOk result (λ found. (s : IsScheduled schedule.now)
        → tiling_in found.1 ≡ schedule_tiling size (length schedule.now.model.statements) s.blocks) }
    ensures stops { IfErr result (λ stop. (s : IsScheduled schedule.now)
        → StopsTiled schedule.now.model size s.blocks stop) }
{
    let parameters = schedule.model().parameters();
    let (scanned, tiling) = match scanned_tree(alloc, schedule, size, Some(budget)) {
        Err(stop) => return Err(stop),
        Ok(found) => found,
    };
    match simplified(alloc, &scanned, parameters, budget) {
        Err(_) => Err(FmStop::NoMemory),
        Ok(tree) => Ok((tree, tiling)),
    }
}

/// The loop tree of a kernel's own order, without a parallel loop.
///
/// # Errors
/// `AllocError` alone.
pub fn source_tree(alloc: Global, kernel: &Kernel) -> Result<Tree, AllocError>
    requires { IsKernel (program_of kernel.now) }
    ensures own { IfOk result (λ t. trees_in t ≡ source_of (program_of kernel.now)) }
    ensures trees { IfOk result (λ t. (marked : List ℕ) → AreTreesOf (program_of kernel.now) marked kept (trees_in t)) }
{
    kept_orders_are_good_plans();
    let tree = Tree::of_source(alloc, kernel)?;
    Ok(tree)
}
