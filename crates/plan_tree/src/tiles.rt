//! Laws of the trees that scan a schedule's sets, as contracts of functions that call the laws which their proofs use.
ghost use Rattle.std.specs.Prelude.{◌≡◌, ◌<◌, ◌^◌, ℕ, ℤ, List, length};
ghost use Rattle.scop_syntax.specs.Tree.{Program};
ghost use Rattle.loop_tree.specs.Scans.{Exact};
ghost use Rattle.loop_tree.specs.Tree.{Trees};
ghost use Rattle.loop_tree.specs.Walk.{Visit};
ghost use Rattle.tile_skew.specs.Items.{Block};
ghost use Rattle.plain_scan.specs.Scanning.{AreScanned, GiveIterators, IsScan, dimensions_of, parameters_of};
ghost use Rattle.plain_scan.specs.Sets.{Keys, NumbersRise};
ghost use Rattle.planned_trees.specs.Trees.{AreTreesOf};
ghost use Rattle.plan_tree.specs.Schedules.{tiling_of};
ghost use Rattle.plan_tree.specs.steps.Scanning.{AreVisits, IsTiled, sets_of};

use iteration_domains::domains_hold_the_instances;
use scop_syntax::statements_are_numbered;
use tile_skew::{
    places_are_in_order, scan_sets_are_alike, scan_sets_can_be_scanned,
    scan_sets_hold_the_instances, schedules_have_small_items, tiled_schedules_are_good_plans,
};

/// The scan sets of a schedule can be scanned together: they have one shape, not too many dimensions, and rising
/// numbers.
pub fn sets_can_be_scanned()
    ensures scanned { (program : Program) (marked : List ℕ) (size : ℕ) (blocks : List Block)
        → IsTiled program marked size blocks → AreScanned (sets_of program size blocks) }
    ensures rise { (program : Program) (marked : List ℕ) (size : ℕ) (blocks : List Block)
        → IsTiled program marked size blocks → NumbersRise (sets_of program size blocks) }
    ensures few { (program : Program) (marked : List ℕ) (size : ℕ) (blocks : List Block)
        → IsTiled program marked size blocks → dimensions_of (sets_of program size blocks) < 2 ^ 32 }
    ensures parameters { (program : Program) (marked : List ℕ) (size : ℕ) (blocks : List Block)
        → IsTiled program marked size blocks → 0 < length (sets_of program size blocks)
        → parameters_of (sets_of program size blocks) ≡ length program.parameters }
{
    scan_sets_can_be_scanned();
    scan_sets_are_alike();
}

/// The visits of a tree that scans them stand at the places of walked instances, and give each of these once, in the
/// tiling's order.
pub fn visits_are_in_order()
    ensures { (program : Program) (params : List ℤ) (marked : List ℕ) (size : ℕ) (blocks : List Block)
        (vs : List Visit) → IsTiled program marked size blocks → length params ≡ length program.parameters
        → Exact (Keys (sets_of program size blocks) params) vs → GiveIterators (sets_of program size blocks) vs
        → AreVisits program params size blocks vs }
{
    domains_hold_the_instances();
    places_are_in_order();
    scan_sets_hold_the_instances();
    schedules_have_small_items();
    statements_are_numbered();
}

/// A tree that scans them is one of the tiling.
pub fn scans_are_trees_of_tilings()
    ensures { (program : Program) (marked : List ℕ) (size : ℕ) (blocks : List Block) (ts : Trees)
        → IsTiled program marked size blocks → IsScan (sets_of program size blocks) ts
        → AreTreesOf program marked (tiling_of program size blocks) ts }
{
    scan_sets_can_be_scanned();
    sets_can_be_scanned();
    tiled_schedules_are_good_plans();
    visits_are_in_order();
}
