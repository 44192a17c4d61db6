//! Callers of tiles and scan sets: the laws in kernels without parameters, at tiles of size 1.
ghost use Rattle.std.specs.Prelude.{◌≡◌, ◌<◌, ◌≤◌, ◌↔◌, ◌++◌, ◌∷◌, [], ℕ, ℤ, pos, IfOk, List, Some, length, not};
ghost use Rattle.std.specs.Prelude.{slice_get};
ghost use Rattle.whole_numbers.specs.Lexicographic.{LexLess};
ghost use Rattle.integer_sets.specs.Points.{Satisfies};
ghost use Rattle.integer_sets.specs.Scanned.{Scanned};
ghost use Rattle.scop_syntax.specs.Kernel.{IsKernel};
ghost use Rattle.scop_syntax.specs.Members.{In};
ghost use Rattle.scop_syntax.specs.Tree.{Program};
ghost use Rattle.scop_syntax.specs.Walk.{Instance, Visit};
ghost use Rattle.iteration_domains.specs.Dependence.{Dependence};
ghost use Rattle.iteration_domains.specs.Held.{HoldCovers, HoldSources};
ghost use Rattle.iteration_domains.specs.Instances.{IsInstanceOf};
ghost use Rattle.iteration_domains.specs.Model.{KernelModel, Modelled, model_of};
ghost use Rattle.loop_tree.specs.Tiling.{IsFlowPlan, IsGoodFor, IsGoodPlan, item_values, kept, order_of, tiled};
ghost use Rattle.loop_tree.specs.TilingView.{tiling_of};
ghost use Rattle.schedule_rows.specs.Items.{Block, Marked, values};
ghost use Rattle.schedule_rows.specs.Next.{IsSizedDep};
ghost use Rattle.schedule_rows.specs.Outcomes.{IsSchedule};
ghost use Rattle.schedule_rows.specs.Schedule.{IsScheduled, loops_in};
ghost use Rattle.schedule_rows.specs.Sized.{AreSized};
ghost use Rattle.tile_skew.specs.Places.{place_of};
ghost use Rattle.tile_skew.specs.ScanSets.{scan_set, scan_sets};
ghost use Rattle.tile_skew.specs.Tilings.{first_band, form_at, schedule_tiling, statement_items, statements_from};

use integer_sets::ScanSet;
use loop_tree::Tiling;
use schedule_rows::Schedule;
use std::alloc::{AllocError, Global};
use tile_skew::{
    kept_orders_are_good_plans, places_are_in_order, rows_that_are_not_parallel_carry,
    scan_sets_are_alike, scan_sets_hold_the_instances, tiled, tiled_flows_are_flow_plans,
    tiled_schedules_are_good_plans, tiling, tiling_and_sets, tilings_have_the_items_of_schedules,
};

/// The tiling of no statement has this size and no items, and no statement has no scan set, by the clauses of
/// `tiling_and_sets` of these names.
pub fn tiles_and_sets(
    alloc: Global,
    schedule: &Schedule,
    size: u64,
) -> Result<(Tiling, Vec<ScanSet>), AllocError>
    requires { (0 < size) × (size ≤ 1024) }
    ensures tiling { IfOk result (λ found. IsScheduled schedule.now → length schedule.now.model.statements ≡ 0
        → tiling_of found.0 ≡ tiled size []) }
    ensures sets { IfOk result (λ found. IsScheduled schedule.now → schedule.now.model.statements ≡ []
        → found.1.items ≡ []) }
{
    tiling_and_sets(alloc, schedule, size)
}

/// The same of the tiling, by the clause of `tiling`.
pub fn tiles_of_size(alloc: Global, schedule: &Schedule, size: u64) -> Result<Tiling, AllocError>
    requires { (0 < size) × (size ≤ 1024) }
    ensures { IfOk result (λ found. IsScheduled schedule.now → length schedule.now.model.statements ≡ 0
        → tiling_of found ≡ tiled size []) }
{
    tiling(alloc, schedule, size)
}

/// The same of the scan sets, by the clause of `tiled`.
pub fn sets_of_tiles(
    alloc: Global,
    schedule: &Schedule,
    size: u64,
) -> Result<Vec<ScanSet>, AllocError>
    requires { (0 < size) × (size ≤ 1024) }
    ensures { IfOk result (λ sets. IsScheduled schedule.now → schedule.now.model.statements ≡ [] → sets.items ≡ []) }
{
    tiled(alloc, schedule, size)
}

/// Tiles of size 1 of a schedule are a good plan but for marked arrays, by the clause of
/// `tiled_schedules_are_good_plans`.
pub fn plans_of_tiles()
    ensures { (program : Program) (marked : List ℕ) (deps : List Dependence) (blocks : List Block)
        → program.parameters ≡ [] → ((d : Dependence) → In d deps → IsSizedDep (loops_in (model_of program)) d)
        → HoldCovers program [] marked deps
        → IsSchedule (model_of program).parameters (loops_in (model_of program)) deps blocks
        → IsGoodFor program [] marked (schedule_tiling 1 (length (model_of program).statements) blocks) }
{
    tiled_schedules_are_good_plans();
}

/// Tiles of size 1 of a schedule over the reads with their last writers are a flow plan, by the clause of
/// `tiled_flows_are_flow_plans`.
pub fn flow_plans_of_tiles()
    ensures { (program : Program) (deps : List Dependence) (blocks : List Block) → program.parameters ≡ []
        → ((d : Dependence) → In d deps → IsSizedDep (loops_in (model_of program)) d) → HoldSources program [] deps
        → IsSchedule (model_of program).parameters (loops_in (model_of program)) deps blocks
        → IsFlowPlan program [] (schedule_tiling 1 (length (model_of program).statements) blocks) }
{
    tiled_flows_are_flow_plans();
}

/// A point of a scan set is the place of an instance, by `points` of `scan_sets_hold_the_instances`, and the place of
/// an instance is a point of it, by `instances`.
pub fn scan_sets_of_tiles()
    ensures points { (program : Program) (blocks : List Block) (n : ℕ) (s : Modelled) (xs : List ℤ)
        → IsKernel program → program.parameters ≡ [] → AreSized (loops_in (model_of program)) blocks
        → In s (model_of program).statements
        → length xs ≡ (scan_set (pos 1) n s (statement_items blocks s.number)).system.dimensions
        → Satisfies (scan_set (pos 1) n s (statement_items blocks s.number)).system (xs ++ [])
        → (v : Visit) × IsInstanceOf program [] s v
        × (xs ≡ place_of (pos 1) n (statement_items blocks s.number) v.turns) }
    ensures instances { (program : Program) (blocks : List Block) (n : ℕ) (s : Modelled) (v : Visit)
        → IsKernel program → program.parameters ≡ [] → AreSized (loops_in (model_of program)) blocks
        → IsInstanceOf program [] s v
        → Satisfies (scan_set (pos 1) n s (statement_items blocks s.number)).system
        (place_of (pos 1) n (statement_items blocks s.number) v.turns ++ []) }
{
    scan_sets_hold_the_instances();
}

/// Places of instances of one statement within one loop come in the order of tiles of size 1, and in no other, by the
/// clause of `places_are_in_order`.
pub fn places_within_one_loop()
    ensures { (blocks : List Block) (x y : Instance) → x.number < 1 → y.number < 1 → length x.turns ≤ 1
        → length y.turns ≤ 1
        → LexLess (place_of (pos 1) 1 (statement_items blocks x.number) x.turns ++ pos x.number ∷ [])
        (place_of (pos 1) 1 (statement_items blocks y.number) y.turns ++ pos y.number ∷ [])
        ↔ LexLess (order_of 1 (statements_from blocks 0 1) x) (order_of 1 (statements_from blocks 0 1) y) }
{
    places_are_in_order();
}

/// The items of the first statement have their values in the schedule, by the clause of
/// `tilings_have_the_items_of_schedules`.
pub fn items_of_the_first_statement()
    ensures { (blocks : List Block) (x : Instance) → x.number ≡ 0
        → item_values (statement_items blocks 0) x.turns ≡ values blocks x }
{
    tilings_have_the_items_of_schedules();
}

/// The first tile row of the first statement, by `rows` of `rows_that_are_not_parallel_carry`; how many there are, by
/// `count`.
pub fn tile_rows_of_the_first_statement()
    ensures rows { (blocks : List Block) (m : Marked) → slice_get (first_band blocks) 0 ≡ Some m
        → slice_get (statement_items blocks 0).band 0
        ≡ Some (record { form = form_at m.row 0; carries = not m.parallel }) }
    ensures count { (blocks : List Block) → length (statement_items blocks 0).band ≡ length (first_band blocks) }
{
    rows_that_are_not_parallel_carry();
}

/// The source's order is a good plan without parameters, by the clause of `kept_orders_are_good_plans`.
pub fn plans_of_the_source()
    ensures { (program : Program) → IsGoodPlan program [] kept }
{
    kept_orders_are_good_plans();
}

/// The scan sets of tiles of size 1 have one number of dimensions and one mark, by the clause of `scan_sets_are_alike`.
pub fn alike_scan_sets_of_tiles()
    ensures { (blocks : List Block) (model : KernelModel) (x y : Scanned) → In x (scan_sets (pos 1) blocks model)
        → In y (scan_sets (pos 1) blocks model)
        → (x.system.dimensions ≡ y.system.dimensions) × (x.parallel ≡ y.parallel) }
{
    scan_sets_are_alike();
}
