//! What tiles and scan sets are for, as contracts of functions that call the laws which their proofs use.
ghost use Rattle.std.specs.Prelude.{◌≡◌, ℕ, ◌+◌, ◌^◌, ◌<◌, ◌≤◌, ℤ, pos, List, [], ◌∷◌, ◌++◌, length};
ghost use Rattle.std.specs.Prelude.{◌↔◌, not, slice_get, Some};
ghost use Rattle.whole_numbers.specs.Lexicographic.{LexLess};
ghost use Rattle.fm_projection.specs.Alone.{IsBounded};
ghost use Rattle.integer_sets.specs.Points.{Satisfies};
ghost use Rattle.integer_sets.specs.Scanned.{Scanned};
ghost use Rattle.scop_syntax.specs.Kernel.{IsKernel};
ghost use Rattle.scop_syntax.specs.Members.{In, Sorted};
ghost use Rattle.scop_syntax.specs.Statements as source;
ghost use Rattle.scop_syntax.specs.Statements.{Placed, statements_of};
ghost use Rattle.scop_syntax.specs.Tree.{Program};
ghost use Rattle.scop_syntax.specs.Walk.{Instance, Visit};
ghost use Rattle.iteration_domains.specs.Dependence.{Dependence};
ghost use Rattle.iteration_domains.specs.Held.{HoldCovers, HoldSources};
ghost use Rattle.iteration_domains.specs.Instances.{IsInstanceOf};
ghost use Rattle.iteration_domains.specs.Model.{KernelModel, Modelled, model_of};
ghost use Rattle.loop_tree.specs.Tiling.{IsFlowPlan, IsGoodFor, IsGoodPlan, IsInOrder, item_values, kept, order_of};
ghost use Rattle.schedule_rows.specs.Bands.{Along};
ghost use Rattle.schedule_rows.specs.Dependences.{Relates};
ghost use Rattle.schedule_rows.specs.Items.{Block, Marked, values};
ghost use Rattle.schedule_rows.specs.Next.{IsSizedDep};
ghost use Rattle.schedule_rows.specs.Outcomes.{IsSchedule};
ghost use Rattle.schedule_rows.specs.Schedule.{loops_in};
ghost use Rattle.schedule_rows.specs.Sized.{AreSized};
ghost use Rattle.tile_skew.specs.Places.{place_of};
ghost use Rattle.tile_skew.specs.ScanSets.{scan_set, scan_sets};
ghost use Rattle.tile_skew.specs.Tilings.{first_band, form_at, schedule_tiling, statement_items, statements_from};

use iteration_domains::domains_hold_the_instances;
use null_space::{kernel_vectors_are_kept, rows_take_kernel_vectors};
use schedule_rows::schedules_have_small_items;
use scop_syntax::{
    conflicts_are_chains_of_covers, instances_are_those_of_statements, statements_are_numbered,
    walks_are_in_order,
};

/// A pair whose scalars and bands do not fall, block by block, is in order under the tiling of the blocks, for any size
/// of tiles: both lie in one tile, the first before the second, or the wave rises.
pub fn pairs_along_blocks_are_in_order()
    ensures { (size count : ℕ) (blocks : List Block) (i j : ℕ) (x y : Instance) → 0 < size → x.number < count
        → y.number < count → (x.number ≡ y.number → length x.turns ≡ length y.turns)
        → (x.number ≡ y.number → LexLess x.turns y.turns) → Along blocks x y (x.number ≡ y.number)
        → IsInOrder (schedule_tiling size count blocks) i x j y }
{}

/// Each pair of a schedule's dependences is in order under its tiling, for any size of tiles, where turns rise at pairs of
/// one statement.
pub fn tiled_dependences_are_in_order()
    ensures { (m : ℕ) (loops : List ℕ) (deps : List Dependence) (blocks : List Block) (size i j : ℕ) → 0 < size
        → ((d : Dependence) → In d deps → IsSizedDep loops d) → IsSchedule m loops deps blocks
        → (d : Dependence) (params : List ℤ) (x y : Instance) → In d deps → length params ≡ m
        → Relates params d x y → (x.number ≡ y.number → LexLess x.turns y.turns)
        → IsInOrder (schedule_tiling size (length loops) blocks) i x j y }
{}

/// The tiling of a schedule of dependences that hold the covers of a program's walk, but for those on marked arrays, is
/// a good plan but for these, for any size of tiles: two places that conflict on another array lie in one tile, the
/// earlier first, or the wave rises from the earlier to the later.
pub fn tiled_schedules_are_good_plans()
    ensures { (program : Program) (marked : List ℕ) (deps : List Dependence) (blocks : List Block) (params : List ℤ)
        (size : ℕ) → length params ≡ length program.parameters → 0 < size
        → ((d : Dependence) → In d deps → IsSizedDep (loops_in (model_of program)) d)
        → HoldCovers program params marked deps
        → IsSchedule (model_of program).parameters (loops_in (model_of program)) deps blocks
        → IsGoodFor program params marked (schedule_tiling size (length (model_of program).statements) blocks) }
{
    conflicts_are_chains_of_covers();
    instances_are_those_of_statements();
    statements_are_numbered();
    walks_are_in_order();
    pairs_along_blocks_are_in_order();
}

/// The tiling of a schedule of dependences that hold the reads of a program's walk with their last writers is a flow plan,
/// for any size of tiles: a read and its last writer lie in one tile, the writer first, or the wave rises from the writer
/// to the read.
pub fn tiled_flows_are_flow_plans()
    ensures { (program : Program) (deps : List Dependence) (blocks : List Block) (params : List ℤ) (size : ℕ)
        → length params ≡ length program.parameters → 0 < size
        → ((d : Dependence) → In d deps → IsSizedDep (loops_in (model_of program)) d)
        → HoldSources program params deps
        → IsSchedule (model_of program).parameters (loops_in (model_of program)) deps blocks
        → IsFlowPlan program params (schedule_tiling size (length (model_of program).statements) blocks) }
{
    instances_are_those_of_statements();
    statements_are_numbered();
    walks_are_in_order();
    tiled_dependences_are_in_order();
}

/// The whole points of a statement's scan set are exactly the places of its instances, at all parameters.
pub fn scan_sets_hold_the_instances()
    ensures points { (program : Program) (blocks : List Block) (params : List ℤ) (size n : ℕ) (s : Modelled)
        (xs : List ℤ) → IsKernel program → length params ≡ length program.parameters → 0 < size
        → AreSized (loops_in (model_of program)) blocks → In s (model_of program).statements
        → length xs ≡ (scan_set (pos size) n s (statement_items blocks s.number)).system.dimensions
        → Satisfies (scan_set (pos size) n s (statement_items blocks s.number)).system (xs ++ params)
        → (v : Visit) × IsInstanceOf program params s v
        × (xs ≡ place_of (pos size) n (statement_items blocks s.number) v.turns) }
    ensures instances { (program : Program) (blocks : List Block) (params : List ℤ) (size n : ℕ) (s : Modelled)
        (v : Visit) → IsKernel program → length params ≡ length program.parameters → 0 < size
        → AreSized (loops_in (model_of program)) blocks → IsInstanceOf program params s v
        → Satisfies (scan_set (pos size) n s (statement_items blocks s.number)).system
        (place_of (pos size) n (statement_items blocks s.number) v.turns ++ params) }
{
    domains_hold_the_instances();
    instances_are_those_of_statements();
    statements_are_numbered();
}

/// The lexicographic order of places, and of statements at one place, is the order of the tiling.
pub fn places_are_in_order()
    ensures { (blocks : List Block) (size count n : ℕ) (x y : Instance) → x.number < count → y.number < count
        → length x.turns ≤ n → length y.turns ≤ n → n ≤ 5
        → LexLess (place_of (pos size) n (statement_items blocks x.number) x.turns ++ pos x.number ∷ [])
        (place_of (pos size) n (statement_items blocks y.number) y.turns ++ pos y.number ∷ [])
        ↔ LexLess (order_of size (statements_from blocks 0 count) x)
        (order_of size (statements_from blocks 0 count) y) }
{}

/// The values of a tiling's items are those of the schedule's items.
pub fn tilings_have_the_items_of_schedules()
    ensures { (blocks : List Block) (x : Instance)
        → item_values (statement_items blocks x.number) x.turns ≡ values blocks x }
{}

/// The tile rows of each statement are the rows of the first band, in order, and those carry that are not parallel.
pub fn rows_that_are_not_parallel_carry()
    ensures rows { (blocks : List Block) (k i : ℕ) (m : Marked) → slice_get (first_band blocks) i ≡ Some m
        → slice_get (statement_items blocks k).band i
        ≡ Some (record { form = form_at m.row k; carries = not m.parallel }) }
    ensures count { (blocks : List Block) (k : ℕ)
        → length (statement_items blocks k).band ≡ length (first_band blocks) }
{}

/// The source's order, kept, is a good plan at all parameters.
pub fn kept_orders_are_good_plans()
    ensures { (program : Program) (params : List ℤ) → IsGoodPlan program params kept }
{}

/// All scan sets of a schedule have one number of dimensions, and mark one same place, or all mark none.
pub fn scan_sets_are_alike()
    ensures { (size : ℤ) (blocks : List Block) (model : KernelModel) (x y : Scanned)
        → In x (scan_sets size blocks model) → In y (scan_sets size blocks model)
        → (x.system.dimensions ≡ y.system.dimensions) × (x.parallel ≡ y.parallel) }
{}

/// The scan sets of a schedule of dependences between a kernel's statements can be scanned, for tiles of sizes 1 to
/// 1024: they are bounded for parameters in 0..=65536, of a few dimensions, and stand in the order of their statements,
/// with an iterator for each loop round the statement.
pub fn scan_sets_can_be_scanned()
    ensures bounded { (program : Program) (deps : List Dependence) (blocks : List Block) (size : ℕ) (s : Scanned)
        → IsKernel program → 0 < size → size ≤ 1024
        → ((d : Dependence) → In d deps → IsSizedDep (loops_in (model_of program)) d)
        → IsSchedule (model_of program).parameters (loops_in (model_of program)) deps blocks
        → In s (scan_sets (pos size) blocks (model_of program)) → IsBounded s.system }
    ensures parts { (program : Program) (deps : List Dependence) (blocks : List Block) (size : ℕ) (s : Scanned)
        → IsKernel program → ((d : Dependence) → In d deps → IsSizedDep (loops_in (model_of program)) d)
        → IsSchedule (model_of program).parameters (loops_in (model_of program)) deps blocks
        → In s (scan_sets (pos size) blocks (model_of program))
        → (s.system.parameters ≡ length program.parameters) × (s.first + s.iterators ≤ s.system.dimensions)
        × (s.system.dimensions + s.system.parameters < 2 ^ 32) }
    ensures rise { (program : Program) (blocks : List Block) (size : ℕ) → IsKernel program
        → Sorted (λ (x y : Scanned). x.statement < y.statement) (scan_sets (pos size) blocks (model_of program)) }
    ensures statements { (program : Program) (blocks : List Block) (size : ℕ) (s : Scanned)
        → In s (scan_sets (pos size) blocks (model_of program))
        → (p : Placed) × (slice_get (statements_of program) s.statement ≡ Some p)
        × (s.iterators ≡ source.loops_in p.scopes) }
{
    statements_are_numbered();
    kernel_vectors_are_kept();
    rows_take_kernel_vectors();
    schedules_have_small_items();
}
