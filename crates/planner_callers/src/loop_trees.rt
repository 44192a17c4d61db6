//! Callers of loop trees: the source's own, walks, runs, guards, and what marks say.
ghost use Rattle.std.specs.Prelude.{◌≡◌, ◌^◌, ◌++◌, [], ◌∷◌, IfOk, IsNone, List, false, filter, map, reverse, true, ℤ};
ghost use Rattle.scop_syntax.specs.Kernel.{IsKernel};
ghost use Rattle.scop_syntax.specs.Limits.{HasParameters};
ghost use Rattle.scop_syntax.specs.Members.{In, Sorted};
ghost use Rattle.scop_syntax.specs.Tree.{Program, none as nothing};
ghost use Rattle.scop_syntax.specs.View.{program_of};
ghost use Rattle.scop_syntax.specs.Walk.{instance, walk_of};
ghost use Rattle.loop_tree.specs.Conditions.{CanWalk};
ghost use Rattle.loop_tree.specs.Interleavings.{InTurn, Interleaves, stands_at};
ghost use Rattle.loop_tree.specs.Marks.{FlatAll, MarksAll, ShowsAll, marked};
ghost use Rattle.loop_tree.specs.Runs.{MayRun, MayRunAll};
ghost use Rattle.loop_tree.specs.Scans.{Within};
ghost use Rattle.loop_tree.specs.Shape.{AreSerial, TreesAreOf, TreesAreOver, TreesAreUpTo};
ghost use Rattle.loop_tree.specs.Source.{source_of};
ghost use Rattle.loop_tree.specs.SpotView.{IsSpotOf, found_in, to_come};
ghost use Rattle.loop_tree.specs.Tree.{Bounds, Trees, loop, none};
ghost use Rattle.loop_tree.specs.TwoIterations.{twice};
ghost use Rattle.loop_tree.specs.View.{trees_in};
ghost use Rattle.loop_tree.specs.Walk.{Visit, through, visits, walk_all};

use loop_tree::{
    Spot, Tree, Visitor, loops_interleave_their_iterations, marks_are_the_parallel_loops,
    source_trees_visit_the_walk, two_iterations_in_both_orders,
};
use scop_syntax::{Instance, Kernel};
use std::alloc::{AllocError, Global};

/// The loops of a kernel without items are none, by `tree` of `Tree::of_source`; without parameters its tree visits the
/// walk, can be walked and is over no variable, by `visits`, `walk` and `over`; it is flat, serial, of the kernel and
/// of small numbers, by the clauses `flat`, `serial`, `instances` and `small`.
pub fn source_tree(alloc: Global, kernel: &Kernel) -> Result<Tree, AllocError>
    requires { IsKernel (program_of kernel.now) }
    ensures tree { IfOk result (λ t. (program_of kernel.now).body ≡ nothing → trees_in t ≡ none) }
    ensures visits { IfOk result (λ t. (program_of kernel.now).parameters ≡ []
        → visits (trees_in t) [] ≡ map instance (walk_of (program_of kernel.now) [])) }
    ensures walk { IfOk result (λ t. HasParameters (program_of kernel.now) [] → CanWalk (trees_in t) [] []) }
    ensures flat { IfOk result (λ t. FlatAll (trees_in t)) }
    ensures serial { IfOk result (λ t. AreSerial (trees_in t)) }
    ensures over { IfOk result (λ t. (program_of kernel.now).parameters ≡ [] → TreesAreOver 0 (trees_in t)) }
    ensures instances { IfOk result (λ t. TreesAreOf (program_of kernel.now) (trees_in t)) }
    ensures small { IfOk result (λ t. TreesAreUpTo (2 ^ 45) (trees_in t)) }
{
    Tree::of_source(alloc, kernel)
}

/// The same of the definition without parameters, by the clauses of `source_trees_visit_the_walk` of these names.
pub fn source_trees_without_parameters()
    ensures visits { (program : Program) → IsKernel program → program.parameters ≡ []
        → visits (source_of program) [] ≡ map instance (walk_of program []) }
    ensures walk { (program : Program) → HasParameters program [] → CanWalk (source_of program) [] [] }
    ensures flat { (program : Program) → IsKernel program → FlatAll (source_of program) }
    ensures serial { (program : Program) → AreSerial (source_of program) }
    ensures over { (program : Program) → IsKernel program → program.parameters ≡ []
        → TreesAreOver 0 (source_of program) }
    ensures instances { (program : Program) → program.parameters ≡ [] → TreesAreOf program (source_of program) }
    ensures small { (program : Program) → IsKernel program → program.parameters ≡ []
        → TreesAreUpTo (2 ^ 45) (source_of program) }
{
    source_trees_visit_the_walk();
}

/// A visit of one parallel loop stands in it, by `parallel` of `marks_are_the_parallel_loops`; where no turns are shown
/// none are given, by `turns`.
pub fn visits_of_one_parallel_loop()
    ensures parallel { (ts : Trees) (v : Visit) → MarksAll (true ∷ []) ts → In v (walk_all ts [] [])
        → v.parallel ≡ marked (true ∷ []) v.values }
    ensures turns { (ts : Trees) (v : Visit) → ShowsAll (λ key. []) ts [] [] → In v (walk_all ts [] [])
        → v.turns ≡ [] }
{
    marks_are_the_parallel_loops();
}

/// In a run of one loop the visits of each iteration are a run of it, by `iterations` of
/// `loops_interleave_their_iterations`; visits of which this is so are a run where the loop is parallel, by `parallel`,
/// and where they come in turn, by `serial`; those of a loop that is not parallel do, by `in_turn`.
pub fn runs_of_one_loop()
    ensures iterations { (lo up : Bounds) (body : Trees) (zs : List Visit) → MayRun (loop true lo up body) [] [] zs
        → ((v : Visit) → In v zs → (x : ℤ) × Within lo up [] x × (stands_at x v ≡ true))
        × ((x : ℤ) → Within lo up [] x
        → (ys : List Visit) × MayRunAll body [] (x ∷ []) ys × (filter (stands_at x) zs ≡ map (through true x) ys)) }
    ensures parallel { (lo up : Bounds) (body : Trees) (zs : List Visit)
        → ((v : Visit) → In v zs → (x : ℤ) × Within lo up [] x × (stands_at x v ≡ true))
        → ((x : ℤ) → Within lo up [] x
        → (ys : List Visit) × MayRunAll body [] (x ∷ []) ys × (filter (stands_at x) zs ≡ map (through true x) ys))
        → MayRun (loop true lo up body) [] [] zs }
    ensures serial { (lo up : Bounds) (zs : List Visit) → Interleaves false lo up none [] [] zs → Sorted InTurn zs
        → MayRun (loop false lo up none) [] [] zs }
    ensures in_turn { (lo up : Bounds) (zs : List Visit) → MayRun (loop false lo up none) [] [] zs
        → Sorted InTurn zs }
{
    loops_interleave_their_iterations();
}

/// The visits of a loop of two iterations in their own order and the other way round: both are runs where it is
/// parallel, by `upwards` and `downwards` of `two_iterations_in_both_orders`, and else the first alone, by `serial` and
/// `no_other`.
pub fn two_iterations_turned_round()
    ensures upwards { MayRunAll (twice true) [] [] (walk_all (twice true) [] []) }
    ensures downwards { MayRunAll (twice true) [] [] (reverse (walk_all (twice true) [] [])) }
    ensures serial { MayRunAll (twice false) [] [] (walk_all (twice false) [] []) }
    ensures no_other { MayRunAll (twice false) [] [] (reverse (walk_all (twice false) [] [])) → ⊥ }
{
    two_iterations_in_both_orders();
}

/// Whether an instance was seen.
#[derive(Drop)]
pub struct Seen {
    pub any: bool,
}

impl Visitor for Seen {
    ghost stands = { λ s l. s.any ≡ false → l ≡ [] };

    fn visit(&mut self, instance: Instance) {
        self.any = true;
    }

    fn skip(&mut self, count: u64) -> bool {
        false
    }

    fn pass_by(&mut self) -> bool {
        false
    }
}

/// Where a walk shows nothing the tree visits nothing, by the clause of `Tree::walk`.
pub fn visits_any(tree: &Tree, params: &[i64]) -> bool
    requires { CanWalk (trees_in tree.now) params.now [] }
    ensures { result ≡ false → visits (trees_in tree.now) params.now ≡ [] }
{
    let mut seen = Seen { any: false };
    tree.walk(params, &mut seen);
    seen.any
}

/// An empty tree has no guard, by the clause of `Tree::guards`.
pub fn guards_in(tree: &Tree) -> u64
    ensures { trees_in tree.now ≡ none → result ≡ 0 }
{
    tree.guards()
}

/// A new spot is one of its tree and has all of it to come, without parameters too, by `spot` and `rest` of `Spot::of`.
pub fn spot_of(alloc: Global, tree: &Tree) -> Result<Spot, AllocError>
    ensures spot { IfOk result (λ s. IsSpotOf (trees_in tree.now) [] s) }
    ensures rest { IfOk result (λ s. to_come (trees_in tree.now) [] s ≡ visits (trees_in tree.now) []) }
{
    Spot::of(alloc, tree)
}

/// A spot that gives nothing stays with what is to come, by `rest` of `Spot::next`, and that is nothing, by `none`; it
/// stays a spot of its tree, by `spot`.
pub fn next_of(spot: &mut Spot, tree: &Tree, params: &[i64]) -> Option<Instance>
    requires walk { CanWalk (trees_in tree.now) params.now [] }
    requires spot { IsSpotOf (trees_in tree.now) params.now spot.old }
    ensures rest { IsNone result
        → to_come (trees_in tree.now) params.now spot.old ≡ to_come (trees_in tree.now) params.now spot.new }
    ensures none { IsNone result → to_come (trees_in tree.now) params.now spot.old ≡ [] }
    ensures spot { IsSpotOf (trees_in tree.now) params.now spot.new }
{
    spot.next(tree, params)
}

/// A spot goes on from the place of another, by the clauses of `Spot::set` and of `Spot::next`.
pub fn next_from(spot: &mut Spot, other: &Spot, tree: &Tree, params: &[i64]) -> Option<Instance>
    requires walk { CanWalk (trees_in tree.now) params.now [] }
    requires spot { IsSpotOf (trees_in tree.now) params.now spot.old }
    requires other { IsSpotOf (trees_in tree.now) params.now other.now }
    ensures { to_come (trees_in tree.now) params.now other.now
        ≡ found_in result ++ to_come (trees_in tree.now) params.now spot.new }
{
    spot.set(other);
    spot.next(tree, params)
}
