//! Laws of a loop's runs, as contracts of functions that do nothing: the orders in which an execution may make the
//! visits of its iterations; both orders of two iterations, worked out.
ghost use Rattle.std.specs.Prelude.{◌≡◌, [], ◌∷◌, Bool, List, false, pos, true, ℤ};
ghost use Rattle.scop_syntax.specs.Members.{Sorted};
ghost use Rattle.loop_tree.specs.Interleavings.{InTurn, Interleaves};
ghost use Rattle.loop_tree.specs.Runs.{MayRun, MayRunAll};
ghost use Rattle.loop_tree.specs.Tree.{Bounds, Trees, loop};
ghost use Rattle.loop_tree.specs.TwoIterations.{twice, visit_at};
ghost use Rattle.loop_tree.specs.Walk.{Visit};

/// A run of a loop is an interleaving of one run of each of its iterations. Where the loop is parallel each such
/// interleaving is a run; where it is not, those in which the iterations come in turn are, and no other.
pub fn loops_interleave_their_iterations()
    ensures iterations { (flag : Bool) (lo up : Bounds) (body : Trees) (params outer : List ℤ) (zs : List Visit)
        → MayRun (loop flag lo up body) params outer zs → Interleaves flag lo up body params outer zs }
    ensures parallel { (lo up : Bounds) (body : Trees) (params outer : List ℤ) (zs : List Visit)
        → Interleaves true lo up body params outer zs → MayRun (loop true lo up body) params outer zs }
    ensures serial { (lo up : Bounds) (body : Trees) (params outer : List ℤ) (zs : List Visit)
        → Interleaves false lo up body params outer zs → Sorted InTurn zs
        → MayRun (loop false lo up body) params outer zs }
    ensures in_turn { (lo up : Bounds) (body : Trees) (params outer : List ℤ) (zs : List Visit)
        → MayRun (loop false lo up body) params outer zs → Sorted InTurn zs }
{}

/// An execution may make the two iterations of a parallel loop in either order, those of a serial one upwards alone.
pub fn two_iterations_in_both_orders()
    ensures upwards { MayRunAll (twice true) [] [] (visit_at true (pos 0) ∷ visit_at true (pos 1) ∷ []) }
    ensures downwards { MayRunAll (twice true) [] [] (visit_at true (pos 1) ∷ visit_at true (pos 0) ∷ []) }
    ensures serial { MayRunAll (twice false) [] [] (visit_at false (pos 0) ∷ visit_at false (pos 1) ∷ []) }
    ensures no_other { MayRunAll (twice false) [] [] (visit_at false (pos 1) ∷ visit_at false (pos 0) ∷ []) → ⊥ }
{}
