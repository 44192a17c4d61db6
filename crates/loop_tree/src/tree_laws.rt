//! Laws of loop trees, as contracts of functions that do nothing: in which parallel loops a visit stands, and which
//! turns it gives.
ghost use Rattle.std.specs.Prelude.{◌≡◌, Bool, List, ℤ};
ghost use Rattle.scop_syntax.specs.Members.{In};
ghost use Rattle.loop_tree.specs.Marks.{MarksAll, ShowsAll, marked};
ghost use Rattle.loop_tree.specs.Scans.{key};
ghost use Rattle.loop_tree.specs.Tree.{Trees};
ghost use Rattle.loop_tree.specs.Walk.{Visit, walk_all};

/// Each visit stands in the loops that are marked, and gives the turns of its key.
pub fn marks_are_the_parallel_loops()
    ensures parallel { (bs : List Bool) (ts : Trees) (params outer : List ℤ) → MarksAll bs ts
        → (v : Visit) → In v (walk_all ts params outer) → v.parallel ≡ marked bs v.values }
    ensures turns { (g : List ℤ → List ℤ) (ts : Trees) (params outer : List ℤ) → ShowsAll g ts params outer
        → (v : Visit) → In v (walk_all ts params outer) → v.turns ≡ g (key v) }
{}
