//! The law of the last writers, as the contract of a function that does nothing.
ghost use Rattle.std.specs.Prelude.{◌≡◌, ℕ, ℤ, List, Some, map, slice_get};
ghost use Rattle.scop_syntax.specs.Cells.{Cell, cells_read};
ghost use Rattle.scop_syntax.specs.Execution.{IsCell, IsInside, IsShaped, exec, held, layout, value_stored_at};
ghost use Rattle.scop_syntax.specs.Tree.{Program};
ghost use Rattle.scop_syntax.specs.Values.{stored_by};
ghost use Rattle.scop_syntax.specs.Walk.{Visit, walk_of};
ghost use Rattle.scop_meaning.specs.LastWrites.{left_at_the_end, left_before};

use scop_syntax::{cells_hold_the_last_write, reads_see_the_last_write};

/// After the execution each cell holds what its last writer stores, else what stood there at first; and what an
/// instance stores is computed from what the last writers of the cells that it reads store, else from what stood
/// there at first.
pub fn executions_go_by_last_writers()
    ensures cells { (program : Program) (params : List ℤ) (contents : List (List ℕ)) (c : Cell)
        → IsInside program params → IsShaped (layout program params) contents → IsCell (layout program params) c
        → held (layout program params) (exec program params contents) c
        ≡ left_at_the_end program params contents c }
    ensures values { (program : Program) (params : List ℤ) (contents : List (List ℕ)) (j : ℕ) (v : Visit)
        → IsInside program params → IsShaped (layout program params) contents
        → slice_get (walk_of program params) j ≡ Some v
        → value_stored_at (layout program params) contents (walk_of program params) j
        ≡ stored_by v.body.right v.point (map (left_before program params contents j) (cells_read v)) }
{
    cells_hold_the_last_write();
    reads_see_the_last_write();
}
