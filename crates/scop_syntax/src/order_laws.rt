//! Orders that keep conflicts end alike, as contracts of functions that call the laws which their proofs use.
ghost use Rattle.std.specs.Prelude.{◌≡◌, ℕ, ℤ, List};
ghost use Rattle.scop_syntax.specs.Execution.{AreInside, IsInside, IsShaped, exec, layout, performed_all};
ghost use Rattle.scop_syntax.specs.Tree.{Program};
ghost use Rattle.scop_syntax.specs.Walk.{Visit, walk_of};
ghost use Rattle.scop_syntax.specs.ConflictOrders.{AreDistinct, IsOrderOf, KeepsConflicts, KeepsCovers};

use crate::cover_laws::conflicts_are_chains_of_covers;
use crate::walk_laws::walks_are_in_order;

/// Visits that are made in another order, each once, leave the same contents, where of each two places that conflict the
/// earlier one's visit is still made before the later one's and every subscript is inside.
pub fn orders_that_keep_conflicts_end_alike()
    ensures { (extents contents : List (List ℕ)) (visits order : List Visit) → IsShaped extents contents
        → AreInside extents visits → AreDistinct visits → IsOrderOf order visits → KeepsConflicts visits order
        → performed_all extents contents order ≡ performed_all extents contents visits }
{}

/// The visits of a program's walk, made in such an order, leave the arrays of its own execution.
pub fn orders_of_walks_end_as_they_do()
    ensures { (program : Program) (params : List ℤ) (contents : List (List ℕ)) (order : List Visit)
        → IsShaped (layout program params) contents → IsInside program params
        → IsOrderOf order (walk_of program params) → KeepsConflicts (walk_of program params) order
        → performed_all (layout program params) contents order ≡ exec program params contents }
{
    orders_that_keep_conflicts_end_alike();
    walks_are_in_order();
}

/// An order that has each visit once and keeps the covers keeps the conflicts.
pub fn orders_that_keep_covers_keep_conflicts()
    ensures { (visits order : List Visit) → AreDistinct order → KeepsCovers visits order
        → KeepsConflicts visits order }
{
    conflicts_are_chains_of_covers();
}
