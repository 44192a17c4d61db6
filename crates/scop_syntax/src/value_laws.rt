//! Laws of values, as the contracts of functions that do nothing.
ghost use Rattle.std.specs.Prelude.{ℕ, ◌^◌, ◌<◌, ℤ, List, All};
ghost use Rattle.scop_syntax.specs.Tree.{Program, Right};
ghost use Rattle.scop_syntax.specs.Kernel.{IsKernel, IsRight, narrow_arrays};
ghost use Rattle.scop_syntax.specs.Widths.{HoldTypes, HoldWidths};
ghost use Rattle.scop_syntax.specs.Execution.{before_place, exec, layout};
ghost use Rattle.scop_syntax.specs.Walk.{walk_of};
ghost use Rattle.scop_syntax.specs.Values.{stored_by};

/// What a statement stores lies below 2^64 where what it reads does.
pub fn values_stay_below_2_64()
    ensures { (ranks : List ℕ) (n : ℕ) (right : Right) (point : List ℤ) (values : List ℕ)
        → IsRight ranks n right → All (λ v. v < 2 ^ 64) values → stored_by right point values < 2 ^ 64 }
{}

/// Where no cell of an array of 32 bits holds more before a run, none does before any place of it, nor behind it.
pub fn narrow_cells_stay_narrow()
    ensures before { (program : Program) (params : List ℤ) (contents : List (List ℕ)) (j : ℕ) → IsKernel program
        → HoldWidths (narrow_arrays program) contents → HoldWidths (narrow_arrays program)
        (before_place (layout program params) contents (walk_of program params) j) }
    ensures behind { (program : Program) (params : List ℤ) (contents : List (List ℕ)) → IsKernel program
        → HoldWidths (narrow_arrays program) contents
        → HoldWidths (narrow_arrays program) (exec program params contents) }
{}

/// Where each cell holds a number of its array's type before a run, each does before any place of it.
pub fn cells_hold_numbers_of_their_types()
    ensures { (program : Program) (params : List ℤ) (contents : List (List ℕ)) (j : ℕ) → IsKernel program
        → HoldTypes (narrow_arrays program) contents → HoldTypes (narrow_arrays program)
        (before_place (layout program params) contents (walk_of program params) j) }
{}
