//! Where the runs of forms stop, in the subject's words.
ghost use Rattle.std.specs.Prelude.{◌≡◌, ℤ, pos, List, Err, ◌↔◌};
ghost use Rattle.affine_forms.specs.Runs.{dot_run};
ghost use Rattle.affine_forms.specs.Stops.{StopsFrom};

use wide_math::Wide;

/// A dot product's run names a product or a sum exactly where that is the first that 128 bits do not hold.
pub fn dot_products_stop_at_the_first_wide_number()
    ensures { (xs ys : List ℤ) (w : Wide) → (dot_run xs ys ≡ Err w) ↔ StopsFrom (pos 0) xs ys w }
{}
