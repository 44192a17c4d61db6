//! What checked arithmetic means: a result is the exact one and fits 128 bits, an error names its
//! operation and stands exactly where the exact result does not fit.
ghost use Rattle.std.specs.Prelude.{◌≡◌, ℤ, ◌↔◌, IsTrue, IsFalse};
ghost use Rattle.whole_numbers.specs.Fits.{fits};
ghost use Rattle.wide_math.specs.Checked.{checked, wide};

use crate::{Op, Wide};

/// An operation whose exact result is `z` gives exactly `z` or exactly its error.
pub fn checked_operations_are_exact()
    ensures result { (op : Op) (a b z y : ℤ) → (checked op a b z ≡ Ok y) ↔ ((y ≡ z) × IsTrue (fits z)) }
    ensures error { (op : Op) (a b z : ℤ) (e : Wide)
        → (checked op a b z ≡ Err e) ↔ ((e ≡ wide op a b) × IsFalse (fits z)) }
{}
