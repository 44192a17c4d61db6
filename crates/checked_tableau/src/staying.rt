//! Rows that a pivot only multiplies, since 0 stands in the pivot's column: their lowest terms stay.
ghost use Rattle.std.specs.Prelude.{◌≡◌, ◌*ℤ◌, All, true, IsTrue, FitsSigned};
ghost use Rattle.std.specs.Int.{w64};
ghost use Rattle.whole_numbers.specs.Fits.{fits};

use wide_math::held;

/// Whether each number has 64 bits.
fn are_narrow(row: &[i128]) -> bool
    ensures { result ≡ true → All (FitsSigned w64) row.now }
{
    for at in 0..row.len() {
        if i64::try_from(row[at]).is_err() {
            return false;
        }
    }
    true
}

/// Whether it is plain that each number times the factor has 128 bits.
#[inline]
pub fn surely_fit(row: &[i128], factor: i128) -> bool
    ensures { result ≡ true → All (λ x. IsTrue (fits (x *ℤ factor))) row.now }
{
    if factor == 1 {
        held(row);
        return true;
    }
    i64::try_from(factor).is_ok() && are_narrow(row)
}
