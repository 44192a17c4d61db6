//! The tests of a guard at a point.
ghost use Rattle.std.specs.Prelude.{◌≡◌, FitsSigned, map};
ghost use Rattle.std.specs.Int.{w64};
ghost use Rattle.whole_numbers.specs.Affine.{value_of};
ghost use Rattle.scop_syntax.specs.View.{test_of};
ghost use Rattle.scop_syntax.specs.Walk.{all_hold as tests_hold, holds as test_holds};
ghost use Rattle.scop_syntax.specs.Fits.{TestsFit};
ghost use Rattle.scop_syntax.specs.Kernel.{test_form};

use scop_syntax::{Test, exact_at};

/// Whether a test holds at `point`.
fn holds_at(test: &Test, point: &[i64]) -> bool
    requires { FitsSigned w64 (value_of (test_form (test_of test.now)) point.now) }
    ensures { result ≡ test_holds (test_of test.now) point.now }
{
    match test {
        Test::AtLeast(form) => 0 <= exact_at(form, point),
        Test::Equal(form) => exact_at(form, point) == 0,
    }
}

/// Whether all tests hold at `point`.
pub fn all_hold(tests: &[Test], point: &[i64]) -> bool
    requires { TestsFit (map test_of tests.now) point.now }
    ensures { result ≡ tests_hold (map test_of tests.now) point.now }
{
    for test in tests {
        if !holds_at(test, point) {
            return false;
        }
    }
    true
}
