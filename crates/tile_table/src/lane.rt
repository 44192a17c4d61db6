//! Lanes: the values of a form along turns that go on by equal steps. A form is linear in the turns, so each value is
//! the one before it and a fixed step, modulo 2^64
//! (F. E. Allen, J. Cocke and K. Kennedy, "Reduction of operator strength", 1981).
ghost use Rattle.std.specs.Prelude.{◌≡◌, ℤ, ◌≤◌, List, length};
ghost use Rattle.whole_numbers.specs.Affine.{Affine};
ghost use Rattle.whole_numbers.specs.Lists.{sums};
ghost use Rattle.tile_table.specs.Lanes.{AreLanes, IsLane};

use scop_syntax::{Aff, value_at, wrapped_at};

/// A number that goes on by equal steps, modulo 2^64.
#[derive(Clone, Copy)]
pub struct Lane {
    pub at: u64,
    pub step: u64,
}

impl Lane {
    /// The lane of a form from these turns on, by these steps.
    pub(crate) fn of(form: &Aff, turns: &[i64], steps: &[i64]) -> Lane
        ensures { IsLane form.now steps.now turns.now result }
    {
        Lane {
            at: wrapped_at(form, turns),
            step: value_at(form, steps)
                .wrapping_sub(form.constant)
                .cast_unsigned(),
        }
    }

    /// Takes it one step on.
    #[inline]
    pub(crate) fn go_on(&mut self)
        ensures { (form : Affine) (steps turns : List ℤ) → IsLane form steps turns self.old
            → IsLane form steps (sums turns steps) self.new }
    {
        self.at = self.at.wrapping_add(self.step);
    }
}

/// Lays the lane of each form, from these turns on, by these steps.
pub(crate) fn lay_all(forms: &[Aff], lanes: &mut [Lane], turns: &[i64], steps: &[i64])
    requires { length forms.now ≤ length lanes.old }
    ensures { AreLanes forms.now steps.now turns.now lanes.new }
{
    for at in 0..forms.len() {
        lanes[at] = Lane::of(&forms[at], turns, steps);
    }
}

/// Takes the first lanes one step on.
#[inline]
pub(crate) fn go_on_all(lanes: &mut [Lane], count: usize)
    requires { count ≤ length lanes.old }
    ensures { (forms : List Affine) (steps turns : List ℤ) → length forms ≡ count
        → AreLanes forms steps turns lanes.old → AreLanes forms steps (sums turns steps) lanes.new }
{
    for at in 0..count {
        lanes[at].go_on();
    }
}
