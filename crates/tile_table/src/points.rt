//! The point within loops that stand in one another, modulo 2^64.
ghost use Rattle.std.specs.Prelude.{◌+◌, ◌≤◌, length, map};
ghost use Rattle.scop_syntax.specs.declared.limits.TheConstants.{MOST_ENTRIES};
ghost use Rattle.tile_table.specs.Points.{point_in as exact_point};
ghost use Rattle.tile_table.specs.steps.Same.{AreSame};

use scop_meaning::{Point, enter_at, point_at};
use scop_syntax::Loop;

/// The point within these turns of `heads`, outermost first, where the parameters are `params`.
pub(crate) fn point_in(heads: &[&Loop], params: &[i64], turns: &[i64]) -> Point
    requires turns { length heads.now ≤ length turns.now }
    requires room { length params.now + length heads.now ≤ MOST_ENTRIES }
    ensures { AreSame result.items (exact_point (map (λ h. h.now) heads.now) params.now turns.now) }
{
    let mut point = point_at(params);
    for at in 0..heads.len() {
        enter_at(heads[at], turns[at], &mut point);
    }
    point
}
