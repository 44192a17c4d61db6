//! Instances of a tile whose code is a join, done on a row of cells by the lanes of their four cells.
ghost use Rattle.std.specs.Prelude.{◌≡◌, ℕ, ℤ, List};
ghost use Rattle.scop_syntax.specs.Walk.{Instance};
ghost use Rattle.tile_table.specs.Joins.{IsJoinAt};
ghost use Rattle.tile_table.specs.declared.table.Row.{Row as AnyRow};
ghost use Rattle.tile_core.specs.Plans.{places_in, plain_shape};
ghost use Rattle.tile_core.specs.Ranks.{place_in};
ghost use Rattle.tile_core.specs.declared.plan.Plan.{Plan as AnyPlan};
ghost use Rattle.tile_core.specs.steps.Acts.{after_instances, after_place};
ghost use Rattle.tile_core.specs.steps.Joins.{AreJoinedFrom, AreWithin, IsJoinedAt, StandJoined};
ghost use Rattle.whole_numbers.specs.Lists.{sums};

use tile_table::JoinLanes;

/// Does the instance at which the lanes of a join stand, and takes them one step on.
#[inline]
fn do_join(cells: &mut [u64], lanes: &mut JoinLanes)
    requires { AreWithin lanes.old cells.old }
    ensures cells { (plan : AnyPlan) (row : AnyRow) (steps : List ℤ) (x : Instance)
        → IsJoinedAt plan row steps x lanes.old
        → cells.new ≡ after_place (plain_shape plan) (place_in (places_in plan) x) cells.old }
    ensures lanes { (row : AnyRow) (steps turns : List ℤ) → IsJoinAt row steps turns lanes.old
        → IsJoinAt row steps (sums turns steps) lanes.new }
{
    let first = cells[lanes.first.at as usize];
    let second = cells[lanes.second.at as usize];
    let third = cells[lanes.third.at as usize];
    cells[lanes.place.at as usize] = lanes.join.of(first, second, third);
    lanes.go_on();
}

/// Does so many instances, at the first of which the lanes of a join stand.
pub(crate) fn do_joins(cells: &mut [u64], mut lanes: JoinLanes, count: usize)
    requires { StandJoined lanes count cells.old }
    ensures { (plan : AnyPlan) (row : AnyRow) (steps : List ℤ) (x : Instance) (t k : ℕ)
        → AreJoinedFrom plan row steps x t k count lanes
        → cells.new ≡ after_instances (plain_shape plan) t k count cells.old }
{
    for _ in 0..count {
        do_join(cells, &mut lanes);
    }
}
