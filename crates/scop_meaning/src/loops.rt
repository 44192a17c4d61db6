//! The head of a loop at a point: the iterator of a turn, and how many turns there are.
ghost use Rattle.std.specs.Prelude.{◌≡◌, ◌++◌, ◌∷◌, ◌<◌, ◌≤◌, ◌^◌, ◌+ℤ◌, ◌*ℤ◌, [], FitsSigned, length, pos};
ghost use Rattle.std.specs.Int.{int_wrap, w64};
ghost use Rattle.whole_numbers.specs.Affine.{value_of};
ghost use Rattle.scop_syntax.specs.Fits.{TurnFits};
ghost use Rattle.scop_syntax.specs.Kernel.{IsHead};
ghost use Rattle.scop_syntax.specs.Walk.{RunsFor, condition_at, turn_point};
ghost use Rattle.scop_meaning.specs.Conditions.{CanTurn};
ghost use Rattle.scop_syntax.specs.declared.limits.TheConstants.{MOST_ENTRIES};

use arrayvec::ArrayVec;
use scop_syntax::{Loop, MOST_ENTRIES, exact_at, value_at, with_product};

/// The parameters, then the iterators of the loops that the run stands in, outermost first.
pub type Point = ArrayVec<i64, MOST_ENTRIES>;

/// The parameters alone.
pub fn point_at(params: &[i64]) -> Point
    requires { length params.now ≤ MOST_ENTRIES }
    ensures { result.items ≡ params.now }
{
    let mut point: Point = ArrayVec::new();
    for param in params {
        point.push(*param);
    }
    point
}

/// Puts the iterator of turn `turn` on the stack, where the loop's first is `first`.
pub fn enter_turn(head: &Loop, first: i64, turn: u64, point: &mut Point)
    requires { CanTurn MOST_ENTRIES head.now first turn point.old.items }
    ensures { point.new.items ≡ turn_point head.now point.old.items (pos turn) }
{
    point.push(with_product(first, head.stride, turn as i64));
}

/// Puts the iterator of turn `turn` on the stack, modulo 2^64: it is exact where it fits, whatever the parts of its sum
/// are.
pub fn enter_at(head: &Loop, turn: i64, point: &mut Point)
    requires { length point.old.items < MOST_ENTRIES }
    ensures wrapped { point.new.items ≡ point.old.items
        ++ int_wrap w64 (value_of head.now.first point.old.items +ℤ (head.now.stride *ℤ turn)) ∷ [] }
    ensures fitting { FitsSigned w64 (value_of head.now.first point.old.items +ℤ (head.now.stride *ℤ turn))
        → point.new.items ≡ turn_point head.now point.old.items turn }
{
    let first = value_at(&head.first, point.as_slice());
    point.push(with_product(first, head.stride, turn));
}

/// How many turns the loop has, whose first iterator is `first`: its condition falls by the stride.
pub fn turns_of(head: &Loop, first: i64, point: &mut Point) -> u64
    requires room { length point.old.items < MOST_ENTRIES }
    requires first { first ≡ value_of head.now.first point.old.items }
    requires head { IsHead (length point.old.items) head.now }
    requires fits { TurnFits head.now point.old.items 0 }
    ensures turns { RunsFor (λ k. condition_at head.now point.old.items (pos k)) result }
    ensures few { result ≤ 2 ^ 63 }
    ensures point { point.new.items ≡ point.old.items }
{
    enter_turn(head, first, 0, point);
    let condition = exact_at(&head.condition, point.as_slice());
    let _first = point.pop();
    if condition < 0 {
        0
    } else {
        condition as u64 / head.stride.unsigned_abs() + 1
    }
}
