//! Values of expressions.
ghost use Rattle.std.specs.Prelude.{◌≡◌, ◌+◌, ◌≤◌, drop, length};
ghost use Rattle.scop_syntax.specs.Cells.{reads_of};
ghost use Rattle.scop_syntax.specs.View.{expression_of, right_of};
ghost use Rattle.scop_syntax.specs.Values.{stored_by, value_on};
ghost use Rattle.scop_meaning.specs.Instances.{values_wanted};

use crate::operators::{combined, complemented, narrowed, negated, shifted_left, shifted_right};
use scop_syntax::{Expr, Right, wrapped_at};

/// The value of `expression` at `point`, where its reads have the values `reads` from `at` on; `at`
/// goes on behind them.
pub fn value_from(expression: &Expr, point: &[i64], reads: &[u64], at: &mut usize) -> u64
    requires { at.old + length (reads_of (expression_of expression.now)) ≤ length reads.now }
    ensures value { result ≡ value_on (expression_of expression.now) point.now (drop at.old reads.now) }
    ensures at { at.new ≡ at.old + length (reads_of (expression_of expression.now)) }
{
    match expression {
        Expr::Read(_) => {
            let value = reads[*at];
            *at += 1;
            value
        }
        Expr::Constant(value) => *value,
        Expr::Affine(form) => wrapped_at(form, point),
        Expr::Negated(operand) => negated(value_from(operand, point, reads, at)),
        Expr::Complemented(operand) => complemented(value_from(operand, point, reads, at)),
        Expr::Cast(operand) => value_from(operand, point, reads, at),
        Expr::Binary(operator, left, right) => {
            let first = value_from(left, point, reads, at);
            let second = value_from(right, point, reads, at);
            combined(*operator, first, second)
        }
        Expr::ShiftedLeft(operand, count) => {
            shifted_left(value_from(operand, point, reads, at), *count)
        }
        Expr::ShiftedRight(operand, count) => {
            shifted_right(value_from(operand, point, reads, at), *count)
        }
        Expr::Narrowed(_, operand) => narrowed(value_from(operand, point, reads, at)),
    }
}

/// What a statement with this right side stores at `point`, where its reads have the values `reads`.
pub fn stored_on(right: &Right, point: &[i64], reads: &[u64]) -> u64
    requires { length reads.now ≡ values_wanted (right_of right.now) }
    ensures { result ≡ stored_by (right_of right.now) point.now reads.now }
{
    let mut at = 0;
    match right {
        Right::Assigned(value) => value_from(value, point, reads, &mut at),
        Right::Combined(operator, value) => {
            at = 1;
            combined(
                *operator,
                reads[0],
                value_from(value, point, reads, &mut at),
            )
        }
        Right::ShiftedLeft(count) => shifted_left(reads[0], *count),
        Right::ShiftedRight(count) => shifted_right(reads[0], *count),
        Right::CombinedNarrow(operator, value) => {
            at = 1;
            narrowed(combined(
                *operator,
                reads[0],
                value_from(value, point, reads, &mut at),
            ))
        }
        Right::ShiftedLeftNarrow(count) => narrowed(shifted_left(reads[0], *count)),
    }
}
