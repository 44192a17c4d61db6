//! The accesses of a statement by their numbers.
ghost use Rattle.std.specs.Prelude.{◌≡◌, ◌<◌, ◌≤◌, Some, length, slice_get};
ghost use Rattle.scop_syntax.specs.Cells.{accesses, reads as reads_by, reads_of};
ghost use Rattle.scop_syntax.specs.View.{expression_of, statement_of};

use crate::tree::{Access, Expr, Right, Stmt};

/// How many reads stand in `expression`.
fn count_reads(expression: &Expr) -> usize
    requires { length (reads_of (expression_of expression.now)) ≤ 16 }
    ensures { result ≡ length (reads_of (expression_of expression.now)) }
{
    match expression {
        Expr::Read(_) => 1,
        Expr::Constant(_) => 0,
        Expr::Affine(_) => 0,
        Expr::Negated(operand) => count_reads(operand),
        Expr::Complemented(operand) => count_reads(operand),
        Expr::Cast(operand) => count_reads(operand),
        Expr::Binary(_, left, right) => count_reads(left) + count_reads(right),
        Expr::ShiftedLeft(operand, _) => count_reads(operand),
        Expr::ShiftedRight(operand, _) => count_reads(operand),
        Expr::Narrowed(_, operand) => count_reads(operand),
    }
}

/// The read of `expression` with this number, from left to right from 0.
fn read_at(expression: &Expr, number: usize) -> &Access
    requires there { number < length (reads_of (expression_of expression.now)) }
    requires few { length (reads_of (expression_of expression.now)) ≤ 16 }
    ensures { slice_get (reads_of (expression_of expression.now)) number ≡ Some result.now }
{
    match expression {
        Expr::Read(access) => access,
        Expr::Constant(_) => unreachable!(),
        Expr::Affine(_) => unreachable!(),
        Expr::Negated(operand) => read_at(operand, number),
        Expr::Complemented(operand) => read_at(operand, number),
        Expr::Cast(operand) => read_at(operand, number),
        Expr::Binary(_, left, right) => {
            let before = count_reads(left);
            if number < before {
                read_at(left, number)
            } else {
                read_at(right, number - before)
            }
        }
        Expr::ShiftedLeft(operand, _) => read_at(operand, number),
        Expr::ShiftedRight(operand, _) => read_at(operand, number),
        Expr::Narrowed(_, operand) => read_at(operand, number),
    }
}

/// How many reads `statement` has.
pub fn read_count(statement: &Stmt) -> usize
    requires { length (reads_by (statement_of statement.now)) ≤ 16 }
    ensures { result ≡ length (reads_by (statement_of statement.now)) }
{
    match &statement.right {
        Right::Assigned(value) => count_reads(value),
        Right::Combined(_, value) | Right::CombinedNarrow(_, value) => count_reads(value) + 1,
        Right::ShiftedLeft(_) | Right::ShiftedRight(_) | Right::ShiftedLeftNarrow(_) => 1,
    }
}

/// The access of `statement` with this number: 0 is the place that is written.
pub fn access_at(statement: &Stmt, number: usize) -> &Access
    requires there { number < length (accesses (statement_of statement.now)) }
    requires few { length (reads_by (statement_of statement.now)) ≤ 16 }
    ensures { slice_get (accesses (statement_of statement.now)) number ≡ Some result.now }
{
    if number == 0 {
        return &statement.place;
    }
    match &statement.right {
        Right::Assigned(value) => read_at(value, number - 1),
        Right::Combined(_, value) | Right::CombinedNarrow(_, value) => {
            if number == 1 {
                &statement.place
            } else {
                read_at(value, number - 2)
            }
        }
        Right::ShiftedLeft(_) | Right::ShiftedRight(_) | Right::ShiftedLeftNarrow(_) =>
            &statement.place,
    }
}
