//! The arrays of a kernel that its statements only add to.
ghost use Rattle.std.specs.Prelude.{◌≡◌, IfOk, length, map};
ghost use Rattle.scop_syntax.specs.Cells.{reads_of};
ghost use Rattle.scop_syntax.specs.Reductions.{all_add, is_reduced, is_sum, is_written, marks, names, only_adds};
ghost use Rattle.scop_syntax.specs.Reductions.{reads_beside};
ghost use Rattle.scop_syntax.specs.View.{expression_of, program_of, right_of, statement_of};
ghost use Rattle.scop_syntax.specs.StandingView.{bodies_of};

use crate::standings::{Standing, standings_of};
use crate::tree::{Array, Expr, Kernel, Operator, Right, Stmt};
use std::alloc::{AllocError, Global};

/// Whether an expression reads the array.
fn reads_array(expression: &Expr, array: usize) -> bool
    ensures { result ≡ names array (reads_of (expression_of expression.now)) }
{
    match expression {
        Expr::Read(access) => access.array == array,
        Expr::Constant(_) => false,
        Expr::Affine(_) => false,
        Expr::Negated(operand) => reads_array(operand, array),
        Expr::Complemented(operand) => reads_array(operand, array),
        Expr::Cast(operand) => reads_array(operand, array),
        Expr::Binary(_, left, right) => reads_array(left, array) || reads_array(right, array),
        Expr::ShiftedLeft(operand, _) => reads_array(operand, array),
        Expr::ShiftedRight(operand, _) => reads_array(operand, array),
        Expr::Narrowed(_, operand) => reads_array(operand, array),
    }
}

/// Whether a right side reads the array beside the place.
fn reads_array_beside(right: &Right, array: usize) -> bool
    ensures { result ≡ names array (reads_beside (right_of right.now)) }
{
    match right {
        Right::Assigned(value) | Right::Combined(_, value) | Right::CombinedNarrow(_, value) => {
            reads_array(value, array)
        }
        Right::ShiftedLeft(_) | Right::ShiftedRight(_) | Right::ShiftedLeftNarrow(_) => false,
    }
}

/// Whether a right side is `+= e` or `-= e`.
fn is_a_sum(right: &Right) -> bool
    ensures { result ≡ is_sum (right_of right.now) }
{
    match right {
        Right::Combined(Operator::Plus, _) | Right::Combined(Operator::Minus, _) => true,
        _ => false,
    }
}

/// Whether a statement only adds to the array.
fn only_adds_to(statement: &Stmt, array: usize) -> bool
    ensures { result ≡ only_adds array (statement_of statement.now) }
{
    !reads_array_beside(&statement.right, array)
        && (statement.place.array != array || is_a_sum(&statement.right))
}

/// Whether one of the statements writes the array.
fn writes_array(statements: &[Standing<'_>], array: usize) -> bool
    ensures { result ≡ is_written array (bodies_of statements.now) }
{
    for statement in statements {
        let body = statement.body;
        if body.place.array == array {
            return true;
        }
    }
    false
}

/// Whether each of them only adds to it.
fn all_only_add_to(statements: &[Standing<'_>], array: usize) -> bool
    ensures { result ≡ all_add array (bodies_of statements.now) }
{
    for statement in statements {
        if !only_adds_to(statement.body, array) {
            return false;
        }
    }
    true
}

/// Whether an array has 64 bits, and the statements write it and only add to it.
fn is_only_added_to(statements: &[Standing<'_>], number: usize, array: &Array) -> bool
    ensures { result ≡ is_reduced (bodies_of statements.now) number array.now }
{
    !array.narrow && writes_array(statements, number) && all_only_add_to(statements, number)
}

/// The arrays that the kernel's statements only add to, in rising order.
pub fn marked_arrays(alloc: Global, kernel: &Kernel) -> Result<Vec<usize>, AllocError>
    ensures { IfOk result (λ v. v.items ≡ marks (program_of kernel.now)) }
{
    let statements = standings_of(alloc, kernel)?;
    let mut marked = Vec::new(alloc);
    for (number, array) in kernel.arrays.iter().enumerate() {
        if is_only_added_to(&statements, number, array) {
            marked.push(number)?;
        }
    }
    Ok(marked)
}
