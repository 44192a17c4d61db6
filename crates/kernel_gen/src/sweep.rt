//! Sweeps of a stencil over a line of cells.

ghost use Rattle.std.specs.Prelude.{◌≡◌, IfOk, negsuc, pos};
ghost use Rattle.scop_syntax.specs.Tree.{binary, plus, read};
ghost use Rattle.scop_syntax.specs.View.{expression_of, program_of, tree_of};
ghost use Rattle.kernel_gen.specs.Programs.{near, sweep, sweep_loops, swept};

use crate::parts::{access, arrays, binary, counted, kernel, read, store};
use scop_syntax::{Access, Expr, Item, Kernel, Operator, Right};
use std::alloc::{AllocError, Global};

/// `A[i + shift]`.
fn near(alloc: Global, shift: i64) -> Result<Access, AllocError>
    ensures { IfOk result (λ access. access ≡ near shift) }
{
    access(alloc, 0, &[(&[0, 0, 0, 1], shift)])
}

/// `A[i-1] + A[i]`.
fn first_two(alloc: Global) -> Result<Expr, AllocError>
    ensures { IfOk result (λ value. expression_of value
        ≡ binary plus (read (near (negsuc 0))) (read (near (pos 0)))) }
{
    let left = near(alloc, -1)?;
    let right = near(alloc, 0)?;
    binary(alloc, Operator::Plus, read(left), read(right))
}

/// `A[i-1] + A[i] + A[i+1]`.
fn all_three(alloc: Global) -> Result<Expr, AllocError>
    ensures { IfOk result (λ value. expression_of value
        ≡ binary plus (binary plus (read (near (negsuc 0))) (read (near (pos 0)))) (read (near (pos 1)))) }
{
    let left = first_two(alloc)?;
    let right = near(alloc, 1)?;
    binary(alloc, Operator::Plus, left, read(right))
}

/// `A[i] = A[i-1] + A[i] + A[i+1];`
fn swept(alloc: Global) -> Result<Item, AllocError>
    ensures { IfOk result (λ item. tree_of item ≡ swept) }
{
    let place = near(alloc, 0)?;
    let value = all_three(alloc)?;
    Ok(store(place, Right::Assigned(value)))
}

/// The loops round it.
fn sweep_loops(alloc: Global) -> Result<Item, AllocError>
    ensures { IfOk result (λ item. tree_of item ≡ sweep_loops) }
{
    let item = swept(alloc)?;
    let item = counted(alloc, b"i", (&[0, 0, 0], 1), (&[0, 1, 0, -1], -2), item)?;
    counted(alloc, b"t", (&[0, 0], 0), (&[1, 0, -1], -1), item)
}

/// The kernel.
pub(crate) fn sweep(alloc: Global) -> Result<Kernel, AllocError>
    ensures { IfOk result (λ kernel. program_of kernel ≡ sweep) }
{
    let arrays = arrays(alloc, &[b"A"], 2, &[(&[0, 1], 0)])?;
    let item = sweep_loops(alloc)?;
    kernel(alloc, b"seidel", &[b"T", b"N"], arrays, item)
}
