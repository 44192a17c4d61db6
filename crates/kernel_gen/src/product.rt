//! The product of two matrices.

ghost use Rattle.std.specs.Prelude.{◌≡◌, [], ◌∷◌, IfOk};
ghost use Rattle.scop_syntax.specs.Tree.{binary, read, times};
ghost use Rattle.scop_syntax.specs.View.{expression_of, program_of, tree_of};
ghost use Rattle.kernel_gen.specs.Programs.{i_of_cube, j_of_cube, k_of_cube, multiplied, place, product, product_loops};

use crate::parts::{Plain, access, arrays, binary, counted, kernel, read, store};
use scop_syntax::{Expr, Item, Kernel, Operator, Right};
use std::alloc::{AllocError, Global};

/// The iterators, over N and i, j and k.
const I: Plain = (&[0, 1, 0, 0], 0);

const J: Plain = (&[0, 0, 1, 0], 0);

const K: Plain = (&[0, 0, 0, 1], 0);

/// `A[i][k] * B[k][j]`.
fn factors(alloc: Global) -> Result<Expr, AllocError>
    ensures { IfOk result (λ value. expression_of value ≡ binary times
        (read (place 0 (i_of_cube ∷ k_of_cube ∷ []))) (read (place 1 (k_of_cube ∷ j_of_cube ∷ [])))) }
{
    let left = access(alloc, 0, &[I, K])?;
    let right = access(alloc, 1, &[K, J])?;
    binary(alloc, Operator::Times, read(left), read(right))
}

/// `C[i][j] += A[i][k] * B[k][j];`
fn multiplied(alloc: Global) -> Result<Item, AllocError>
    ensures { IfOk result (λ item. tree_of item ≡ multiplied) }
{
    let place = access(alloc, 2, &[I, J])?;
    let value = factors(alloc)?;
    Ok(store(place, Right::Combined(Operator::Plus, value)))
}

/// The loops round it.
fn product_loops(alloc: Global) -> Result<Item, AllocError>
    ensures { IfOk result (λ item. tree_of item ≡ product_loops) }
{
    let item = multiplied(alloc)?;
    let item = counted(alloc, b"k", (&[0, 0, 0], 0), (&[1, 0, 0, -1], -1), item)?;
    let item = counted(alloc, b"j", (&[0, 0], 0), (&[1, 0, -1], -1), item)?;
    counted(alloc, b"i", (&[0], 0), (&[1, -1], -1), item)
}

/// The kernel.
pub(crate) fn product(alloc: Global) -> Result<Kernel, AllocError>
    ensures { IfOk result (λ kernel. program_of kernel ≡ product) }
{
    let arrays = arrays(alloc, &[b"A", b"B", b"C"], 1, &[(&[1], 0), (&[1], 0)])?;
    let item = product_loops(alloc)?;
    kernel(alloc, b"mm", &[b"N"], arrays, item)
}
