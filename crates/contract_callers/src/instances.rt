//! Callers of single instances.
ghost use Rattle.std.specs.Prelude.{◌≡◌, ℕ, length, map};
ghost use Rattle.scop_syntax.specs.Cells.{reads, written};
ghost use Rattle.scop_syntax.specs.Execution.{IsInside, cell_number, layout};
ghost use Rattle.scop_syntax.specs.Limits.{WithinLimits};
ghost use Rattle.scop_syntax.specs.Members.{In};
ghost use Rattle.scop_syntax.specs.Tree.{assigned, constant};
ghost use Rattle.scop_syntax.specs.View.{instance_of, program_of};
ghost use Rattle.scop_syntax.specs.Walk.{Visit, instance as numbers_of, walk_of};
ghost use Rattle.scop_meaning.specs.Instances.{IsVisitOf};

use scop_meaning::{cell, value};
use scop_syntax::{Extents, Instance, Kernel};

/// An instance that stores a constant stores it, by the clause of `value` of `scop_meaning`.
pub fn constant_stored(kernel: &Kernel, params: &[i64], instance: &Instance) -> u64
    requires limits { WithinLimits (program_of kernel.now) params.now }
    requires walked { In (instance_of instance.now) (map numbers_of (walk_of (program_of kernel.now) params.now)) }
    requires reads { (v : Visit) → IsVisitOf (program_of kernel.now) params.now (instance_of instance.now) v
        → 0 ≡ length (reads v.body) }
    ensures { (v : Visit) (c : ℕ) → IsVisitOf (program_of kernel.now) params.now (instance_of instance.now) v
        → v.body.right ≡ assigned (constant c) → result ≡ c }
{
    value(kernel, params, instance, &[])
}

/// The cell that an instance writes, by the clause of `cell` of `scop_meaning`.
pub fn cell_written(
    kernel: &Kernel,
    params: &[i64],
    extents: &Extents,
    instance: &Instance,
) -> usize
    requires limits { WithinLimits (program_of kernel.now) params.now }
    requires inside { IsInside (program_of kernel.now) params.now }
    requires extents { extents.now ≡ layout (program_of kernel.now) params.now }
    requires walked { In (instance_of instance.now) (map numbers_of (walk_of (program_of kernel.now) params.now)) }
    ensures { (v : Visit) → IsVisitOf (program_of kernel.now) params.now (instance_of instance.now) v
        → result ≡ cell_number extents.now (written v) }
{
    cell(kernel, params, extents, instance, 0)
}
