//! The extents of a kernel's arrays as a run keeps them: evaluated once, without memory.
ghost use Rattle.std.specs.Prelude.{◌≡◌, ◌<ℤ◌, ◌≤ℤ◌, ◌<◌, ◌≤◌, ◌^◌, ℕ, List, [], All, length, map, pos, slice_index_or};
ghost use Rattle.whole_numbers.specs.Affine.{value_of};
ghost use Rattle.scop_syntax.specs.Cells.{values};
ghost use Rattle.scop_syntax.specs.Execution.{layout, size_of};
ghost use Rattle.scop_syntax.specs.Limits.{WithinLimits};
ghost use Rattle.scop_syntax.specs.View.{program_of};

use arrayvec::ArrayVec;
use scop_syntax::{Aff, Kernel, MOST_ARRAYS, MOST_EXTENTS, cells_lie_within_22_bits, wrapped_at};
use std::marker::Model;

/// The extents of one array, outermost first.
type Sizes = ArrayVec<u64, MOST_EXTENTS>;

/// The extents of each array in the order of declaration. Contracts see a list of lists of numbers.
#[derive(Drop)]
pub struct Layout {
    arrays: ArrayVec<Sizes, MOST_ARRAYS>,
}

impl Model for Layout {
    ghost Value = { List (List ℕ) };

    ghost view = { λ e. map (λ sizes. sizes.items) e.arrays.items };
}

/// The extents of one array for `params`.
fn sizes_at(extents: &[Aff], params: &[i64]) -> Sizes
    requires few { length extents.now ≤ 4 }
    requires low { All (λ form. pos 0 ≤ℤ value_of form params.now) extents.now }
    requires high { All (λ form. value_of form params.now <ℤ pos (2 ^ 64)) extents.now }
    ensures { result.items ≡ map size_of (values extents.now params.now) }
{
    let mut sizes = ArrayVec::new();
    for extent in extents {
        sizes.push(wrapped_at(extent, params));
    }
    sizes
}

impl Layout {
    /// The extents of the kernel's arrays for `params`.
    pub fn of(kernel: &Kernel, params: &[i64]) -> Self
        requires { WithinLimits (program_of kernel.now) params.now }
        ensures { result ≡ layout (program_of kernel.now) params.now }
    {
        cells_lie_within_22_bits();
        let mut arrays = ArrayVec::new();
        for array in &kernel.arrays {
            arrays.push(sizes_at(&array.extents, params));
        }
        Layout { arrays }
    }

    /// The extents of array `array`.
    pub fn array(&self, array: usize) -> &[u64]
        requires { array < length self.now }
        ensures { result.now ≡ slice_index_or self.now array [] }
    {
        self.arrays[array].as_slice()
    }
}
