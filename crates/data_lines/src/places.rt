//! The place of a name among a kernel's parameters and arrays, and the width of an array's cells.

ghost use Rattle.std.specs.Prelude.{◌≡◌, ◌<◌, length, map, IfSome};
ghost use Rattle.scop_syntax.specs.View.{program_of};
ghost use Rattle.data_lines.specs.Sheets.{found, is_narrow, place_of, IsPlaceOf};

use scop_syntax::{Array, Kernel, Name};

/// The place of a name.
#[derive(Clone, Copy)]
pub(crate) enum Place {
    Nowhere,
    Parameter(usize),
    Array(usize),
}

/// The number of the parameter that has this name.
fn parameter_of(parameters: &[Name], name: &[u8]) -> Option<usize>
    ensures value { result ≡ found name.now (map (λ n. n.items) parameters.now) }
    ensures within { IfSome result (λ i. i < length parameters.now) }
{
    for (i, other) in parameters.iter().enumerate() {
        if other.as_slice() == name {
            return Some(i);
        }
    }
    None
}

/// The number of the array that has this name.
fn array_of(arrays: &[Array], name: &[u8]) -> Option<usize>
    ensures value { result ≡ found name.now (map (λ a. a.name) arrays.now) }
    ensures within { IfSome result (λ j. j < length arrays.now) }
{
    for (j, array) in arrays.iter().enumerate() {
        if array.name.as_slice() == name {
            return Some(j);
        }
    }
    None
}

/// The place of a name.
pub(crate) fn place_of(kernel: &Kernel, name: &[u8]) -> Place
    ensures value { result ≡ place_of (program_of kernel.now) name.now }
    ensures within { IsPlaceOf (length kernel.now.parameters.items) (length kernel.now.arrays.items) result }
{
    match parameter_of(&kernel.parameters, name) {
        Some(parameter) => Place::Parameter(parameter),
        None => match array_of(&kernel.arrays, name) {
            Some(array) => Place::Array(array),
            None => Place::Nowhere,
        },
    }
}

/// Whether an array has cells of 32 bits.
pub fn is_narrow(kernel: &Kernel, array: usize) -> bool
    ensures { result ≡ is_narrow (program_of kernel.now) array }
{
    match kernel.arrays.get(array) {
        Some(declared) => declared.narrow,
        None => false,
    }
}
