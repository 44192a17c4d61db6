//! Values in boxes, in pairs and behind others, where there is memory for them.
ghost use Rattle.std.specs.Prelude.{[], ◌++◌, ◌∷◌, ◌≡◌, IfOk, Ok, OnOk};

use std::alloc::{AllocError, Global};

// A value behind others.
pub(crate) fn push_behind<T: Drop>(values: &mut Vec<T>, value: T) -> Result<(), AllocError>
    ensures { OnOk result (values.new.items ≡ values.old.items ++ value ∷ []) }
{
    values.push(value)?;
    Ok(())
}

// A value in a box.
pub(crate) fn in_box<T: Drop>(alloc: Global, value: T) -> Result<Box<T>, AllocError>
    ensures { IfOk result (λ b. b.value ≡ value) }
{
    let value = Box::new(alloc, value)?;
    Ok(value)
}

// Two values in boxes.
pub(crate) fn boxed<T: Drop>(
    alloc: Global,
    left: T,
    right: T,
) -> Result<(Box<T>, Box<T>), AllocError>
    ensures left { IfOk result (λ boxes. boxes.0.value ≡ left) }
    ensures right { IfOk result (λ boxes. boxes.1.value ≡ right) }
{
    match in_box(alloc, left) {
        Err(_) => {
            drop(right);
            Err(AllocError)
        }
        Ok(left) => match in_box(alloc, right) {
            Err(_) => {
                drop(left);
                Err(AllocError)
            }
            Ok(right) => Ok((left, right)),
        },
    }
}

// Both values, where there was memory for both.
pub(crate) fn both<T: Drop>(
    first: Result<T, AllocError>,
    second: Result<T, AllocError>,
) -> Result<(T, T), AllocError>
    ensures first { IfOk result (λ pair. first ≡ Ok pair.0) }
    ensures second { IfOk result (λ pair. second ≡ Ok pair.1) }
{
    match first {
        Err(_) => {
            drop(second);
            Err(AllocError)
        }
        Ok(first) => match second {
            Err(_) => {
                drop(first);
                Err(AllocError)
            }
            Ok(second) => Ok((first, second)),
        },
    }
}
