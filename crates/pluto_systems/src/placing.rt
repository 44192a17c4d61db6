//! Forms over the unknowns of a dependence's two statements as forms over all columns of the objective.
ghost use Rattle.std.specs.Prelude.{◌≡◌, ◌++◌, IfOk, OnOk, take, drop, map};
ghost use Rattle.pluto_systems.specs.Placing.{is_end, placed_parts, placed};

use crate::columns::Columns;
use affine_forms::{Form, push};
use iteration_domains::{Numbers, form_from, push_zeros};
use std::alloc::{AllocError, Global};

/// The first so many numbers, and what is behind them.
fn cut_at(numbers: &[i128], count: usize) -> (&[i128], &[i128])
    ensures front { result.0.now ≡ take count numbers.now }
    ensures behind { result.1.now ≡ drop count numbers.now }
{
    if count < numbers.len() {
        numbers.split_at(count)
    } else {
        (numbers, &[])
    }
}

/// Whether a statement is one of the two.
fn is_one(source: usize, target: usize, s: usize) -> bool
    ensures { result ≡ is_end source target s }
{
    s == source || s == target
}

/// Appends the factors of the columns of all statements: those of the two, and 0 for all others.
fn place_parts(
    out: &mut Numbers,
    columns: &Columns,
    source: usize,
    target: usize,
    factors: &[i128],
) -> Result<(), AllocError>
    ensures { OnOk result (out.new.items ≡ out.old.items
        ++ placed_parts source target 0 columns.now.loops.now factors.now) }
{
    let loops = columns.loops;
    let mut rest = factors;
    for s in 0..loops.len() {
        let count = loops[s] + 1;
        if is_one(source, target, s) {
            let (own, behind) = cut_at(rest, count);
            out.extend_from_slice(own)?;
            rest = behind;
        } else {
            push_zeros(out, count)?;
        }
    }
    Ok(())
}

/// The form over all columns.
pub fn placed(
    alloc: Global,
    columns: &Columns,
    source: usize,
    target: usize,
    form: &Form,
) -> Result<Form, AllocError>
    ensures { IfOk result (λ f. f ≡ placed columns.now.parameters source target columns.now.loops.now form.now) }
{
    let (front, rest) = cut_at(form.coefficients(), columns.parameters + 1);
    let mut coefficients = Numbers::new(alloc);
    coefficients.extend_from_slice(front)?;
    place_parts(&mut coefficients, columns, source, target, rest)?;
    form_from(alloc, coefficients.as_slice(), form.constant())
}

/// Appends forms over all columns.
pub fn place_all(
    alloc: Global,
    out: &mut Vec<Form>,
    columns: &Columns,
    source: usize,
    target: usize,
    forms: &[Form],
) -> Result<(), AllocError>
    ensures { OnOk result (out.new.items ≡ out.old.items
        ++ map (placed columns.now.parameters source target columns.now.loops.now) forms.now) }
{
    for form in forms {
        let placed = placed(alloc, columns, source, target, form)?;
        push(out, placed)?;
    }
    Ok(())
}
