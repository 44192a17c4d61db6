//! Rows for a side on which sets share none: of each set a row is taken, all with one part in the dimensions once they
//! are multiplied. The row of the greatest numbers of their multiples holds where one of them does, since no parameter is
//! negative.

ghost use Rattle.std.specs.Prelude.{◌≡◌, suc, ◌+◌, ◌<◌, ◌≤◌, ◌^◌, ◌++◌, pos, ◌≤ℤ◌, List, All, IfOk, IfSome, OnOk};
ghost use Rattle.std.specs.Prelude.{length, unsigned_abs};
ghost use Rattle.whole_numbers.specs.Affine.{Affine, multiple_of_form};
ghost use Rattle.whole_numbers.specs.Content.{lowest_of_form};
ghost use Rattle.affine_forms.specs.Parts.{variables_of};
ghost use Rattle.plain_scan.specs.Between.{HasSmallNumbers};
ghost use Rattle.plain_scan.specs.Hulls.{AreHullRows, IsAlike, IsHullRow};
ghost use Rattle.plain_scan.specs.steps.Weaker.{IsAbove, IsAboveSome, greater_form, greater_numbers};

use crate::hull::same;
use crate::numbers::{greater, has_small_numbers};
use crate::set_outline::Outline;
use affine_forms::{Form, FormStop};
use std::alloc::{AllocError, Global};
use wide_math::{cross, gcd_of_sizes};

/// The greater of the numbers, one by one.
fn greater_numbers(alloc: Global, xs: &[i128], ys: &[i128]) -> Result<Vec<i128>, AllocError>
    requires { length xs.now ≡ length ys.now }
    ensures { IfOk result (λ v. v.items ≡ greater_numbers xs.now ys.now) }
{
    let mut out = Vec::new(alloc);
    for at in 0..xs.len() {
        out.push(greater(xs[at], ys[at]))?;
    }
    Ok(out)
}

/// The form of the greater numbers of two, in lowest terms.
fn greater_form(alloc: Global, row: &Form, other: &Form) -> Result<Form, AllocError>
    requires { variables_of row.now ≡ variables_of other.now }
    ensures { IfOk result (λ f. f ≡ lowest_of_form (greater_form row.now other.now)) }
{
    let numbers = greater_numbers(alloc, row.coefficients(), other.coefficients())?;
    match Form::of(alloc, &numbers, greater(row.constant(), other.constant())) {
        Err(_) => Err(AllocError),
        Ok(mut form) => {
            form.lower();
            Ok(form)
        }
    }
}

/// The row of the greater numbers of two rows of one part in so many dimensions, if they are small; None of others.
fn above(
    alloc: Global,
    row: &Form,
    other: &Form,
    dimensions: usize,
) -> Result<Option<Form>, AllocError>
    requires sized { variables_of row.now ≡ variables_of other.now }
    requires inside { dimensions ≤ variables_of row.now }
    ensures { IfOk result (λ found. IfSome found (IsAbove dimensions row.now other.now)) }
{
    if !same(
        &row.coefficients()[..dimensions],
        &other.coefficients()[..dimensions],
    ) {
        return Ok(None);
    }
    let form = greater_form(alloc, row, other)?;
    if has_small_numbers(&form) {
        Ok(Some(form))
    } else {
        Ok(None)
    }
}

/// The multiple of the row, if 128 bits hold its numbers.
fn multiple(row: &Form, factor: i128) -> Result<Option<Form>, AllocError>
    ensures { IfOk result (λ found. IfSome found (λ f. f ≡ multiple_of_form factor row.now)) }
{
    match row.scaled(factor) {
        Ok(form) => Ok(Some(form)),
        Err(FormStop::Wide(_)) => Ok(None),
        Err(FormStop::NoMemory) => Err(AllocError),
    }
}

/// How often the divisor goes into the number's size.
fn part_of(number: i128, divisor: u128) -> i128
    requires { unsigned_abs number ≤ 2 ^ 40 }
    ensures { pos 0 ≤ℤ result }
{
    let size = number.unsigned_abs();
    if divisor < 2 {
        size as i128
    } else {
        (size / divisor) as i128
    }
}

/// The row above the least multiples of two rows whose coefficients at the place are of one size, if they have one part
/// in the dimensions up to the place, and the numbers are small.
fn joined(alloc: Global, row: &Form, other: &Form, place: usize) -> Result<Option<Form>, AllocError>
    requires sized { variables_of other.now ≡ variables_of row.now }
    requires inside { place < variables_of row.now }
    requires row { HasSmallNumbers row.now }
    requires other { HasSmallNumbers other.now }
    ensures { IfOk result (λ found. IfSome found (IsAbove (suc place) row.now other.now)) }
{
    let own = row.coefficients()[place];
    let its = other.coefficients()[place];
    let divisor = gcd_of_sizes(own.unsigned_abs(), its.unsigned_abs());
    match multiple(row, part_of(its, divisor))? {
        None => Ok(None),
        Some(left) => match multiple(other, part_of(own, divisor))? {
            None => Ok(None),
            Some(right) => above(alloc, &left, &right, place + 1),
        },
    }
}

/// Whether the numbers up to the place are in one proportion, a positive one.
fn are_parallel(xs: &[i128], ys: &[i128], place: usize) -> bool
    requires sized { length ys.now ≡ length xs.now }
    requires inside { place < length xs.now }
{
    if xs[place].signum() != ys[place].signum() {
        return false;
    }
    for at in 0..place {
        match cross(xs[at], ys[place], ys[at], xs[place]) {
            Ok(0) => {}
            _ => return false,
        }
    }
    true
}

/// How many numbers behind the place are in another proportion than those at the place.
fn differing(xs: &[i128], ys: &[i128], place: usize) -> usize
    requires sized { length ys.now ≡ length xs.now }
    requires inside { place < length xs.now }
{
    let mut count = 0;
    for at in place + 1..xs.len() {
        match cross(xs[at], ys[place], ys[at], xs[place]) {
            Ok(0) => {}
            _ => count += 1,
        }
    }
    count
}

/// The place of the row of those with a parallel part in the dimensions that differs least behind it, the first such.
fn nearest(rows: &[Form], row: &Form, place: usize) -> Option<usize>
    requires sized { All (λ f. variables_of f ≡ variables_of row.now) rows.now }
    requires inside { place < variables_of row.now }
    ensures { IfSome result (λ at. at < length rows.now) }
{
    let mut best = None;
    let mut least = usize::MAX;
    for at in 0..rows.len() {
        if are_parallel(row.coefficients(), rows[at].coefficients(), place) {
            let count = differing(row.coefficients(), rows[at].coefficients(), place);
            if count < least {
                best = Some(at);
                least = count;
            }
        }
    }
    best
}

/// The row above the row and the nearest of these, if there is one.
fn joined_with(
    alloc: Global,
    rows: &[Form],
    row: &Form,
    place: usize,
) -> Result<Option<Form>, AllocError>
    requires sized { All (λ f. variables_of f ≡ variables_of row.now) rows.now }
    requires inside { place < variables_of row.now }
    requires row { HasSmallNumbers row.now }
    requires rows { All HasSmallNumbers rows.now }
    ensures { IfOk result (λ found. IfSome found (IsAboveSome (suc place) row.now rows.now)) }
{
    match nearest(rows, row, place) {
        None => Ok(None),
        Some(at) => joined(alloc, row, &rows[at], place),
    }
}

/// A row above the row and one of each set; None where one has none.
fn widest(
    alloc: Global,
    outlines: &[Outline],
    depth: usize,
    place: usize,
    row: &Form,
) -> Result<Option<Form>, AllocError>
    requires inside { place < variables_of row.now }
    requires alike { All (IsAlike depth (variables_of row.now)) outlines.now }
    requires place { All (λ o. o.set.now.system.dimensions ≡ place + suc depth) outlines.now }
    requires small { HasSmallNumbers row.now }
    ensures { IfOk result (λ found. IfSome found (IsHullRow depth (variables_of row.now) outlines.now)) }
{
    let mut wide = match row.copy() {
        Err(_) => return Err(AllocError),
        Ok(copy) => copy,
    };
    for outline in outlines {
        match joined_with(alloc, outline.shadows[depth].rows.as_slice(), &wide, place)? {
            None => return Ok(None),
            Some(form) => wide = form,
        }
    }
    Ok(Some(wide))
}

/// Whether the first row says that the dimension starts at 0 or above.
fn is_natural(rows: &[Form]) -> bool {
    match rows.first() {
        None => false,
        Some(least) => least.constant() <= 0,
    }
}

/// Whether a row behind the first two has the sign of the number at the place, or the number is positive and the first
/// row says that the dimension starts at 0 or above.
fn is_bounded(rows: &[Form], place: usize, number: i128) -> bool
    requires { All (λ f. place < variables_of f) rows.now }
{
    if number > 0 && is_natural(rows) {
        return true;
    }
    for at in 2..rows.len() {
        if rows[at].coefficients()[place].signum() == number.signum() {
            return true;
        }
    }
    false
}

/// Appends the row above the row and one of each set, if each has one.
fn push_widest(
    alloc: Global,
    out: &mut Vec<Form>,
    outlines: &[Outline],
    depth: usize,
    place: usize,
    row: &Form,
) -> Result<(), AllocError>
    requires inside { place < variables_of row.now }
    requires alike { All (IsAlike depth (variables_of row.now)) outlines.now }
    requires place { All (λ o. o.set.now.system.dimensions ≡ place + suc depth) outlines.now }
    requires small { HasSmallNumbers row.now }
    ensures front { OnOk result ((more : List Affine) × (out.new.items ≡ out.old.items ++ more)) }
    ensures rows { OnOk result (AreHullRows depth (variables_of row.now) outlines.now out.old.items
        → AreHullRows depth (variables_of row.now) outlines.now out.new.items) }
{
    match widest(alloc, outlines, depth, place, row)? {
        None => Ok(()),
        Some(form) => {
            out.push(form)?;
            Ok(())
        }
    }
}

/// Appends such a row if only the hull's numbers bound the dimension on the row's side; below, a number that is not
/// negative is enough.
pub fn push_on_open_side(
    alloc: Global,
    out: &mut Vec<Form>,
    outlines: &[Outline],
    depth: usize,
    place: usize,
    row: &Form,
) -> Result<(), AllocError>
    requires sized { All (λ f. place < variables_of f) out.old.items }
    requires inside { place < variables_of row.now }
    requires alike { All (IsAlike depth (variables_of row.now)) outlines.now }
    requires place { All (λ o. o.set.now.system.dimensions ≡ place + suc depth) outlines.now }
    requires small { HasSmallNumbers row.now }
    ensures front { OnOk result ((more : List Affine) × (out.new.items ≡ out.old.items ++ more)) }
    ensures rows { OnOk result (AreHullRows depth (variables_of row.now) outlines.now out.old.items
        → AreHullRows depth (variables_of row.now) outlines.now out.new.items) }
{
    let number = row.coefficients()[place];
    if number == 0 {
        return Ok(());
    }
    if is_bounded(out, place, number) {
        return Ok(());
    }
    push_widest(alloc, out, outlines, depth, place, row)
}
