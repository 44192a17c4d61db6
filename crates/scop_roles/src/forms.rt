//! Affine forms within the limits: sums and products of them in 64 bits.
ghost use Rattle.std.specs.Prelude.{[], ◌≡◌, ◌^◌, ◌≤◌, ◌*ℤ◌, ◌+ℤ◌, IfOk, length, pos, set, unsigned_abs};
ghost use Rattle.std.specs.List.{list_all};
ghost use Rattle.whole_numbers.specs.Affine.{form_of, multiple_of_form, sum_of_forms};
ghost use Rattle.whole_numbers.specs.Lists.{multiples, sums, zeros};
ghost use Rattle.scop_syntax.specs.Kernel.{AreAtMost, IsAffine, IsForm};
ghost use Rattle.scop_roles.specs.Forms.{is_small, is_within};

use scop_syntax::{Aff, MOST_COEFFICIENT, MOST_CONSTANT, zeros};
use std::alloc::{AllocError, Global};

// The form of a constant.
#[tactic(auto, using(crate::proofs::Sizes::constant_affine))]
pub(crate) fn constant_form(alloc: Global, entries: usize, value: u64) -> Result<Aff, AllocError>
    requires { value ≤ 2 ^ 20 }
    ensures form { IfOk result (λ form. form ≡ form_of (zeros entries) (pos value)) }
    ensures limits { IfOk result (IsAffine entries) }
{
    let coefficients = zeros(alloc, entries)?;
    Ok(Aff {
        coefficients,
        constant: value as i64,
    })
}

// One 1 among zeros.
fn unit(alloc: Global, count: usize, place: usize) -> Result<Vec<i64>, AllocError>
    ensures { IfOk result (λ v. v.items ≡ set (zeros count) place (pos 1)) }
{
    let mut numbers = zeros(alloc, count)?;
    if place < numbers.len() {
        numbers[place] = 1;
    }
    Ok(numbers)
}

// The form of a parameter or an iterator.
#[tactic(auto, using(crate::proofs::Sizes::variable_affine))]
pub(crate) fn variable_form(
    alloc: Global,
    entries: usize,
    variable: usize,
) -> Result<Aff, AllocError>
    ensures form { IfOk result (λ form. form ≡ form_of (set (zeros entries) variable (pos 1)) (pos 0)) }
    ensures limits { IfOk result (IsAffine entries) }
{
    let coefficients = unit(alloc, entries, variable)?;
    Ok(Aff {
        coefficients,
        constant: 0,
    })
}

// A product of numbers within 24 bits.
fn product(factor: i64, number: i64) -> i64
    requires factor { unsigned_abs factor ≤ 2 ^ 20 }
    requires number { unsigned_abs number ≤ 2 ^ 20 }
    ensures { result ≡ factor *ℤ number }
{
    factor * number
}

fn plus(number: i64, other: i64) -> i64
    requires number { unsigned_abs number ≤ 2 ^ 40 }
    requires other { unsigned_abs other ≤ 2 ^ 40 }
    ensures { result ≡ number +ℤ other }
{
    number + other
}

// Each number times a factor.
fn multiples(alloc: Global, factor: i64, numbers: &[i64]) -> Result<Vec<i64>, AllocError>
    requires factor { unsigned_abs factor ≤ 2 ^ 20 }
    requires numbers { AreAtMost 16 numbers.now }
    ensures { IfOk result (λ products. products.items ≡ multiples factor numbers.now) }
{
    let mut products = Vec::new(alloc);
    for number in numbers {
        match products.push(product(factor, *number)) {
            Err(_) => return Err(AllocError),
            Ok(()) => {}
        }
    }
    Ok(products)
}

// The sums of numbers at the same places.
fn sums(alloc: Global, numbers: &[i64], others: &[i64]) -> Result<Vec<i64>, AllocError>
    requires lengths { length numbers.now ≡ length others.now }
    requires numbers { AreAtMost (2 ^ 40) numbers.now }
    requires others { AreAtMost (2 ^ 40) others.now }
    ensures { IfOk result (λ totals. totals.items ≡ sums numbers.now others.now) }
{
    let mut totals = Vec::new(alloc);
    for at in 0..numbers.len() {
        match totals.push(plus(numbers[at], others[at])) {
            Err(_) => return Err(AllocError),
            Ok(()) => {}
        }
    }
    Ok(totals)
}

// A form times a factor.
pub(crate) fn multiple(
    alloc: Global,
    factor: i64,
    form: &Aff,
    entries: usize,
) -> Result<Aff, AllocError>
    requires factor { unsigned_abs factor ≤ 2 ^ 20 }
    requires form { IsAffine entries form.now }
    ensures form { IfOk result (λ product. product ≡ multiple_of_form factor form.now) }
    ensures entries { IfOk result (λ product. length product.coefficients ≡ entries) }
{
    let coefficients = multiples(alloc, factor, &form.coefficients)?;
    Ok(Aff {
        coefficients,
        constant: product(factor, form.constant),
    })
}

// A sum of forms.
pub(crate) fn sum(alloc: Global, form: &Aff, other: &Aff, entries: usize) -> Result<Aff, AllocError>
    requires form { IsForm entries (2 ^ 40) (2 ^ 40) form.now }
    requires other { IsForm entries (2 ^ 40) (2 ^ 40) other.now }
    ensures form { IfOk result (λ total. total ≡ sum_of_forms form.now other.now) }
    ensures entries { IfOk result (λ total. length total.coefficients ≡ entries) }
{
    let coefficients = sums(alloc, &form.coefficients, &other.coefficients)?;
    Ok(Aff {
        coefficients,
        constant: plus(form.constant, other.constant),
    })
}

// A form with its constant greater by a number.
pub(crate) fn plus_constant(form: Aff, constant: i64) -> Aff
    requires form { unsigned_abs form.constant ≤ 2 ^ 40 }
    requires constant { unsigned_abs constant ≤ 2 ^ 40 }
    ensures { result ≡ sum_of_forms form (form_of [] constant) }
{
    Aff {
        constant: plus(form.constant, constant),
        coefficients: form.coefficients,
    }
}

fn is_small(number: i64) -> bool
    ensures { result ≡ is_small number }
{
    number.unsigned_abs() <= MOST_COEFFICIENT
}

fn are_small(numbers: &[i64]) -> bool
    ensures { result ≡ list_all is_small numbers.now }
{
    numbers.iter().all(|number| is_small(*number))
}

// Whether a form lies within the limits.
pub(crate) fn is_within(form: &Aff) -> bool
    ensures { result ≡ is_within form.now }
{
    are_small(&form.coefficients) && form.constant.unsigned_abs() <= MOST_CONSTANT
}
