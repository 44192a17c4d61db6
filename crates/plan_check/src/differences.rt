//! How much later a row comes at the target of a dependence than at its source. Numbers that are not negative differ by
//! what 128 bits hold.
ghost use Rattle.std.specs.Prelude.{◌≡◌, ◌++◌, ◌+ℤ◌, ◌-ℤ◌, ◌*ℤ◌, ◌≤ℤ◌, All, IfOk, OnOk, negsuc, pos};
ghost use Rattle.whole_numbers.specs.Affine.{complement, form_of};
ghost use Rattle.whole_numbers.specs.Lists.{multiples, zeros};
ghost use Rattle.plan_check.specs.Goals.{above, apart};
ghost use Rattle.plan_check.specs.Plans.{IsFormUp};

use affine_forms::Form;
use iteration_domains::{Numbers, form_from, push_zeros};
use std::alloc::{AllocError, Global};

/// A number's opposite.
fn opposite(number: i128) -> i128
    requires { pos 0 ≤ℤ number }
    ensures { result ≡ negsuc 0 *ℤ number }
{
    -number
}

/// The opposites of numbers more.
fn push_opposites(out: &mut Numbers, numbers: &[i128]) -> Result<(), AllocError>
    requires { All (λ z. pos 0 ≤ℤ z) numbers.now }
    ensures { OnOk result (out.new.items ≡ out.old.items ++ multiples (negsuc 0) numbers.now) }
{
    for at in 0..numbers.len() {
        match out.push(opposite(numbers[at])) {
            Err(_) => return Err(AllocError),
            Ok(()) => {}
        }
    }
    Ok(())
}

/// One number less another.
fn less(number: i128, other: i128) -> i128
    requires number { pos 0 ≤ℤ number }
    requires other { pos 0 ≤ℤ other }
    ensures { result ≡ number -ℤ other }
{
    number - other
}

/// One number less another, and 1 less.
fn less_by_more(number: i128, other: i128) -> i128
    requires number { pos 0 ≤ℤ number }
    requires other { pos 0 ≤ℤ other }
    ensures { result ≡ (number -ℤ other) +ℤ negsuc 0 }
{
    number - other - 1
}

/// The target's coefficients less the source's, over the turns of both and the parameters, and a constant.
fn risen(
    alloc: Global,
    parameters: usize,
    source: &Form,
    target: &Form,
    constant: i128,
) -> Result<Form, AllocError>
    requires { IsFormUp source.now }
    ensures { IfOk result (λ f. f ≡ form_of (apart parameters source.now target.now).coefficients constant) }
{
    let mut numbers = Numbers::new(alloc);
    push_opposites(&mut numbers, source.coefficients())?;
    numbers.extend_from_slice(target.coefficients())?;
    push_zeros(&mut numbers, parameters)?;
    form_from(alloc, numbers.as_slice(), constant)
}

/// The source's less the target's, and a constant.
fn fallen(
    alloc: Global,
    parameters: usize,
    source: &Form,
    target: &Form,
    constant: i128,
) -> Result<Form, AllocError>
    requires { IsFormUp target.now }
    ensures { IfOk result (λ f. f ≡ form_of
        (source.now.coefficients ++ (multiples (negsuc 0) target.now.coefficients ++ zeros parameters)) constant) }
{
    let mut numbers = Numbers::new(alloc);
    numbers.extend_from_slice(source.coefficients())?;
    push_opposites(&mut numbers, target.coefficients())?;
    push_zeros(&mut numbers, parameters)?;
    form_from(alloc, numbers.as_slice(), constant)
}

/// The target's value less the source's.
pub fn difference(
    alloc: Global,
    parameters: usize,
    source: &Form,
    target: &Form,
) -> Result<Form, AllocError>
    requires source { IsFormUp source.now }
    requires target { IsFormUp target.now }
    ensures { IfOk result (λ f. f ≡ apart parameters source.now target.now) }
{
    let constant = less(target.constant(), source.constant());
    risen(alloc, parameters, source, target, constant)
}

/// That it is at least 1.
pub fn at_least_one(
    alloc: Global,
    parameters: usize,
    source: &Form,
    target: &Form,
) -> Result<Form, AllocError>
    requires source { IsFormUp source.now }
    requires target { IsFormUp target.now }
    ensures { IfOk result (λ f. f ≡ above (apart parameters source.now target.now)) }
{
    let constant = less_by_more(target.constant(), source.constant());
    risen(alloc, parameters, source, target, constant)
}

/// That it is at most -1.
pub fn at_most_minus_one(
    alloc: Global,
    parameters: usize,
    source: &Form,
    target: &Form,
) -> Result<Form, AllocError>
    requires source { IsFormUp source.now }
    requires target { IsFormUp target.now }
    ensures { IfOk result (λ f. f ≡ complement (apart parameters source.now target.now)) }
{
    let constant = less_by_more(source.constant(), target.constant());
    fallen(alloc, parameters, source, target, constant)
}
