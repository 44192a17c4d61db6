//! Rows of whole numbers: the checked loops under the forms, each over slices. None takes memory.

ghost use Rattle.std.specs.Prelude.{◌≡◌, ◌≤◌, ℤ, Result, pos, length, map};
ghost use Rattle.wide_math.specs.Floor.{floor};
ghost use Rattle.wide_math.specs.Content.{content_from};
ghost use Rattle.wide_math.specs.Gives.{Becomes};
ghost use Rattle.wide_math.specs.declared.Wide.{Wide};
ghost use Rattle.affine_forms.specs.InPlace.{CombinesAs, TurnsAs};
ghost use Rattle.affine_forms.specs.Runs.{dot_run, map_run, multiply_add_run, zip_run};

use wide_math::{Wide, add, gcd_of_sizes, mul};

/// `sum + a * b`: the product first, then the sum.
#[inline]
#[tactic(auto, unfolding(crate::specs::Runs::multiply_add_run))]
pub fn multiply_add(sum: i128, a: i128, b: i128) -> Result<i128, Wide>
    ensures { result ≡ multiply_add_run sum a b }
{
    match mul(a, b) {
        Err(wide) => Err(wide),
        Ok(product) => add(sum, product),
    }
}

/// Puts what `step` makes of the entry at each place of `row` there, in order, up to the first that stops.
///
/// # Errors
/// That of the first place where `step` has one.
pub fn map_in_place<F: Fn(i128) -> Result<i128, Wide>>(
    row: &mut [i128],
    step: F,
) -> Result<(), Wide>
    requires { F.IsAlwaysCallable step }
    ensures { (run : ℤ → Result ℤ Wide) → TurnsAs (F.post step) run → Becomes row.new result (map_run run row.old) }
{
    for at in 0..row.len() {
        match step(row[at]) {
            Err(wide) => return Err(wide),
            Ok(next) => row[at] = next,
        }
    }
    Ok(())
}

/// Puts what `step` makes of the two entries of a place into each place of `row`, in order, up to the first that stops.
///
/// # Errors
/// That of the first place where `step` has one.
pub fn zip_in_place<F: Fn(i128, i128) -> Result<i128, Wide>>(
    row: &mut [i128],
    other: &[i128],
    step: &F,
) -> Result<(), Wide>
    requires sized { length row.old ≡ length other.now }
    requires callable { F.IsAlwaysCallable step.now }
    ensures { (run : ℤ → ℤ → Result ℤ Wide) → CombinesAs (F.post step.now) run
        → Becomes row.new result (zip_run run row.old other.now) }
{
    for at in 0..row.len() {
        match step(row[at], other[at]) {
            Err(wide) => return Err(wide),
            Ok(next) => row[at] = next,
        }
    }
    Ok(())
}

/// The greatest common divisor of `start` and all entries' sizes.
pub fn content(start: u128, row: &[i128]) -> u128
    ensures { result ≡ content_from start row.now }
{
    let mut content = start;
    for at in 0..row.len() {
        if content == 1 {
            return 1;
        }
        content = gcd_of_sizes(content, row[at].unsigned_abs());
    }
    content
}

/// `a / divisor`, rounded down; by 64 bits where both have them.
pub fn quotient(a: i128, divisor: u128) -> i128
    requires { 2 ≤ divisor }
    ensures { result ≡ floor a (pos divisor) }
{
    if let (Ok(narrow), Ok(by)) = (i64::try_from(a), i64::try_from(divisor)) {
        return i128::from(narrow.div_euclid(by));
    }
    wide_quotient(a, divisor)
}

/// `a / divisor`, rounded down, by 128 bits.
fn wide_quotient(a: i128, divisor: u128) -> i128
    requires { 2 ≤ divisor }
    ensures { result ≡ floor a (pos divisor) }
{
    if a < 0 {
        -1 - ((-1 - a).unsigned_abs() / divisor) as i128
    } else {
        (a.unsigned_abs() / divisor) as i128
    }
}

/// Divides each entry, rounded down.
pub fn divide_row(row: &mut [i128], divisor: u128)
    requires { 2 ≤ divisor }
    ensures { row.new ≡ map (λ x. floor x (pos divisor)) row.old }
{
    for at in 0..row.len() {
        row[at] = quotient(row[at], divisor);
    }
}

/// The dot product: sums from 0 on, in the order of the entries.
#[inline]
pub fn dot(coefficients: &[i128], point: &[i128]) -> Result<i128, Wide>
    requires { length coefficients.now ≡ length point.now }
    ensures { result ≡ dot_run coefficients.now point.now }
{
    let mut sum: i128 = 0;
    for at in 0..coefficients.len() {
        match multiply_add(sum, coefficients[at], point[at]) {
            Err(wide) => return Err(wide),
            Ok(next) => sum = next,
        }
    }
    Ok(sum)
}
