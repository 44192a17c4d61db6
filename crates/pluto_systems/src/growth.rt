//! Rows by which a statement's coefficients grow the rank of those before: their products with the kernel vectors are
//! not negative, and some product is positive.
ghost use Rattle.std.specs.Prelude.{◌≡◌, ◌≤◌, ◌<◌, ◌*◌, ◌+◌, ◌^◌, ◌++◌, ℤ, ◌+ℤ◌, [], All, IfOk};
ghost use Rattle.std.specs.Prelude.{OnOk, length, drop, map, slice_index_or};
ghost use Rattle.whole_numbers.specs.Lists.{sums};
ghost use Rattle.null_space.specs.Sizes.{IsWithin, AreWithin, AreLong};
ghost use Rattle.pluto_systems.specs.Posing.{own_form, own_row, added, growth_rows};

use crate::columns::Columns;
use crate::placing::placed;
use affine_forms::{Form, push};
use iteration_domains::{Numbers, form_from, push_zeros};
use std::alloc::{AllocError, Global};

/// One of the vectors.
fn vector_at(vectors: &[Vec<i128>], at: usize) -> &[i128]
    requires { at < length vectors.now }
    ensures { result.now ≡ slice_index_or (map (λ v. v.items) vectors.now) at [] }
{
    &vectors[at]
}

/// The product of a vector with a statement's coefficients, and a constant, over its own unknowns.
fn own_form(
    alloc: Global,
    columns: &Columns,
    vector: &[i128],
    constant: i128,
) -> Result<Form, AllocError>
    ensures { IfOk result (λ f. f ≡ own_form columns.now.parameters vector.now constant) }
{
    let mut turned = Vec::from_slice(alloc, vector)?;
    turned.reverse();
    let mut coefficients = Numbers::new(alloc);
    push_zeros(&mut coefficients, columns.parameters + 1)?;
    coefficients.extend_from_slice(&turned)?;
    coefficients.push(0)?;
    form_from(alloc, coefficients.as_slice(), constant)
}

/// The same over all columns, for statement s.
fn own_row(
    alloc: Global,
    columns: &Columns,
    s: usize,
    constant: i128,
    vector: &[i128],
) -> Result<Form, AllocError>
    ensures { IfOk result (λ f. f ≡ own_row columns.now.parameters columns.now.loops.now s constant vector.now) }
{
    let form = own_form(alloc, columns, vector, constant)?;
    placed(alloc, columns, s, s, &form)
}

/// The sum of a vector of at most four times great numbers and one of great numbers.
fn sum_of(alloc: Global, sum: &[i128], vector: &[i128]) -> Result<Vec<i128>, AllocError>
    requires lengths { length sum.now ≡ length vector.now }
    requires sum { AreWithin (4 * 2 ^ 109) sum.now }
    requires vector { AreWithin (2 ^ 109) vector.now }
    ensures { IfOk result (λ v. v.items ≡ sums sum.now vector.now) }
{
    let mut both = Vec::new(alloc);
    for at in 0..sum.len() {
        both.push(sum_of_two(sum[at], vector[at]))?;
    }
    Ok(both)
}

/// `a + b`.
fn sum_of_two(a: i128, b: i128) -> i128
    requires a { IsWithin (4 * 2 ^ 109) a }
    requires b { IsWithin (2 ^ 109) b }
    ensures { result ≡ a +ℤ b }
{
    a + b
}

/// The vectors added up.
fn added_up(alloc: Global, vectors: &[Vec<i128>]) -> Result<Vec<i128>, AllocError>
    requires some { 0 < length vectors.now }
    requires few { length vectors.now ≤ 5 }
    requires lengths { AreLong (length (slice_index_or (map (λ v. v.items) vectors.now) 0 []))
        (map (λ v. v.items) vectors.now) }
    requires sizes { All (AreWithin (2 ^ 109)) (map (λ v. v.items) vectors.now) }
    ensures { IfOk result (λ sum. sum.items
        ≡ added (slice_index_or (map (λ v. v.items) vectors.now) 0 []) (drop 1 (map (λ v. v.items) vectors.now))) }
{
    let mut sum = Vec::from_slice(alloc, vector_at(vectors, 0))?;
    for at in 1..vectors.len() {
        sum = sum_of(alloc, &sum, vector_at(vectors, at))?;
    }
    Ok(sum)
}

/// Appends the rows of statement s for its kernel vectors.
pub fn push_growth(
    alloc: Global,
    out: &mut Vec<Form>,
    columns: &Columns,
    s: usize,
    vectors: &[Vec<i128>],
) -> Result<(), AllocError>
    requires few { length vectors.now ≤ 5 }
    requires lengths { AreLong (length (slice_index_or (map (λ v. v.items) vectors.now) 0 []))
        (map (λ v. v.items) vectors.now) }
    requires sizes { All (AreWithin (2 ^ 109)) (map (λ v. v.items) vectors.now) }
    ensures { OnOk result (out.new.items ≡ out.old.items
        ++ growth_rows columns.now.parameters columns.now.loops.now s (map (λ v. v.items) vectors.now)) }
{
    if vectors.is_empty() {
        return Ok(());
    }
    for at in 0..vectors.len() {
        let row = own_row(alloc, columns, s, 0, vector_at(vectors, at))?;
        push(out, row)?;
    }
    let sum = added_up(alloc, vectors)?;
    let row = own_row(alloc, columns, s, -1, &sum)?;
    push(out, row)
}
