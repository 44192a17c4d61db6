//! Kernel vectors: kept from row to row, or made from rows at once.
ghost use Rattle.std.specs.Prelude.{◌≡◌, ◌≤◌, ◌<◌, ◌^◌, pos, All, length, map, set, drop, slice_index_or, [], ◌+◌, ◌++◌, IfOk};
ghost use Rattle.whole_numbers.specs.Lists.{dot, zeros};
ghost use Rattle.whole_numbers.specs.Content.{lowest};
ghost use Rattle.null_space.specs.Echelon.{AreKernelVectors};
ghost use Rattle.null_space.specs.Narrowing.{made_flat, against, narrowed_by, units_from, kernel_vectors};
ghost use Rattle.null_space.specs.Sizes.{IsWithin, AreWithin, AreCoefficients, AreLong, AreNarrow};

use crate::sums;
use affine_forms::{content, divide_row};
use std::alloc::{AllocError, Global};

/// Rows of whole numbers.
pub type Rows = Vec<Vec<i128>>;

/// The row in lowest terms.
fn lowered(mut row: Vec<i128>) -> Vec<i128>
    ensures { result.items ≡ lowest row.items }
{
    let divisor = content(0, &row);
    if divisor <= 1 {
        return row;
    }
    divide_row(&mut row, divisor);
    row
}

/// `vector` less a multiple of `gone` so that its product with a row is 0, where `a` is `gone`'s product with the row and
/// `b` is `vector`'s.
fn flattened(
    alloc: Global,
    a: i128,
    b: i128,
    gone: &[i128],
    vector: &[i128],
) -> Result<Vec<i128>, AllocError>
    requires lengths { length gone.now ≡ length vector.now }
    requires a { IsWithin (2 ^ 64) a }
    requires b { IsWithin (2 ^ 64) b }
    requires gone { AreWithin (2 ^ 47) gone.now }
    requires vector { AreWithin (2 ^ 47) vector.now }
    ensures { IfOk result (λ v. v.items ≡ made_flat a b gone.now vector.now) }
{
    if a < 0 {
        sums::sum_of_multiples(alloc, -a, vector, b, gone)
    } else {
        sums::sum_of_multiples(alloc, a, vector, -b, gone)
    }
}

/// The vector made orthogonal to a row by the one that goes, `a` being its product with the row.
fn made_orthogonal(
    alloc: Global,
    row: &[i128],
    a: i128,
    gone: &[i128],
    vector: &[i128],
) -> Result<Vec<i128>, AllocError>
    requires row { length row.now ≡ length vector.now }
    requires gone { length gone.now ≡ length vector.now }
    requires few { length vector.now ≤ 5 }
    requires coefficients { AreCoefficients row.now }
    requires gone_size { AreWithin (2 ^ 47) gone.now }
    requires vector_size { AreWithin (2 ^ 47) vector.now }
    requires product { a ≡ dot gone.now row.now }
    ensures { IfOk result (λ v. v.items ≡ against row.now gone.now vector.now) }
{
    let b = sums::dot(vector, row);
    let flat = flattened(alloc, a, b, gone, vector)?;
    Ok(lowered(flat))
}

/// One of the vectors.
fn vector_at(vectors: &[Vec<i128>], at: usize) -> &[i128]
    requires { at < length vectors.now }
    ensures { result.now ≡ slice_index_or (map (λ v. v.items) vectors.now) at [] }
{
    &vectors[at]
}

/// Puts the vectors behind the one that goes, each made orthogonal to the row, behind those in `narrowed`.
fn push_orthogonal(
    alloc: Global,
    row: &[i128],
    a: i128,
    vectors: &[Vec<i128>],
    goes: usize,
    narrowed: Rows,
) -> Result<Rows, AllocError>
    requires goes { goes < length vectors.now }
    requires few { length row.now ≤ 5 }
    requires lengths { AreLong (length row.now) (map (λ v. v.items) vectors.now) }
    requires coefficients { AreCoefficients row.now }
    requires sizes { AreNarrow (map (λ v. v.items) vectors.now) }
    requires product { a ≡ dot (slice_index_or (map (λ v. v.items) vectors.now) goes []) row.now }
    ensures { IfOk result (λ vs. map (λ v. v.items) vs.items
        ≡ map (λ v. v.items) narrowed.items
        ++ map (against row.now (slice_index_or (map (λ v. v.items) vectors.now) goes []))
        (drop (goes + 1) (map (λ v. v.items) vectors.now))) }
{
    let gone = vector_at(vectors, goes);
    let mut all = narrowed;
    for at in goes + 1..vectors.len() {
        let vector = made_orthogonal(alloc, row, a, gone, vector_at(vectors, at))?;
        all.push(vector)?;
    }
    Ok(all)
}

/// The kernel vectors when the row is added to those that `vectors` belong to.
///
/// # Errors
/// `AllocError` alone.
pub fn narrowed_by(alloc: Global, row: &[i128], vectors: &[Vec<i128>]) -> Result<Rows, AllocError>
    requires few { length row.now ≤ 5 }
    requires lengths { AreLong (length row.now) (map (λ v. v.items) vectors.now) }
    requires coefficients { AreCoefficients row.now }
    requires sizes { AreNarrow (map (λ v. v.items) vectors.now) }
    ensures { IfOk result (λ vs. map (λ v. v.items) vs.items
        ≡ narrowed_by row.now (map (λ v. v.items) vectors.now)) }
{
    let mut narrowed = Vec::new(alloc);
    for at in 0..vectors.len() {
        let vector = vector_at(vectors, at);
        let a = sums::dot(vector, row);
        if a != 0 {
            return push_orthogonal(alloc, row, a, vectors, at, narrowed);
        }
        narrowed.push(Vec::from_slice(alloc, vector)?)?;
    }
    Ok(narrowed)
}

/// The unit of a column.
#[tactic(auto, using(crate::proofs::ListLoops::zeros_are))]
fn unit(alloc: Global, columns: usize, column: usize) -> Result<Vec<i128>, AllocError>
    requires columns { columns ≤ 5 }
    requires column { column < columns }
    ensures { IfOk result (λ v. v.items ≡ set (zeros columns) column (pos 1)) }
{
    let mut unit = vec![in alloc; 0i128; columns]?;
    unit[column] = 1;
    Ok(unit)
}

/// The units of all columns.
fn units(alloc: Global, columns: usize) -> Result<Rows, AllocError>
    requires columns { columns ≤ 5 }
    ensures { IfOk result (λ vs. map (λ v. v.items) vs.items ≡ units_from columns 0 columns) }
{
    let mut units = Vec::new(alloc);
    for at in 0..columns {
        let unit = unit(alloc, columns, at)?;
        units.push(unit)?;
    }
    Ok(units)
}

/// The kernel vectors of rows over so many columns.
///
/// # Errors
/// `AllocError` alone.
pub fn kernel_vectors(alloc: Global, columns: usize, rows: &[Vec<i128>]) -> Result<Rows, AllocError>
    requires columns { columns ≤ 5 }
    requires lengths { AreLong columns (map (λ v. v.items) rows.now) }
    requires coefficients { All AreCoefficients (map (λ v. v.items) rows.now) }
    ensures narrowed { IfOk result (λ vs. map (λ v. v.items) vs.items
        ≡ kernel_vectors columns (map (λ v. v.items) rows.now)) }
    ensures are { IfOk result (λ vs. AreKernelVectors columns (map (λ v. v.items) rows.now)
        (map (λ v. v.items) vs.items)) }
{
    let mut vectors = units(alloc, columns)?;
    for at in 0..rows.len() {
        vectors = narrowed_by(alloc, vector_at(rows, at), &vectors)?;
    }
    Ok(vectors)
}
