//! A next row: made of its numbers, within bounds, parallel or not, and what it leaves of the kernel vectors.
ghost use Rattle.std.specs.Prelude.{◌≡◌, ◌<◌, true, false, ℤ, pos, ◌≤ℤ◌};
ghost use Rattle.std.specs.Prelude.{All, IfErr, IfOk, Ok, length, map, reverse, take, slice_index_or};
ghost use Rattle.scop_syntax.specs.Members.{In};
ghost use Rattle.iteration_domains.specs.Dependence.{Dependence};
ghost use Rattle.null_space.specs.Narrowing.{narrowed_by};
ghost use Rattle.schedule_rows.specs.Dependences.{IsEmptyDep, above_at};
ghost use Rattle.schedule_rows.specs.Next.{IsWithin};
ghost use Rattle.schedule_rows.specs.Schedule.{row_of};
ghost use Rattle.pluto_systems.specs.Placing.{columns_in, columns_of, parts_from, row_from};
ghost use Rattle.pluto_systems.specs.Posing.{RuledDep, dep_of};
ghost use Rattle.pluto_search.specs.Questions.{AnswersMark, AnswersMarks, StopsEmptiness, StopsMarks};
ghost use Rattle.pluto_search.specs.steps.Sizes.{CanTell, CanNarrow, CanNarrowEach, narrowed_each};
ghost use Rattle.pluto_search.specs.steps.StepParts.{parts_of};
ghost use Rattle.pluto_search.specs.steps.Stopping.{IsStop};

use crate::kept::Kept;
use crate::restricting::{above_at, asked};
use crate::state::Search;
use iteration_domains::Dep;
use null_space::{Rows, narrowed_by};
use pluto_systems::Ruled;
use schedule_rows::{Part, Row};
use std::alloc::{AllocError, Global};

/// The part of these numbers: so many coefficients from the innermost on, then the shift.
fn part_from(alloc: Global, numbers: &[i128], loops: usize) -> Result<Part, AllocError>
    requires { loops < length numbers.now }
    ensures coefficients { IfOk result (λ p. p.coefficients.items ≡ reverse (take loops numbers.now)) }
    ensures shift { IfOk result (λ p. p.shift ≡ slice_index_or numbers.now loops (pos 0)) }
{
    let mut coefficients = Vec::new(alloc);
    coefficients.extend_from_slice(&numbers[..loops])?;
    coefficients.reverse();
    Ok(Part {
        coefficients,
        shift: numbers[loops],
    })
}

/// The parts of these numbers.
fn parts_from(alloc: Global, loops: &[usize], numbers: &[i128]) -> Result<Vec<Part>, AllocError>
    requires { length numbers.now ≡ columns_in loops.now }
    ensures { IfOk result (λ v. parts_of v.items ≡ parts_from loops.now numbers.now) }
{
    let mut parts = Vec::new(alloc);
    let mut rest = numbers;
    for s in 0..loops.len() {
        let part = part_from(alloc, rest, loops[s])?;
        parts.push(part)?;
        let (_, behind) = rest.split_at(loops[s] + 1);
        rest = behind;
    }
    Ok(parts)
}

/// The row of these numbers in the objective's order.
pub fn row_from(
    alloc: Global,
    parameters: usize,
    loops: &[usize],
    numbers: &[i128],
) -> Result<Row, AllocError>
    requires { length numbers.now ≡ columns_of parameters loops.now }
    ensures { IfOk result (λ r. row_of r ≡ row_from parameters loops.now numbers.now) }
{
    let u = Vec::from_slice(alloc, &numbers[..parameters])?;
    let (_, behind) = numbers.split_at(parameters + 1);
    let parts = parts_from(alloc, loops, behind)?;
    Ok(Row {
        u,
        w: numbers[parameters],
        parts,
    })
}

/// Whether no number is above 4,096.
fn are_small(numbers: &[i128]) -> bool
    ensures small { result ≡ true → All (λ c. c ≤ℤ pos 4096) numbers.now }
    ensures great { result ≡ false → All (λ c. c ≤ℤ pos 4096) numbers.now → ⊥ }
{
    numbers.iter().all(|number| *number <= 4096)
}

/// Whether no coefficient and no shift of a part is.
fn is_small(part: &Part) -> bool
    ensures small { result ≡ true
        → All (λ c. c ≤ℤ pos 4096) part.now.coefficients.items × (part.now.shift ≤ℤ pos 4096) }
    ensures great { result ≡ false
        → All (λ c. c ≤ℤ pos 4096) part.now.coefficients.items × (part.now.shift ≤ℤ pos 4096) → ⊥ }
{
    if part.shift > 4096 {
        return false;
    }
    are_small(&part.coefficients)
}

/// Whether no coefficient and no shift of a row is.
pub fn is_within(row: &Row) -> bool
    ensures within { result ≡ true → IsWithin (row_of row.now) }
    ensures great { result ≡ false → IsWithin (row_of row.now) → ⊥ }
{
    for at in 0..row.parts.len() {
        if !is_small(&row.parts[at]) {
            return false;
        }
    }
    true
}

/// One statement's kernel vectors, narrowed by its coefficients.
fn narrow(alloc: Global, part: &Part, vectors: &Rows) -> Result<Rows, AllocError>
    requires { CanNarrow part.now.coefficients.items (map (λ v. v.items) vectors.now.items) }
    ensures { IfOk result (λ vs. map (λ v. v.items) vs.items
        ≡ narrowed_by part.now.coefficients.items (map (λ v. v.items) vectors.now.items)) }
{
    narrowed_by(alloc, &part.coefficients, vectors)
}

/// Each statement's kernel vectors, narrowed by its coefficients.
pub fn narrow_all(alloc: Global, row: &Row, vectors: &[Rows]) -> Result<Vec<Rows>, AllocError>
    requires { CanNarrowEach (map (λ p. p.coefficients.items) row.now.parts.items)
        (map (λ vs. map (λ v. v.items) vs.items) vectors.now) }
    ensures { IfOk result (λ all. map (λ vs. map (λ v. v.items) vs.items) all.items
        ≡ narrowed_each (map (λ p. p.coefficients.items) row.now.parts.items)
        (map (λ vs. map (λ v. v.items) vs.items) vectors.now)) }
{
    let mut all = Vec::new(alloc);
    for at in 0..vectors.len() {
        let next = narrow(alloc, &row.parts[at], &vectors[at])?;
        all.push(next)?;
    }
    Ok(all)
}

/// Whether a dependence has no pair at which a row rises.
fn is_level(alloc: Global, search: &Search, row: &Row, dep: &Dep) -> Result<bool, Kept>
    requires { CanTell search.now.parameters (row_of row.now) dep.now }
    ensures level { result ≡ Ok true
        → IsEmptyDep search.now.parameters (above_at search.now.parameters (row_of row.now) dep.now) }
    ensures rises { result ≡ Ok false
        → IsEmptyDep search.now.parameters (above_at search.now.parameters (row_of row.now) dep.now) → ⊥ }
    ensures answered { IfOk result (λ level.
        AnswersMark search.now.parameters (row_of row.now) search.now.budget level dep.now) }
    ensures stops { IfErr result (IsStop
        (StopsEmptiness search.now.budget (above_at search.now.parameters (row_of row.now) dep.now))) }
{
    match above_at(alloc, search.parameters, row, dep) {
        Err(_) => Err(Kept::NoMemory),
        Ok(above) => asked(alloc, search.parameters, &above, search.budget),
    }
}

/// Whether a row is parallel: the dependences are asked in order, up to the first at which it rises.
pub fn is_parallel(alloc: Global, search: &Search, row: &Row, ruled: &[Ruled]) -> Result<bool, Kept>
    requires { (x : RuledDep) → In x ruled.now → CanTell search.now.parameters (row_of row.now) x.dep }
    ensures parallel { result ≡ Ok true → (d : Dependence) → In d (map dep_of ruled.now)
        → IsEmptyDep search.now.parameters (above_at search.now.parameters (row_of row.now) d) }
    ensures carries { result ≡ Ok false → (d : Dependence) × In d (map dep_of ruled.now)
        × (IsEmptyDep search.now.parameters (above_at search.now.parameters (row_of row.now) d) → ⊥) }
    ensures answered { IfOk result (λ _.
        AnswersMarks search.now.parameters (row_of row.now) search.now.budget (map dep_of ruled.now)) }
    ensures stops { IfErr result
        (IsStop (StopsMarks search.now.parameters (row_of row.now) search.now.budget (map dep_of ruled.now))) }
{
    for at in 0..ruled.len() {
        match is_level(alloc, search, row, ruled[at].dep()) {
            Err(kept) => return Err(kept),
            Ok(true) => {}
            Ok(false) => return Ok(false),
        }
    }
    Ok(true)
}
