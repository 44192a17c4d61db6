//! Dependences restricted to equal values of rows, or to pairs at which a row rises, and whether they are empty.
ghost use Rattle.std.specs.Prelude.{◌≡◌, ◌<◌, ◌++◌, pos, negsuc, ◌+ℤ◌, ◌-ℤ◌, ◌*ℤ◌, ◌⊎◌, true};
ghost use Rattle.std.specs.Prelude.{false, All, IfErr, IfOk, OnOk, length, map, Ok};
ghost use Rattle.whole_numbers.specs.Affine.{form_of};
ghost use Rattle.whole_numbers.specs.Lists.{multiples, zeros};
ghost use Rattle.scop_syntax.specs.Members.{In};
ghost use Rattle.iteration_domains.specs.Dependence.{Dependence, binds_in};
ghost use Rattle.pluto_systems.specs.Claims.{distance};
ghost use Rattle.schedule_rows.specs.Items.{part_of};
ghost use Rattle.schedule_rows.specs.Dependences.{IsEmptyDep, unknowns_of, equal_at, above_at};
ghost use Rattle.schedule_rows.specs.Next.{Restricts, restricted};
ghost use Rattle.schedule_rows.specs.Schedule.{row_of, marked_of};
ghost use Rattle.pluto_search.specs.Questions.{AnswersEmptiness, AnswersRestricted, StopsEmptiness, StopsRestricted};
ghost use Rattle.pluto_search.specs.steps.Sizes.{IsCount, AreCounts, CanTell};
ghost use Rattle.pluto_search.specs.steps.Stopping.{IsStop, Restrictions};

use crate::kept::Kept;
use crate::stops::by_solver;
use affine_forms::Form;
use iteration_domains::{Dep, Numbers, form_from, push_zeros};
use pip_solver::is_empty;
use schedule_rows::{Marked, Part, Row};
use std::alloc::{AllocError, Global};

/// Appends the opposites of numbers.
fn push_opposites(out: &mut Numbers, numbers: &[i128]) -> Result<(), AllocError>
    requires { AreCounts numbers.now }
    ensures { OnOk result (out.new.items ≡ out.old.items ++ multiples (negsuc 0) numbers.now) }
{
    for at in 0..numbers.len() {
        out.push(opposite(numbers[at]))?;
    }
    Ok(())
}

/// `-number`.
fn opposite(number: i128) -> i128
    requires { IsCount number }
    ensures { result ≡ negsuc 0 *ℤ number }
{
    -number
}

/// A statement's part of a row.
fn part_at(row: &Row, s: usize) -> &Part
    requires { s < length row.now.parts.items }
    ensures coefficients { result.now.coefficients.items ≡ (part_of (row_of row.now) s).coefficients }
    ensures shift { result.now.shift ≡ (part_of (row_of row.now) s).shift }
{
    &row.parts[s]
}

/// The coefficients of `phi_T - phi_S`.
fn difference_numbers(
    alloc: Global,
    binds: usize,
    parameters: usize,
    source: &[i128],
    target: &[i128],
) -> Result<Numbers, AllocError>
    requires { AreCounts source.now }
    ensures { IfOk result (λ v. v.items
        ≡ multiples (negsuc 0) source.now ++ (target.now ++ (zeros binds ++ zeros parameters))) }
{
    let mut numbers = Numbers::new(alloc);
    push_opposites(&mut numbers, source)?;
    numbers.extend_from_slice(target)?;
    push_zeros(&mut numbers, binds)?;
    push_zeros(&mut numbers, parameters)?;
    Ok(numbers)
}

/// `target - source + more`.
fn shift_between(source: i128, target: i128, more: i128) -> i128
    requires source { IsCount source }
    requires target { IsCount target }
    requires more { (more ≡ pos 0) ⊎ (more ≡ negsuc 0) }
    ensures { result ≡ (target -ℤ source) +ℤ more }
{
    target - source + more
}

/// `phi_T - phi_S + more` over a dependence's variables.
fn difference_and(
    alloc: Global,
    parameters: usize,
    row: &Row,
    dep: &Dep,
    more: i128,
) -> Result<Form, AllocError>
    requires tells { CanTell parameters (row_of row.now) dep.now }
    requires more { (more ≡ pos 0) ⊎ (more ≡ negsuc 0) }
    ensures { IfOk result (λ f. f
        ≡ form_of (distance (binds_in dep.now) parameters (unknowns_of dep.now (row_of row.now))).coefficients
        ((distance (binds_in dep.now) parameters (unknowns_of dep.now (row_of row.now))).constant +ℤ more)) }
{
    let source = part_at(row, dep.source.statement);
    let target = part_at(row, dep.target.statement);
    let turns = dep.source.loops + dep.target.loops;
    let numbers = difference_numbers(
        alloc,
        dep.system.dimensions() - turns,
        parameters,
        &source.coefficients,
        &target.coefficients,
    )?;
    let shift = shift_between(source.shift, target.shift, more);
    form_from(alloc, numbers.as_slice(), shift)
}

/// The pairs at which a row has equal values.
fn equal_at(alloc: Global, parameters: usize, row: &Row, dep: &Dep) -> Result<Dep, AllocError>
    requires { CanTell parameters (row_of row.now) dep.now }
    ensures { IfOk result (λ d. d ≡ equal_at parameters (row_of row.now) dep.now) }
{
    let form = difference_and(alloc, parameters, row, dep, 0)?;
    dep.with_equality(alloc, form)
}

/// The pairs at which `phi_T - phi_S >= 1`.
pub fn above_at(alloc: Global, parameters: usize, row: &Row, dep: &Dep) -> Result<Dep, AllocError>
    requires { CanTell parameters (row_of row.now) dep.now }
    ensures { IfOk result (λ d. d ≡ above_at parameters (row_of row.now) dep.now) }
{
    let form = difference_and(alloc, parameters, row, dep, -1)?;
    dep.with_row(alloc, form)
}

/// The pairs at which all rows have equal values.
fn restricted(
    alloc: Global,
    parameters: usize,
    rows: &[Marked],
    dep: &Dep,
) -> Result<Dep, AllocError>
    requires { All (λ r. CanTell parameters r.row dep.now) (map marked_of rows.now) }
    ensures { IfOk result (λ d. d ≡ restricted parameters (map marked_of rows.now) dep.now) }
{
    let mut equal = dep.copy(alloc)?;
    for marked in rows {
        match equal_at(alloc, parameters, &marked.row, &equal) {
            Err(_) => return Err(AllocError),
            Ok(next) => equal = next,
        }
    }
    Ok(equal)
}

/// Whether a dependence is empty.
pub fn asked(alloc: Global, parameters: usize, dep: &Dep, budget: u64) -> Result<bool, Kept>
    requires { dep.now.system.parameters ≡ parameters }
    ensures empty { result ≡ Ok true → IsEmptyDep parameters dep.now }
    ensures point { result ≡ Ok false → IsEmptyDep parameters dep.now → ⊥ }
    ensures answered { IfOk result (λ empty. AnswersEmptiness budget empty dep.now) }
    ensures stops { IfErr result (IsStop (StopsEmptiness budget dep.now)) }
{
    match is_empty(alloc, &dep.system, budget) {
        Err(stop) => Err(by_solver(stop)),
        Ok(empty) => Ok(empty),
    }
}

/// A dependence restricted to equal values of rows, and whether it is empty then.
fn restrict(
    alloc: Global,
    parameters: usize,
    rows: &[Marked],
    dep: &Dep,
    budget: u64,
) -> Result<Option<Dep>, Kept>
    requires tells { All (λ r. CanTell parameters r.row dep.now) (map marked_of rows.now) }
    requires parameters { dep.now.system.parameters ≡ parameters }
    ensures { Restrictions parameters (map marked_of rows.now) budget dep.now result }
{
    let dep = match restricted(alloc, parameters, rows, dep) {
        Err(_) => return Err(Kept::NoMemory),
        Ok(dep) => dep,
    };
    match asked(alloc, parameters, &dep, budget) {
        Err(kept) => Err(kept),
        Ok(true) => Ok(None),
        Ok(false) => Ok(Some(dep)),
    }
}

/// The dependences restricted to equal values of rows, asked in order; those that are empty are dropped.
pub fn restrict_all(
    alloc: Global,
    parameters: usize,
    rows: &[Marked],
    deps: &[Dep],
    budget: u64,
) -> Result<Vec<Dep>, Kept>
    requires tells { (d : Dependence) → In d deps.now → All (λ r. CanTell parameters r.row d) (map marked_of rows.now) }
    requires parameters { (d : Dependence) → In d deps.now → d.system.parameters ≡ parameters }
    ensures kept { IfOk result (λ v. Restricts parameters (map marked_of rows.now) deps.now v.items) }
    ensures answered { IfOk result (λ _. AnswersRestricted parameters (map marked_of rows.now) budget deps.now) }
    ensures stops { IfErr result (IsStop (StopsRestricted parameters (map marked_of rows.now) budget deps.now)) }
{
    let mut kept = Vec::new(alloc);
    for at in 0..deps.len() {
        match restrict(alloc, parameters, rows, &deps[at], budget) {
            Err(stopped) => return Err(stopped),
            Ok(None) => continue,
            Ok(Some(dep)) => match kept.push(dep) {
                Err(_) => return Err(Kept::NoMemory),
                Ok(()) => {}
            },
        }
    }
    Ok(kept)
}
