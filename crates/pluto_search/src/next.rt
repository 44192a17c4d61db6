//! The next item, or why there is none.
ghost use Rattle.std.specs.Prelude.{◌≡◌, true, false, ◌++◌, [], All, IfOk, IfErr, length, map, suc, ◌+◌};
ghost use Rattle.schedule_rows.specs.Next.{Restricts, rows_of};
ghost use Rattle.schedule_rows.specs.Posed.{IsFull};
ghost use Rattle.schedule_rows.specs.Outcomes.{items_in};
ghost use Rattle.schedule_rows.specs.Schedule.{block_of, row_of};
ghost use Rattle.pluto_systems.specs.Placing.{columns_of, row_from};
ghost use Rattle.pluto_systems.specs.Posing.{dep_of};
ghost use Rattle.pluto_search.specs.steps.StepParts.{AreWithin, Ended, IsClosed, Cuts, IsLarge, IsAppended, HasAllRows};
ghost use Rattle.pluto_search.specs.Questions.{AnswersRestricted, FindsNone, FindsRow, IsPosedAt};
ghost use Rattle.pluto_search.specs.Questions.{StopsRestricted, StopsRowsOf};
ghost use Rattle.pluto_search.specs.steps.Good.{IsGoodRow};
ghost use Rattle.pluto_search.specs.steps.Steps.{AreRules, HasMore, going, state_of, Steps};
ghost use Rattle.pluto_search.specs.steps.Stopping.{IsStop};

use crate::ends::{close, items_in, numbered, remaining, shared, uncut, with_scalar};
use crate::kept::Kept;
use crate::restricting::restrict_all;
use crate::rows::{is_parallel, is_within, narrow_all, row_from};
use crate::state::{Progress, Step};
use crate::stops::{by_rows, by_solver};
use affine_forms::push;
use integer_sets::System;
use iteration_domains::Dep;
use null_space::Rows;
use pip_solver::least_point_in;
use pluto_systems::{Ruled, posed_over};
use schedule_rows::{Block, Marked, Row};
use std::alloc::{AllocError, Global};
use std::mem;

/// Whether no kernel vector is left.
fn is_full(vectors: &[Rows]) -> bool
    ensures full { result ≡ true → All (λ vs. vs.items ≡ []) vectors.now }
    ensures more { result ≡ false → All (λ vs. vs.items ≡ []) vectors.now → ⊥ }
{
    vectors.iter().all(|own| own.is_empty())
}

/// The blocks with a last scalar item that orders what is left, or why nothing orders it.
fn order(
    alloc: Global,
    loops: &[usize],
    closed: Vec<Block>,
    left: &[Dep],
) -> Result<Vec<Block>, Kept>
    requires some { left.now ≡ [] → ⊥ }
    requires within { AreWithin (length loops.now) left.now }
    ensures { Ended loops.now (map block_of closed.items) left.now result }
{
    let numbers = match numbered(alloc, loops.len(), left) {
        Err(_) => return Err(Kept::NoMemory),
        Ok(numbers) => numbers,
    };
    match shared(&numbers) {
        Some(component) => Err(Kept::NoOrder { component }),
        None => match with_scalar(closed, numbers) {
            Err(_) => Err(Kept::NoMemory),
            Ok(blocks) => Ok(blocks),
        },
    }
}

/// The end, with nothing left, or with a last scalar item that orders what is left; or why nothing orders it.
fn end(alloc: Global, loops: &[usize], closed: Vec<Block>, left: &[Dep]) -> Result<Vec<Block>, Kept>
    requires { AreWithin (length loops.now) left.now }
    ensures { Ended loops.now (map block_of closed.items) left.now result }
{
    if left.is_empty() {
        Ok(closed)
    } else {
        order(alloc, loops, closed, left)
    }
}

/// The dependences that remain, restricted to equal values of the open band's rows; those that are empty are dropped.
fn restrict_left(alloc: Global, progress: &Progress) -> Result<Vec<Dep>, Kept>
    ensures kept { IfOk result (λ v. Restricts progress.now.search.now.parameters (state_of progress.now).rows
        (state_of progress.now).remaining v.items) }
    ensures answered { IfOk result (λ _. AnswersRestricted progress.now.search.now.parameters
        (state_of progress.now).rows progress.now.search.now.budget (state_of progress.now).remaining) }
    ensures stops { IfErr result (IsStop (StopsRestricted progress.now.search.now.parameters
        (state_of progress.now).rows progress.now.search.now.budget (state_of progress.now).remaining)) }
{
    let (parameters, budget) = (progress.search.parameters, progress.search.budget);
    match remaining(alloc, progress) {
        Err(_) => Err(Kept::NoMemory),
        Ok(deps) => restrict_all(alloc, parameters, &progress.rows, &deps, budget),
    }
}

/// All statements have full rank: the last restriction, and the end.
fn finish<'a>(alloc: Global, progress: Progress<'a>) -> Result<Step<'a>, Kept>
    requires { IsFull progress.search.now.loops.now (rows_of (state_of progress)) }
    ensures { Steps progress.entry.search.now (state_of progress.entry) result }
{
    let left = match restrict_left(alloc, &progress) {
        Err(kept) => return Err(kept),
        Ok(left) => left,
    };
    let blocks = match close(progress.closed, progress.rows) {
        Err(_) => return Err(Kept::NoMemory),
        Ok(blocks) => blocks,
    };
    match end(alloc, progress.search.loops, blocks, &left) {
        Err(kept) => Err(kept),
        Ok(blocks) => Ok(Step::Ends(blocks)),
    }
}

/// The band is closed.
fn close_band<'a>(alloc: Global, progress: Progress<'a>) -> Result<Progress<'a>, Kept>
    ensures closed { IfOk result (IsClosed progress.entry) }
    ensures answered { IfOk result (λ _. AnswersRestricted progress.entry.search.now.parameters
        (state_of progress.entry).rows progress.entry.search.now.budget (state_of progress.entry).remaining) }
    ensures stops { IfErr result (IsStop (StopsRestricted progress.entry.search.now.parameters
        (state_of progress.entry).rows progress.entry.search.now.budget (state_of progress.entry).remaining)) }
{
    let kept = match restrict_left(alloc, &progress) {
        Err(kept) => return Err(kept),
        Ok(kept) => kept,
    };
    match close(progress.closed, progress.rows) {
        Err(_) => Err(Kept::NoMemory),
        Ok(closed) => Ok(Progress {
            search: progress.search,
            closed,
            rows: Vec::new(alloc),
            ruled: Vec::new(alloc),
            bare: kept,
            vectors: progress.vectors,
        }),
    }
}

/// A scalar item drops the dependences between components, or nothing goes on.
fn cut<'a>(
    alloc: Global,
    progress: Progress<'a>,
    deps: Vec<Dep>,
    posed: System,
) -> Result<Progress<'a>, Kept>
    requires none { progress.rows.items ≡ [] }
    requires left { deps.items ≡ (state_of progress).remaining }
    requires within { AreWithin (length progress.search.now.loops.now) deps.items }
    ensures { Cuts progress.entry deps.items posed result }
{
    let count = deps.len();
    let numbers = match numbered(alloc, progress.search.loops.len(), &deps) {
        Err(_) => return Err(Kept::NoMemory),
        Ok(numbers) => numbers,
    };
    let kept = match uncut(alloc, &numbers, deps) {
        Err(_) => return Err(Kept::NoMemory),
        Ok(kept) => kept,
    };
    if kept.len() >= count {
        return Err(Kept::NoRow { posed });
    }
    match with_scalar(progress.closed, numbers) {
        Err(_) => Err(Kept::NoMemory),
        Ok(closed) => Ok(Progress {
            search: progress.search,
            closed,
            rows: Vec::new(alloc),
            ruled: Vec::new(alloc),
            bare: kept,
            vectors: progress.vectors,
        }),
    }
}

/// A step that goes on, where it does.
fn goes<'a>(progress: Result<Progress<'a>, Kept>) -> Result<Step<'a>, Kept>
    ensures { result ≡ going progress.entry }
{
    match progress {
        Err(kept) => Err(kept),
        Ok(progress) => Ok(Step::Goes(progress)),
    }
}

/// There is no row: the band is closed, or a scalar item drops dependences, or nothing goes on.
fn lack<'a>(alloc: Global, progress: Progress<'a>, posed: System) -> Result<Step<'a>, Kept>
    requires more { HasMore progress.search.now (state_of progress) }
    requires none { FindsNone progress.search.now.parameters progress.search.now.loops.now progress.search.now.budget
        (state_of progress) }
    requires posed { IsPosedAt progress.search.now.parameters progress.search.now.loops.now progress.search.now.budget
        (state_of progress) posed }
    ensures { Steps progress.entry.search.now (state_of progress.entry) result }
{
    if !progress.rows.is_empty() {
        return goes(close_band(alloc, progress));
    }
    let deps = match remaining(alloc, &progress) {
        Err(_) => return Err(Kept::NoMemory),
        Ok(deps) => deps,
    };
    goes(cut(alloc, progress, deps, posed))
}

/// The least row is too large; it would be the next item.
fn too_large(progress: &Progress) -> Kept
    ensures { IsLarge
        (suc (items_in (map block_of progress.now.closed.items) + length progress.now.rows.items)) result }
{
    match items_in(&progress.closed) {
        None => Kept::NoMemory,
        Some(count) => match count.checked_add(progress.rows.len()) {
            None => Kept::NoMemory,
            Some(before) => match before.checked_add(1) {
                None => Kept::NoMemory,
                Some(row) => Kept::Large { row },
            },
        },
    }
}

/// The least row is appended with its mark.
fn append<'a>(
    alloc: Global,
    mut progress: Progress<'a>,
    row: Row,
    parallel: bool,
) -> Result<Progress<'a>, AllocError>
    requires { IsGoodRow progress.search.now.loops.now (row_of row) }
    ensures { IfOk result (IsAppended progress.entry row parallel) }
{
    let vectors = narrow_all(alloc, &row, &progress.vectors)?;
    push(&mut progress.rows, Marked { row, parallel })?;
    drop(mem::replace(&mut progress.vectors, vectors));
    Ok(progress)
}

/// The least row is appended, marked by the questions of `phi_T - phi_S >= 1`; or it is too large.
fn take<'a>(alloc: Global, progress: Progress<'a>, numbers: Vec<i128>) -> Result<Step<'a>, Kept>
    requires rules { AreRules progress.search.now.budget progress.ruled.items }
    requires ruled { progress.bare.items ≡ [] }
    requires more { HasMore progress.search.now (state_of progress) }
    requires size { length numbers.items ≡ columns_of progress.search.now.parameters progress.search.now.loops.now }
    requires least { FindsRow progress.search.now.parameters progress.search.now.loops.now progress.search.now.budget
        (state_of progress) (row_from progress.search.now.parameters progress.search.now.loops.now numbers.items) }
    ensures { Steps progress.entry.search.now (state_of progress.entry) result }
{
    let search = progress.search;
    let row = match row_from(alloc, search.parameters, search.loops, &numbers) {
        Err(_) => return Err(Kept::NoMemory),
        Ok(row) => row,
    };
    if !is_within(&row) {
        return Err(too_large(&progress));
    }
    let parallel = match is_parallel(alloc, search, &row, &progress.ruled) {
        Err(kept) => return Err(kept),
        Ok(parallel) => parallel,
    };
    match append(alloc, progress, row, parallel) {
        Err(_) => Err(Kept::NoMemory),
        Ok(progress) => Ok(Step::Goes(progress)),
    }
}

/// The rows by Farkas's lemma of all dependences that remain, asked in order where they are not made yet.
fn rule_all(
    alloc: Global,
    ruled: Vec<Ruled>,
    bare: Vec<Dep>,
    budget: u64,
) -> Result<Vec<Ruled>, Kept>
    ensures deps { IfOk result (λ v. map dep_of v.items ≡ map dep_of ruled.items ++ bare.items) }
    ensures rules { IfOk result (λ v. AreRules budget ruled.items → AreRules budget v.items) }
    ensures stops { IfErr result (IsStop (StopsRowsOf budget bare.items)) }
{
    let mut all = ruled;
    for dep in bare {
        match Ruled::of(alloc, dep, budget) {
            Err(stuck) => return Err(by_rows(stuck)),
            Ok(next) => match push(&mut all, next) {
                Err(_) => return Err(Kept::NoMemory),
                Ok(()) => {}
            },
        }
    }
    Ok(all)
}

/// All dependences that remain have their rows then.
fn with_all_rows<'a>(alloc: Global, progress: Progress<'a>) -> Result<Progress<'a>, Kept>
    ensures ruled { IfOk result (HasAllRows progress.entry) }
    ensures stops { IfErr result
        (IsStop (StopsRowsOf progress.entry.search.now.budget progress.entry.bare.items)) }
{
    let search = progress.search;
    match rule_all(alloc, progress.ruled, progress.bare, search.budget) {
        Err(kept) => Err(kept),
        Ok(ruled) => Ok(Progress {
            search,
            closed: progress.closed,
            rows: progress.rows,
            ruled,
            bare: Vec::new(alloc),
            vectors: progress.vectors,
        }),
    }
}

/// The item that comes next where all dependences that remain have their rows: the least row, or what there is where
/// the posed set has no point.
fn next_row<'a>(alloc: Global, progress: Progress<'a>) -> Result<Step<'a>, Kept>
    requires rules { AreRules progress.search.now.budget progress.ruled.items }
    requires ruled { progress.bare.items ≡ [] }
    requires more { HasMore progress.search.now (state_of progress) }
    ensures { Steps progress.entry.search.now (state_of progress.entry) result }
{
    let search = progress.search;
    let (parameters, loops) = (search.parameters, search.loops);
    let posed = match posed_over(alloc, parameters, loops, &progress.ruled, &progress.vectors) {
        Err(_) => return Err(Kept::NoMemory),
        Ok(posed) => posed,
    };
    match least_point_in(alloc, &posed, search.budget) {
        Err(stop) => Err(by_solver(stop)),
        Ok(None) => lack(alloc, progress, posed),
        Ok(Some(numbers)) => take(alloc, progress, numbers),
    }
}

/// The next item of the determined run, or why there is none. The questions: rows of the dependences that remain, in
/// order, then the minimum; of a new row whether it is parallel, up to the first dependence at which it rises; where a
/// band ends the restricted dependences in order.
pub fn next_item<'a>(alloc: Global, progress: Progress<'a>) -> Result<Step<'a>, Kept>
    requires { AreRules progress.search.now.budget progress.ruled.items }
    ensures { Steps progress.entry.search.now (state_of progress.entry) result }
{
    if is_full(&progress.vectors) {
        return finish(alloc, progress);
    }
    match with_all_rows(alloc, progress) {
        Err(kept) => Err(kept),
        Ok(ruled) => next_row(alloc, ruled),
    }
}
