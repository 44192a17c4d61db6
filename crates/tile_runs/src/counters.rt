//! What stands behind the cells of all arrays while a plan runs: the copies of the walk's places, where each instance
//! has one of its own, and the counters of tiles, where these are released one by one.
ghost use Rattle.std.specs.Prelude.{◌≡◌, ◌+◌, ◌≤◌, IfErr, IfOk, OnOk, false, length, true};
ghost use Rattle.tile_core.specs.Plans.{IsPlan, extents_in, is_expanded, plain_shape, program_in, shape_of, walk_shape};
ghost use Rattle.tile_runs.specs.steps.Rows.{Begins, Executes, HasZeros};

use crate::copies::settle;
use crate::rows::append_zeros;
use crate::workers::Workers;
use loop_tree::{Spot, Tree};
use std::alloc::{AllocError, Global};
use tile_core::{Plan, walks_are_dealt};

/// How many copies stand behind the cells of all arrays.
pub(crate) fn copies_of(plan: &Plan) -> usize
    requires { IsPlan plan.now }
    ensures { (plain_shape plan.now).cells + result ≡ (walk_shape plan.now).cells }
{
    walks_are_dealt();
    match plan.expansion {
        None => 0,
        Some(expansion) => expansion.places.len(),
    }
}

/// How many counters stand behind the cells of all arrays and the copies.
pub(crate) fn counters_of(plan: &Plan) -> usize
    ensures { (walk_shape plan.now).cells + result ≡ (shape_of plan.now).cells }
{
    match plan.edges {
        None => 0,
        Some(_) => plan.tiles() as usize,
    }
}

/// Puts zeros behind the cells of all arrays, for the copies and the counters.
///
/// # Errors
/// `AllocError`; the row begins as it was.
fn append_rest(plan: &Plan, row: &mut Vec<u64>) -> Result<(), AllocError>
    requires plan { IsPlan plan.now }
    requires cells { length row.old.items ≡ (plain_shape plan.now).cells }
    ensures zeros { OnOk result (HasZeros row.old.items row.new.items) }
    ensures cells { OnOk result (length row.new.items ≡ (shape_of plan.now).cells) }
    ensures begins { IfErr result (λ _. Begins row.old.items row.new.items) }
{
    append_zeros(row, copies_of(plan))?;
    append_zeros(row, counters_of(plan))?;
    Ok(())
}

/// Runs a plan whose instances have no copies of their own on the cells of all arrays, with its counters behind them
/// while it runs.
///
/// # Errors
/// `AllocError`; the row begins as it was.
fn run_in_place<W: Workers>(
    by: &W,
    alloc: Global,
    plan: Plan,
    row: &mut Vec<u64>,
    workers: usize,
) -> Result<(), AllocError>
    requires ready { W.ready by.now }
    requires plan { IsPlan plan }
    requires plain { is_expanded plan ≡ false }
    requires cells { length row.old.items ≡ (plain_shape plan).cells }
    requires some { 1 ≤ workers }
    requires few { workers ≤ 64 }
    ensures executed { IfOk result (λ _. Executes (program_in plan.entry) plan.entry.params.now (extents_in plan.entry)
        row.old.items row.new.items) }
    ensures begins { IfErr result (λ _. Begins row.old.items row.new.items) }
{
    let cells = row.len();
    append_rest(&plan, row)?;
    by.run(alloc, plan, row, workers)?;
    row.truncate(cells);
    Ok(())
}

/// Runs a plan whose instances have copies of their own on the cells of all arrays, with the copies and its counters
/// behind them while it runs, and then puts each copy into its cell, in the order of the kernel's own execution.
///
/// # Errors
/// `AllocError`; the row begins as it was.
fn run_with_copies<W: Workers>(
    by: &W,
    alloc: Global,
    plan: Plan,
    row: &mut Vec<u64>,
    workers: usize,
) -> Result<(), AllocError>
    requires ready { W.ready by.now }
    requires plan { IsPlan plan }
    requires expanded { is_expanded plan ≡ true }
    requires cells { length row.old.items ≡ (plain_shape plan).cells }
    requires some { 1 ≤ workers }
    requires few { workers ≤ 64 }
    ensures executed { IfOk result (λ _. Executes (program_in plan.entry) plan.entry.params.now (extents_in plan.entry)
        row.old.items row.new.items) }
    ensures begins { IfErr result (λ _. Begins row.old.items row.new.items) }
{
    let cells = row.len();
    let source = Tree::of_source(alloc, plan.kernel)?;
    let mut spot = Spot::of(alloc, &source)?;
    append_rest(&plan, row)?;
    by.run(alloc, plan, row, workers)?;
    settle(&plan, &source, &mut spot, cells, row);
    row.truncate(cells);
    Ok(())
}

/// Runs the plan on the cells of all arrays, with its copies and counters behind them while it runs.
///
/// # Errors
/// `AllocError`; the row begins as it was.
pub(crate) fn run_with_rest<W: Workers>(
    by: &W,
    alloc: Global,
    plan: Plan,
    row: &mut Vec<u64>,
    workers: usize,
) -> Result<(), AllocError>
    requires ready { W.ready by.now }
    requires plan { IsPlan plan }
    requires cells { length row.old.items ≡ (plain_shape plan).cells }
    requires some { 1 ≤ workers }
    requires few { workers ≤ 64 }
    ensures executed { IfOk result (λ _. Executes (program_in plan.entry) plan.entry.params.now (extents_in plan.entry)
        row.old.items row.new.items) }
    ensures begins { IfErr result (λ _. Begins row.old.items row.new.items) }
{
    match plan.expansion {
        None => run_in_place(by, alloc, plan, row, workers),
        Some(_) => run_with_copies(by, alloc, plan, row, workers),
    }
}
