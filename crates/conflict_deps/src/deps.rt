//! The dependences between accesses, in their order.
ghost use Rattle.std.specs.Prelude.{◌≡◌, ◌+◌, ◌<◌, ◌≤◌, ◌++◌, ◌∷◌, [], All, IfOk, IsTrue, OnOk, map};
ghost use Rattle.std.specs.List.{flat_map};
ghost use Rattle.scop_syntax.specs.Order.{common};
ghost use Rattle.iteration_domains.specs.Sizes.{HaveOneCount};
ghost use Rattle.conflict_deps.specs.Conflicts.{afters_of, cell_rows, conflicts_of, dep_of, deps_between, end_of};
ghost use Rattle.conflict_deps.specs.Conflicts.{conflicts_without as exact_without, deps_on, loops_of};
ghost use Rattle.conflict_deps.specs.Conflicts.{may_conflict, parameter_rows};
ghost use Rattle.conflict_deps.specs.Conflicts.{sides_in, sides_of, source_rows, target_rows};
ghost use Rattle.conflict_deps.specs.steps.HeldPairs.{source_of, target_of, width_of};
ghost use Rattle.conflict_deps.specs.steps.View.{CanPair, GainsTests, ShowsTests, order_at, side_of};

use crate::forms::{
    push_equal_turns, push_later_turn, push_sources, push_subscripts, push_targets,
};
use crate::pair::Pair;
use integer_sets::System;
use iteration_domains::{
    AccessForms, Dep, DepEnd, Form, Model, StatementModel, push, push_variables,
};
use scop_syntax::is_marked;
use std::alloc::{AllocError, Global};

/// An access of a statement, with its number.
#[derive(Drop)]
pub struct AccessOf<'a> {
    pub statement: &'a StatementModel,
    pub number: usize,
    pub access: &'a AccessForms,
}

/// A system's equalities and rows while they are put together.
#[derive(Drop)]
pub struct PairRows {
    pub equalities: Vec<Form>,
    pub rows: Vec<Form>,
}

/// How many loops two statements have in common.
fn common_loops(first: &[usize], second: &[usize]) -> usize
    ensures { result ≡ common first.now second.now }
{
    for at in 0..first.len() {
        if at >= second.len() {
            return at;
        }
        if first[at] != second[at] {
            return at;
        }
    }
    first.len()
}

/// Whether the accesses are to one array, and one of them writes.
fn can_conflict(pair: &Pair) -> bool
    ensures { result ≡ may_conflict (source_of pair.now) (target_of pair.now) }
{
    let first = pair.source.access;
    let second = pair.target.access;
    first.array == second.array && (pair.source.number == 0 || pair.target.number == 0)
}

/// That both instances run.
fn both_domains(alloc: Global, pair: &Pair) -> Result<PairRows, AllocError>
    ensures { IfOk result (λ rows. ShowsTests (width_of pair.now) rows
        (source_rows (source_of pair.now) (target_of pair.now)
        ++ target_rows (source_of pair.now) (target_of pair.now))) }
{
    let first = pair.source.statement.domain();
    let second = pair.target.statement.domain();
    let mut equalities = Vec::new(alloc);
    let mut rows = Vec::new(alloc);
    push_sources(
        alloc,
        &mut equalities,
        first.equalities(),
        pair.loops,
        pair.others,
    )?;
    push_targets(alloc, &mut equalities, second.equalities(), pair.loops)?;
    push_sources(alloc, &mut rows, first.rows(), pair.loops, pair.others)?;
    push_targets(alloc, &mut rows, second.rows(), pair.loops)?;
    Ok(PairRows { equalities, rows })
}

/// And touch one cell.
fn push_cell(alloc: Global, rows: &mut PairRows, pair: &Pair) -> Result<(), AllocError>
    ensures { OnOk result (GainsTests (width_of pair.now) rows.old rows.new
        (cell_rows (source_of pair.now) (target_of pair.now))) }
{
    let first = pair.source.access;
    let second = pair.target.access;
    push_subscripts(
        alloc,
        &mut rows.equalities,
        first.subscripts.as_slice(),
        second.subscripts.as_slice(),
        pair.loops,
        pair.others,
        pair.parameters,
    )?;
    Ok(())
}

/// And the turns of the outermost `equal` loops are equal, where the source has `loops` turns, and of the next loop the
/// target's is later, if `later`.
fn push_order(
    alloc: Global,
    rows: &mut PairRows,
    variables: usize,
    loops: usize,
    equal: usize,
    later: bool,
) -> Result<(), AllocError>
    requires equal { loops + equal ≤ variables }
    requires later { IsTrue later → loops + equal < variables }
    ensures { OnOk result (GainsTests variables rows.old rows.new (order_at variables loops equal later).rows) }
{
    push_equal_turns(alloc, &mut rows.equalities, variables, loops, equal)?;
    if later {
        push_later_turn(alloc, &mut rows.rows, variables, loops, equal)?;
    }
    Ok(())
}

/// And no parameter is negative.
fn push_up(alloc: Global, rows: &mut PairRows, pair: &Pair) -> Result<(), AllocError>
    ensures { OnOk result (GainsTests (width_of pair.now) rows.old rows.new
        (parameter_rows pair.now.parameters (source_of pair.now) (target_of pair.now))) }
{
    let before = pair.loops + pair.others;
    push_variables(
        alloc,
        &mut rows.rows,
        before + pair.parameters,
        before,
        pair.parameters,
    )?;
    Ok(())
}

/// The end of a dependence.
fn end(side: &AccessOf) -> DepEnd
    ensures { result ≡ end_of (side_of side.now) }
{
    DepEnd {
        statement: side.statement.number(),
        loops: side.statement.domain().dimensions(),
        access: side.number,
    }
}

/// The dependence by which the turns of `equal` common loops are equal, and the next one is later or the text decides.
fn dep_between(alloc: Global, pair: &Pair, equal: usize, later: bool) -> Result<Dep, AllocError>
    requires equal { equal ≤ loops_of (target_of pair.now) }
    requires later { IsTrue later → equal < loops_of (target_of pair.now) }
    ensures { IfOk result (λ dep. dep ≡ dep_of pair.now.parameters (source_of pair.now) (target_of pair.now)
        (order_at (width_of pair.now) (loops_of (source_of pair.now)) equal later)) }
{
    let dimensions = pair.loops + pair.others;
    let mut rows = both_domains(alloc, pair)?;
    push_cell(alloc, &mut rows, pair)?;
    push_order(
        alloc,
        &mut rows,
        dimensions + pair.parameters,
        pair.loops,
        equal,
        later,
    )?;
    push_up(alloc, &mut rows, pair)?;
    let system = System::from_parts(dimensions, pair.parameters, rows.equalities, rows.rows);
    Ok(Dep {
        source: end(pair.source),
        target: end(pair.target),
        depth: equal + 1,
        system,
    })
}

/// Appends that dependence.
fn push_dep(
    alloc: Global,
    deps: &mut Vec<Dep>,
    pair: &Pair,
    equal: usize,
    later: bool,
) -> Result<(), AllocError>
    requires equal { equal ≤ loops_of (target_of pair.now) }
    requires later { IsTrue later → equal < loops_of (target_of pair.now) }
    ensures { OnOk result (deps.new.items
        ≡ deps.old.items ++ dep_of pair.now.parameters (source_of pair.now) (target_of pair.now)
        (order_at (width_of pair.now) (loops_of (source_of pair.now)) equal later) ∷ []) }
{
    let dep = dep_between(alloc, pair, equal, later)?;
    push(deps, dep)
}

/// Appends the dependences from one access to another, by depth.
fn push_depths(alloc: Global, deps: &mut Vec<Dep>, pair: &Pair) -> Result<(), AllocError>
    ensures { OnOk result (deps.new.items ≡ deps.old.items
        ++ map (dep_of pair.now.parameters (source_of pair.now) (target_of pair.now))
        (afters_of pair.now.parameters (source_of pair.now) (target_of pair.now))) }
{
    let source = pair.source.statement;
    let target = pair.target.statement;
    let common = common_loops(source.loops(), target.loops());
    for equal in 0..common {
        push_dep(alloc, deps, pair, equal, true)?;
    }
    if source.number() < target.number() {
        push_dep(alloc, deps, pair, common, false)?;
    }
    Ok(())
}

/// Appends the dependences from one access to another, if one of them writes what the other touches.
fn push_between(alloc: Global, deps: &mut Vec<Dep>, pair: &Pair) -> Result<(), AllocError>
    ensures { OnOk result (deps.new.items ≡ deps.old.items
        ++ deps_between pair.now.parameters (source_of pair.now) (target_of pair.now)) }
{
    if can_conflict(pair) {
        push_depths(alloc, deps, pair)
    } else {
        Ok(())
    }
}

/// Appends the dependences from an access to those of a statement.
fn push_to_statement(
    alloc: Global,
    deps: &mut Vec<Dep>,
    parameters: usize,
    source: &AccessOf,
    statement: &StatementModel,
) -> Result<(), AllocError>
    requires source { CanPair parameters (side_of source.now) }
    requires statement { statement.now.domain.parameters ≡ parameters }
    requires one { HaveOneCount source.now.statement.now statement.now }
    requires few { parameters ≤ 4 }
    ensures { OnOk result (deps.new.items
        ≡ deps.old.items ++ flat_map (deps_between parameters (side_of source.now)) (sides_of statement.now)) }
{
    let accesses = statement.accesses();
    let loops = source.statement.domain().dimensions();
    let others = statement.domain().dimensions();
    for number in 0..accesses.len() {
        let target = AccessOf {
            statement,
            number,
            access: &accesses[number],
        };
        let pair = Pair {
            parameters,
            source: &*source,
            target: &target,
            loops,
            others,
        };
        push_between(alloc, deps, &pair)?;
    }
    Ok(())
}

/// Appends the dependences from an access to all.
fn push_from_access(
    alloc: Global,
    deps: &mut Vec<Dep>,
    model: &Model,
    source: &AccessOf,
) -> Result<(), AllocError>
    requires source { CanPair model.now.parameters (side_of source.now) }
    requires one { All (HaveOneCount source.now.statement.now) model.now.statements }
    ensures { OnOk result (deps.new.items ≡ deps.old.items
        ++ flat_map (deps_between model.now.parameters (side_of source.now)) (sides_in model.now)) }
{
    let parameters = model.parameters();
    for statement in model.statements() {
        push_to_statement(alloc, deps, parameters, source, statement)?;
    }
    Ok(())
}

/// Appends the dependences from an access to all, but none where its array is marked.
fn push_unmarked(
    alloc: Global,
    deps: &mut Vec<Dep>,
    model: &Model,
    source: &AccessOf,
    marked: &[usize],
) -> Result<(), AllocError>
    requires source { CanPair model.now.parameters (side_of source.now) }
    requires one { All (HaveOneCount source.now.statement.now) model.now.statements }
    ensures { OnOk result
        (deps.new.items ≡ deps.old.items ++ deps_on marked.now model.now (side_of source.now)) }
{
    let access = source.access;
    if is_marked(marked, access.array) {
        Ok(())
    } else {
        push_from_access(alloc, deps, model, source)
    }
}

/// Appends the dependences from the accesses of a statement.
fn push_from_statement(
    alloc: Global,
    deps: &mut Vec<Dep>,
    model: &Model,
    statement: &StatementModel,
    marked: &[usize],
) -> Result<(), AllocError>
    requires statement { statement.now.domain.parameters ≡ model.now.parameters }
    requires one { All (HaveOneCount statement.now) model.now.statements }
    ensures { OnOk result
        (deps.new.items ≡ deps.old.items ++ flat_map (deps_on marked.now model.now) (sides_of statement.now)) }
{
    let accesses = statement.accesses();
    for number in 0..accesses.len() {
        let source = AccessOf {
            statement,
            number,
            access: &accesses[number],
        };
        push_unmarked(alloc, deps, model, &source, marked)?;
    }
    Ok(())
}

/// The dependences of a model but for those on marked arrays: one for each ordered pair of accesses to one array of which
/// one writes, and each depth at which the target may come after the source; by source statement, its access, target
/// statement, its access and depth.
///
/// # Errors
/// `AllocError` alone.
pub fn conflicts_without(
    alloc: Global,
    model: &Model,
    marked: &[usize],
) -> Result<Vec<Dep>, AllocError>
    ensures { IfOk result (λ deps. deps.items ≡ exact_without marked.now model.now) }
{
    let mut deps = Vec::new(alloc);
    for statement in model.statements() {
        push_from_statement(alloc, &mut deps, model, statement, marked)?;
    }
    Ok(deps)
}

/// All of them.
///
/// # Errors
/// `AllocError` alone.
pub fn conflicts(alloc: Global, model: &Model) -> Result<Vec<Dep>, AllocError>
    ensures { IfOk result (λ deps. deps.items ≡ conflicts_of model.now) }
{
    conflicts_without(alloc, model, &[])
}
