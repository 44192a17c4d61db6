//! The sources of accesses: the candidates of an access are solved and joined one after the other, up to the first that
//! stops; and those of all reads of a model, by their last writers or their next.
ghost use Rattle.std.specs.Prelude.{◌≡◌, ◌+◌, ◌≤◌, IfErr, IfOk, OnOk, length};
ghost use Rattle.scop_syntax.specs.Members.{In};
ghost use Rattle.quast_trees.specs.Postfix.{tree_of};
ghost use Rattle.quast_trees.specs.Tree.{count};
ghost use Rattle.quast_joins.specs.Counts.{join_count};
ghost use Rattle.quast_joins.specs.Joins.{join};
ghost use Rattle.quast_joins.specs.Limits.{IsStopOf, leaf_limit, node_limit};
ghost use Rattle.quast_joins.specs.Sizes.{LeavesWithin};
ghost use Rattle.quast_joins.specs.declared.way.Way.TheVariants.{Earlier, Later};
ghost use Rattle.conflict_deps.specs.Conflicts.{conflicts_of};
ghost use Rattle.dataflow.specs.Covering.{HoldConflicts};
ghost use Rattle.dataflow.specs.Posed.{IsOfKernel};
ghost use Rattle.dataflow.specs.ReadSources.{IsSourceOf, AreSources, reads_of, reads_of_statement};
ghost use Rattle.dataflow.specs.ReadSources.{NameLastWriters, NameNextWriters};
ghost use Rattle.dataflow.specs.Sources.{reader_end};
ghost use Rattle.dataflow.specs.steps.Steps.{GainsSources, GoesOn, IsJoinable};
ghost use Rattle.dataflow.specs.Told.{AreTold, IsToldOver};
ghost use Rattle.dataflow.specs.WriterRuns.{is_candidate, read_variables};

use crate::candidate::solved;
use crate::ends::{reader_end, writer_end};
use crate::source::{ReadSource, SourceStop};
use crate::source_laws::{resolved_reads_have_their_writers, sources_are_told};
use affine_forms::push;
use conflict_deps::conflicts;
use iteration_domains::{Dep, Model, StatementModel};
use pip_solver::Stop;
use quast_joins::{JoinStop, Way, earlier_of, later_of};
use quast_trees::Quast;
use scop_syntax::statements_are_numbered;
use std::alloc::{AllocError, Global};

/// Why the run over an access's candidates does not go on.
#[derive(Drop)]
pub enum Halted {
    Stop(SourceStop),
    NoMemory,
}

// Whether a dependence is a candidate of the access.
fn is_candidate(way: Way, dep: &Dep, statement: usize, access: usize) -> bool
    ensures { result ≡ is_candidate way statement access dep.now }
{
    let reader = reader_end(way, dep);
    let writer = writer_end(way, dep);
    reader.statement == statement && reader.access == access && writer.access == 0
}

// The two quasts joined, either way.
fn join_of(way: Way, first: &Quast, second: &Quast) -> Result<Quast, JoinStop>
    requires parameters { first.now.parameters ≡ second.now.parameters }
    requires first { LeavesWithin leaf_limit (tree_of first.now) }
    requires second { LeavesWithin leaf_limit (tree_of second.now) }
    ensures parameters { IfOk result (λ q. q.parameters ≡ first.now.parameters) }
    ensures tree { IfOk result
        (λ q. tree_of q ≡ join way first.now.parameters (tree_of first.now) (tree_of second.now)) }
    ensures few { IfOk result (λ q. count (tree_of q) ≤ node_limit) }
    ensures spent { IfErr result (IsStopOf (join_count (tree_of first.now) (tree_of second.now))) }
{
    match way {
        Way::Later => later_of(first, second),
        Way::Earlier => earlier_of(first, second),
    }
}

// The quast joined with a candidate's.
fn joined(
    alloc: Global,
    way: Way,
    model: &Model,
    first: &Quast,
    dep: &Dep,
    budget: u64,
) -> Result<Quast, Halted>
    requires kernel { IsOfKernel model.now }
    requires dep { In dep.now (conflicts_of model.now) }
    requires first { IsJoinable (read_variables model.now (reader_end way dep.now).statement) first.now }
    ensures { GoesOn way model.now budget (read_variables model.now (reader_end way dep.now).statement)
        (tree_of first.now) dep.now result }
{
    let second = match solved(alloc, way, model, dep, budget) {
        Err(Stop::NoMemory) => return Err(Halted::NoMemory),
        Err(stop) => return Err(Halted::Stop(SourceStop::Solver(stop))),
        Ok(second) => second,
    };
    match join_of(way, first, &second) {
        Err(JoinStop::NoMemory) => Err(Halted::NoMemory),
        Err(JoinStop::Spent { nodes }) => Err(Halted::Stop(SourceStop::Join { nodes })),
        Ok(join) => Ok(join),
    }
}

// The candidates of an access of a statement, solved and joined one after the other.
fn candidates_joined(
    alloc: Global,
    way: Way,
    model: &Model,
    deps: &[Dep],
    statement: &StatementModel,
    access: usize,
    budget: u64,
) -> Result<ReadSource, AllocError>
    requires kernel { IsOfKernel model.now }
    requires deps { HoldConflicts way model.now statement.now.number access deps.now }
    requires statement { In statement.now model.now.statements }
    ensures { IfOk result (IsSourceOf way model.now budget statement.now.number access) }
{
    statements_are_numbered();
    let variables = model.parameters() + statement.loops().len();
    let mut found = match Quast::initial(alloc, variables) {
        Err(error) => return Err(error),
        Ok(found) => found,
    };
    for dep in deps {
        if is_candidate(way, dep, statement.number(), access) {
            match joined(alloc, way, model, &found, dep, budget) {
                Err(Halted::NoMemory) => return Err(AllocError),
                Err(Halted::Stop(stop)) => return Ok(ReadSource::Unresolved(stop)),
                Ok(next) => found = next,
            }
        }
    }
    Ok(ReadSource::Resolved(found))
}

/// The source of one access of a statement, a read or the written one: its last writers, or its next.
///
/// # Errors
/// `AllocError` alone.
pub fn source_of(
    alloc: Global,
    way: Way,
    model: &Model,
    deps: &[Dep],
    statement: &StatementModel,
    access: usize,
    budget: u64,
) -> Result<ReadSource, AllocError>
    requires kernel { IsOfKernel model.now }
    requires deps { HoldConflicts way model.now statement.now.number access deps.now }
    requires statement { In statement.now model.now.statements }
    ensures run { IfOk result (IsSourceOf way model.now budget statement.now.number access) }
    ensures told { IfOk result
        (IsToldOver model.now (model.now.parameters + length statement.now.loops)) }
{
    statements_are_numbered();
    candidates_joined(alloc, way, model, deps, statement, access, budget)
}

// Appends the sources of a statement's reads.
fn push_reads(
    alloc: Global,
    sources: &mut Vec<ReadSource>,
    way: Way,
    model: &Model,
    deps: &[Dep],
    statement: &StatementModel,
    budget: u64,
) -> Result<(), AllocError>
    requires kernel { IsOfKernel model.now }
    requires deps { deps.now ≡ conflicts_of model.now }
    requires statement { In statement.now model.now.statements }
    ensures { OnOk result
        (GainsSources way model.now budget sources.old.items sources.new.items (reads_of_statement statement.now)) }
{
    for access in 1..statement.accesses().len() {
        let source = source_of(alloc, way, model, deps, statement, access, budget)?;
        push(sources, source)?;
    }
    Ok(())
}

// The source of each read.
fn sources_of(
    alloc: Global,
    way: Way,
    model: &Model,
    budget: u64,
) -> Result<Vec<ReadSource>, AllocError>
    requires { IsOfKernel model.now }
    ensures sources { IfOk result (λ v. AreSources way model.now budget (reads_of model.now) v.items) }
    ensures told { IfOk result (λ v. AreTold model.now (reads_of model.now) v.items) }
{
    sources_are_told();
    let deps = conflicts(alloc, model)?;
    let mut sources = Vec::new(alloc);
    for statement in model.statements() {
        push_reads(alloc, &mut sources, way, model, &deps, statement, budget)?;
    }
    Ok(sources)
}

/// The source of each read of a kernel's model, by statement and read, in a budget of moves for each candidate's
/// problem.
///
/// # Errors
/// `AllocError` alone.
pub fn last_writes(alloc: Global, model: &Model, budget: u64) -> Result<Vec<ReadSource>, AllocError>
    requires { IsOfKernel model.now }
    ensures sources { IfOk result (λ v. AreSources Later model.now budget (reads_of model.now) v.items) }
    ensures last { IfOk result (λ v. NameLastWriters model.now v.items) }
    ensures told { IfOk result (λ v. AreTold model.now (reads_of model.now) v.items) }
{
    resolved_reads_have_their_writers();
    sources_of(alloc, Way::Later, model, budget)
}

/// The next writer behind each read, by statement and read, in such a budget.
///
/// # Errors
/// `AllocError` alone.
pub fn next_writes(alloc: Global, model: &Model, budget: u64) -> Result<Vec<ReadSource>, AllocError>
    requires { IsOfKernel model.now }
    ensures sources { IfOk result (λ v. AreSources Earlier model.now budget (reads_of model.now) v.items) }
    ensures next { IfOk result (λ v. NameNextWriters model.now v.items) }
    ensures told { IfOk result (λ v. AreTold model.now (reads_of model.now) v.items) }
{
    resolved_reads_have_their_writers();
    sources_of(alloc, Way::Earlier, model, budget)
}
