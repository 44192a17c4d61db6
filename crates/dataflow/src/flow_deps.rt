//! The dependences that hold each read with its last writers: one for each leaf of its quast.
ghost use Rattle.std.specs.Prelude.{◌≡◌, ◌++◌, ◌-◌, All, IfOk, OnOk, length, map};
ghost use Rattle.scop_syntax.specs.Members.{In};
ghost use Rattle.quast_joins.specs.declared.way.Way.TheVariants.{Later};
ghost use Rattle.conflict_deps.specs.steps.View.{side_of};
ghost use Rattle.dataflow.specs.Flow.{AreLastSources, AreLastSourcesOf, IsLastSource, IsResolved};
ghost use Rattle.dataflow.specs.Flow.{flow_from, flow_of, read_sides, tree_in};
ghost use Rattle.dataflow.specs.steps.LeafSteps.{IsReader};
ghost use Rattle.dataflow.specs.Leaves.{leaf_deps};
ghost use Rattle.dataflow.specs.Posed.{IsOfKernel};
ghost use Rattle.dataflow.specs.ReadSources.{reads_of_statement};

use crate::covers::push_leaves;
use crate::source::ReadSource;
use conflict_deps::AccessOf;
use iteration_domains::{Dep, Model, StatementModel};
use quast_joins::Way;
use scop_syntax::statements_are_numbered;
use std::alloc::{AllocError, Global};

// Appends the dependences of a read with its last writers.
fn push_source(
    alloc: Global,
    out: &mut Vec<Dep>,
    model: &Model,
    reader: &AccessOf,
    source: &ReadSource,
) -> Result<(), AllocError>
    requires kernel { IsOfKernel model.now }
    requires reader { IsReader model.now (side_of reader.now) }
    requires source { IsLastSource model.now (side_of reader.now) source.now }
    requires resolved { IsResolved source.now }
    ensures { OnOk result
        (out.new.items ≡ out.old.items ++ leaf_deps Later model.now (side_of reader.now) (tree_in source.now)) }
{
    statements_are_numbered();
    match source {
        ReadSource::Resolved(quast) => push_leaves(alloc, out, Way::Later, model, reader, quast),
        ReadSource::Unresolved(_) => unreachable!(),
    }
}

// Appends those of a statement's reads.
fn push_reads(
    alloc: Global,
    out: &mut Vec<Dep>,
    model: &Model,
    statement: &StatementModel,
    sources: &[ReadSource],
) -> Result<(), AllocError>
    requires kernel { IsOfKernel model.now }
    requires statement { In statement.now model.now.statements }
    requires parameters { statement.now.domain.parameters ≡ model.now.parameters }
    requires sources { AreLastSourcesOf model.now (reads_of_statement statement.now) sources.now }
    requires resolved { All IsResolved sources.now }
    ensures { OnOk result (out.new.items
        ≡ out.old.items ++ flow_from model.now (read_sides statement.now) (map tree_in sources.now)) }
{
    let accesses = statement.accesses();
    for index in 0..sources.len() {
        let number = index + 1;
        let reader = AccessOf {
            statement,
            number,
            access: &accesses[number],
        };
        push_source(alloc, out, model, &reader, &sources[index])?;
    }
    Ok(())
}

// How many reads a statement has.
fn reads_in(statement: &StatementModel) -> usize
    ensures { result ≡ length statement.now.accesses - 1 }
{
    statement.accesses().len().saturating_sub(1)
}

/// The dependences that hold each read with its last writers, by statement and read. `sources` are those that
/// `last_writes` gives for the model, each of them resolved.
///
/// # Errors
/// `AllocError` alone.
pub fn flow(alloc: Global, model: &Model, sources: &[ReadSource]) -> Result<Vec<Dep>, AllocError>
    requires kernel { IsOfKernel model.now }
    requires sources { AreLastSources model.now sources.now }
    requires resolved { All IsResolved sources.now }
    ensures deps { IfOk result (λ v. v.items ≡ flow_of model.now (map tree_in sources.now)) }
{
    let mut deps = Vec::new(alloc);
    let mut rest = sources;
    for statement in model.statements() {
        let (own, others) = rest.split_at(reads_in(statement));
        push_reads(alloc, &mut deps, model, statement, own)?;
        rest = others;
    }
    Ok(deps)
}
