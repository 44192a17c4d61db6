//! The problem of a candidate: its unknowns are the writer's turns, or 2^46 less these for a last writer, its
//! parameters the kernel's and then the reader's turns. Its rows are those of the conflict but for the reader's domain,
//! which is the context.
ghost use Rattle.std.specs.Prelude.{◌≡◌, ◌≤◌, ◌++◌, All, IfOk, OnOk, map};
ghost use Rattle.quast_joins.specs.declared.way.Way.TheVariants.{Earlier, Later};
ghost use Rattle.dataflow.specs.Posed.{CanPose, IsPosed, IsSmall};
ghost use Rattle.dataflow.specs.Problems.{flat, moved_pair, moved_variables, own_equalities_of, own_rows_of};
ghost use Rattle.dataflow.specs.Problems.{posed_context, posed_rows, reader_begins, turned};

use crate::forms::{push_below, push_composed, push_flat};
use affine_forms::Form;
use iteration_domains::{Dep, StatementModel, push_variables};
use pip_solver::Problem;
use quast_joins::Way;
use scop_syntax::MOST_PARAMETER_VALUE;
use std::alloc::{AllocError, Global};

/// A number above all turns.
pub const TOP: u64 = 70_368_744_177_664;

// What stands for the variables of the conflict's system, for a last writer.
fn pair_behind(
    alloc: Global,
    unknowns: usize,
    parameters: usize,
    turns: usize,
) -> Result<Vec<Form>, AllocError>
    requires unknowns { unknowns ≤ 5 }
    requires parameters { parameters ≤ 4 }
    requires turns { turns ≤ 5 }
    ensures { IfOk result (λ v. v.items ≡ moved_pair Later unknowns parameters turns) }
{
    let all = unknowns + (parameters + turns);
    let mut inner = Vec::new(alloc);
    push_below(alloc, &mut inner, TOP, all, 0, unknowns)?;
    push_variables(alloc, &mut inner, all, unknowns + parameters, turns)?;
    push_variables(alloc, &mut inner, all, unknowns, parameters)?;
    Ok(inner)
}

// The same for a next writer.
fn pair_ahead(
    alloc: Global,
    unknowns: usize,
    parameters: usize,
    turns: usize,
) -> Result<Vec<Form>, AllocError>
    requires unknowns { unknowns ≤ 5 }
    requires parameters { parameters ≤ 4 }
    requires turns { turns ≤ 5 }
    ensures { IfOk result (λ v. v.items ≡ moved_pair Earlier unknowns parameters turns) }
{
    let all = unknowns + (parameters + turns);
    let mut inner = Vec::new(alloc);
    push_variables(alloc, &mut inner, all, unknowns + parameters, turns)?;
    push_variables(alloc, &mut inner, all, 0, unknowns)?;
    push_variables(alloc, &mut inner, all, unknowns, parameters)?;
    Ok(inner)
}

// The same either way.
fn pair_forms(
    alloc: Global,
    way: Way,
    unknowns: usize,
    parameters: usize,
    turns: usize,
) -> Result<Vec<Form>, AllocError>
    requires unknowns { unknowns ≤ 5 }
    requires parameters { parameters ≤ 4 }
    requires turns { turns ≤ 5 }
    ensures { IfOk result (λ v. v.items ≡ moved_pair way unknowns parameters turns) }
{
    match way {
        Way::Later => pair_behind(alloc, unknowns, parameters, turns),
        Way::Earlier => pair_ahead(alloc, unknowns, parameters, turns),
    }
}

// Where the forms of the reader's domain begin, by how many the writer's has.
fn reader_begins(way: Way, writers: usize) -> usize
    ensures begins { result ≡ reader_begins way writers }
    ensures within { result ≤ writers }
{
    match way {
        Way::Later => writers,
        Way::Earlier => 0,
    }
}

// What stands for the variables of the reader's domain.
fn moved_forms(alloc: Global, parameters: usize, turns: usize) -> Result<Vec<Form>, AllocError>
    requires parameters { parameters ≤ 4 }
    requires turns { turns ≤ 5 }
    ensures { IfOk result (λ v. v.items ≡ moved_variables parameters turns) }
{
    let outer = parameters + turns;
    let mut inner = Vec::new(alloc);
    push_variables(alloc, &mut inner, outer, parameters, turns)?;
    push_variables(alloc, &mut inner, outer, 0, parameters)?;
    Ok(inner)
}

// Appends the conflict's equalities but those of the reader's domain.
fn push_own_equalities(
    rows: &mut Vec<Form>,
    way: Way,
    parameters: usize,
    writer: &StatementModel,
    reader: &StatementModel,
    dep: &Dep,
    inner: &[Form],
) -> Result<(), AllocError>
    requires can { CanPose parameters writer.now reader.now dep.now }
    requires inner { inner.now
        ≡ moved_pair way writer.now.domain.dimensions parameters reader.now.domain.dimensions }
    ensures { OnOk result (rows.new.items ≡ rows.old.items
        ++ flat (map (turned way writer.now.domain.dimensions parameters reader.now.domain.dimensions)
        (own_equalities_of way writer.now reader.now dep.now))) }
{
    let all = writer.loops().len() + (parameters + reader.loops().len());
    let system = dep.system.equalities();
    let first = reader_begins(way, writer.domain().equalities().len());
    let second = first + reader.domain().equalities().len();
    push_flat(rows, &system[..first], inner, all)?;
    push_flat(rows, &system[second..], inner, all)?;
    Ok(())
}

// Appends the conflict's rows but those, and those of the parameters.
fn push_own_rows(
    rows: &mut Vec<Form>,
    way: Way,
    parameters: usize,
    writer: &StatementModel,
    reader: &StatementModel,
    dep: &Dep,
    inner: &[Form],
) -> Result<(), AllocError>
    requires can { CanPose parameters writer.now reader.now dep.now }
    requires inner { inner.now
        ≡ moved_pair way writer.now.domain.dimensions parameters reader.now.domain.dimensions }
    ensures { OnOk result (rows.new.items ≡ rows.old.items
        ++ map (turned way writer.now.domain.dimensions parameters reader.now.domain.dimensions)
        (own_rows_of way writer.now reader.now parameters dep.now)) }
{
    let all = writer.loops().len() + (parameters + reader.loops().len());
    let system = dep.system.rows();
    let first = reader_begins(way, writer.domain().rows().len());
    let second = first + reader.domain().rows().len();
    let last = system.len() - parameters;
    push_composed(rows, &system[..first], inner, all)?;
    push_composed(rows, &system[second..last], inner, all)
}

// The rows.
fn rows_between(
    alloc: Global,
    way: Way,
    parameters: usize,
    writer: &StatementModel,
    reader: &StatementModel,
    dep: &Dep,
) -> Result<Vec<Form>, AllocError>
    requires { CanPose parameters writer.now reader.now dep.now }
    ensures { IfOk result (λ v. v.items ≡ posed_rows way writer.now reader.now parameters dep.now) }
{
    let inner = pair_forms(
        alloc,
        way,
        writer.loops().len(),
        parameters,
        reader.loops().len(),
    )?;
    let mut rows = Vec::new(alloc);
    push_own_equalities(&mut rows, way, parameters, writer, reader, dep, &inner)?;
    push_own_rows(&mut rows, way, parameters, writer, reader, dep, &inner)?;
    Ok(rows)
}

// The context.
fn context_of(
    alloc: Global,
    parameters: usize,
    reader: &StatementModel,
) -> Result<Vec<Form>, AllocError>
    requires few { parameters ≤ 4 }
    requires parameters { reader.now.domain.parameters ≡ parameters }
    requires equalities { All IsSmall reader.now.domain.equalities }
    requires rows { All IsSmall reader.now.domain.rows }
    ensures { IfOk result (λ v. v.items ≡ posed_context reader.now parameters) }
{
    let turns = reader.loops().len();
    let inner = moved_forms(alloc, parameters, turns)?;
    let outer = parameters + turns;
    let domain = reader.domain();
    let mut context = Vec::new(alloc);
    push_flat(&mut context, domain.equalities(), &inner, outer)?;
    push_composed(&mut context, domain.rows(), &inner, outer)?;
    push_below(
        alloc,
        &mut context,
        MOST_PARAMETER_VALUE,
        outer,
        0,
        parameters,
    )?;
    Ok(context)
}

/// The problem of a candidate between a writer and a reader of a model with so many parameters.
pub fn posed(
    alloc: Global,
    way: Way,
    parameters: usize,
    writer: &StatementModel,
    reader: &StatementModel,
    dep: &Dep,
) -> Result<Problem, AllocError>
    requires { CanPose parameters writer.now reader.now dep.now }
    ensures { IfOk result (IsPosed way parameters writer.now reader.now dep.now) }
{
    let rows = rows_between(alloc, way, parameters, writer, reader, dep)?;
    let context = context_of(alloc, parameters, reader)?;
    Ok(Problem {
        unknowns: writer.loops().len(),
        parameters: parameters + reader.loops().len(),
        rows,
        context,
    })
}
