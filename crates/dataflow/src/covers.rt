//! The dependences that hold each access with its last writer and each read with its next writer: one for each leaf of
//! their quasts, and where a quast is not told all conflicts with the access in that role.
ghost use Rattle.std.specs.Prelude.{◌≡◌, ◌++◌, ◌∷◌, [], IfOk, IfSome, OnOk, MatchOption, None, Some, slice_get};
ghost use Rattle.std.specs.List.{flat_map};
ghost use Rattle.scop_syntax.specs.Members.{In};
ghost use Rattle.quast_joins.specs.declared.way.Way.{Way};
ghost use Rattle.quast_trees.specs.Postfix.{tree_of};
ghost use Rattle.conflict_deps.specs.Conflicts.{conflicts_without, sides_of};
ghost use Rattle.conflict_deps.specs.steps.View.{CanPair, side_of};
ghost use Rattle.dataflow.specs.Covering.{HoldConflicts, covers_at, covers_of, is_in_role, role_deps, roles_at};
ghost use Rattle.dataflow.specs.steps.LeafSteps.{CanTellAll, CanTellWriter, IsReader};
ghost use Rattle.dataflow.specs.Leaves.{deps_of_leaf, leaf_deps, writer_of};
ghost use Rattle.dataflow.specs.Posed.{IsOfKernel};
ghost use Rattle.dataflow.specs.WriterRuns.{chosen_deps};

use crate::ends::reader_end;
use crate::leaf_deps::leaf_dep;
use crate::reads::source_of;
use crate::source::ReadSource;
use affine_forms::push;
use conflict_deps::AccessOf;
use iteration_domains::{Dep, Model, StatementModel};
use quast_joins::Way;
use quast_trees::{Path, Quast};
use scop_syntax::{is_marked, statements_are_numbered};
use std::alloc::{AllocError, Global};

// The access that writes at a leaf's source, the first of its statement.
fn writer_of<'a>(model: &'a Model, path: &Path) -> Option<AccessOf<'a>>
    ensures writer { MatchOption result (writer_of model.now path.now.leaf.source ≡ None)
        (λ writer. writer_of model.now path.now.leaf.source ≡ Some (side_of writer)) }
    ensures pairs { IfSome result (λ writer. CanPair model.now.parameters (side_of writer)) }
{
    let leaf = path.leaf;
    let Some(source) = &leaf.source else {
        return None;
    };
    let statement = model.statements().get(source.statement)?;
    let access = statement.accesses().first()?;
    Some(AccessOf {
        statement,
        number: 0,
        access,
    })
}

// Appends the dependence of a leaf, where it names a statement.
fn push_leaf(
    alloc: Global,
    out: &mut Vec<Dep>,
    way: Way,
    model: &Model,
    reader: &AccessOf,
    path: &Path,
) -> Result<(), AllocError>
    requires reader { CanPair model.now.parameters (side_of reader.now) }
    requires leaf { CanTellWriter model.now (side_of reader.now) path.now }
    ensures { OnOk result
        (out.new.items ≡ out.old.items ++ deps_of_leaf way model.now (side_of reader.now) path.now) }
{
    let Some(writer) = writer_of(model, path) else {
        return Ok(());
    };
    let dep = leaf_dep(alloc, way, model.parameters(), reader, &writer, path)?;
    push(out, dep)
}

/// Appends the dependences of an access's quast.
///
/// # Errors
/// `AllocError` alone.
pub(crate) fn push_leaves(
    alloc: Global,
    out: &mut Vec<Dep>,
    way: Way,
    model: &Model,
    reader: &AccessOf,
    quast: &Quast,
) -> Result<(), AllocError>
    requires reader { CanPair model.now.parameters (side_of reader.now) }
    requires leaves { CanTellAll model.now (side_of reader.now) (tree_of quast.now) }
    ensures { OnOk result
        (out.new.items ≡ out.old.items ++ leaf_deps way model.now (side_of reader.now) (tree_of quast.now)) }
{
    let paths = quast.live_paths()?;
    for path in &paths {
        push_leaf(alloc, out, way, model, reader, path)?;
    }
    Ok(())
}

// Whether a dependence has the access in that role.
fn is_in_role(way: Way, dep: &Dep, statement: usize, access: usize) -> bool
    ensures { result ≡ is_in_role way statement access dep.now }
{
    let reader = reader_end(way, dep);
    reader.statement == statement && reader.access == access
}

// Appends a copy of a conflict, where it has the access in that role.
fn push_conflict(
    alloc: Global,
    out: &mut Vec<Dep>,
    way: Way,
    dep: &Dep,
    statement: usize,
    access: usize,
) -> Result<(), AllocError>
    ensures { OnOk result
        (out.new.items ≡ out.old.items ++ chosen_deps (is_in_role way statement access) (dep.now ∷ [])) }
{
    if !is_in_role(way, dep, statement, access) {
        return Ok(());
    }
    let again = dep.copy(alloc)?;
    push(out, again)
}

// Appends copies of the conflicts with an access in that role.
fn push_conflicts(
    alloc: Global,
    out: &mut Vec<Dep>,
    way: Way,
    deps: &[Dep],
    statement: usize,
    access: usize,
) -> Result<(), AllocError>
    ensures { OnOk result
        (out.new.items ≡ out.old.items ++ chosen_deps (is_in_role way statement access) deps.now) }
{
    for dep in deps {
        push_conflict(alloc, out, way, dep, statement, access)?;
    }
    Ok(())
}

// Appends the dependences of an access with its last writers, or its next.
fn push_role(
    alloc: Global,
    out: &mut Vec<Dep>,
    way: Way,
    model: &Model,
    conflicts: &[Dep],
    reader: &AccessOf,
    budget: u64,
) -> Result<(), AllocError>
    requires kernel { IsOfKernel model.now }
    requires conflicts { HoldConflicts way model.now (side_of reader.now).statement.number reader.now.number
        conflicts.now }
    requires reader { IsReader model.now (side_of reader.now) }
    ensures { OnOk result
        (out.new.items ≡ out.old.items ++ role_deps budget way model.now (side_of reader.now)) }
{
    statements_are_numbered();
    let statement = reader.statement;
    let source = source_of(
        alloc,
        way,
        model,
        conflicts,
        statement,
        reader.number,
        budget,
    )?;
    match source {
        ReadSource::Resolved(quast) => push_leaves(alloc, out, way, model, reader, &quast),
        ReadSource::Unresolved(_) => push_conflicts(
            alloc,
            out,
            way,
            conflicts,
            statement.number(),
            reader.number,
        ),
    }
}

// Appends the dependences of an access with its last writers, and behind them, where it is a read, its next.
fn push_roles(
    alloc: Global,
    out: &mut Vec<Dep>,
    model: &Model,
    conflicts: &[Dep],
    reader: &AccessOf,
    budget: u64,
) -> Result<(), AllocError>
    requires kernel { IsOfKernel model.now }
    requires conflicts { (way : Way)
        → HoldConflicts way model.now (side_of reader.now).statement.number reader.now.number conflicts.now }
    requires reader { IsReader model.now (side_of reader.now) }
    ensures { OnOk result (out.new.items ≡ out.old.items ++ roles_at budget model.now (side_of reader.now)) }
{
    push_role(alloc, out, Way::Later, model, conflicts, reader, budget)?;
    if reader.number == 0 {
        return Ok(());
    }
    push_role(alloc, out, Way::Earlier, model, conflicts, reader, budget)
}

// Appends those of an access, but none where its array is marked.
fn push_access(
    alloc: Global,
    out: &mut Vec<Dep>,
    model: &Model,
    conflicts: &[Dep],
    reader: &AccessOf,
    marked: &[usize],
    budget: u64,
) -> Result<(), AllocError>
    requires kernel { IsOfKernel model.now }
    requires conflicts { conflicts.now ≡ conflicts_without marked.now model.now }
    requires reader { IsReader model.now (side_of reader.now) }
    requires access { slice_get (side_of reader.now).statement.accesses reader.now.number
        ≡ Some (side_of reader.now).access }
    ensures { OnOk result
        (out.new.items ≡ out.old.items ++ covers_at budget marked.now model.now (side_of reader.now)) }
{
    statements_are_numbered();
    let access = reader.access;
    if is_marked(marked, access.array) {
        Ok(())
    } else {
        push_roles(alloc, out, model, conflicts, reader, budget)
    }
}

// Appends those of a statement's accesses.
fn push_statement(
    alloc: Global,
    out: &mut Vec<Dep>,
    model: &Model,
    conflicts: &[Dep],
    statement: &StatementModel,
    marked: &[usize],
    budget: u64,
) -> Result<(), AllocError>
    requires kernel { IsOfKernel model.now }
    requires conflicts { conflicts.now ≡ conflicts_without marked.now model.now }
    requires statement { In statement.now model.now.statements }
    requires parameters { statement.now.domain.parameters ≡ model.now.parameters }
    ensures { OnOk result
        (out.new.items ≡ out.old.items ++ flat_map (covers_at budget marked.now model.now) (sides_of statement.now)) }
{
    let accesses = statement.accesses();
    for number in 0..accesses.len() {
        let reader = AccessOf {
            statement,
            number,
            access: &accesses[number],
        };
        push_access(alloc, out, model, conflicts, &reader, marked, budget)?;
    }
    Ok(())
}

/// The dependences that hold each access with its last writers and each read with its next, by statement and access, in a
/// budget of moves for each candidate's problem, but for accesses to marked arrays. `conflicts` are those of the model
/// without these arrays.
///
/// # Errors
/// `AllocError` alone.
pub fn covering(
    alloc: Global,
    model: &Model,
    conflicts: &[Dep],
    marked: &[usize],
    budget: u64,
) -> Result<Vec<Dep>, AllocError>
    requires kernel { IsOfKernel model.now }
    requires conflicts { conflicts.now ≡ conflicts_without marked.now model.now }
    ensures deps { IfOk result (λ v. v.items ≡ covers_of budget marked.now model.now) }
{
    let mut deps = Vec::new(alloc);
    for statement in model.statements() {
        push_statement(
            alloc, &mut deps, model, conflicts, statement, marked, budget,
        )?;
    }
    Ok(deps)
}
