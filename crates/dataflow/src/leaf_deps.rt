//! The dependence of a leaf of an access's quast: its system is over the turns of both instances, what is bound on the way
//! to the leaf, and the parameters.
ghost use Rattle.std.specs.Prelude.{◌≡◌, ◌+◌, ◌≤◌, ◌++◌, All, IfOk, OnOk, map};
ghost use Rattle.iteration_domains.specs.Parts.{variables_of};
ghost use Rattle.conflict_deps.specs.Conflicts.{end_of, loops_of, source_form, target_form};
ghost use Rattle.conflict_deps.specs.steps.View.{CanPair, side_of};
ghost use Rattle.dataflow.specs.LeafRows.{path_rows, turn_equalities, width};
ghost use Rattle.dataflow.specs.steps.LeafSteps.{CanLay, CanWrite};
ghost use Rattle.dataflow.specs.Leaves.{cell_equalities, leaf_dep, leaf_layout, pair_dep, pair_equalities};
ghost use Rattle.dataflow.specs.Leaves.{pair_rows};

use crate::leaf_rows::{Layout, binds_in, push_path, push_turn_equalities};
use conflict_deps::{AccessOf, push_sources, push_subscripts, push_targets};
use fm_projection::condensed;
use iteration_domains::{Dep, DepEnd, Form, System, push_variables};
use quast_joins::Way;
use quast_trees::Path;
use std::alloc::{AllocError, Global};

// How many turns an access's instance has.
fn loops_of(side: &AccessOf) -> usize
    ensures { result ≡ loops_of (side_of side.now) }
{
    side.statement.domain().dimensions()
}

// Where the variables of a leaf stand.
fn leaf_layout(
    way: Way,
    parameters: usize,
    binds: usize,
    reader: &AccessOf,
    writer: &AccessOf,
) -> Layout
    ensures { result ≡ leaf_layout way parameters binds (side_of reader.now) (side_of writer.now) }
{
    let turns = loops_of(reader);
    let others = loops_of(writer);
    match way {
        Way::Later => Layout {
            before: others,
            turns,
            behind: 0,
            binds,
            parameters,
        },
        Way::Earlier => Layout {
            before: 0,
            turns,
            behind: others,
            binds,
            parameters,
        },
    }
}

// Forms of the target over its turns, so many binds and the parameters.
fn bound_forms(
    alloc: Global,
    forms: &[Form],
    loops: usize,
    binds: usize,
) -> Result<Vec<Form>, AllocError>
    requires { All (λ f. loops ≤ variables_of f) forms.now }
    ensures { IfOk result (λ v. v.items ≡ map (source_form loops binds) forms.now) }
{
    let mut all = Vec::new(alloc);
    push_sources(alloc, &mut all, forms, loops, binds)?;
    Ok(all)
}

// Appends forms of the source, and forms of the target, over the turns of both, so many binds and the parameters.
fn push_both(
    alloc: Global,
    out: &mut Vec<Form>,
    first: &[Form],
    second: &[Form],
    loops: usize,
    others: usize,
    binds: usize,
) -> Result<(), AllocError>
    requires first { All (λ f. loops ≤ variables_of f) first.now }
    requires second { All (λ f. others ≤ variables_of f) second.now }
    requires others { others ≤ 5 }
    requires binds { binds ≤ 4096 }
    ensures { OnOk result (out.new.items
        ≡ out.old.items ++ (map (source_form loops (others + binds)) first.now
        ++ map (λ f. target_form loops (source_form others binds f)) second.now)) }
{
    push_sources(alloc, out, first, loops, others + binds)?;
    let wide = bound_forms(alloc, second, others, binds)?;
    push_targets(alloc, out, &wide, loops)
}

// Appends equal subscripts over them.
fn push_cells(
    alloc: Global,
    out: &mut Vec<Form>,
    parameters: usize,
    binds: usize,
    source: &AccessOf,
    target: &AccessOf,
) -> Result<(), AllocError>
    requires source { CanPair parameters (side_of source.now) }
    requires target { CanPair parameters (side_of target.now) }
    requires binds { binds ≤ 4096 }
    ensures { OnOk result (out.new.items
        ≡ out.old.items ++ cell_equalities binds (side_of source.now) (side_of target.now)) }
{
    let loops = loops_of(source);
    let others = loops_of(target);
    let first = source.access;
    let second = target.access;
    let wide = bound_forms(alloc, second.subscripts.as_slice(), others, binds)?;
    push_subscripts(
        alloc,
        out,
        first.subscripts.as_slice(),
        &wide,
        loops,
        others + binds,
        parameters,
    )
}

// The equalities of a leaf.
fn leaf_equalities(
    alloc: Global,
    layout: Layout,
    from: usize,
    source: &AccessOf,
    target: &AccessOf,
    path: &Path,
) -> Result<Vec<Form>, AllocError>
    requires { CanLay layout from (side_of source.now) (side_of target.now) path.now }
    ensures equalities { IfOk result
        (λ v. v.items ≡ pair_equalities layout.binds (side_of source.now) (side_of target.now)
        (turn_equalities layout from path.now.leaf.forms)) }
    ensures sized { IfOk result (λ v. All (λ f. variables_of f ≡ width layout) v.items) }
{
    let first = source.statement.domain();
    let second = target.statement.domain();
    let mut all = Vec::new(alloc);
    push_both(
        alloc,
        &mut all,
        first.equalities(),
        second.equalities(),
        first.dimensions(),
        second.dimensions(),
        layout.binds,
    )?;
    let leaf = path.leaf;
    push_turn_equalities(alloc, &mut all, layout, from, &leaf.forms)?;
    push_cells(
        alloc,
        &mut all,
        layout.parameters,
        layout.binds,
        source,
        target,
    )?;
    Ok(all)
}

// The rows of a leaf.
fn leaf_rows(
    alloc: Global,
    layout: Layout,
    from: usize,
    source: &AccessOf,
    target: &AccessOf,
    path: &Path,
) -> Result<Vec<Form>, AllocError>
    requires { CanLay layout from (side_of source.now) (side_of target.now) path.now }
    ensures rows { IfOk result (λ v. v.items ≡ pair_rows layout.parameters layout.binds (side_of source.now)
        (side_of target.now) (path_rows layout 0 path.now.turns)) }
    ensures sized { IfOk result (λ v. All (λ f. variables_of f ≡ width layout) v.items) }
{
    let first = source.statement.domain();
    let second = target.statement.domain();
    let before = first.dimensions() + second.dimensions() + layout.binds;
    let mut all = Vec::new(alloc);
    push_both(
        alloc,
        &mut all,
        first.rows(),
        second.rows(),
        first.dimensions(),
        second.dimensions(),
        layout.binds,
    )?;
    push_path(alloc, &mut all, layout, &path.turns)?;
    push_variables(
        alloc,
        &mut all,
        before + layout.parameters,
        before,
        layout.parameters,
    )?;
    Ok(all)
}

// An access as an end of a dependence.
fn end(side: &AccessOf) -> DepEnd
    ensures { result ≡ end_of (side_of side.now) }
{
    DepEnd {
        statement: side.statement.number(),
        loops: loops_of(side),
        access: side.number,
    }
}

// The dependence of a leaf between a source and a target.
fn pair_dep(
    alloc: Global,
    layout: Layout,
    from: usize,
    source: &AccessOf,
    target: &AccessOf,
    path: &Path,
) -> Result<Dep, AllocError>
    requires { CanLay layout from (side_of source.now) (side_of target.now) path.now }
    ensures { IfOk result
        (λ d. d ≡ pair_dep layout.parameters layout.binds (side_of source.now) (side_of target.now)
        (turn_equalities layout from path.now.leaf.forms) (path_rows layout 0 path.now.turns)) }
{
    let equalities = leaf_equalities(alloc, layout, from, source, target, path)?;
    let rows = leaf_rows(alloc, layout, from, source, target, path)?;
    let dimensions = loops_of(source) + loops_of(target) + layout.binds;
    let whole = System::from_parts(dimensions, layout.parameters, equalities, rows);
    let system = condensed(alloc, &whole)?;
    Ok(Dep {
        source: end(source),
        target: end(target),
        depth: 0,
        system,
    })
}

/// The dependence of a leaf of an access's quast that names the writer.
pub fn leaf_dep(
    alloc: Global,
    way: Way,
    parameters: usize,
    reader: &AccessOf,
    writer: &AccessOf,
    path: &Path,
) -> Result<Dep, AllocError>
    requires { CanWrite parameters (side_of reader.now) (side_of writer.now) path.now }
    ensures { IfOk result
        (λ d. d ≡ leaf_dep way parameters (side_of reader.now) (side_of writer.now) path.now) }
{
    let binds = binds_in(&path.turns);
    let layout = leaf_layout(way, parameters, binds, reader, writer);
    match way {
        Way::Later => pair_dep(alloc, layout, 0, writer, reader, path),
        Way::Earlier => pair_dep(alloc, layout, layout.turns, reader, writer, path),
    }
}
