//! The posed set of a row: of each dependence the rows that keep it and those that bound it, then those by which the
//! row grows the rank of each statement's rows before.
ghost use Rattle.std.specs.Prelude.{◌≡◌, ◌≤◌, ◌++◌, List, All, IfOk, OnOk, length, map};
ghost use Rattle.std.specs.List.{flat_map};
ghost use Rattle.std.specs.Option.{ForSome};
ghost use Rattle.integer_sets.specs.Constraints.{IsSized, system_of};
ghost use Rattle.scop_syntax.specs.Members.{In};
ghost use Rattle.schedule_rows.specs.Items.{Row};
ghost use Rattle.pluto_systems.specs.Placing.{columns_of};
ghost use Rattle.pluto_systems.specs.Posing.{RuledDep, IsRuled, IsFarkasOf, IsBetween, dep_of, ruled_dep, ruled_deps};
ghost use Rattle.pluto_systems.specs.Posing.{equalities_for, rows_for, growth_from, posed_system, vectors_for};
ghost use Rattle.pluto_systems.specs.Posing.{HasPosed, HasPosedBehind, HaveSizes};
ghost use Rattle.pluto_systems.specs.Posing.{AreVectorsOf, AreSmallVectors, AreCoefficientRows};
ghost use Rattle.schedule_rows.specs.Schedule.{loops_in};

use crate::columns::Columns;
use crate::growth::push_growth;
use crate::laws::{
    kernel_vectors_of_rows_are_small, posed_systems_are_sized, posed_systems_hold_the_posed_rows,
};
use crate::placing::place_all;
use crate::ruled::Ruled;
use crate::vectors::{loops_in, vectors_at, vectors_for};
use affine_forms::Form;
use integer_sets::System;
use iteration_domains::{Dep, Model};
use null_space::Rows;
use std::alloc::{AllocError, Global};

/// Appends the equalities and the rows of a dependence over all columns.
fn push_forms(
    alloc: Global,
    columns: &Columns,
    equal: &mut Vec<Form>,
    rows: &mut Vec<Form>,
    dep: &Dep,
    legal: &System,
    bounded: &System,
) -> Result<(), AllocError>
    ensures equalities { OnOk result (equal.new.items ≡ equal.old.items
        ++ equalities_for columns.now.parameters columns.now.loops.now (ruled_dep dep.now legal.now bounded.now)) }
    ensures rows { OnOk result (rows.new.items ≡ rows.old.items
        ++ rows_for columns.now.parameters columns.now.loops.now (ruled_dep dep.now legal.now bounded.now)) }
    ensures sized { OnOk result (HaveSizes (ruled_dep dep.now legal.now bounded.now)) }
{
    let (source, target) = (dep.source.statement, dep.target.statement);
    place_all(alloc, equal, columns, source, target, legal.equalities())?;
    place_all(alloc, equal, columns, source, target, bounded.equalities())?;
    place_all(alloc, rows, columns, source, target, legal.rows())?;
    place_all(alloc, rows, columns, source, target, bounded.rows())
}

/// The equalities and the rows of dependences over all columns.
fn forms_over(
    alloc: Global,
    columns: &Columns,
    ruled: &[Ruled],
) -> Result<(Vec<Form>, Vec<Form>), AllocError>
    ensures equalities { IfOk result (λ v. v.0.items
        ≡ flat_map (equalities_for columns.now.parameters columns.now.loops.now) ruled.now) }
    ensures rows { IfOk result (λ v. v.1.items
        ≡ flat_map (rows_for columns.now.parameters columns.now.loops.now) ruled.now) }
{
    let mut equal = Vec::new(alloc);
    let mut rows = Vec::new(alloc);
    for one in ruled {
        let (dep, legal, bounded) = (one.dep(), one.legal(), one.bounded());
        push_forms(alloc, columns, &mut equal, &mut rows, dep, legal, bounded)?;
    }
    Ok((equal, rows))
}

/// The same of dependences whose systems stand beside them.
fn forms_of(
    alloc: Global,
    columns: &Columns,
    deps: &[Dep],
    legal: &[System],
    bounded: &[System],
) -> Result<(Vec<Form>, Vec<Form>), AllocError>
    requires legal { length legal.now ≡ length deps.now }
    requires bounded { length bounded.now ≡ length deps.now }
    ensures equalities { IfOk result (λ v. v.0.items
        ≡ flat_map (equalities_for columns.now.parameters columns.now.loops.now)
        (ruled_deps deps.now legal.now bounded.now)) }
    ensures rows { IfOk result (λ v. v.1.items
        ≡ flat_map (rows_for columns.now.parameters columns.now.loops.now)
        (ruled_deps deps.now legal.now bounded.now)) }
    ensures sized { IfOk result (λ _. (x : RuledDep) → In x (ruled_deps deps.now legal.now bounded.now) → HaveSizes x) }
{
    let mut equal = Vec::new(alloc);
    let mut rows = Vec::new(alloc);
    for at in 0..deps.len() {
        let (dep, keeps, bounds) = (&deps[at], &legal[at], &bounded[at]);
        push_forms(alloc, columns, &mut equal, &mut rows, dep, keeps, bounds)?;
    }
    Ok((equal, rows))
}

/// Appends the rows of all statements for their kernel vectors.
fn push_all_growth(
    alloc: Global,
    out: &mut Vec<Form>,
    columns: &Columns,
    vectors: &[Rows],
) -> Result<(), AllocError>
    requires vectors { AreSmallVectors columns.now.loops.now (map (λ vs. map (λ v. v.items) vs.items) vectors.now) }
    ensures { OnOk result (out.new.items ≡ out.old.items
        ++ growth_from columns.now.parameters columns.now.loops.now 0
        (map (λ vs. map (λ v. v.items) vs.items) vectors.now)) }
{
    for s in 0..vectors.len() {
        push_growth(alloc, out, columns, s, vectors_at(vectors, s))?;
    }
    Ok(())
}

/// How many columns there are.
fn count_of(columns: &Columns) -> Option<usize>
    ensures { ForSome result (λ n. n ≡ columns_of columns.now.parameters columns.now.loops.now) }
{
    let loops = columns.loops;
    let mut count = columns.parameters + 1;
    for at in 0..loops.len() {
        count = count.checked_add(loops[at] + 1)?;
    }
    Some(count)
}

/// The system of these equalities, these rows and those of all statements for their kernel vectors.
fn with_growth(
    alloc: Global,
    columns: &Columns,
    equalities: Vec<Form>,
    mut rows: Vec<Form>,
    vectors: &[Rows],
) -> Result<System, AllocError>
    requires vectors { AreSmallVectors columns.now.loops.now (map (λ vs. map (λ v. v.items) vs.items) vectors.now) }
    requires sized { IsSized (columns_of columns.now.parameters columns.now.loops.now) equalities.items (rows.items
        ++ growth_from columns.now.parameters columns.now.loops.now 0
        (map (λ vs. map (λ v. v.items) vs.items) vectors.now)) }
    ensures { IfOk result (λ s. s
        ≡ system_of (columns_of columns.now.parameters columns.now.loops.now) 0 equalities.items (rows.items
        ++ growth_from columns.now.parameters columns.now.loops.now 0
        (map (λ vs. map (λ v. v.items) vs.items) vectors.now))) }
{
    push_all_growth(alloc, &mut rows, columns, vectors)?;
    match count_of(columns) {
        // So many columns do not fit the memory.
        None => Err(AllocError),
        Some(count) => Ok(System::from_parts(count, 0, equalities, rows)),
    }
}

/// The posed set of a row: over u for each parameter, w, and for each statement its coefficients from the innermost
/// loop and its shift, the system whose points that are not negative are exactly the rows that keep and bound all
/// dependences and grow the rank of the rows before, of which `vectors` are the kernel vectors, statement by statement.
///
/// # Errors
/// `AllocError` alone.
pub fn posed_over(
    alloc: Global,
    parameters: usize,
    loops: &[usize],
    ruled: &[Ruled],
    vectors: &[Rows],
) -> Result<System, AllocError>
    requires parameters { parameters ≤ 4 }
    requires loops { All (λ l. l ≤ 5) loops.now }
    requires between { (x : RuledDep) → In x ruled.now → IsRuled x × IsBetween parameters loops.now x.dep }
    requires vectors { AreSmallVectors loops.now (map (λ vs. map (λ v. v.items) vs.items) vectors.now) }
    ensures exact { IfOk result (λ s. s
        ≡ posed_system parameters loops.now ruled.now (map (λ vs. map (λ v. v.items) vs.items) vectors.now)) }
    ensures points { IfOk result (λ s. (before : List Row)
        → AreVectorsOf loops.now before (map (λ vs. map (λ v. v.items) vs.items) vectors.now)
        → HasPosed parameters loops.now (map dep_of ruled.now) before s) }
{
    posed_systems_are_sized();
    posed_systems_hold_the_posed_rows();
    let columns = Columns { parameters, loops };
    let (equalities, rows) = forms_over(alloc, &columns, ruled)?;
    with_growth(alloc, &columns, equalities, rows, vectors)
}

/// The posed set of a row of a schedule of this model: `legal` and `bounded` are the systems by Farkas's lemma of each
/// of the dependences, in order, and `rows` the coefficients of the rows before, up to 2^14 in size, a list for each
/// statement. Over u for each parameter, w, and for each statement its coefficients from the innermost loop and its
/// shift, it is the system whose points that are not negative are exactly the rows that keep and bound all dependences
/// and grow the rank of each statement's rows.
///
/// # Errors
/// `AllocError` alone.
pub fn posed(
    alloc: Global,
    model: &Model,
    deps: &[Dep],
    rows: &[Rows],
    legal: &[System],
    bounded: &[System],
) -> Result<System, AllocError>
    requires rows { AreCoefficientRows (loops_in model.now) (map (λ vs. map (λ v. v.items) vs.items) rows.now) }
    requires legal { length legal.now ≡ length deps.now }
    requires bounded { length bounded.now ≡ length deps.now }
    requires farkas { (x : RuledDep) → In x (ruled_deps deps.now legal.now bounded.now)
        → IsFarkasOf x × IsBetween model.now.parameters (loops_in model.now) x.dep }
    ensures exact { IfOk result (λ s. s ≡ posed_system model.now.parameters (loops_in model.now)
        (ruled_deps deps.now legal.now bounded.now)
        (vectors_for (loops_in model.now) (map (λ vs. map (λ v. v.items) vs.items) rows.now))) }
    ensures points { IfOk result (λ s. HasPosedBehind model.now.parameters (loops_in model.now) deps.now
        (map (λ vs. map (λ v. v.items) vs.items) rows.now) s) }
    ensures before { IfOk result (λ s. (before : List Row)
        → AreVectorsOf (loops_in model.now) before
        (vectors_for (loops_in model.now) (map (λ vs. map (λ v. v.items) vs.items) rows.now))
        → HasPosed model.now.parameters (loops_in model.now) deps.now before s) }
{
    kernel_vectors_of_rows_are_small();
    posed_systems_are_sized();
    posed_systems_hold_the_posed_rows();
    let loops = loops_in(alloc, model)?;
    let columns = Columns {
        parameters: model.parameters(),
        loops: &loops,
    };
    let vectors = vectors_for(alloc, &columns, rows)?;
    let (equalities, rules) = forms_of(alloc, &columns, deps, legal, bounded)?;
    with_growth(alloc, &columns, equalities, rules, &vectors)
}
