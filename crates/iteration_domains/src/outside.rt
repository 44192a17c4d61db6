//! The systems of the index check: at a kernel's parameters, two for each subscript, over its statement's turns alone.
//! Their whole points are the instances at which the subscript lies below 0, and past its extent.
ghost use Rattle.std.specs.Prelude.{◌≡◌, ◌+◌, ◌*◌, ◌≤◌, ◌^◌, ◌++◌, ◌∷◌, [], All, IfOk, OnOk, length, map, unsigned_abs};
ghost use Rattle.integer_sets.specs.Parts.{variables_of};
ghost use Rattle.whole_numbers.specs.Affine.{form_of, multiple_of_form, sum_of_forms};
ghost use Rattle.whole_numbers.specs.Lists.{zeros};
ghost use Rattle.integer_sets.specs.Constraints.{system_of};
ghost use Rattle.scop_syntax.specs.Cells.{values};
ghost use Rattle.scop_syntax.specs.Execution.{layout, size_of};
ghost use Rattle.scop_syntax.specs.View.{program_of};
ghost use Rattle.iteration_domains.specs.Outside.{below, fixed, fixed_domain, fixed_forms, outside_accesses};
ghost use Rattle.iteration_domains.specs.Outside.{outside_dimensions, outside_statement, outside_system, past};
ghost use Rattle.iteration_domains.specs.Sizes.{IsNarrow, form_size};
ghost use Rattle.iteration_domains.specs.steps.Asking.{AreFixed, CanAsk, CanAskAll, IsExtent};

use crate::dep::with_row;
use crate::forms::{compose_form, constant_form, plus_multiple, push_variables};
use crate::statement::{AccessForms, StatementModel};
use integer_sets::{Form, System, push};
use scop_syntax::{Aff, Kernel, wrapped_at};
use std::alloc::{AllocError, Global};

/// Over so many turns, the forms of these turns and, behind them, of the parameters.
fn fixed_forms(alloc: Global, turns: usize, params: &[i64]) -> Result<Vec<Form>, AllocError>
    ensures { IfOk result (λ v. v.items ≡ fixed_forms turns params.now) }
{
    let mut forms = Vec::new(alloc);
    push_variables(alloc, &mut forms, turns, 0, turns)?;
    for param in params {
        let form = constant_form(alloc, turns, *param as i128)?;
        push(&mut forms, form)?;
    }
    Ok(forms)
}

/// Each of `rows` over turns alone, where `forms` stand for its variables.
fn fixed_rows(
    alloc: Global,
    rows: &[Form],
    forms: &[Form],
    turns: usize,
) -> Result<Vec<Form>, AllocError>
    requires forms { AreFixed turns forms.now }
    requires rows { All (IsNarrow (length forms.now)) rows.now }
    ensures { IfOk result (λ v. v.items ≡ map (fixed turns forms.now) rows.now) }
{
    let mut out = Vec::new(alloc);
    for row in rows {
        let form = compose_form(row, forms, turns)?;
        push(&mut out, form)?;
    }
    Ok(out)
}

/// A domain over its turns alone, where `forms` stand for its variables.
fn fixed_domain(alloc: Global, domain: &System, forms: &[Form]) -> Result<System, AllocError>
    requires forms { AreFixed domain.now.dimensions forms.now }
    requires equalities { All (IsNarrow (length forms.now)) domain.now.equalities }
    requires rows { All (IsNarrow (length forms.now)) domain.now.rows }
    ensures { IfOk result (λ s. s ≡ fixed_domain forms.now domain.now) }
{
    let turns = domain.dimensions();
    let equalities = fixed_rows(alloc, domain.equalities(), forms, turns)?;
    let rows = fixed_rows(alloc, domain.rows(), forms, turns)?;
    Ok(System::from_parts(turns, 0, equalities, rows))
}

/// The row `constant + factor * form`, of small numbers.
fn shifted(alloc: Global, form: &Form, factor: i128, constant: i128) -> Result<Form, AllocError>
    requires { unsigned_abs constant + unsigned_abs factor * form_size form.now ≤ 2 ^ 100 }
    ensures { IfOk result (λ f. f
        ≡ sum_of_forms (form_of (zeros (variables_of form.now)) constant) (multiple_of_form factor form.now)) }
{
    let whole = constant_form(alloc, form.variables(), constant)?;
    plus_multiple(&whole, factor, form)
}

/// Appends a domain over turns with the row `constant + factor * form` behind it.
fn push_shifted(
    alloc: Global,
    out: &mut Vec<System>,
    domain: &System,
    form: &Form,
    factor: i128,
    constant: i128,
) -> Result<(), AllocError>
    requires parameters { domain.now.parameters ≡ 0 }
    requires sized { variables_of form.now ≡ domain.now.dimensions }
    requires small { unsigned_abs constant + unsigned_abs factor * form_size form.now ≤ 2 ^ 100 }
    ensures { OnOk result (out.new.items ≡ out.old.items
        ++ system_of domain.now.dimensions domain.now.parameters domain.now.equalities
        (domain.now.rows ++ sum_of_forms (form_of (zeros domain.now.dimensions) constant)
        (multiple_of_form factor form.now) ∷ []) ∷ []) }
{
    let row = shifted(alloc, form, factor, constant)?;
    let system = with_row(alloc, domain, row)?;
    push(out, system)
}

/// Appends the two systems of a subscript over turns.
fn push_sides(
    alloc: Global,
    out: &mut Vec<System>,
    domain: &System,
    form: &Form,
    extent: u64,
) -> Result<(), AllocError>
    requires parameters { domain.now.parameters ≡ 0 }
    requires sized { variables_of form.now ≡ domain.now.dimensions }
    requires small { form_size form.now ≤ 2 ^ 80 }
    ensures { OnOk result (out.new.items ≡ out.old.items
        ++ outside_system domain.now form.now extent below ∷ outside_system domain.now form.now extent past ∷ []) }
{
    push_shifted(alloc, out, domain, form, -1, -1)?;
    push_shifted(alloc, out, domain, form, 1, -(extent as i128))
}

/// Appends the two systems of a subscript, where `forms` stand for its variables.
fn push_subscript(
    alloc: Global,
    out: &mut Vec<System>,
    domain: &System,
    forms: &[Form],
    subscript: &Form,
    extent: u64,
) -> Result<(), AllocError>
    requires parameters { domain.now.parameters ≡ 0 }
    requires forms { AreFixed domain.now.dimensions forms.now }
    requires narrow { IsNarrow (length forms.now) subscript.now }
    ensures { OnOk result (out.new.items ≡ out.old.items
        ++ outside_system domain.now (fixed domain.now.dimensions forms.now subscript.now) extent below
        ∷ outside_system domain.now (fixed domain.now.dimensions forms.now subscript.now) extent past ∷ []) }
{
    let form = compose_form(subscript, forms, domain.dimensions())?;
    push_sides(alloc, out, domain, &form, extent)
}

/// Appends the systems of an access's subscripts.
fn push_subscripts(
    alloc: Global,
    out: &mut Vec<System>,
    domain: &System,
    forms: &[Form],
    subscripts: &[Form],
    extents: &[Aff],
    params: &[i64],
) -> Result<(), AllocError>
    requires parameters { domain.now.parameters ≡ 0 }
    requires forms { AreFixed domain.now.dimensions forms.now }
    requires narrow { All (IsNarrow (length forms.now)) subscripts.now }
    requires rank { length subscripts.now ≡ length extents.now }
    requires extents { All (IsExtent params.now) extents.now }
    ensures { OnOk result (out.new.items ≡ out.old.items
        ++ outside_dimensions domain.now forms.now subscripts.now (map size_of (values extents.now params.now))) }
{
    for at in 0..subscripts.len() {
        let extent = wrapped_at(&extents[at], params);
        push_subscript(alloc, out, domain, forms, &subscripts[at], extent)?;
    }
    Ok(())
}

/// Appends the systems of a statement's accesses.
fn push_accesses(
    alloc: Global,
    out: &mut Vec<System>,
    domain: &System,
    forms: &[Form],
    accesses: &[AccessForms],
    kernel: &Kernel,
    params: &[i64],
) -> Result<(), AllocError>
    requires parameters { domain.now.parameters ≡ 0 }
    requires forms { AreFixed domain.now.dimensions forms.now }
    requires narrow { All (λ a. All (IsNarrow (length forms.now)) a.subscripts) accesses.now }
    requires accesses { All (CanAsk (program_of kernel.now).arrays params.now) accesses.now }
    ensures { OnOk result (out.new.items ≡ out.old.items
        ++ outside_accesses (layout (program_of kernel.now) params.now) domain.now forms.now accesses.now) }
{
    for access in accesses {
        let extents = &kernel.arrays[access.array].extents;
        push_subscripts(
            alloc,
            out,
            domain,
            forms,
            &access.subscripts,
            extents,
            params,
        )?;
    }
    Ok(())
}

/// Appends the systems of a statement, where `forms` stand for its variables.
fn push_fixed(
    alloc: Global,
    out: &mut Vec<System>,
    statement: &StatementModel,
    forms: &[Form],
    kernel: &Kernel,
    params: &[i64],
) -> Result<(), AllocError>
    requires forms { forms.now ≡ fixed_forms statement.now.domain.dimensions params.now }
    requires can { CanAskAll (program_of kernel.now).arrays params.now statement.now }
    ensures { OnOk result (out.new.items ≡ out.old.items
        ++ outside_statement (layout (program_of kernel.now) params.now) params.now statement.now) }
{
    let domain = fixed_domain(alloc, statement.domain(), forms)?;
    push_accesses(
        alloc,
        out,
        &domain,
        forms,
        statement.accesses(),
        kernel,
        params,
    )
}

/// Appends the systems of a statement.
pub fn push_statement(
    alloc: Global,
    out: &mut Vec<System>,
    statement: &StatementModel,
    kernel: &Kernel,
    params: &[i64],
) -> Result<(), AllocError>
    requires { CanAskAll (program_of kernel.now).arrays params.now statement.now }
    ensures { OnOk result (out.new.items ≡ out.old.items
        ++ outside_statement (layout (program_of kernel.now) params.now) params.now statement.now) }
{
    let turns = statement.domain().dimensions();
    let forms = fixed_forms(alloc, turns, params)?;
    push_fixed(alloc, out, statement, forms.as_slice(), kernel, params)
}
