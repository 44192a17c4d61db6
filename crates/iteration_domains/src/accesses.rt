//! A statement's accesses over the turns and the parameters, in their order: the place written, then the reads.
ghost use Rattle.std.specs.Prelude.{◌≡◌, ◌≤◌, ◌++◌, ◌∷◌, [], All, IfOk, OnOk, length, map};
ghost use Rattle.scop_syntax.specs.Cells.{accesses, reads};
ghost use Rattle.scop_syntax.specs.View.{statement_of};
ghost use Rattle.iteration_domains.specs.Model.{composed_access};
ghost use Rattle.whole_numbers.specs.Affine.{composed};
ghost use Rattle.iteration_domains.specs.Path.{CanAccess};
ghost use Rattle.iteration_domains.specs.Sizes.{CanCompose};

use crate::forms::push_composed;
use crate::statement::AccessForms;
use integer_sets::{Form, push};
use scop_syntax::{Access, Aff, Stmt, access_at, read_count};
use std::alloc::{AllocError, Global};

/// The subscripts over `variables` variables, where the source's point has these forms.
fn subscripts_within(
    alloc: Global,
    subscripts: &[Aff],
    forms: &[Form],
    variables: usize,
) -> Result<Vec<Form>, AllocError>
    requires { All (CanCompose variables forms.now) subscripts.now }
    ensures { IfOk result (λ fs. fs.items ≡ map (λ form. composed form forms.now variables) subscripts.now) }
{
    let mut composed = Vec::new(alloc);
    for subscript in subscripts {
        push_composed(alloc, &mut composed, subscript, forms, variables)?;
    }
    Ok(composed)
}

/// Appends an access.
fn push_access(
    alloc: Global,
    accesses: &mut Vec<AccessForms>,
    access: &Access,
    forms: &[Form],
    variables: usize,
) -> Result<(), AllocError>
    requires { CanAccess variables forms.now access.now }
    ensures { OnOk result (accesses.new.items
        ≡ accesses.old.items ++ composed_access variables forms.now access.now ∷ []) }
{
    let subscripts = subscripts_within(alloc, access.subscripts.as_slice(), forms, variables)?;
    let array = access.array;
    push(accesses, AccessForms { array, subscripts })
}

/// The accesses of a statement.
pub fn accesses_within(
    alloc: Global,
    statement: &Stmt,
    forms: &[Form],
    variables: usize,
) -> Result<Vec<AccessForms>, AllocError>
    requires few { length (reads (statement_of statement.now)) ≤ 16 }
    requires can { All (CanAccess variables forms.now) (accesses (statement_of statement.now)) }
    ensures { IfOk result (λ found. found.items
        ≡ map (composed_access variables forms.now) (accesses (statement_of statement.now))) }
{
    let mut found = Vec::new(alloc);
    for number in 0..read_count(statement) + 1 {
        let access = access_at(statement, number);
        push_access(alloc, &mut found, access, forms, variables)?;
    }
    Ok(found)
}
