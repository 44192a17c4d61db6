//! The least whole point of a problem without parameters: the run's tree is one leaf, and its forms are numbers.
ghost use Rattle.std.specs.Prelude.{◌≡◌, [], All, IfOk, map};
ghost use Rattle.std.specs.Option.{ForSome, IfNone};
ghost use Rattle.affine_forms.specs.Parts.{variables_of};
ghost use Rattle.tableau_rows.specs.Problem.{problem_of, IsLexmin, IsEmpty};
ghost use Rattle.quast_trees.specs.Postfix.{tree_of};
ghost use Rattle.quast_trees.specs.Value.{value};
ghost use Rattle.checked_tableau.specs.Leaves.{IsOneLeaf};
ghost use Rattle.pip_solver.specs.Solving.{Finds, IsGiven};

use crate::minimum::lexmin;
use crate::stop::Stop;
use affine_forms::Form;
use checked_tableau::Problem;
use quast_trees::{Part, Quast};
use std::alloc::{AllocError, Global};

/// The constants of forms.
fn constants(alloc: Global, forms: &[Form]) -> Result<Vec<i128>, AllocError>
    ensures { IfOk result (λ v. v.items ≡ map (λ f. f.constant) forms.now) }
{
    let mut all = match Vec::with_capacity(alloc, forms.len()) {
        Err(error) => return Err(error),
        Ok(all) => all,
    };
    for form in forms {
        match all.push(form.constant()) {
            Err(_) => return Err(AllocError),
            Ok(()) => {}
        }
    }
    Ok(all)
}

/// The point that a quast of one leaf, without parameters, gives, if it gives one.
fn point_of(alloc: Global, quast: &Quast) -> Result<Option<Vec<i128>>, AllocError>
    requires { IsOneLeaf (tree_of quast.now) }
    ensures { IfOk result (λ point. IsGiven point (value (tree_of quast.now) [])) }
{
    match quast.root().part() {
        Part::Initial => Ok(None),
        Part::Forms(leaf) => match constants(alloc, &leaf.forms) {
            Err(error) => Err(error),
            Ok(point) => Ok(Some(point)),
        },
        Part::Branch { .. } => unreachable!(),
        Part::Bind { .. } => unreachable!(),
    }
}

/// The lexicographically least whole point x >= 0 of the rows of a problem without parameters, or that there is none,
/// in so many moves.
///
/// # Errors
/// `Wide` and `Spent` exactly where the run stops so, after so many moves; `NoMemory`.
pub fn least_point(alloc: Global, problem: Problem, budget: u64) -> Result<Option<Vec<i128>>, Stop>
    requires rows { All (λ f. variables_of f ≡ problem.unknowns) problem.rows.items }
    requires parameters { problem.parameters ≡ 0 }
    requires context { problem.context.items ≡ [] }
    ensures run { Finds result budget problem }
    ensures least { IfOk result (λ point. ForSome point (λ x.
        IsLexmin (problem_of problem.unknowns problem.rows.items) [] x.items)) }
    ensures none { IfOk result (λ point. IfNone point
        (IsEmpty (problem_of problem.unknowns problem.rows.items) [])) }
{
    match lexmin(alloc, problem, budget) {
        Err(stop) => Err(stop),
        Ok(quast) => match point_of(alloc, &quast) {
            Err(_) => Err(Stop::NoMemory),
            Ok(point) => Ok(point),
        },
    }
}
