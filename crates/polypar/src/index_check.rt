//! The index check of a case: the solver is asked of each subscript whether it may lie below 0 or past its extent, and
//! where it never may no instance is walked.
ghost use Rattle.std.specs.Prelude.{◌≡◌, ℤ, All, IfOk, List, true};
ghost use Rattle.std.specs.Option.{option_map};
ghost use Rattle.pip_solver.specs.Emptiness.{IsBoundedPoint};
ghost use Rattle.scop_syntax.specs.Execution.{IsInside, layout};
ghost use Rattle.scop_syntax.specs.Failures.{first_outside as first_failure};
ghost use Rattle.scop_syntax.specs.Limits.{WithinLimits};
ghost use Rattle.scop_syntax.specs.View.{program_of};
ghost use Rattle.scop_syntax.specs.Walk.{walk_of};
ghost use Rattle.scop_meaning.specs.Outside.{outside_of};

use command_line::MOST_MOVES;
use iteration_domains::{Model, System, outside_points_are_failures};
use pip_solver::{Stop, is_empty};
use scop_meaning::{Outside, first_outside};
use scop_syntax::{Extents, Kernel, failures_are_the_first};
use std::alloc::{AllocError, Global};

/// Whether the solver shows that a system has no point; a question that stops tells nothing.
fn has_none(alloc: Global, system: &System) -> Result<bool, AllocError>
    ensures { IfOk result (λ none. none ≡ true → (x p : List ℤ) → IsBoundedPoint system.now x p → ⊥) }
{
    match is_empty(alloc, system, MOST_MOVES) {
        Ok(none) => Ok(none),
        Err(Stop::Wide { .. }) => Ok(false),
        Err(Stop::Spent { .. }) => Ok(false),
        Err(Stop::NoMemory) => Err(AllocError),
    }
}

/// Whether it shows so of each; up to the first of which it does not.
fn all_have_none(alloc: Global, systems: &[System]) -> Result<bool, AllocError>
    ensures { IfOk result (λ none. none ≡ true
        → All (λ c. (x p : List ℤ) → IsBoundedPoint c x p → ⊥) systems.now) }
{
    for system in systems {
        if !has_none(alloc, system)? {
            return Ok(false);
        }
    }
    Ok(true)
}

/// Whether the solver shows that every subscript of the kernel lies in its extent at these parameters.
fn lies_inside(alloc: Global, kernel: &Kernel, params: &[i64]) -> Result<bool, AllocError>
    requires { WithinLimits (program_of kernel.now) params.now }
    ensures { IfOk result (λ inside. inside ≡ true → IsInside (program_of kernel.now) params.now) }
{
    outside_points_are_failures();
    let model = Model::of(alloc, kernel)?;
    let systems = model.outside_systems(alloc, kernel, params)?;
    all_have_none(alloc, &systems)
}

/// The first subscript of the walk that lies outside its extent, by instance, access and dimension; none exactly where
/// every subscript lies inside. Where the solver shows this, no instance is walked; where it finds a point, stops or
/// lacks memory, the walk tells.
pub(crate) fn outside_in(
    alloc: Global,
    kernel: &Kernel,
    params: &[i64],
    extents: &Extents,
) -> Option<Outside>
    requires limits { WithinLimits (program_of kernel.now) params.now }
    requires extents { extents.now ≡ layout (program_of kernel.now) params.now }
    ensures { result ≡ option_map outside_of (first_failure extents.now (walk_of (program_of kernel.now) params.now)) }
{
    failures_are_the_first();
    match lies_inside(alloc, kernel, params) {
        Ok(true) => None,
        Ok(false) => first_outside(kernel, params, extents),
        Err(_) => first_outside(kernel, params, extents),
    }
}
