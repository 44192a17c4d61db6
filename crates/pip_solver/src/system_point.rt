//! The least whole point of a system without parameters.
ghost use Rattle.std.specs.Prelude.{◌≡◌, IfOk};
ghost use Rattle.pip_solver.specs.Minimum.{IsMinimum, Minimizes, Poses, held};

use crate::point::least_point;
use crate::stop::Stop;
use crate::system_rows::{equality_rows, joined};
use checked_tableau::Problem;
use integer_sets::System;
use std::alloc::Global;

/// The problem of a system without parameters.
fn pose(alloc: Global, system: &System) -> Result<Problem, Stop>
    requires { system.now.parameters ≡ 0 }
    ensures { Poses system.now result }
{
    let own = system.rows();
    let unknowns = system.dimensions();
    let front = match equality_rows(alloc, system, unknowns) {
        Err(stop) => return Err(stop),
        Ok(front) => front,
    };
    match joined(alloc, unknowns, front, own) {
        Err(_) => Err(Stop::NoMemory),
        Ok(posed) => Ok(posed),
    }
}

/// The lexicographically least whole point x >= 0 of a system without parameters, or that there is none, in so many
/// moves. The posed problem has the dimensions as its unknowns and, of each equality, two rows.
///
/// # Errors
/// `Wide` and `Spent` exactly where the run stops so, after so many moves; `NoMemory`. Where an equality's opposite is
/// too wide, `Wide` tells the rows of the equalities before.
pub fn least_point_in(
    alloc: Global,
    system: &System,
    budget: u64,
) -> Result<Option<Vec<i128>>, Stop>
    requires { system.now.parameters ≡ 0 }
    ensures run { Minimizes result budget system.now }
    ensures minimum { IfOk result (λ found. IsMinimum system.now (held found)) }
{
    match pose(alloc, system) {
        Err(stop) => Err(stop),
        Ok(problem) => least_point(alloc, problem, budget),
    }
}
