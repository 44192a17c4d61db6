//! The dependences of a kernel's covers, and the schedule that is found over dependences.

ghost use Rattle.std.specs.Prelude.{◌≡◌, IfErr, IfOk};
ghost use Rattle.scop_syntax.specs.Tree.{Program};
ghost use Rattle.iteration_domains.specs.Model.{model_of};
ghost use Rattle.dataflow.specs.Covering.{covers_of};
ghost use Rattle.dataflow.specs.Posed.{IsOfKernel};
ghost use Rattle.plan_search.specs.Found.{HoldFor, IsFound, IsKeptLine, LieBetween};

use crate::lines::line_of_kept;
use conflict_deps::conflicts_without;
use dataflow::{covering, covers_are_held, covers_lie_between_statements};
use iteration_domains::{Dep, Model};
use plan_certificate::KeptLine;
use pluto_search::{Schedule, search};
use std::alloc::{AllocError, Global};

/// The dependences of a kernel's covers, but for those on marked arrays, where the problem of each access may make
/// `budget` moves of the solver.
///
/// # Errors
/// `AllocError` alone.
pub fn covers(
    alloc: Global,
    model: &Model,
    marked: &[usize],
    budget: u64,
) -> Result<Vec<Dep>, AllocError>
    requires { IsOfKernel model.now }
    ensures deps { IfOk result (λ deps. deps.items ≡ covers_of budget marked.now model.now) }
    ensures between { IfOk result (λ deps. LieBetween model.now deps.items) }
    ensures held { IfOk result (λ deps. (program : Program) → model.now ≡ model_of program
        → HoldFor program marked.now deps.items) }
{
    covers_lie_between_statements();
    covers_are_held();
    let all = conflicts_without(alloc, model, marked)?;
    covering(alloc, model, &all, marked, budget)
}

/// The schedule that is found over dependences between the model's statements, where each question of the search may
/// make `budget` moves of the solver.
///
/// # Errors
/// The line that tells why the order is kept; none for want of memory.
pub fn schedule_of<'a>(
    alloc: Global,
    model: &'a Model,
    deps: &'a [Dep],
    budget: u64,
) -> Result<Schedule<'a>, Option<KeptLine>>
    requires { LieBetween model.now deps.now }
    ensures found { IfOk result (IsFound budget deps.now model.now) }
    ensures kept { IfErr result (IsKeptLine budget deps.now model.now) }
{
    match search(alloc, model, deps, budget) {
        Ok(schedule) => Ok(schedule),
        Err(kept) => {
            let line = line_of_kept(&kept);
            drop(kept);
            Err(line)
        }
    }
}
