//! The text of a schedule, or the line that tells why the kernel's order is kept.

ghost use Rattle.std.specs.Prelude.{IfOk};
ghost use Rattle.dataflow.specs.Posed.{IsOfKernel};
ghost use Rattle.plan_search.specs.Planning.{IsPlanOf};

use crate::lines::line_text;
use crate::schedules::{covers, schedule_of};
use iteration_domains::Model;
use plan_certificate::schedule_text;
use pluto_search::dependences_have_one_schedule;
use std::alloc::{AllocError, Global};

/// The text of a model's schedule, or the line that tells why the order is kept. Each question of the search may make
/// `budget` moves of the solver.
///
/// # Errors
/// `AllocError` alone.
pub fn plan_text(alloc: Global, model: &Model, budget: u64) -> Result<Vec<u8>, AllocError>
    requires { IsOfKernel model.now }
    ensures { IfOk result (λ text. IsPlanOf budget model.now text.items) }
{
    dependences_have_one_schedule();
    let deps = match covers(alloc, model, &[], budget) {
        Ok(deps) => deps,
        Err(_) => return Err(AllocError),
    };
    match schedule_of(alloc, model, &deps, budget) {
        Ok(schedule) => schedule_text(alloc, &schedule),
        Err(line) => line_text(alloc, line),
    }
}
