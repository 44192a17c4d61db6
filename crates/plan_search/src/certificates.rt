//! The text of a schedule's certificate, or of the line that tells which goal has none; or the line that tells why the
//! kernel's order is kept.

ghost use Rattle.std.specs.Prelude.{◌≡◌, IfOk, List, Result, ℕ};
ghost use Rattle.scop_syntax.specs.Kernel.{IsKernel};
ghost use Rattle.scop_syntax.specs.Tree.{Program};
ghost use Rattle.scop_syntax.specs.View.{program_of};
ghost use Rattle.iteration_domains.specs.Model.{model_of};
ghost use Rattle.plan_certificate.specs.Certificates.{Certifies};
ghost use Rattle.plan_search.specs.Certifying.{IsCertificateText, IsGivenText};

use crate::lines::line_text;
use crate::schedules::{covers, schedule_of};
use iteration_domains::Model;
use plan_certificate::{CertifyStop, certify_plan, uncertified_text};
use pluto_search::{Schedule, dependences_have_one_schedule};
use scop_syntax::Kernel;
use std::alloc::{AllocError, Global};

/// The certificate of a schedule, or the line that tells the first goal that has none.
fn given_text(alloc: Global, schedule: &Schedule) -> Result<Vec<u8>, AllocError>
    ensures { (program : Program) → IsKernel program → schedule.now.model ≡ model_of program
        → IfOk result (λ text. (given : Result (List ℕ) ℕ) × Certifies schedule.now given
        × IsGivenText program given text.items) }
{
    match certify_plan(alloc, schedule) {
        Ok(text) => Ok(text),
        Err(CertifyStop::Uncertified { goal }) => uncertified_text(alloc, goal),
        Err(CertifyStop::NoMemory) => Err(AllocError),
    }
}

/// The certificate of a kernel's schedule, or the line that tells the first goal that has none, or the line that tells
/// why the order is kept. Each question of the search may make `budget` moves of the solver.
///
/// # Errors
/// `AllocError` alone.
pub fn certificate_text(
    alloc: Global,
    kernel: &Kernel,
    model: &Model,
    budget: u64,
) -> Result<Vec<u8>, AllocError>
    requires kernel { IsKernel (program_of kernel.now) }
    requires model { model.now ≡ model_of (program_of kernel.now) }
    ensures { IfOk result (λ text. IsCertificateText budget (program_of kernel.now) text.items) }
{
    dependences_have_one_schedule();
    let deps = match covers(alloc, model, &[], budget) {
        Ok(deps) => deps,
        Err(_) => return Err(AllocError),
    };
    match schedule_of(alloc, model, &deps, budget) {
        Ok(schedule) => given_text(alloc, &schedule),
        Err(line) => line_text(alloc, line),
    }
}
