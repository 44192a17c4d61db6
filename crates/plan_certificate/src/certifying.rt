//! The certificate of a schedule.
ghost use Rattle.std.specs.Prelude.{◌≡◌, ◌++◌, All, IfOk, Ok, OnOk, Result, map, option_map, true, ℕ};
ghost use Rattle.wide_math.specs.Gives.{Gives};
ghost use Rattle.scop_lexer.specs.Bytes.{Text};
ghost use Rattle.scop_syntax.specs.Kernel.{IsKernel};
ghost use Rattle.scop_syntax.specs.Tree.{Program};
ghost use Rattle.iteration_domains.specs.Model.{model_of};
ghost use Rattle.plan_check.specs.Derivations.{step_of};
ghost use Rattle.plan_check.specs.Judged.{judged};
ghost use Rattle.plan_certificate.specs.Certificates.{Certifies, IsNarrowStep, behind_text, derivation_of, proof_text};
ghost use Rattle.plan_certificate.specs.Certificates.{proofs_text};
ghost use Rattle.plan_certificate.specs.steps.GoalTexts.{text_of};
ghost use Rattle.plan_certificate.specs.steps.Narrow.{HasNarrow, IsCertified};
ghost use Rattle.plan_certificate.specs.View.{uncertified_in};

use crate::certificate_laws::certificates_are_accepted;
use crate::certificate_lines::push_proof;
use crate::determined::derivation;
use crate::schedule_items::plan_items;
use crate::stop::CertifyStop;
use iteration_domains::Dep;
use plan_check::{Goals, Line, LineStop, goal_rows, goal_variables};
use report_text::schedule_text;
use schedule_rows::{Schedule, dependences_have_one_schedule};
use std::alloc::{AllocError, Global};

/// The determined derivation of a goal, if it has one.
fn lines_for(alloc: Global, goal: &Dep) -> Result<Option<Vec<Line>>, AllocError>
    ensures { IfOk result (λ found. option_map (λ v. map step_of v.items) found ≡ derivation_of goal.now) }
{
    match goal_rows(alloc, goal) {
        Err(LineStop::NoMemory) => Err(AllocError),
        Err(LineStop::Faulty(_)) => Ok(None),
        Ok(rows) => match goal_variables(goal) {
            Err(error) => Err(error),
            Ok(variables) => derivation(alloc, variables, rows),
        },
    }
}

/// Appends the text of a derivation.
fn push_lines(out: &mut Vec<u8>, number: u64, lines: &[Line]) -> Result<(), CertifyStop>
    ensures gives { Gives uncertified_in (λ u. out.new.items) result
        (Ok (out.old.items ++ proof_text number (map step_of lines.now))) }
    ensures narrow { OnOk result (All IsNarrowStep (map step_of lines.now)) }
{
    match push_proof(out, number, lines) {
        Err(_) => Err(CertifyStop::NoMemory),
        Ok(()) => Ok(()),
    }
}

/// Appends the text of the goal of a number.
fn push_goal(alloc: Global, out: &mut Vec<u8>, number: u64, goal: &Dep) -> Result<(), CertifyStop>
    ensures gives { Gives uncertified_in (λ u. out.new.items) result
        (behind_text out.old.items (text_of number (derivation_of goal.now))) }
    ensures narrow { OnOk result (HasNarrow goal.now) }
{
    match lines_for(alloc, goal) {
        Err(_) => Err(CertifyStop::NoMemory),
        Ok(None) => Err(CertifyStop::Uncertified { goal: number }),
        Ok(Some(lines)) => push_lines(out, number, &lines),
    }
}

/// A text with the texts of all goals behind it.
fn with_proofs(alloc: Global, head: Vec<u8>, all: Goals) -> Result<Vec<u8>, CertifyStop>
    ensures gives { Gives uncertified_in (λ v. v.items) result (behind_text head.items (proofs_text 1 all.left)) }
    ensures narrow { IfOk result (λ v. All HasNarrow all.left) }
{
    let mut out = head;
    let mut goals = all;
    let mut number: u64 = 0;
    loop {
        let Some(current) = number.checked_add(1) else {
            drop(goals);
            return Err(CertifyStop::NoMemory);
        };
        number = current;
        match goals.next(alloc) {
            Err(_) => return Err(CertifyStop::NoMemory),
            Ok(None) => return Ok(out),
            Ok(Some(next)) => {
                match push_goal(alloc, &mut out, number, &next.goal) {
                    Err(stop) => {
                        drop(next);
                        return Err(stop);
                    }
                    Ok(()) => {}
                }
                goals = next.goals;
            }
        }
    }
}

/// The certificate of a schedule, whose numbers are those that their types hold.
fn certified(alloc: Global, schedule: &Schedule) -> Result<Vec<u8>, CertifyStop>
    ensures { IsCertified (λ v. v.items) schedule.now result }
{
    dependences_have_one_schedule();
    match plan_items(alloc, schedule) {
        Err(_) => Err(CertifyStop::NoMemory),
        Ok(plan) => match Goals::of(alloc, schedule.model(), plan) {
            Err(_) => Err(CertifyStop::NoMemory),
            Ok(goals) => match schedule_text(alloc, schedule) {
                Err(_) => Err(CertifyStop::NoMemory),
                Ok(text) => with_proofs(alloc, text, goals),
            },
        },
    }
}

/// The certificate of a kernel's schedule.
///
/// # Errors
/// `Uncertified` exactly with the first goal whose determined derivation meets no contradiction, makes more than 4,096
/// pairs in one elimination, or leaves 128 bits; or `NoMemory`.
pub fn certify_plan(alloc: Global, schedule: &Schedule) -> Result<Vec<u8>, CertifyStop>
    ensures certificate { (given : Result Text ℕ) × Certifies schedule.now given
        × Gives uncertified_in (λ v. v.items) result given }
    ensures accepted { (program : Program) → IsKernel program → schedule.now.model ≡ model_of program
        → IfOk result (λ v. judged program v.items ≡ Ok true) }
{
    certificates_are_accepted();
    certified(alloc, schedule)
}
