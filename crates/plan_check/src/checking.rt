//! A certificate line by line: items are laid, then goals are proved.
ghost use Rattle.std.specs.Prelude.{◌≡◌, ◌<◌, ◌≤◌, ◌^◌, ◌-◌, [], All, IfOk, IsOk, List, Some, drop, length, take, true, ℤ, ℕ};
ghost use Rattle.wide_math.specs.Gives.{Gives};
ghost use Rattle.scop_syntax.specs.Kernel.{IsKernel};
ghost use Rattle.scop_syntax.specs.Limits.{AreInRange};
ghost use Rattle.scop_syntax.specs.View.{program_of};
ghost use Rattle.iteration_domains.specs.Model.{KernelModel, model_of};
ghost use Rattle.loop_tree.specs.Tiling.{IsGoodPlan};
ghost use Rattle.schedule_lines.specs.View.{row_view, scalar_view};
ghost use Rattle.plan_check.specs.Goals.{HasNoPoint, goals_in, loops_in};
ghost use Rattle.plan_check.specs.Judged.{SaysPlan, end_judged, goals_ended, goals_opened, judged, line_judged, lines_judged};
ghost use Rattle.plan_check.specs.Judged.{goal_judged, laid_stage, laying, nothing_laid, plan_of_lines, proving, proving_stage};
ghost use Rattle.plan_check.specs.Judged.{row_judged, scalar_judged, step_judged};
ghost use Rattle.plan_check.specs.Plans.{Plan, tiling_of};
ghost use Rattle.plan_check.specs.PlanView.{plan_of};
ghost use Rattle.plan_check.specs.Text.{IsStep, goal, lines_of, said_in};
ghost use Rattle.plan_check.specs.TextView.{laid_view, rejected_in, said_view, stage_view, step_view};
ghost use Rattle.plan_check.specs.steps.Stages.{IsReady, HasFactors, IsLaid, IsStage, PlanHolds};

use crate::checker::Checker;
use crate::kinds::{CheckStop, FaultKind, rejected, rejected_here};
use crate::laying::{Laying, has_rows, lay_row, lay_scalar, nothing_laid};
use crate::plan_laws::goals_without_points_make_good_plans;
use crate::proving::{prove_goal, prove_step};
use crate::text::{Said, StepLine, line_len, read_said};
use iteration_domains::Model as KernelModel;
use schedule_lines::{RowLine, ScalarLine};
use scop_syntax::Kernel;
use std::alloc::{AllocError, Global};

/// Items are laid, or goals are proved.
#[derive(Drop)]
pub enum Stage {
    Laying(Laying),
    Proving(Checker),
}

/// The goals of a plan begin, if it has its rows.
fn goals_opened(
    alloc: Global,
    model: &KernelModel,
    loops: &[usize],
    lines: usize,
    laying: Laying,
) -> Result<Checker, CheckStop>
    requires lines { lines < 2 ^ 64 - 1 }
    requires loops { loops.now ≡ loops_in model.now }
    requires laid { IsLaid (loops_in model.now) lines (laid_view laying) }
    ensures { Gives rejected_in (λ c. c) result (goals_opened model.now lines (laid_view laying)) }
{
    if !has_rows(loops, &laying) {
        return Err(rejected(FaultKind::Form, lines));
    }
    match Checker::of(alloc, model, laying.items) {
        Err(_) => Err(CheckStop::NoMemory),
        Ok(checker) => Ok(checker),
    }
}

/// The line of a goal behind goals.
fn goal_line(
    alloc: Global,
    lines: usize,
    checker: Checker,
    number: u128,
) -> Result<Stage, CheckStop>
    requires lines { lines < 2 ^ 64 - 1 }
    ensures { Gives rejected_in stage_view result (proving_stage (goal_judged lines checker number)) }
{
    match prove_goal(alloc, lines, checker, number) {
        Err(stop) => Err(stop),
        Ok(checker) => Ok(Stage::Proving(checker)),
    }
}

/// The line of a step behind goals.
fn step_line(
    alloc: Global,
    lines: usize,
    checker: Checker,
    line: &StepLine,
) -> Result<Stage, CheckStop>
    requires lines { lines < 2 ^ 64 - 1 }
    requires line { IsStep (step_view line.now) }
    ensures { Gives rejected_in stage_view result (proving_stage (step_judged lines checker (step_view line.now))) }
{
    match prove_step(alloc, lines, checker, line) {
        Err(stop) => Err(stop),
        Ok(checker) => Ok(Stage::Proving(checker)),
    }
}

/// The first goal's line, behind items.
fn first_goal(
    alloc: Global,
    model: &KernelModel,
    loops: &[usize],
    lines: usize,
    laid: Laying,
    number: u128,
) -> Result<Stage, CheckStop>
    requires lines { lines < 2 ^ 64 - 1 }
    requires loops { loops.now ≡ loops_in model.now }
    requires laid { IsLaid (loops_in model.now) lines (laid_view laid) }
    ensures { Gives rejected_in stage_view result
        (line_judged model.now lines (laying (laid_view laid)) (Some (goal number))) }
{
    match goals_opened(alloc, model, loops, lines, laid) {
        Err(stop) => Err(stop),
        Ok(checker) => goal_line(alloc, lines, checker, number),
    }
}

/// The line of a row behind items.
fn row_line(alloc: Global, lines: usize, laid: Laying, row: &RowLine) -> Result<Stage, CheckStop>
    requires few { laid.rows ≤ lines }
    requires lines { lines < 2 ^ 64 - 1 }
    ensures { Gives rejected_in stage_view result (laid_stage (row_judged lines (laid_view laid) (row_view row.now))) }
{
    match lay_row(alloc, lines, laid, row) {
        Err(stop) => Err(stop),
        Ok(laid) => Ok(Stage::Laying(laid)),
    }
}

/// The line of a scalar behind items.
fn scalar_line(lines: usize, laid: Laying, scalar: ScalarLine) -> Result<Stage, CheckStop>
    requires lines { lines < 2 ^ 64 - 1 }
    ensures { Gives rejected_in stage_view result
        (laid_stage (scalar_judged lines (laid_view laid) (scalar_view scalar))) }
{
    match lay_scalar(lines, laid, scalar) {
        Err(stop) => Err(stop),
        Ok(laid) => Ok(Stage::Laying(laid)),
    }
}

/// A line behind items.
fn lay(
    alloc: Global,
    model: &KernelModel,
    loops: &[usize],
    lines: usize,
    laid: Laying,
    said: Said,
) -> Result<Stage, CheckStop>
    requires lines { lines < 2 ^ 64 - 1 }
    requires loops { loops.now ≡ loops_in model.now }
    requires laid { IsLaid (loops_in model.now) lines (laid_view laid) }
    ensures { Gives rejected_in stage_view result
        (line_judged model.now lines (laying (laid_view laid)) (Some (said_view said))) }
{
    match said {
        Said::Row(row) => row_line(alloc, lines, laid, &row),
        Said::Scalar(scalar) => scalar_line(lines, laid, scalar),
        Said::Goal(number) => first_goal(alloc, model, loops, lines, laid, number),
        Said::Step(_) => Err(rejected(FaultKind::Form, lines)),
    }
}

/// A line behind the first goal's.
fn prove(alloc: Global, lines: usize, checker: Checker, said: Said) -> Result<Stage, CheckStop>
    requires lines { lines < 2 ^ 64 - 1 }
    requires said { HasFactors (said_view said) }
    ensures { (model : KernelModel) → Gives rejected_in stage_view result
        (line_judged model lines (proving checker) (Some (said_view said))) }
{
    match said {
        Said::Goal(number) => goal_line(alloc, lines, checker, number),
        Said::Step(step) => step_line(alloc, lines, checker, &step),
        Said::Row(_) | Said::Scalar(_) => {
            drop(checker);
            Err(rejected(FaultKind::Form, lines))
        }
    }
}

/// What a line makes of a stage.
fn advance(
    alloc: Global,
    model: &KernelModel,
    loops: &[usize],
    lines: usize,
    stage: Stage,
    said: Said,
) -> Result<Stage, CheckStop>
    requires lines { lines < 2 ^ 64 - 1 }
    requires loops { loops.now ≡ loops_in model.now }
    requires stage { IsReady (loops_in model.now) lines (stage_view stage) }
    requires said { HasFactors (said_view said) }
    ensures { Gives rejected_in stage_view result
        (line_judged model.now lines (stage_view stage) (Some (said_view said))) }
{
    match stage {
        Stage::Laying(laid) => lay(alloc, model, loops, lines, laid, said),
        Stage::Proving(checker) => prove(alloc, lines, checker, said),
    }
}

/// A line's text, behind so many others.
fn read_line(
    alloc: Global,
    model: &KernelModel,
    loops: &[usize],
    lines: usize,
    stage: Stage,
    line: &[u8],
) -> Result<Stage, CheckStop>
    requires lines { lines < 2 ^ 64 - 1 }
    requires loops { loops.now ≡ loops_in model.now }
    requires stage { IsReady (loops_in model.now) lines (stage_view stage) }
    ensures { Gives rejected_in stage_view result
        (line_judged model.now lines (stage_view stage) (said_in (loops_in model.now) line.now)) }
{
    match read_said(alloc, loops, line) {
        Err(_) => {
            drop(stage);
            Err(CheckStop::NoMemory)
        }
        Ok(None) => {
            drop(stage);
            Err(rejected(FaultKind::Form, lines))
        }
        Ok(Some(said)) => advance(alloc, model, loops, lines, stage, said),
    }
}

/// What is behind the first line of so many bytes, and behind its line feed.
fn behind_line(rest: &[u8], line: usize) -> &[u8]
    requires { line ≤ length rest.now }
    ensures { result.now ≡ drop 1 (drop line rest.now) }
{
    let (_, behind) = rest.split_at(line);
    match behind.split_first() {
        None => behind,
        Some((_, next)) => next,
    }
}

/// The first line of so many bytes.
fn line_of(rest: &[u8], line: usize) -> &[u8]
    requires { line ≤ length rest.now }
    ensures { result.now ≡ take line rest.now }
{
    let (line, _) = rest.split_at(line);
    line
}

/// Goals at the end of all lines.
fn end_goals(alloc: Global, lines: usize, checker: Checker) -> Result<(), CheckStop>
    requires lines { lines < 2 ^ 64 - 1 }
    ensures judged { Gives rejected_in (λ u. true) result (goals_ended lines checker) }
    ensures points { IsOk result → All HasNoPoint checker.goals }
{
    if !checker.is_ended() {
        drop(checker);
        return Err(rejected_here(FaultKind::Goal, lines));
    }
    match checker.end_of_goals(alloc) {
        Err(_) => Err(CheckStop::NoMemory),
        Ok(true) => Ok(()),
        Ok(false) => Err(rejected(FaultKind::Goal, lines)),
    }
}

/// The end of all lines behind items.
fn end_items(
    alloc: Global,
    model: &KernelModel,
    loops: &[usize],
    lines: usize,
    laid: Laying,
) -> Result<(), CheckStop>
    requires lines { lines < 2 ^ 64 - 1 }
    requires loops { loops.now ≡ loops_in model.now }
    requires laid { IsLaid (loops_in model.now) lines (laid_view laid) }
    ensures judged { Gives rejected_in (λ u. true) result (end_judged model.now lines (laying (laid_view laid))) }
    ensures points { IsOk result → All HasNoPoint (goals_in model.now (plan_of laid.items)) }
{
    match goals_opened(alloc, model, loops, lines, laid) {
        Err(stop) => Err(stop),
        Ok(checker) => end_goals(alloc, lines, checker),
    }
}

/// The end of all lines.
fn end(
    alloc: Global,
    model: &KernelModel,
    loops: &[usize],
    lines: usize,
    stage: Stage,
) -> Result<(), CheckStop>
    requires lines { lines < 2 ^ 64 - 1 }
    requires loops { loops.now ≡ loops_in model.now }
    requires stage { IsReady (loops_in model.now) lines (stage_view stage) }
    ensures judged { Gives rejected_in (λ u. true) result (end_judged model.now lines (stage_view stage)) }
    ensures points { (plan : Plan) → IsStage model.now plan lines [] (stage_view stage) → IsOk result
        → All HasNoPoint (goals_in model.now plan) }
{
    match stage {
        Stage::Laying(laid) => end_items(alloc, model, loops, lines, laid),
        Stage::Proving(checker) => end_goals(alloc, lines, checker),
    }
}

/// All lines.
fn judge(alloc: Global, model: &KernelModel, loops: &[usize], text: &[u8]) -> Result<(), CheckStop>
    requires loops { loops.now ≡ loops_in model.now }
    ensures judged { Gives rejected_in (λ u. true) result
        (lines_judged model.now 0 (laying nothing_laid) (lines_of text.now)) }
    ensures points { IsOk result → PlanHolds model.now
        (plan_of_lines (loops_in model.now) nothing_laid (lines_of text.now)) }
{
    let mut stage = Stage::Laying(nothing_laid(alloc));
    let mut rest = text;
    let mut lines = 0;
    while !rest.is_empty() {
        let line = line_len(rest);
        match read_line(alloc, model, loops, lines, stage, line_of(rest, line)) {
            Err(stop) => return Err(stop),
            Ok(next) => stage = next,
        }
        rest = behind_line(rest, line);
        lines += 1;
    }
    end(alloc, model, loops, lines, stage)
}

/// How many loops stand round each statement.
fn loops_in(alloc: Global, model: &KernelModel) -> Result<Vec<usize>, AllocError>
    ensures { IfOk result (λ v. v.items ≡ loops_in model.now) }
{
    let mut loops = Vec::new(alloc);
    for statement in model.statements() {
        match loops.push(statement.loops().len()) {
            Err(_) => return Err(AllocError),
            Ok(()) => {}
        }
    }
    Ok(loops)
}

/// Whether a text is a certificate of a plan of the kernel. Where it is, the tiles of that plan run in any order of a
/// wave what the kernel does, whatever their size, for all parameters.
///
/// # Errors
/// `Rejected` exactly with the first line that has a fault, and its least one; or `NoMemory`.
pub fn check_plan(alloc: Global, kernel: &Kernel, text: &[u8]) -> Result<(), CheckStop>
    requires { IsKernel (program_of kernel.now) }
    ensures judged { Gives rejected_in (λ u. true) result (judged (program_of kernel.now) text.now) }
    ensures plan { IsOk result → (plan : Plan) × SaysPlan (program_of kernel.now) text.now plan
        × ((params : List ℤ) (size : ℕ) → length params ≡ length (program_of kernel.now).parameters → AreInRange params
        → 0 < size → IsGoodPlan (program_of kernel.now) params
        (tiling_of size (length (model_of (program_of kernel.now)).statements) plan)) }
{
    goals_without_points_make_good_plans();
    let Ok(model) = KernelModel::of(alloc, kernel) else {
        return Err(CheckStop::NoMemory);
    };
    let Ok(loops) = loops_in(alloc, &model) else {
        return Err(CheckStop::NoMemory);
    };
    judge(alloc, &model, &loops, text)
}
