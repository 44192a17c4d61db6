//! The run of a node: a loop over its steps with a stack of frames. Nothing recurses.
ghost use Rattle.std.specs.Prelude.{◌≡◌, [], ◌++◌, ◌≤◌, length, reverse, OnOk};
ghost use Rattle.quast_trees.specs.Postfix.{standing};
ghost use Rattle.checked_tableau.specs.Nodes.{whole};
ghost use Rattle.pip_solver.specs.Node.{node_of};
ghost use Rattle.pip_solver.specs.steps.Frames.{under, joins, frames_for, IsReady, AreReady, Proceeds, Runs};

use crate::frames::{Frame, put, resume};
use crate::leaf::leaf;
use crate::node::{Move, Tableau};
use crate::question::QuestionStop;
use crate::step::{Next, step};
use quast_trees::Builder;
use std::alloc::{AllocError, Global};
use std::mem;

/// How far a step brings a run.
pub enum Progress {
    /// The node has ended: its tree stands on top.
    Ended,
    /// The run goes on with the node.
    Goes,
}

/// Puts on the frame that waits behind a move, if one does.
fn wait(frames: &mut Vec<Frame>, next: Move) -> Result<(), AllocError>
    ensures { OnOk result (frames.new.items ≡ frames.old.items ++ frames_for next) }
{
    match next {
        Move::Goes => Ok(()),
        Move::Binds { form, divisor } => put(frames, Frame::Binding { form, divisor }),
        Move::Splits { test, second } => put(frames, Frame::Second { test, node: second }),
    }
}

/// One step of the run.
fn advance(
    alloc: Global,
    node: &mut Tableau,
    frames: &mut Vec<Frame>,
    builder: &mut Builder,
    left: &mut u64,
) -> Result<Progress, QuestionStop>
    requires ready { IsReady node.old.rows.unknowns node.old }
    requires sides { AreReady node.old.rows.unknowns (reverse frames.old.items) }
    requires stands { length (standing builder.old) ≡ joins (reverse frames.old.items) }
    ensures run { Proceeds node.old.rows.unknowns (under node.old.rows.unknowns frames.old.items (standing builder.old)
        (whole node.old.rows.unknowns left.old (node_of node.old))) left.old frames.old.items frames.new.items
        (standing builder.new) left.new node.new result }
    ensures less { left.new ≤ left.old }
{
    match step(alloc, node, left) {
        Err(stop) => Err(stop),
        Ok(Next::Empty) => match builder.initial() {
            Err(_) => Err(QuestionStop::NoMemory),
            Ok(()) => Ok(Progress::Ended),
        },
        Ok(Next::Leaf) => match leaf(alloc, &node.rows, frames, builder) {
            Err(_) => Err(QuestionStop::NoMemory),
            Ok(()) => Ok(Progress::Ended),
        },
        Ok(Next::Moves(next)) => match wait(frames, next) {
            Err(_) => Err(QuestionStop::NoMemory),
            Ok(()) => Ok(Progress::Goes),
        },
    }
}

/// Runs a node in so many moves, and leaves its tree.
///
/// # Errors
/// `Wide` and `Spent` exactly where the run stops so, with what is left of the budget in `left`.
pub fn run(
    alloc: Global,
    first: Tableau,
    builder: &mut Builder,
    left: &mut u64,
) -> Result<(), QuestionStop>
    requires ready { IsReady first.rows.unknowns first }
    requires none { standing builder.old ≡ [] }
    ensures run { Runs (whole first.rows.unknowns left.old (node_of first)) (standing builder.new) left.new result }
    ensures less { left.new ≤ left.old }
{
    let mut node = first;
    let mut frames = Vec::new(alloc);
    run_on(alloc, &mut node, &mut frames, builder, left)
}

/// The loop of a run.
fn run_on(
    alloc: Global,
    node: &mut Tableau,
    frames: &mut Vec<Frame>,
    builder: &mut Builder,
    left: &mut u64,
) -> Result<(), QuestionStop>
    requires ready { IsReady node.old.rows.unknowns node.old }
    requires alone { frames.old.items ≡ [] }
    requires none { standing builder.old ≡ [] }
    ensures run { Runs (whole node.old.rows.unknowns left.old (node_of node.old)) (standing builder.new) left.new
        result }
    ensures less { left.new ≤ left.old }
{
    loop {
        match advance(alloc, node, frames, builder, left) {
            Err(stop) => return Err(stop),
            Ok(Progress::Goes) => {}
            Ok(Progress::Ended) => match resume(frames, builder) {
                Err(_) => return Err(QuestionStop::NoMemory),
                Ok(None) => return Ok(()),
                Ok(Some(next)) => drop(mem::replace(node, next)),
            },
        }
    }
}
