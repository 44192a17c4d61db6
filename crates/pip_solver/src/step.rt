//! One step of a node: it ends, goes on, binds a new parameter or splits. Each move is paid for before its numbers are
//! formed, and the moves of questions stand in the same count.
ghost use Rattle.std.specs.Prelude.{◌≡◌, ◌<◌, ◌≤◌, length, Some, None};
ghost use Rattle.tableau_rows.specs.Moves.{row_at};
ghost use Rattle.checked_tableau.specs.Nodes.{split, pivot, cut, pivot_or_empty, treated, looked, step, part_of};
ghost use Rattle.checked_tableau.specs.Solutions.{IsNode};
ghost use Rattle.pip_solver.specs.Node.{node_of};
ghost use Rattle.pip_solver.specs.steps.Steps.{Steps};

use crate::asking::{above_somewhere, context_holds};
use crate::looking::{first_below, first_broken};
use crate::node::{Move, Tableau};
use crate::question::QuestionStop;
use std::alloc::Global;

/// What a node does next.
pub enum Next {
    /// It has no point.
    Empty,
    /// Its unknowns' parts over their denominators are the least point.
    Leaf,
    /// It moves.
    Moves(Move),
}

/// A split on a row's part, paid for with a move.
fn split(
    alloc: Global,
    node: &mut Tableau,
    row: usize,
    left: &mut u64,
) -> Result<Next, QuestionStop>
    requires row { row < length node.old.rows.rows }
    requires going { node.old.rows.stopped ≡ None }
    ensures run { Steps result node.old.rows.unknowns left.new node.new
        (split left.old (node_of node.old) (part_of node.old.rows.unknowns (row_at node.old.rows.rows row))) }
    ensures less { left.new ≤ left.old }
{
    if *left == 0 {
        return Err(QuestionStop::Spent);
    }
    let next = node.split(alloc, row)?;
    *left -= 1;
    Ok(Next::Moves(next))
}

/// A cut on a row, paid for with a move.
fn cut(alloc: Global, node: &mut Tableau, row: usize, left: &mut u64) -> Result<Next, QuestionStop>
    requires row { row < node.old.rows.unknowns }
    requires node { IsNode node.old.rows.unknowns (node_of node.old) }
    requires going { node.old.rows.stopped ≡ None }
    ensures run { Steps result node.old.rows.unknowns left.new node.new
        (cut node.old.rows.unknowns left.old (node_of node.old) row) }
    ensures less { left.new ≤ left.old }
{
    if *left == 0 {
        return Err(QuestionStop::Spent);
    }
    let next = node.cut(alloc, row)?;
    *left -= 1;
    Ok(Next::Moves(next))
}

/// A pivot on a row, paid for with a move.
fn pivot(node: &mut Tableau, row: usize, left: &mut u64) -> Result<Next, QuestionStop>
    requires row { row < length node.old.rows.rows }
    requires going { node.old.rows.stopped ≡ None }
    ensures run { Steps result node.old.rows.unknowns left.new node.new
        (pivot node.old.rows.unknowns left.old (node_of node.old) row) }
    ensures less { left.new ≤ left.old }
{
    if *left == 0 {
        return Err(QuestionStop::Spent);
    }
    match node.pivot(row) {
        Err(_) => Err(QuestionStop::Wide),
        Ok(()) => {
            *left -= 1;
            Ok(Next::Moves(Move::Goes))
        }
    }
}

/// The pivot on a row that is below 0, or the end where no entry of its columns is positive.
fn pivot_or_end(node: &mut Tableau, row: usize, left: &mut u64) -> Result<Next, QuestionStop>
    requires row { row < length node.old.rows.rows }
    requires going { node.old.rows.stopped ≡ None }
    ensures run { Steps result node.old.rows.unknowns left.new node.new
        (pivot_or_empty node.old.rows.unknowns left.old (node_of node.old) row) }
    ensures less { left.new ≤ left.old }
{
    if node.rows.has_positive(row) {
        pivot(node, row, left)
    } else {
        Ok(Next::Empty)
    }
}

/// A row that is below 0 somewhere: the node splits where it is not everywhere.
fn treat(
    alloc: Global,
    node: &mut Tableau,
    row: usize,
    left: &mut u64,
) -> Result<Next, QuestionStop>
    requires row { row < length node.old.rows.rows }
    requires node { IsNode node.old.rows.unknowns (node_of node.old) }
    requires going { node.old.rows.stopped ≡ None }
    ensures run { Steps result node.old.rows.unknowns left.new node.new
        (treated node.old.rows.unknowns left.old (node_of node.old) (Some row)) }
    ensures less { left.new ≤ left.old }
{
    match above_somewhere(alloc, node, row, left) {
        Err(stop) => Err(stop),
        Ok(true) => split(alloc, node, row, left),
        Ok(false) => pivot_or_end(node, row, left),
    }
}

/// No row is below 0: a cut on the first unknown that is not whole, or the leaf.
fn finish(alloc: Global, node: &mut Tableau, left: &mut u64) -> Result<Next, QuestionStop>
    requires node { IsNode node.old.rows.unknowns (node_of node.old) }
    requires going { node.old.rows.stopped ≡ None }
    ensures run { Steps result node.old.rows.unknowns left.new node.new
        (treated node.old.rows.unknowns left.old (node_of node.old) None) }
    ensures less { left.new ≤ left.old }
{
    match first_broken(alloc, node, left) {
        Err(stop) => Err(stop),
        Ok(Some(row)) => cut(alloc, node, row, left),
        Ok(None) => Ok(Next::Leaf),
    }
}

/// The step of a node whose context has a point.
fn look(alloc: Global, node: &mut Tableau, left: &mut u64) -> Result<Next, QuestionStop>
    requires node { IsNode node.old.rows.unknowns (node_of node.old) }
    requires going { node.old.rows.stopped ≡ None }
    ensures run { Steps result node.old.rows.unknowns left.new node.new
        (looked node.old.rows.unknowns left.old (node_of node.old)) }
    ensures less { left.new ≤ left.old }
{
    match first_below(alloc, node, left) {
        Err(stop) => Err(stop),
        Ok(Some(row)) => treat(alloc, node, row, left),
        Ok(None) => finish(alloc, node, left),
    }
}

/// The next step of a node.
pub fn step(alloc: Global, node: &mut Tableau, left: &mut u64) -> Result<Next, QuestionStop>
    requires node { IsNode node.old.rows.unknowns (node_of node.old) }
    requires going { node.old.rows.stopped ≡ None }
    ensures run { Steps result node.old.rows.unknowns left.new node.new
        (step node.old.rows.unknowns left.old (node_of node.old)) }
    ensures less { left.new ≤ left.old }
{
    if !node.begins {
        return look(alloc, node, left);
    }
    match context_holds(alloc, node, left) {
        Err(stop) => Err(stop),
        Ok(true) => look(alloc, node, left),
        Ok(false) => Ok(Next::Empty),
    }
}
