//! The first row of a node of which a question's answer is yes.
ghost use Rattle.std.specs.Prelude.{◌≡◌, ℕ, ◌<◌, ◌≤◌, length, take, Ok, Some, None};
ghost use Rattle.checked_tableau.specs.Nodes.{first_asked, below_somewhere, broken_somewhere, part_of};
ghost use Rattle.checked_tableau.specs.Solutions.{IsNode};
ghost use Rattle.pip_solver.specs.Node.{node_of};
ghost use Rattle.pip_solver.specs.steps.Promises.{Tells};

use crate::asking::{below_somewhere, broken_somewhere};
use crate::node::Tableau;
use crate::question::QuestionStop;
use std::alloc::Global;

/// The first row whose part is at most -1 somewhere in the context.
pub fn first_below(
    alloc: Global,
    node: &Tableau,
    left: &mut u64,
) -> Result<Option<usize>, QuestionStop>
    requires { IsNode node.now.rows.unknowns (node_of node.now) }
    ensures run { Tells result left.new (first_asked
        (λ k row. below_somewhere k (node_of node.now) (part_of node.now.rows.unknowns row)) left.old 0
        node.now.rows.rows) }
    ensures inside { (r : ℕ) → result ≡ Ok (Some r) → r < length node.now.rows.rows }
    ensures less { left.new ≤ left.old }
{
    for row in 0..node.rows.count() {
        match below_somewhere(alloc, node, row, left) {
            Err(stop) => return Err(stop),
            Ok(true) => return Ok(Some(row)),
            Ok(false) => {}
        }
    }
    Ok(None)
}

/// The first row of an unknown whose denominator does not divide its part somewhere in the context.
pub fn first_broken(
    alloc: Global,
    node: &Tableau,
    left: &mut u64,
) -> Result<Option<usize>, QuestionStop>
    requires node { IsNode node.now.rows.unknowns (node_of node.now) }
    requires going { node.now.rows.stopped ≡ None }
    ensures run { Tells result left.new (first_asked
        (λ k row. broken_somewhere k (node_of node.now) row.denominator (part_of node.now.rows.unknowns row)) left.old 0
        (take node.now.rows.unknowns node.now.rows.rows)) }
    ensures inside { (r : ℕ) → result ≡ Ok (Some r) → r < node.now.rows.unknowns }
    ensures less { left.new ≤ left.old }
{
    for row in 0..node.rows.unknowns() {
        match broken_somewhere(alloc, node, row, left) {
            Err(stop) => return Err(stop),
            Ok(true) => return Ok(Some(row)),
            Ok(false) => {}
        }
    }
    Ok(None)
}
