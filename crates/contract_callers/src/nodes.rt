//! Callers of the moves of the solver's nodes.
ghost use Rattle.std.specs.Prelude.{◌≡◌, ◌<◌, Err, IfOk, OnOk, None, Some, length};
ghost use Rattle.wide_math.specs.declared.Wide.{Wide};
ghost use Rattle.lexmin_runs.specs.Solutions.{ArePlaced, IsNode, LeadsOn};
ghost use Rattle.checked_tableau.specs.declared.stop.TableauStop.TheVariants as tableau;
ghost use Rattle.pip_solver.specs.Node.{next_of, node_of};

use checked_tableau::TableauStop;
use pip_solver::{Move, Tableau};
use std::alloc::Global;
use wide_math::Wide;

/// A pivot of a node that stopped stops so again, by `again` of `Tableau::pivot`; else it leads to a node, by
/// `solutions`.
pub fn pivoted(node: &mut Tableau, row: usize) -> Result<(), Wide>
    requires { row < length node.old.rows.rows }
    ensures again { (wide : Wide) → node.old.rows.stopped ≡ Some wide → result ≡ Err wide }
    ensures solutions { node.old.rows.stopped ≡ None → IsNode node.old.rows.unknowns (node_of node.old)
        → OnOk result (IsNode node.old.rows.unknowns (node_of node.new)) }
{
    node.pivot(row)
}

/// The same of a split, by `again` and `solutions` of `Tableau::split`.
pub fn split(alloc: Global, node: &mut Tableau, row: usize) -> Result<Move, TableauStop>
    requires { row < length node.old.rows.rows }
    ensures again { (wide : Wide) → node.old.rows.stopped ≡ Some wide → result ≡ Err (tableau.Wide wide) }
    ensures solutions { node.old.rows.stopped ≡ None → IsNode node.old.rows.unknowns (node_of node.old)
        → IfOk result (λ move. LeadsOn node.old.rows.unknowns node.old.rows.parameters (next_of move node.new)) }
{
    node.split(alloc, row)
}

/// The same of a cut on a row of an unknown, by `again` and `solutions` of `Tableau::cut`.
pub fn cut(alloc: Global, node: &mut Tableau, row: usize) -> Result<Move, TableauStop>
    requires row { row < length node.old.rows.rows }
    requires placed { node.old.rows.stopped ≡ None → ArePlaced node.old.rows.parameters node.old.bounds.items }
    ensures again { (wide : Wide) → node.old.rows.stopped ≡ Some wide → result ≡ Err (tableau.Wide wide) }
    ensures solutions { node.old.rows.stopped ≡ None → IsNode node.old.rows.unknowns (node_of node.old)
        → row < node.old.rows.unknowns
        → IfOk result (λ move. LeadsOn node.old.rows.unknowns node.old.rows.parameters (next_of move node.new)) }
{
    node.cut(alloc, row)
}
