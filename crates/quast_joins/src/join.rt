//! The join of two quasts, which answers at each point the later one of their two instances, or the earlier one: what
//! joins the sources that several conflicts have for one read (P. Feautrier, "Dataflow analysis of array and scalar
//! references", International Journal of Parallel Programming 20(1), 1991). The second quast stands under each leaf of
//! the first, and where two leaves meet that name instances, tests over their common loops tell which is wanted. The
//! nodes are counted first, and then written once each, without recursion over a tree.
ghost use Rattle.std.specs.Prelude.{◌≡◌, ◌≤◌, ◌∷◌, IfErr, IfOk, OnOk, length, ℤ, List};
ghost use Rattle.quast_trees.specs.Tree.{count};
ghost use Rattle.quast_trees.specs.Postfix.{standing, tree_of};
ghost use Rattle.quast_trees.specs.Value.{value};
ghost use Rattle.quast_joins.specs.Ways.{chosen};
ghost use Rattle.quast_joins.specs.Joins.{join};
ghost use Rattle.quast_joins.specs.Counts.{join_count};
ghost use Rattle.quast_joins.specs.Limits.{IsStopOf, leaf_limit, node_limit};
ghost use Rattle.quast_joins.specs.Sizes.{LeavesWithin};
ghost use Rattle.quast_joins.specs.declared.way.Way.TheVariants.{Later, Earlier};

use crate::binds::binds_round;
use crate::count::count_nodes;
use crate::nodes::push_nodes;
use crate::way::{JoinStop, Way};
use quast_trees::{Builder, Quast};
use std::alloc::AllocError;

/// The quast that answers at each point the later one of the two instances that the quasts answer there: the greater
/// in their common iterators from the outermost, then that of later textual place, and of two that are one the first.
/// It answers the one instance where there is one alone, and the initial value where there is none.
///
/// # Errors
/// `Spent` exactly where the join has more than 4,096 nodes, before any is made; `NoMemory`.
pub fn later_of(first: &Quast, second: &Quast) -> Result<Quast, JoinStop>
    requires parameters { first.now.parameters ≡ second.now.parameters }
    requires first { LeavesWithin leaf_limit (tree_of first.now) }
    requires second { LeavesWithin leaf_limit (tree_of second.now) }
    ensures parameters { IfOk result (λ q. q.parameters ≡ first.now.parameters) }
    ensures tree { IfOk result
        (λ q. tree_of q ≡ join Later first.now.parameters (tree_of first.now) (tree_of second.now)) }
    ensures value { IfOk result (λ q. (point : List ℤ) → length point ≡ first.now.parameters
        → value (tree_of q) point
        ≡ chosen Later (value (tree_of first.now) point) (value (tree_of second.now) point)) }
    ensures few { IfOk result (λ q. count (tree_of q) ≤ node_limit) }
    ensures spent { IfErr result (IsStopOf (join_count (tree_of first.now) (tree_of second.now))) }
{
    joined(Way::Later, first, second)
}

/// The quast that answers at each point the earlier one of the two instances that the quasts answer there: `later_of`
/// turned round, and of two instances that are one the first again.
///
/// # Errors
/// As `later_of`.
pub fn earlier_of(first: &Quast, second: &Quast) -> Result<Quast, JoinStop>
    requires parameters { first.now.parameters ≡ second.now.parameters }
    requires first { LeavesWithin leaf_limit (tree_of first.now) }
    requires second { LeavesWithin leaf_limit (tree_of second.now) }
    ensures parameters { IfOk result (λ q. q.parameters ≡ first.now.parameters) }
    ensures tree { IfOk result
        (λ q. tree_of q ≡ join Earlier first.now.parameters (tree_of first.now) (tree_of second.now)) }
    ensures value { IfOk result (λ q. (point : List ℤ) → length point ≡ first.now.parameters
        → value (tree_of q) point
        ≡ chosen Earlier (value (tree_of first.now) point) (value (tree_of second.now) point)) }
    ensures few { IfOk result (λ q. count (tree_of q) ≤ node_limit) }
    ensures spent { IfErr result (IsStopOf (join_count (tree_of first.now) (tree_of second.now))) }
{
    joined(Way::Earlier, first, second)
}

// The join, either way.
fn joined(way: Way, first: &Quast, second: &Quast) -> Result<Quast, JoinStop>
    requires parameters { first.now.parameters ≡ second.now.parameters }
    requires first { LeavesWithin leaf_limit (tree_of first.now) }
    requires second { LeavesWithin leaf_limit (tree_of second.now) }
    ensures parameters { IfOk result (λ q. q.parameters ≡ first.now.parameters) }
    ensures tree { IfOk result
        (λ q. tree_of q ≡ join way first.now.parameters (tree_of first.now) (tree_of second.now)) }
    ensures value { IfOk result (λ q. (point : List ℤ) → length point ≡ first.now.parameters
        → value (tree_of q) point
        ≡ chosen way (value (tree_of first.now) point) (value (tree_of second.now) point)) }
    ensures few { IfOk result (λ q. count (tree_of q) ≤ node_limit) }
    ensures spent { IfErr result (IsStopOf (join_count (tree_of first.now) (tree_of second.now))) }
{
    let nodes = count_nodes(first.nodes(), second.nodes());
    if nodes > 4096 {
        return Err(JoinStop::Spent { nodes });
    }
    let mut builder = Builder::new(first.allocator());
    match push_quasts(&mut builder, way, first, second) {
        Err(_) => Err(JoinStop::NoMemory),
        Ok(()) => Ok(builder.finish(first.parameters())),
    }
}

// The join's nodes, one tree on the stack.
fn push_quasts(
    builder: &mut Builder,
    way: Way,
    first: &Quast,
    second: &Quast,
) -> Result<(), AllocError>
    requires parameters { first.now.parameters ≡ second.now.parameters }
    requires first { LeavesWithin leaf_limit (tree_of first.now) }
    requires second { LeavesWithin leaf_limit (tree_of second.now) }
    ensures { OnOk result (standing builder.new
        ≡ join way first.now.parameters (tree_of first.now) (tree_of second.now) ∷ standing builder.old) }
{
    let rounds = binds_round(first)?;
    let binds = binds_round(second)?;
    push_nodes(
        builder,
        way,
        first.parameters(),
        first.nodes(),
        &rounds,
        second.nodes(),
        &binds,
    )
}
