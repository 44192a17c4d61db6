//! How many nodes a join has, told by the two quasts' nodes before any is made.
ghost use Rattle.std.specs.Prelude.{◌≡◌, sum_by};
ghost use Rattle.quast_trees.specs.Source.{source_held};
ghost use Rattle.quast_joins.specs.Ways.{loops_of};
ghost use Rattle.quast_joins.specs.Counts.{capped, join_node, tested, under_node};
ghost use Rattle.quast_joins.specs.Limits.{most_told};

use quast_trees::{Forms, Node, Source};

// The loops round the instances of a leaf; none where its source is not known.
fn loops_round(source: &Option<Source>) -> &[usize]
    ensures { result.now ≡ loops_of (source_held source.now) }
{
    match source {
        None => &[],
        Some(source) => &source.loops,
    }
}

/// How many loops two leaves have in common, of those with a form on both sides.
pub fn common_loops(first: &Forms, second: &Forms) -> usize
    ensures { result
        ≡ tested (loops_of first.now.source) (loops_of second.now.source) first.now.forms second.now.forms }
{
    let loops = loops_round(&first.source);
    let others = loops_round(&second.source);
    let most = loops.len().min(others.len());
    let tested = first.forms.len().min(second.forms.len());
    for at in 0..most.min(tested) {
        if loops[at] != others[at] {
            return at;
        }
    }
    most.min(tested)
}

// The nodes that one node of the second quast becomes under a leaf of the first.
fn under_node(leaf: &Forms, node: &Node) -> u128
    ensures { result ≡ under_node leaf.now node.now }
{
    match node {
        Node::Forms(other) => 4 * common_loops(leaf, other) as u128 + 1,
        _ => 1,
    }
}

// The nodes that the second quast's become under a leaf of the first.
fn under_leaf(leaf: &Forms, nodes: &[Node]) -> u128
    ensures { result ≡ capped most_told (sum_by (under_node leaf.now) nodes.now) }
{
    nodes.iter().fold(
        0,
        |count: u128, node| count.saturating_add(under_node(leaf, node)),
    )
}

// The nodes that one node of the first quast becomes.
fn join_node(nodes: &[Node], node: &Node) -> u128
    ensures { result ≡ capped most_told (join_node nodes.now node.now) }
{
    match node {
        Node::Initial => nodes.len() as u128,
        Node::Forms(leaf) => under_leaf(leaf, nodes),
        _ => 1,
    }
}

/// How many nodes the join of two quasts with these nodes has; 2^128 - 1 where there are more.
pub fn count_nodes(first: &[Node], second: &[Node]) -> u128
    ensures { result ≡ capped most_told (sum_by (join_node second.now) first.now) }
{
    first.iter().fold(
        0,
        |count: u128, node| count.saturating_add(join_node(second, node)),
    )
}
