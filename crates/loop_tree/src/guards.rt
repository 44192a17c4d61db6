//! How many guards of a tree stand within a loop, where they are tested turn by turn.
ghost use Rattle.std.specs.Prelude.{◌≡◌, ◌+◌, ◌-◌, ◌^◌, false, min};
ghost use Rattle.loop_tree.specs.Shape.{inner_guards, inner_guards_all};
ghost use Rattle.loop_tree.specs.View.{nodes_of, tree_of, trees_in};

use crate::tree::{Node, Tree};

/// The sum, or 2^64 - 1 where it is greater.
pub fn plus(a: u64, b: u64) -> u64
    ensures { result ≡ min (a + b) (2 ^ 64 - 1) }
{
    match a.checked_add(b) {
        Some(sum) => sum,
        None => u64::MAX,
    }
}

/// The guards of nodes that stand within a loop; `inside` tells whether one stands round the nodes.
#[cycle(counting)]
fn count_nodes(nodes: &[Node], inside: bool) -> u64
    ensures { result ≡ min (inner_guards_all inside (nodes_of nodes.now)) (2 ^ 64 - 1) }
{
    let mut count = 0u64;
    for node in nodes {
        count = plus(count, count_node(node, inside));
    }
    count
}

/// Those of a node.
#[cycle(counting)]
fn count_node(node: &Node, inside: bool) -> u64
    ensures { result ≡ min (inner_guards inside (tree_of node.now)) (2 ^ 64 - 1) }
{
    match node {
        Node::Loop(_, body) => count_nodes(body, true),
        Node::Guard(_, body) => {
            let within = count_nodes(body, inside);
            if inside { plus(within, 1) } else { within }
        }
        Node::Instance(_) => 0,
    }
}

impl Tree {
    /// How many guards stand within a loop; 2^64 - 1 also where there are more.
    pub fn guards(&self) -> u64
        ensures { result ≡ min (inner_guards_all false (trees_in self.now)) (2 ^ 64 - 1) }
    {
        count_nodes(self.nodes.as_slice(), false)
    }
}
