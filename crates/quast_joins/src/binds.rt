//! How many binds stand round each node of a quast, found from the root down.
ghost use Rattle.std.specs.Prelude.{◌≡◌, IfOk, OnOk, reverse};
ghost use Rattle.quast_trees.specs.Postfix.{tree_of};
ghost use Rattle.quast_joins.specs.Steps.{depths, side_depths};

use quast_trees::{Node, Quast};
use std::alloc::AllocError;

// Puts the numbers of binds round the sides of a node on the stack.
fn push_sides(stack: &mut Vec<usize>, node: &Node, binds: usize) -> Result<(), AllocError>
    ensures { OnOk result (reverse stack.new.items ≡ side_depths node.now binds (reverse stack.old.items)) }
{
    match node {
        Node::Branch { .. } => {
            stack.push(binds)?;
            stack.push(binds)?;
            Ok(())
        }
        Node::Bind { .. } => match binds.checked_add(1) {
            None => Err(AllocError),
            Some(more) => {
                stack.push(more)?;
                Ok(())
            }
        },
        _ => Ok(()),
    }
}

/// How many binds stand round each node, in the order of the nodes.
pub fn binds_round(quast: &Quast) -> Result<Vec<usize>, AllocError>
    ensures { IfOk result (λ v. v.items ≡ depths 0 (tree_of quast.now)) }
{
    let alloc = quast.allocator();
    let nodes = quast.nodes();
    let mut stack = Vec::new(alloc);
    stack.push(0)?;
    let mut found = Vec::with_capacity(alloc, nodes.len())?;
    // A node stands behind its sides, so the last is the root.
    let mut at = nodes.len();
    while at > 0 {
        at -= 1;
        let binds = stack.pop().unwrap_or(0);
        push_sides(&mut stack, &nodes[at], binds)?;
        found.push(binds)?;
    }
    found.reverse();
    Ok(found)
}
