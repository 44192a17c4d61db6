//! The source of a quast's leaves: what they are instances of.
ghost use Rattle.std.specs.Prelude.{◌≡◌, IfOk, OnOk, map};
ghost use Rattle.quast_trees.specs.Source.{source_of, source_held};
ghost use Rattle.quast_trees.specs.Tree.{named};
ghost use Rattle.quast_trees.specs.Postfix.{tree_of, named_node};

use crate::node::{Node, Source};
use crate::quast::Quast;
use std::alloc::{AllocError, Global};

impl Quast {
    /// The quast with each leaf of forms as an instance of a statement and the loops round it.
    pub fn named(self, statement: usize, loops: &[usize]) -> Result<Quast, AllocError>
        ensures parameters { IfOk result (λ q. q.parameters ≡ self.parameters) }
        ensures tree { IfOk result (λ q. tree_of q ≡ named (source_of statement loops.now) (tree_of self)) }
    {
        let alloc = self.allocator();
        let (parameters, mut nodes) = self.into_nodes();
        match name_nodes(alloc, nodes.as_mut_slice(), statement, loops) {
            Err(error) => Err(error),
            Ok(()) => Ok(Quast::of_nodes(parameters, nodes)),
        }
    }
}

// Gives each leaf of forms among the nodes the source.
fn name_nodes(
    alloc: Global,
    nodes: &mut [Node],
    statement: usize,
    loops: &[usize],
) -> Result<(), AllocError>
    ensures { OnOk result (nodes.new ≡ map (named_node (source_of statement loops.now)) nodes.old) }
{
    for at in 0..nodes.len() {
        match name_node(alloc, &mut nodes[at], statement, loops) {
            Err(error) => return Err(error),
            Ok(()) => {}
        }
    }
    Ok(())
}

// Gives a leaf of forms the source.
fn name_node(
    alloc: Global,
    node: &mut Node,
    statement: usize,
    loops: &[usize],
) -> Result<(), AllocError>
    ensures { OnOk result (node.new ≡ named_node (source_of statement loops.now) node.old) }
{
    match node {
        Node::Forms(leaf) => match Vec::from_slice(alloc, loops) {
            Err(error) => Err(error),
            Ok(loops) => {
                leaf.source = Some(Source { statement, loops });
                Ok(())
            }
        },
        _ => Ok(()),
    }
}

/// The same source again.
pub fn copied_source(alloc: Global, source: &Option<Source>) -> Result<Option<Source>, AllocError>
    ensures { IfOk result (λ s. source_held s ≡ source_held source.now) }
{
    match source {
        None => Ok(None),
        Some(source) => match Vec::from_slice(alloc, &source.loops) {
            Err(error) => Err(error),
            Ok(loops) => Ok(Some(Source {
                statement: source.statement,
                loops,
            })),
        },
    }
}
