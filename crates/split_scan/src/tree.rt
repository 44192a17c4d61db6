//! The tree of sets, separated dimension by dimension.

ghost use Rattle.std.specs.Prelude.{IfErr, IfOk};
ghost use Rattle.loop_tree.specs.View.{trees_in};
ghost use Rattle.plain_scan.specs.Hulls.{sets_in};
ghost use Rattle.plain_scan.specs.Sets.{NumbersRise};
ghost use Rattle.plain_scan.specs.steps.Nodes.{AreNodesOf};
ghost use Rattle.plain_scan.specs.Scanning.{AreScanned, IsScan, StopsScan};

use crate::nodes::{Shape, nodes};
use fm_projection::FmStop;
use integer_sets::ScanSet;
use loop_tree::Tree;
use plain_scan::shared::{Outlines, outlined};
use std::alloc::{AllocError, Global};

/// The tree of sets: from no outer value on.
fn scan_outlines(
    alloc: Global,
    all: &Outlines,
    hulls: usize,
    budget: u64,
) -> Result<Tree, AllocError>
    requires { NumbersRise (sets_in all.now.outlines.items) }
    ensures { IfOk result (λ t. AreNodesOf all.now (trees_in t)) }
{
    let shape = Shape {
        parameters: all.parameters,
        parallel: all.parallel,
        hulls,
        budget,
    };
    let nodes = nodes(alloc, &shape, &all.outlines, &[], true, 0, all.dimensions)?;
    Ok(Tree { nodes })
}

/// The tree that visits the points of sets as that of `plain_scan` does, in the lexicographic order of their
/// dimensions, and at one point by statement. At each dimension the sets are separated: what one loop would visit is
/// cut into parts, each with the sets that have points there. A question of a separation may make so many moves of the
/// solver; where one makes more, or a number is beyond 2^40, or there are too many parts, or they have no order, the
/// hull is taken there as `plain_scan` does. So it is at the first `hulls` dimensions, but where each set has one
/// number.
///
/// # Errors
/// Those of `plain_scan`: `Wide` or `Crowded` only where an elimination of a set stops so, of the last dimension of its
/// projection on the first, or, for the bounds of that dimension alone, of the others and of the parameters; `Large`
/// only where a number of what is left of such a dimension alone, or of the set, is beyond 2^40 in absolute value;
/// `NoMemory`.
pub fn scan(alloc: Global, sets: &[ScanSet], hulls: usize, budget: u64) -> Result<Tree, FmStop>
    requires sets { AreScanned sets.now }
    requires rise { NumbersRise sets.now }
    ensures scan { IfOk result (λ t. IsScan sets.now (trees_in t)) }
    ensures stops { IfErr result (StopsScan sets.now) }
{
    match outlined(alloc, sets) {
        Err(stop) => Err(stop),
        Ok(None) => Ok(Tree {
            nodes: Vec::new(alloc),
        }),
        Ok(Some(all)) => match scan_outlines(alloc, &all, hulls, budget) {
            Err(_) => Err(FmStop::NoMemory),
            Ok(tree) => Ok(tree),
        },
    }
}
