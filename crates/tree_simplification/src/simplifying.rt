//! Both steps, one after the other.

ghost use Rattle.std.specs.Prelude.{ℕ, ◌<◌, ◌^◌, IfOk};
ghost use Rattle.loop_tree.specs.Fits.{AreSmallTrees};
ghost use Rattle.loop_tree.specs.Marks.{FlatAll};
ghost use Rattle.loop_tree.specs.Shape.{TreesAreOver, TreesAreUpTo};
ghost use Rattle.loop_tree.specs.View.{trees_in};
ghost use Rattle.tree_simplification.specs.Simplified.{Simplifies};

use crate::implied::without_implied;
use crate::single::without_single;
use loop_tree::Tree;
use std::alloc::{AllocError, Global};

/// A tree that shows what this one shows for all parameters in 0..=65536: bounds and tests lose common factors, loops
/// that are found to run at most once give way to their value under tests, turns are taken so many at once where a loop
/// within divides by so many, and tests and parts of bounds that are found to be implied are left out, so is what is
/// found never to be visited. The tree speaks of so many parameters; each question may make so many moves of the solver,
/// and where it needs more the thing stays.
///
/// # Errors
/// `AllocError` alone.
pub fn simplified(
    alloc: Global,
    tree: &Tree,
    parameters: usize,
    budget: u64,
) -> Result<Tree, AllocError>
    requires few { parameters < 2 ^ 32 }
    requires flat { FlatAll (trees_in tree.now) }
    requires over { TreesAreOver parameters (trees_in tree.now) }
    requires numbers { TreesAreUpTo (2 ^ 40) (trees_in tree.now) }
    requires small { (d : ℕ) × (d < 2 ^ 32) × AreSmallTrees d (trees_in tree.now) }
    ensures { IfOk result (λ t. Simplifies parameters (trees_in tree.now) (trees_in t)) }
{
    match without_single(alloc, tree, parameters)? {
        Some(inlined) => without_implied(alloc, &inlined, parameters, budget),
        None => without_implied(alloc, tree, parameters, budget),
    }
}
