//! Quasts, quasi-affine selection trees: the answer of a parametric problem, a tree of conditions on the
//! parameters. Contracts see the tree; the code keeps its nodes in one list, in postfix order, and goes
//! over it without recursion. P. Feautrier, "Parametric integer programming", RAIRO Recherche
//! opérationnelle 22(3), 1988.
#![tactic(auto)]

pub use builder::Builder;
pub use laws::{
    answers_are_leaves, answers_are_live_leaves, binds_divide, binds_round_down,
    blocked_paths_have_no_point, bound_quotients_are_not_negative, branches_test_the_sign,
    mapped_trees_can_be_told, mapped_trees_keep_the_signs_of_binds, maps_keep_the_points,
    nodes_are_read_as_their_tree, runs_are_exact, tests_may_be_scaled,
};
pub use leaf::Leaf;
pub use naming::copied_source;
pub use node::{Forms, Node, Source};
pub use paths::{Path, Turn};
pub use place::{Part, Place};
pub use quast::Quast;

// Passed on: what goes with this crate's contracts.
pub use affine_forms::Form;

mod builder;
mod laws;
mod leaf;
mod map;
mod naming;
mod node;
mod paths;
mod place;
mod quast;
mod value;
