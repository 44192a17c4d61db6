//! The run of parametric integer programming: nodes, splits, cuts with new parameters, and the tree of
//! answers, with the laws that they obey. P. Feautrier, "Parametric integer programming", RAIRO Recherche
//! opérationnelle 22(3), 1988.
#![tactic(auto)]

mod laws;

pub use laws::{
    binds_are_not_negative, emptiness_is_answered_right, runs_begin_with_their_problem,
    runs_go_on_by_steps, steps_keep_the_solutions, trees_are_right,
    trees_without_parameters_are_leaves, turns_of_runs_can_be_told,
};
