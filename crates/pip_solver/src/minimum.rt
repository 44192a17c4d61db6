//! The parametric lexicographic minimum as a quast: for all parameters of the context the least whole point x >= 0 of
//! the rows, or that there is none.
ghost use Rattle.std.specs.Prelude.{◌≡◌, ◌+◌, ℤ, List, length, All, IfOk};
ghost use Rattle.whole_numbers.specs.Lists.{NotNegative};
ghost use Rattle.affine_forms.specs.Parts.{variables_of};
ghost use Rattle.tableau_rows.specs.Problem.{problem_of, row_values};
ghost use Rattle.quast_trees.specs.Tree.{LeavesHave};
ghost use Rattle.quast_trees.specs.Postfix.{tree_of};
ghost use Rattle.quast_trees.specs.Value.{value};
ghost use Rattle.checked_tableau.specs.Leaves.{IsAnswer};
ghost use Rattle.pip_solver.specs.Solving.{Counts, Solves};

use crate::node::Tableau;
use crate::question::QuestionStop;
use crate::run::run;
use crate::stop::Stop;
use checked_tableau::Problem;
use quast_trees::{Builder, Quast};
use std::alloc::Global;

/// A problem's quast, and how many moves its run took.
#[derive(Drop)]
pub struct Solution {
    pub quast: Quast,
    pub moves: u64,
}

/// The lexicographic minimum of a problem at every point of its context, in so many moves.
///
/// # Errors
/// `Wide` and `Spent` exactly where the run stops so, after so many moves; `NoMemory`.
pub fn lexmin(alloc: Global, problem: Problem, budget: u64) -> Result<Quast, Stop>
    requires rows { All (λ f. variables_of f ≡ problem.unknowns + problem.parameters) problem.rows.items }
    requires context { All (λ f. variables_of f ≡ problem.parameters) problem.context.items }
    ensures run { Solves result budget problem }
    ensures least { IfOk result (λ q. (p : List ℤ) → length p ≡ problem.parameters → NotNegative p
        → NotNegative (row_values problem.context.items p)
        → IsAnswer (problem_of problem.unknowns problem.rows.items) p (value (tree_of q) p)) }
    ensures forms { IfOk result (λ q. LeavesHave problem.unknowns (tree_of q)) }
{
    match solve(alloc, problem, budget) {
        Err(stop) => Err(stop),
        Ok(solution) => Ok(solution.quast),
    }
}

/// The lexicographic minimum with the number of moves that its run took.
///
/// # Errors
/// As `lexmin`.
pub fn solve(alloc: Global, problem: Problem, budget: u64) -> Result<Solution, Stop>
    requires rows { All (λ f. variables_of f ≡ problem.unknowns + problem.parameters) problem.rows.items }
    requires context { All (λ f. variables_of f ≡ problem.parameters) problem.context.items }
    ensures run { Counts result budget problem }
    ensures least { IfOk result (λ s. (p : List ℤ) → length p ≡ problem.parameters → NotNegative p
        → NotNegative (row_values problem.context.items p)
        → IsAnswer (problem_of problem.unknowns problem.rows.items) p (value (tree_of s.quast) p)) }
    ensures forms { IfOk result (λ s. LeavesHave problem.unknowns (tree_of s.quast)) }
{
    let node = match Tableau::of(alloc, &problem) {
        Err(_) => return Err(Stop::NoMemory),
        Ok(node) => node,
    };
    let mut builder = Builder::new(alloc);
    let mut left = budget;
    match run(alloc, node, &mut builder, &mut left) {
        Ok(()) => Ok(Solution {
            quast: builder.finish(problem.parameters),
            moves: budget - left,
        }),
        Err(QuestionStop::Wide) => Err(Stop::Wide {
            posed: problem,
            moves: budget - left,
        }),
        Err(QuestionStop::Spent) => Err(Stop::Spent {
            posed: problem,
            moves: budget,
        }),
        Err(QuestionStop::NoMemory) => Err(Stop::NoMemory),
    }
}
