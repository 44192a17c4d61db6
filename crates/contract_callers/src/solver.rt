//! Callers of the solver.
ghost use Rattle.std.specs.Prelude.{◌≡◌, ◌⊎◌, ◌+◌, ◌≤◌, ◌++◌, [], ℕ, ℤ, List, None, Ok, Err, IfOk, All, true, false};
ghost use Rattle.std.specs.Prelude.{length};
ghost use Rattle.std.specs.Option.{ForSome, IfNone};
ghost use Rattle.whole_numbers.specs.Lists.{NotNegative};
ghost use Rattle.affine_forms.specs.Parts.{variables_of};
ghost use Rattle.integer_sets.specs.Points.{Satisfies};
ghost use Rattle.quast_trees.specs.Leaf as answer;
ghost use Rattle.quast_trees.specs.Postfix.{tree_of};
ghost use Rattle.quast_trees.specs.Source.{Forms};
ghost use Rattle.quast_trees.specs.Tree.{leaf};
ghost use Rattle.quast_trees.specs.Value.{value};
ghost use Rattle.tableau_rows.specs.Problem.{IsEmpty, IsLexmin, problem_of, row_values};
ghost use Rattle.lexmin_runs.specs.Emptiness.{IsBoundedPoint};
ghost use Rattle.checked_tableau.specs.declared.problem.Problem.{Problem};
ghost use Rattle.pip_solver.specs.Promises.{IsBegun, IsPosed};
ghost use Rattle.pip_solver.specs.Minimum.{IsTaken, held};
ghost use Rattle.pip_solver.specs.declared.stop.Stop.TheVariants as stop;
ghost use Rattle.pip_solver.specs.declared.stop.Stop.TheVariants.{Spent};
ghost use Rattle.wide_math.specs.declared.Wide.{Wide};

use checked_tableau::Problem;
use integer_sets::System;
use pip_solver::{Solution, Stop, is_empty, least_point, least_point_in, lexmin, solve};
use quast_trees::Quast;
use std::alloc::Global;

/// The minimum at a point of the context: who spends the budget has made all its moves, by `run` of `lexmin`; where the
/// quast answers the initial value, no whole point satisfies the rows, by `least`; a leaf has a form for each unknown, by
/// `forms`.
pub fn minimum(alloc: Global, problem: Problem, budget: u64, point: &[i128]) -> Result<Quast, Stop>
    requires rows { All (λ f. variables_of f ≡ problem.unknowns + problem.parameters) problem.rows.items }
    requires context { All (λ f. variables_of f ≡ problem.parameters) problem.context.items }
    requires point { length point.now ≡ problem.parameters }
    requires signs { NotNegative point.now }
    requires inside { NotNegative (row_values problem.context.items point.now) }
    ensures run { (posed : Problem) (moves : ℕ) → result ≡ Err (Spent posed moves) → moves ≡ budget }
    ensures least { IfOk result (λ quast. value (tree_of quast) point.now ≡ answer.initial
        → IsEmpty (problem_of problem.unknowns problem.rows.items) point.now) }
    ensures forms { IfOk result (λ quast. (l : Forms) → tree_of quast ≡ leaf l → length l.forms ≡ problem.unknowns) }
{
    lexmin(alloc, problem, budget)
}

/// The same with the moves made, which are within the budget, by `run` of `solve`; by its `least` and its `forms`.
pub fn counted_minimum(
    alloc: Global,
    problem: Problem,
    budget: u64,
    point: &[i128],
) -> Result<Solution, Stop>
    requires rows { All (λ f. variables_of f ≡ problem.unknowns + problem.parameters) problem.rows.items }
    requires context { All (λ f. variables_of f ≡ problem.parameters) problem.context.items }
    requires point { length point.now ≡ problem.parameters }
    requires signs { NotNegative point.now }
    requires inside { NotNegative (row_values problem.context.items point.now) }
    ensures run { IfOk result (λ solution. solution.moves ≤ budget) }
    ensures least { IfOk result (λ solution. value (tree_of solution.quast) point.now ≡ answer.initial
        → IsEmpty (problem_of problem.unknowns problem.rows.items) point.now) }
    ensures forms { IfOk result
        (λ solution. (l : Forms) → tree_of solution.quast ≡ leaf l → length l.forms ≡ problem.unknowns) }
{
    solve(alloc, problem, budget)
}

/// The least point without parameters: who spends the budget has made all its moves, by `run` of `least_point`; the point
/// is the minimum, by `least`; and without one there is none, by `none`.
pub fn minimum_without_parameters(
    alloc: Global,
    problem: Problem,
    budget: u64,
) -> Result<Option<Vec<i128>>, Stop>
    requires rows { All (λ f. variables_of f ≡ problem.unknowns) problem.rows.items }
    requires parameters { problem.parameters ≡ 0 }
    requires context { problem.context.items ≡ [] }
    ensures run { (posed : Problem) (moves : ℕ) → result ≡ Err (Spent posed moves) → moves ≡ budget }
    ensures least { IfOk result (λ point. ForSome point (λ x.
        IsLexmin (problem_of problem.unknowns problem.rows.items) [] x.items)) }
    ensures none { IfOk result (λ point. IfNone point
        (IsEmpty (problem_of problem.unknowns problem.rows.items) [])) }
{
    least_point(alloc, problem, budget)
}

/// A system that is empty has no bounded point, by `empty` of `is_empty`; one that is not has a point, by `point`. Who
/// spends the budget tells the problem that the system poses, by `run`; so does a number that is too wide, or, before
/// any move, the rows of the equalities in front of it.
pub fn has_no_point(alloc: Global, system: &System, budget: u64) -> Result<bool, Stop>
    ensures spent { (posed : Problem) (moves : ℕ) → result ≡ Err (Spent posed moves) → IsPosed system.now posed }
    ensures wide { (posed : Problem) (moves : ℕ) → result ≡ Err (stop.Wide posed moves)
        → IsPosed system.now posed ⊎ ((w : Wide) × IsBegun system.now w posed × (moves ≡ 0)) }
    ensures empty { result ≡ Ok true → (x : List ℤ) → IsBoundedPoint system.now x [] → ⊥ }
    ensures point { result ≡ Ok false → (x : List ℤ) × (p : List ℤ) × NotNegative (x ++ p)
        × Satisfies system.now (x ++ p) }
{
    is_empty(alloc, system, budget)
}

/// The least point of a system without parameters: who spends the budget has made all its moves, by `run` of
/// `least_point_in`; without one there is none, by `minimum`.
pub fn minimum_of_system(
    alloc: Global,
    system: &System,
    budget: u64,
) -> Result<Option<Vec<i128>>, Stop>
    requires { system.now.parameters ≡ 0 }
    ensures run { (posed : Problem) (moves : ℕ) → result ≡ Err (Spent posed moves) → moves ≡ budget }
    ensures minimum { IfOk result (λ found. held found ≡ None
        → (xs : List ℤ) → length xs ≡ system.now.dimensions → IsTaken system.now xs → ⊥) }
{
    least_point_in(alloc, system, budget)
}
