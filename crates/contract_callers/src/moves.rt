//! Callers of the laws of tableaus, most at the rows of the least x of 2 x - p >= 0.
ghost use Rattle.std.specs.Prelude.{◌≡◌, ◌↔◌, ◌∷◌, ◌++◌, [], ℤ, List, negsuc, pos};
ghost use Rattle.whole_numbers.specs.Affine.{form_of};
ghost use Rattle.whole_numbers.specs.Division.{IsFloor};
ghost use Rattle.tableau_rows.specs.Moves.{buffer_run, rows_of_run, rows_run};
ghost use Rattle.tableau_rows.specs.Problem.{IsEmpty, IsLexmin, IsPoint, problem_of};
ghost use Rattle.tableau_rows.specs.Rows.{row_of};
ghost use Rattle.tableau_rows.specs.Solutions.{HaveSameSolutions, IsSolution, IsTableau};
ghost use Rattle.contract_callers.specs.Halves.{begun, halved, longer, new_row, pivoted};

use tableau_rows::{
    buffers_are_rows, cuts_keep_the_solutions, pivots_keep_the_solutions,
    questions_are_answered_right, tableaus_begin_with_their_problem,
};

/// The least x of 2 x - 3 >= 0 is 2, and no x >= 0 meets -x - 1 >= 0, by the clause of `questions_are_answered_right`.
pub fn answers_of_two_questions()
    ensures least { IsLexmin (problem_of 1 (form_of (pos 2 ∷ []) (negsuc 2) ∷ [])) [] (pos 2 ∷ []) }
    ensures none { IsEmpty (problem_of 1 (form_of (negsuc 0 ∷ []) (negsuc 0) ∷ [])) [] }
{
    questions_are_answered_right();
}

/// A pivot over a buffer of two lines, the second the pivot row, is that over two rows, by the clause of
/// `buffers_are_rows`.
pub fn lines_of_a_buffer()
    ensures { (d a b e c f : ℤ)
        → rows_run 1 0 (row_of d (a ∷ b ∷ [])) 0 (row_of e (c ∷ f ∷ []) ∷ row_of d (a ∷ b ∷ []) ∷ [])
        ≡ rows_of_run 3 2 (buffer_run 1 0 (d ∷ a ∷ b ∷ []) 0 2 (e ∷ c ∷ f ∷ d ∷ a ∷ b ∷ [])) }
{
    buffers_are_rows();
}

/// Behind a pivot the rows are a tableau, by `tableau` of `pivots_keep_the_solutions`, with the same solutions at each
/// p, by `solutions`.
pub fn rows_behind_a_pivot()
    ensures tableau { IsTableau 1 1 pivoted }
    ensures solutions { (p : ℤ) → HaveSameSolutions 1 begun pivoted (p ∷ []) }
{
    pivots_keep_the_solutions();
}

/// With the cut they are a tableau, by `tableau` of `cuts_keep_the_solutions`, with the same solutions where q is the
/// half of p, rounded down, by `solutions`.
pub fn rows_with_a_cut()
    ensures tableau { IsTableau 1 2 (longer ++ new_row ∷ []) }
    ensures solutions { (p q : ℤ) → IsFloor p (pos 2) q
        → HaveSameSolutions 1 longer (longer ++ new_row ∷ []) (p ∷ q ∷ []) }
{
    cuts_keep_the_solutions();
}

/// The first rows are a tableau, by `tableau` of `tableaus_begin_with_their_problem`, and their solutions at each p are
/// the points of the problem, by `solutions`.
pub fn first_rows_of_halves()
    ensures tableau { IsTableau 1 1 begun }
    ensures solutions { (p : ℤ) (x : List ℤ) → IsPoint halved (p ∷ []) x ↔ IsSolution 1 begun (p ∷ []) x }
{
    tableaus_begin_with_their_problem();
}
