//! What a question's answer means, what a move keeps, and what a pivot over one buffer does. Each law is the contract
//! of a
//! function that does nothing.
ghost use Rattle.std.specs.Prelude.{◌≡◌, ◌↔◌, ℕ, ℤ, pos, ◌+◌, ◌*◌, ◌<◌, ◌<ℤ◌, List, [], ◌∷◌, ◌++◌, length, Option, Ok};
ghost use Rattle.whole_numbers.specs.Affine.{Affine};
ghost use Rattle.tableau_rows.specs.Rows.{Row, entry};
ghost use Rattle.tableau_rows.specs.Solutions.{IsSolution, IsTableau, HaveSameSolutions, IsPlaced, IsTied};
ghost use Rattle.tableau_rows.specs.Problem.{IsPoint, problem_of, first_rows, Speaks};
ghost use Rattle.tableau_rows.specs.Run.{Verdict, question, IsRight};
ghost use Rattle.tableau_rows.specs.Moves.{row_at, cut_run, rows_run, buffer_run, line_row, rows_in, rows_of_run};

/// Where the run of a problem without parameters ends, its point is the least whole point, or there
/// is none.
#[tactic(auto, using(crate::proofs::Verdicts::answers))]
pub fn questions_are_answered_right()
    ensures { (budget n : ℕ) (rows : List Affine) (v : Verdict) (left : ℕ)
        → Speaks n rows
        → question budget (problem_of n rows) ≡ Ok (v, left)
        → IsRight (problem_of n rows) [] v }
{}

/// The pivot over a buffer is the pivot over its rows.
#[tactic(auto, using(crate::proofs::Views::views))]
pub fn buffers_are_rows()
    ensures { (r s i count : ℕ) (pivot cells : List ℤ)
        → 0 < length pivot
        → length cells ≡ count * length pivot
        → rows_run r s (line_row pivot) i (rows_in (length pivot) count cells)
        ≡ rows_of_run (length pivot) count (buffer_run r s pivot i count cells) }
{}

/// A pivot keeps a tableau, and its whole solutions at all parameters.
pub fn pivots_keep_the_solutions()
    ensures tableau { (n m r s : ℕ) (rows news : List Row)
        → IsTableau n m rows
        → r < length rows
        → s < n
        → pos 0 <ℤ entry (row_at rows r) s
        → rows_run r s (row_at rows r) 0 rows ≡ Ok news
        → IsTableau n m news }
    ensures solutions { (n m r s : ℕ) (rows news : List Row)
        → IsTableau n m rows
        → r < length rows
        → s < n
        → pos 0 <ℤ entry (row_at rows r) s
        → rows_run r s (row_at rows r) 0 rows ≡ Ok news
        → (p : List ℤ) → length p ≡ m → HaveSameSolutions n rows news p }
{}

/// A cut keeps a tableau, and its whole solutions at all parameters at which the parameter that it is tied to
/// is the quotient of what it takes off.
pub fn cuts_keep_the_solutions()
    ensures tableau { (n m i : ℕ) (place : Option ℕ) (rows : List Row) (new : Row)
        → IsTableau n m rows
        → i < length rows
        → cut_run n place (row_at rows i) ≡ Ok new
        → IsTableau n m (rows ++ new ∷ []) }
    ensures solutions { (n m i : ℕ) (place : Option ℕ) (rows : List Row) (new : Row)
        → IsTableau n m rows
        → i < length rows
        → IsPlaced n m place
        → cut_run n place (row_at rows i) ≡ Ok new
        → (p : List ℤ) → length p ≡ m → IsTied n place (row_at rows i) p
        → HaveSameSolutions n rows (rows ++ new ∷ []) p }
{}

/// A problem's rows are a tableau, whose whole solutions are the problem's points.
pub fn tableaus_begin_with_their_problem()
    ensures tableau { (n m : ℕ) (rows : List Affine)
        → Speaks (n + m) rows
        → IsTableau n m (first_rows m (problem_of n rows)) }
    ensures solutions { (n m : ℕ) (rows : List Affine)
        → Speaks (n + m) rows
        → (p x : List ℤ) → length p ≡ m
        → IsPoint (problem_of n rows) p x ↔ IsSolution n (first_rows m (problem_of n rows)) p x }
{}
