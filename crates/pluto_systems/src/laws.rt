//! What posed systems are. Each law is the contract of a function that does nothing, or that calls the laws which its
//! proof uses.
ghost use Rattle.std.specs.Prelude.{◌≡◌, ◌≤◌, ℕ, ℤ, List, All, map, length};
ghost use Rattle.whole_numbers.specs.Lexicographic as lexicographic;
ghost use Rattle.integer_sets.specs.Constraints.{Constraints, IsSized};
ghost use Rattle.iteration_domains.specs.Dependence.{Dependence};
ghost use Rattle.scop_syntax.specs.Members.{In};
ghost use Rattle.schedule_rows.specs.Items.{Row, numbers_of};
ghost use Rattle.schedule_rows.specs.Posed.{IsLeast, HasNone};
ghost use Rattle.farkas.specs.Minimum.{IsTaken};
ghost use Rattle.pluto_systems.specs.Placing.{columns_of, row_from, IsShaped};
ghost use Rattle.pluto_systems.specs.Posing.{RuledDep, IsRuled, IsBetween, AreVectorsOf, HasPosed, HasPosedBehind};
ghost use Rattle.pluto_systems.specs.Posing.{posed_system};
ghost use Rattle.pluto_systems.specs.Posing.{dep_of, AreSmallVectors, AreCoefficientRows, vectors_for};

use farkas::rows_speak_of_the_layout;
use null_space::{kernel_vectors_are_kept, kernel_vectors_are_narrow, rows_take_kernel_vectors};

/// A posed system's points that are not negative are exactly the posed rows, by their numbers in the objective's order:
/// behind rows of all statements, and behind rows of each.
pub fn posed_systems_hold_the_posed_rows()
    ensures before { (m : ℕ) (loops : List ℕ) (ruled : List RuledDep) (before : List Row)
        (vectors : List (List (List ℤ)))
        → ((x : RuledDep) → In x ruled → IsRuled x × IsBetween m loops x.dep)
        → AreVectorsOf loops before vectors
        → HasPosed m loops (map dep_of ruled) before (posed_system m loops ruled vectors) }
    ensures behind { (m : ℕ) (loops : List ℕ) (ruled : List RuledDep) (rows : List (List (List ℤ)))
        → ((x : RuledDep) → In x ruled → IsRuled x × IsBetween m loops x.dep)
        → length rows ≡ length loops
        → HasPosedBehind m loops (map dep_of ruled) rows (posed_system m loops ruled (vectors_for loops rows)) }
{
    kernel_vectors_are_kept();
    rows_speak_of_the_layout();
}

/// Its forms are over all columns of the objective.
pub fn posed_systems_are_sized()
    ensures { (m : ℕ) (loops : List ℕ) (ruled : List RuledDep) (vectors : List (List (List ℤ)))
        → ((x : RuledDep) → In x ruled → IsRuled x × IsBetween m loops x.dep)
        → AreSmallVectors loops vectors
        → IsSized (columns_of m loops) (posed_system m loops ruled vectors).equalities
        (posed_system m loops ruled vectors).rows }
{
    rows_speak_of_the_layout();
}

/// Each list of as many numbers as there are columns is the numbers of a row.
pub fn numbers_are_rows()
    ensures numbers { (m : ℕ) (loops : List ℕ) (xs : List ℤ)
        → length xs ≡ columns_of m loops
        → numbers_of (row_from m loops xs) ≡ xs }
    ensures shape { (m : ℕ) (loops : List ℕ) (xs : List ℤ)
        → length xs ≡ columns_of m loops
        → IsShaped m loops (row_from m loops xs) }
{}

/// So the least point of a system that holds the posed rows is the least row, and without a point there is no row.
pub fn least_points_are_least_rows()
    ensures least { (m : ℕ) (loops : List ℕ) (deps : List Dependence) (before : List Row) (s : Constraints)
        (xs : List ℤ)
        → HasPosed m loops deps before s
        → lexicographic.IsLeast (IsTaken s) (columns_of m loops) xs
        → IsLeast m loops deps before (row_from m loops xs) }
    ensures none { (m : ℕ) (loops : List ℕ) (deps : List Dependence) (before : List Row) (s : Constraints)
        → HasPosed m loops deps before s
        → ((xs : List ℤ) → length xs ≡ columns_of m loops → IsTaken s xs → ⊥)
        → HasNone m loops deps before }
{}

/// The kernel vectors of rows of coefficients over at most 5 loops are so few and small that 128 bits hold their sum.
pub fn kernel_vectors_of_rows_are_small()
    ensures { (loops : List ℕ) (rows : List (List (List ℤ)))
        → All (λ l. l ≤ 5) loops
        → AreCoefficientRows loops rows
        → AreSmallVectors loops (vectors_for loops rows) }
{
    kernel_vectors_are_kept();
    kernel_vectors_are_narrow();
    rows_take_kernel_vectors();
}
