//! Callers of the components of graphs.
ghost use Rattle.std.specs.Prelude.{◌≡◌, ℕ, List, IfOk, length};
ghost use Rattle.stmt_graph.specs.Graph.{AreWithin, IsNumbering, number_in};

use std::alloc::{AllocError, Global};

/// Each statement has a number, by the clause of `components`.
pub fn numbers_of_statements(
    alloc: Global,
    n: usize,
    edges: &[(usize, usize)],
) -> Result<Vec<usize>, AllocError>
    requires { AreWithin n edges.now }
    ensures { IfOk result (λ numbers. length numbers.items ≡ n) }
{
    stmt_graph::components(alloc, n, edges)
}

/// A statement has one number, by the clause of `numberings_are_unique`.
pub fn numbers_are_unique()
    ensures { (n : ℕ) (edges : List (ℕ × ℕ)) (f g : List ℕ) (s : ℕ) → IsNumbering n edges f → IsNumbering n edges g
        → number_in f s ≡ number_in g s }
{
    stmt_graph::numberings_are_unique();
}
