//! The law of numberings, as the contract of a function that does nothing.
ghost use Rattle.std.specs.Prelude.{◌≡◌, ℕ, List};
ghost use Rattle.stmt_graph.specs.Graph.{IsNumbering};

/// There is one numbering of the components.
pub fn numberings_are_unique()
    ensures { (n : ℕ) (edges : List (ℕ × ℕ)) (f g : List ℕ)
        → IsNumbering n edges f → IsNumbering n edges g → f ≡ g }
{}
