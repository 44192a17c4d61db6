//! Worked rows, as contracts of functions that do nothing: domains and systems of small kernels, row for row.
ghost use Rattle.std.specs.Prelude.{◌≡◌, [], ◌∷◌, map, negsuc, pos, take, drop};
ghost use Rattle.integer_sets.specs.Constraints.{system_of};
ghost use Rattle.whole_numbers.specs.Affine.{form_of};
ghost use Rattle.iteration_domains.specs.Model.{model_of};
ghost use Rattle.conflict_deps.specs.Conflicts.{conflicts_of, conflicts_without};
ghost use Rattle.conflict_deps.specs.Examples.{falling, odd, two};

/// A loop downwards by 2 under a guard of two comparisons: the turn is not negative, the condition with the stride in
/// it, the guard's rows; its subscripts over the turn.
pub fn a_falling_loop_under_a_guard()
    ensures domain { map (λ s. s.domain) (model_of falling).statements
        ≡ system_of 1 1 (form_of (negsuc 1 ∷ pos 0 ∷ []) (pos 0) ∷ [])
        (form_of (pos 1 ∷ pos 0 ∷ []) (pos 0) ∷ form_of (negsuc 1 ∷ pos 1 ∷ []) (negsuc 1)
        ∷ form_of (negsuc 1 ∷ pos 1 ∷ []) (negsuc 3) ∷ []) ∷ [] }
    ensures accesses { map (λ s. map (λ a. a.subscripts) s.accesses) (model_of falling).statements
        ≡ ((form_of (negsuc 1 ∷ pos 1 ∷ []) (negsuc 0) ∷ []) ∷ (form_of (negsuc 1 ∷ pos 1 ∷ []) (negsuc 1) ∷ []) ∷ [])
        ∷ [] }
{}

/// Which pairs of accesses have systems, at which depths, in their order; and which where the first array is marked.
pub fn the_order_of_dependences()
    ensures sources { map (λ d. d.source.statement) (conflicts_of (model_of two)) ≡ 0 ∷ 0 ∷ 0 ∷ 0 ∷ 0 ∷ 1 ∷ 1 ∷ [] }
    ensures from { map (λ d. d.source.access) (conflicts_of (model_of two)) ≡ 0 ∷ 0 ∷ 0 ∷ 0 ∷ 1 ∷ 0 ∷ 1 ∷ [] }
    ensures targets { map (λ d. d.target.statement) (conflicts_of (model_of two)) ≡ 0 ∷ 0 ∷ 1 ∷ 1 ∷ 0 ∷ 1 ∷ 0 ∷ [] }
    ensures to { map (λ d. d.target.access) (conflicts_of (model_of two)) ≡ 0 ∷ 1 ∷ 1 ∷ 1 ∷ 0 ∷ 0 ∷ 0 ∷ [] }
    ensures depths { map (λ d. d.depth) (conflicts_of (model_of two)) ≡ 1 ∷ 1 ∷ 1 ∷ 2 ∷ 1 ∷ 1 ∷ 1 ∷ [] }
    ensures unmarked { map (λ d. d.source.statement) (conflicts_without (0 ∷ []) (model_of two)) ≡ 1 ∷ [] }
    ensures none_by_text { map (λ d. d.depth) (conflicts_of (model_of odd)) ≡ 1 ∷ 1 ∷ 1 ∷ [] }
{}

/// From the second statement's read to the first's write: both domains, source's subscript minus target's, the later
/// turn, the parameter; and by the text from the first statement's write to the second's read: equal turns.
pub fn systems_row_for_row()
    ensures later { map (λ d. d.system) (drop 6 (conflicts_of (model_of two)))
        ≡ system_of 2 1 (form_of (pos 1 ∷ negsuc 0 ∷ pos 0 ∷ []) (pos 1) ∷ [])
        (form_of (pos 1 ∷ pos 0 ∷ pos 0 ∷ []) (pos 0) ∷ form_of (negsuc 0 ∷ pos 0 ∷ pos 1 ∷ []) (negsuc 0)
        ∷ form_of (pos 0 ∷ pos 1 ∷ pos 0 ∷ []) (pos 0) ∷ form_of (pos 0 ∷ negsuc 0 ∷ pos 1 ∷ []) (negsuc 0)
        ∷ form_of (negsuc 0 ∷ pos 1 ∷ pos 0 ∷ []) (negsuc 0) ∷ form_of (pos 0 ∷ pos 0 ∷ pos 1 ∷ []) (pos 0) ∷ []) ∷ [] }
    ensures by_text { map (λ d. d.system.equalities) (take 1 (drop 3 (conflicts_of (model_of two))))
        ≡ (form_of (pos 1 ∷ negsuc 0 ∷ pos 0 ∷ []) (negsuc 0) ∷ form_of (negsuc 0 ∷ pos 1 ∷ pos 0 ∷ []) (pos 0) ∷ [])
        ∷ [] }
{}
