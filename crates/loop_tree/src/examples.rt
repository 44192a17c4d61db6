//! The definitions at numbers.
ghost use Rattle.std.specs.Prelude.{◌≡◌, pos, [], ◌∷◌, map};
ghost use Rattle.loop_tree.specs.Walk.{walk_all};
ghost use Rattle.loop_tree.specs.Scans.{key};
ghost use Rattle.loop_tree.specs.steps.Examples.{hull, keys_of_three, pieces};

/// Hull and pieces visit the same keys in the same order.
pub fn a_hull_and_its_pieces()
    ensures hull { map key (walk_all hull (pos 3 ∷ []) []) ≡ keys_of_three }
    ensures pieces { map key (walk_all pieces (pos 3 ∷ []) []) ≡ keys_of_three }
    ensures small { map key (walk_all pieces (pos 0 ∷ []) []) ≡ (pos 0 ∷ pos 0 ∷ []) ∷ [] }
{}
