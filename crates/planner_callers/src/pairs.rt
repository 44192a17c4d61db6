//! Callers of what a row is to the pairs of a dependence: the laws without parameters.
ghost use Rattle.std.specs.Prelude.{◌≡◌, ◌∷◌, [], ◌⊎◌, false, ℕ, ◌<◌, ◌<ℤ◌, ◌+ℤ◌, ◌-ℤ◌, ◌≤ℤ◌, length};
ghost use Rattle.whole_numbers.specs.Lists.{dot};
ghost use Rattle.whole_numbers.specs.Lexicographic.{LexLess};
ghost use Rattle.scop_syntax.specs.Walk.{Instance};
ghost use Rattle.iteration_domains.specs.Dependence.{Dependence};
ghost use Rattle.loop_tree.specs.Tiling.{IsInOrder};
ghost use Rattle.schedule_rows.specs.Bands.{Along};
ghost use Rattle.schedule_rows.specs.Dependences.{IsEmptyDep, IsKept, Relates, Suits, above_at, equal_at};
ghost use Rattle.schedule_rows.specs.Items.{Block, Row, band, phi};
ghost use Rattle.schedule_rows.specs.Posed.{IsBounded, IsLegal};
ghost use Rattle.tile_skew.specs.Tilings.{schedule_tiling};

/// A pair of a dependence that is restricted to equal values of a row has equal values, by `to` of
/// `equal_rows_restrict`; a pair with equal values is one of it, by `from`.
pub fn pairs_of_equal_values()
    ensures to { (d : Dependence) (r : Row) (x y : Instance) → Suits d r → Relates [] (equal_at 0 r d) x y
        → phi r x ≡ phi r y }
    ensures from { (d : Dependence) (r : Row) (x y : Instance) → Suits d r → Relates [] d x y → phi r x ≡ phi r y
        → Relates [] (equal_at 0 r d) x y }
{
    schedule_rows::equal_rows_restrict();
}

/// A legal row does not fall at a pair, by the clause of `farkas_rows_do_not_fall`.
pub fn legal_rows_do_not_fall()
    ensures { (d : Dependence) (r : Row) (x y : Instance) → Suits d r → IsLegal 0 r d → Relates [] d x y
        → phi r x ≤ℤ phi r y }
{
    schedule_rows::farkas_rows_do_not_fall();
}

/// A row that does not fall and rises at no pair has equal values at each, by the clause of
/// `no_rising_pair_is_parallel`.
pub fn rows_without_rising_pairs()
    ensures { (d : Dependence) (r : Row) (x y : Instance) → Suits d r → IsKept 0 r d → IsEmptyDep 0 (above_at 0 r d)
        → Relates [] d x y → phi r x ≡ phi r y }
{
    schedule_rows::no_rising_pair_is_parallel();
}

/// Under tiles of one row that carries two instances of one statement whose value rises, or stays, are in order, by the
/// clause of `pairs_along_blocks_are_in_order`.
pub fn ordered_pairs_of_one_row()
    ensures { (size count : ℕ) (r : Row) (x y : Instance) → 0 < size → x.number < count → x.number ≡ y.number
        → length x.turns ≡ length y.turns → LexLess x.turns y.turns → (phi r x <ℤ phi r y) ⊎ (phi r x ≡ phi r y)
        → IsInOrder (schedule_tiling size count (band (record { row = r; parallel = false } ∷ []) ∷ [])) 0 x 1 y }
{
    tile_skew::pairs_along_blocks_are_in_order();
}

/// No distance is above the bound of a bounded row, by the clause of `farkas_rows_bound_distances`.
pub fn distances_of_bounded_rows()
    ensures { (d : Dependence) (r : Row) (x y : Instance) → Suits d r → IsBounded r d → Relates [] d x y
        → (phi r y -ℤ phi r x) ≤ℤ (dot r.u [] +ℤ r.w) }
{
    schedule_rows::farkas_rows_bound_distances();
}

/// Pairs along one block, joined by a third instance, by the clause of `kept_pairs_chain`.
pub fn pairs_along_one_block()
    ensures { (block : Block) (x z y : Instance) → Along (block ∷ []) x z (x.number ≡ z.number)
        → Along (block ∷ []) z y (z.number ≡ y.number) → Along (block ∷ []) x y (x.number ≡ y.number) }
{
    schedule_rows::kept_pairs_chain();
}
