//! What a row is to the pairs of a dependence.
ghost use Rattle.std.specs.Prelude.{◌≡◌, ℕ, ℤ, ◌+ℤ◌, ◌-ℤ◌, ◌≤ℤ◌, List, ◌↔◌};
ghost use Rattle.whole_numbers.specs.Lists.{dot};
ghost use Rattle.scop_syntax.specs.Walk.{Instance};
ghost use Rattle.schedule_rows.specs.Items.{Row, Block, phi};
ghost use Rattle.schedule_rows.specs.Bands.{Along};
ghost use Rattle.iteration_domains.specs.Dependence.{Dependence};
ghost use Rattle.schedule_rows.specs.Dependences.{Relates, IsEmptyDep, Suits, equal_at, above_at, IsKept, IsEqualAt};
ghost use Rattle.schedule_rows.specs.Posed.{IsLegal, IsBounded};

/// The pairs of a dependence that is restricted to equal values of a row are its pairs with equal values.
pub fn equal_rows_restrict()
    ensures to { (m : ℕ) (d : Dependence) (r : Row) (params : List ℤ) (x y : Instance)
        → Suits d r
        → Relates params (equal_at m r d) x y
        → Relates params d x y × (phi r x ≡ phi r y) }
    ensures from { (m : ℕ) (d : Dependence) (r : Row) (params : List ℤ) (x y : Instance)
        → Suits d r
        → Relates params d x y
        → phi r x ≡ phi r y
        → Relates params (equal_at m r d) x y }
{}

/// A row that is legal by Farkas's identity does not fall at any pair.
pub fn farkas_rows_do_not_fall()
    ensures { (m : ℕ) (d : Dependence) (r : Row) → Suits d r → IsLegal m r d → IsKept m r d }
{}

/// Of a row that does not fall: it has equal values at all pairs exactly where no pair has `phi_T - phi_S >= 1`.
pub fn no_rising_pair_is_parallel()
    ensures { (m : ℕ) (d : Dependence) (r : Row) → Suits d r → IsKept m r d → IsEmptyDep m (above_at m r d) ↔ IsEqualAt m r d }
{}

/// A row that is bounded by Farkas's identity has no distance above u.n + w.
pub fn farkas_rows_bound_distances()
    ensures { (d : Dependence) (r : Row) (params : List ℤ) (x y : Instance)
        → Suits d r
        → IsBounded r d
        → Relates params d x y
        → (phi r y -ℤ phi r x) ≤ℤ (dot r.u params +ℤ r.w) }
{}

/// Pairs joined by a third instance: what goes along from x to z and from z to y goes along from x to y.
pub fn kept_pairs_chain()
    ensures { (blocks : List Block) (x z y : Instance)
        → Along blocks x z (x.number ≡ z.number)
        → Along blocks z y (z.number ≡ y.number)
        → Along blocks x y (x.number ≡ y.number) }
{}
