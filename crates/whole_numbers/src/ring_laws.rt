//! The whole numbers are a commutative ring: sums and products group and turn freely, 0 and 1 are
//! their units, each number has a negation, and products distribute over sums and differences.
ghost use Rattle.std.specs.Prelude.{◌≡◌, ℤ, pos, ◌+ℤ◌, ◌-ℤ◌, ◌*ℤ◌, neg_ℤ};

/// The laws of a commutative ring.
#[tactic(auto, using(crate::proofs::Ring::ring_laws))]
pub fn whole_numbers_are_a_commutative_ring()
    ensures sums_group { (a b c : ℤ) → (a +ℤ b) +ℤ c ≡ a +ℤ (b +ℤ c) }
    ensures sums_turn { (a b : ℤ) → a +ℤ b ≡ b +ℤ a }
    ensures zero_is_the_unit { (a : ℤ) → pos 0 +ℤ a ≡ a }
    ensures negation { (a : ℤ) → neg_ℤ a +ℤ a ≡ pos 0 }

    ensures products_group { (a b c : ℤ) → (a *ℤ b) *ℤ c ≡ a *ℤ (b *ℤ c) }
    ensures products_turn { (a b : ℤ) → a *ℤ b ≡ b *ℤ a }
    ensures one_is_the_unit { (a : ℤ) → pos 1 *ℤ a ≡ a }

    ensures over_sums { (a b c : ℤ) → (a +ℤ b) *ℤ c ≡ (a *ℤ c) +ℤ (b *ℤ c) }
    ensures over_differences { (a b c : ℤ) → (a -ℤ b) *ℤ c ≡ (a *ℤ c) -ℤ (b *ℤ c) }
{}
