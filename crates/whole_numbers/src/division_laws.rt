//! Euclid's division by a positive number, and quotients rounded down and up. After R. T. Boute,
//! "The Euclidean definition of the functions div and mod", ACM TOPLAS 14(2), 1992; floor and
//! ceiling after Knuth, The Art of Computer Programming 1, section 1.2.4.
ghost use Rattle.std.specs.Prelude.{◌≡◌, ℤ, pos, neg_ℤ, ◌+ℤ◌, ◌*ℤ◌, ◌≤ℤ◌, ◌<ℤ◌, ◌↔◌, List};
ghost use Rattle.whole_numbers.specs.Division.{IsFloor, IsCeiling, IsEuclid};
ghost use Rattle.whole_numbers.specs.Floor.{floor, ceiling, remainder, floors, remainders};
ghost use Rattle.whole_numbers.specs.Divisors.{Divides};
ghost use Rattle.whole_numbers.specs.Lists.{dot, NotNegative};

/// Each number has a quotient and a remainder by a positive divisor.
#[tactic(auto, using(crate::proofs::Euclid::euclid_exists))]
pub fn euclidean_division_exists()
    ensures { (a d : ℤ) → pos 0 <ℤ d → (q : ℤ) × (r : ℤ) × IsEuclid a d q r }
{}

/// They are unique, and the quotient is the floor.
#[tactic(auto, using(crate::proofs::Euclid::euclid_laws))]
pub fn euclidean_division_is_unique()
    ensures unique { (a d q r p s : ℤ) → IsEuclid a d q r → IsEuclid a d p s → (q ≡ p) × (r ≡ s) }
    ensures quotient { (a d q r : ℤ) → IsEuclid a d q r → IsFloor a d q }
{}

/// `floor` and `ceiling` are the floor and the ceiling; each is unique, and the ceiling is the
/// negated floor of the negated number.
#[tactic(auto, using(crate::proofs::Floors::rounding_laws))]
pub fn rounded_quotients_are_floor_and_ceiling()
    ensures floor { (a d : ℤ) → pos 0 <ℤ d → IsFloor a d (floor a d) }
    ensures one_floor { (a d p q : ℤ) → pos 0 <ℤ d → IsFloor a d p → IsFloor a d q → p ≡ q }
    ensures ceiling { (a d : ℤ) → pos 0 <ℤ d → IsCeiling a d (ceiling a d) }
    ensures one_ceiling { (a d p q : ℤ) → pos 0 <ℤ d → IsCeiling a d p → IsCeiling a d q → p ≡ q }
    ensures negated { (a d q : ℤ) → IsFloor (neg_ℤ a) d q → IsCeiling a d (neg_ℤ q) }
{}

/// The floor is the greatest whole number that is not above the quotient.
#[tactic(auto, using(crate::proofs::Floors::floor_laws))]
pub fn floor_bounds_quotients()
    ensures at_least { (a d q k : ℤ) → pos 0 <ℤ d → IsFloor a d q → (k ≤ℤ q) ↔ ((k *ℤ d) ≤ℤ a) }
    ensures at_most { (a d q k : ℤ) → pos 0 <ℤ d → IsFloor a d q → (q ≤ℤ k) ↔ (a <ℤ ((k *ℤ d) +ℤ d)) }
{}

/// The ceiling is the least whole number that is not below the quotient.
#[tactic(auto, using(crate::proofs::Floors::ceiling_laws))]
pub fn ceiling_bounds_quotients()
    ensures at_most { (a d q k : ℤ) → pos 0 <ℤ d → IsCeiling a d q → (q ≤ℤ k) ↔ (a ≤ℤ (k *ℤ d)) }
    ensures at_least { (a d q k : ℤ) → pos 0 <ℤ d → IsCeiling a d q → (k ≤ℤ q) ↔ ((k *ℤ d) <ℤ (a +ℤ d)) }
{}

/// The floor and what it leaves are Euclid's quotient and remainder; a multiple of the divisor more
/// leaves the remainder, which is 0 exactly where the divisor divides.
#[tactic(auto, using(crate::proofs::Remainders::remainder_laws))]
pub fn remainders_repeat()
    ensures euclid { (a d : ℤ) → pos 0 <ℤ d → IsEuclid a d (floor a d) (remainder a d) }
    ensures floor { (a d k : ℤ) → pos 0 <ℤ d → floor (a +ℤ (d *ℤ k)) d ≡ floor a d +ℤ k }
    ensures remainder { (a d k : ℤ) → pos 0 <ℤ d → remainder (a +ℤ (d *ℤ k)) d ≡ remainder a d }
    ensures none { (a d : ℤ) → pos 0 <ℤ d → (remainder a d ≡ pos 0) ↔ Divides d a }
{}

/// A dot product falls apart into the divisor times that of the floors, and that of the remainders,
/// none of which is negative: what a cut leaves out and keeps (R. E. Gomory 1958).
#[tactic(auto, using(crate::proofs::Remainders::cut_laws))]
pub fn dot_products_of_floors_and_remainders()
    ensures apart { (d : ℤ) (xs ys : List ℤ)
        → dot xs ys ≡ (d *ℤ dot (floors d xs) ys) +ℤ dot (remainders d xs) ys }
    ensures sign { (d : ℤ) (xs : List ℤ) → pos 0 <ℤ d → NotNegative (remainders d xs) }
{}
