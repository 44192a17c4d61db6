//! The lexicographic order of lists of whole numbers, as in P. Feautrier, "Parametric integer
//! programming", RAIRO Recherche opérationnelle 22(3), 1988.
ghost use Rattle.std.specs.Prelude.{◌≡◌, ℤ, pos, ◌≤ℤ◌, ◌<ℤ◌, List, ◌++◌, length, ◌⊎◌, ◌↔◌};
ghost use Rattle.whole_numbers.specs.Lexicographic.{LexLess, LexLe, LexNotNegative};
ghost use Rattle.whole_numbers.specs.Lists.{sums, multiples, products, Positive};

/// The order is strict and total: no list comes before itself, and of two different lists exactly
/// one comes before the other.
#[tactic(auto, using(crate::proofs::Lexicographic::order_laws))]
pub fn lexicographic_order_is_total()
    ensures irreflexive { (xs : List ℤ) → LexLess xs xs → ⊥ }
    ensures transitive { (xs ys zs : List ℤ) → LexLess xs ys → LexLess ys zs → LexLess xs zs }
    ensures total { (xs ys : List ℤ) → LexLess xs ys ⊎ ((xs ≡ ys) ⊎ LexLess ys xs) }
    ensures at_most { (xs ys : List ℤ) → LexLe xs ys ↔ (LexLess xs ys ⊎ (xs ≡ ys)) }
    ensures antisymmetric { (xs ys : List ℤ) → LexLe xs ys → LexLe ys xs → xs ≡ ys }
{}

/// Fronts of one length decide, and where they are equal the rests do.
#[tactic(auto, using(crate::proofs::Lexicographic::prefix_laws))]
pub fn lexicographic_order_is_decided_by_a_prefix()
    ensures { (xs ys us vs : List ℤ)
        → length xs ≡ length ys
        → LexLess (xs ++ us) (ys ++ vs) ↔ (LexLess xs ys ⊎ ((xs ≡ ys) × LexLess us vs)) }
{}

/// Sums keep the order; a list with another added comes behind it or stays exactly where the other is
/// not before zeros.
#[tactic(auto, using(crate::proofs::LexicographicSums::sum_laws))]
pub fn lexicographic_order_of_sums()
    ensures sums { (xs ys us vs : List ℤ)
        → length xs ≡ length us
        → length ys ≡ length vs
        → LexLe xs ys
        → LexLe us vs
        → LexLe (sums xs us) (sums ys vs) }
    ensures more { (xs us : List ℤ) → length us ≡ length xs → LexLe xs (sums xs us) ↔ LexNotNegative us }
{}

/// A positive factor on all entries, or one for each entry, keeps the order and shows it: so rows with
/// denominators of their own are compared by cross products.
#[tactic(auto, using(crate::proofs::LexicographicSums::factor_laws))]
pub fn positive_factors_keep_the_lexicographic_order()
    ensures multiples { (k : ℤ) (xs ys : List ℤ)
        → pos 0 <ℤ k
        → LexLe (multiples k xs) (multiples k ys) ↔ LexLe xs ys }
    ensures products { (ks xs ys : List ℤ)
        → Positive ks
        → length ks ≡ length xs
        → length ks ≡ length ys
        → LexLe (products ks xs) (products ks ys) ↔ LexLe xs ys }
{}

/// Sums and multiples of lists that are not before zeros, and those with a positive factor for each
/// entry, are not before zeros either.
#[tactic(auto, using(crate::proofs::LexicographicSums::not_negative_laws))]
pub fn lexicographically_not_negative_lists()
    ensures sums { (xs ys : List ℤ) → LexNotNegative xs → LexNotNegative ys → LexNotNegative (sums xs ys) }
    ensures multiples { (k : ℤ) (xs : List ℤ)
        → pos 0 ≤ℤ k
        → LexNotNegative xs
        → LexNotNegative (multiples k xs) }
    ensures products { (ks xs : List ℤ)
        → Positive ks
        → length ks ≡ length xs
        → LexNotNegative (products ks xs) ↔ LexNotNegative xs }
{}
