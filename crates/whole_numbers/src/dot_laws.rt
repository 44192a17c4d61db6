//! The dot product of lists of whole numbers.
ghost use Rattle.std.specs.Prelude.{◌≡◌, ℕ, ◌<◌, ◌≤◌, ℤ, pos, ◌+ℤ◌, ◌-ℤ◌, ◌*ℤ◌, ◌≤ℤ◌, ◌↔◌, List, All, ◌++◌};
ghost use Rattle.std.specs.Prelude.{length, drop, slice_index_or, slice_set};
ghost use Rattle.whole_numbers.specs.Lists.{dot, sums, multiples, zeros, NotNegative};

/// The dot product is symmetric, and linear on each side.
#[tactic(auto, using(crate::proofs::Dot::linear_laws))]
pub fn dot_product_is_bilinear()
    ensures symmetric { (xs ys : List ℤ) → dot xs ys ≡ dot ys xs }
    ensures sum { (xs ys zs : List ℤ) → dot (sums xs ys) zs ≡ dot xs zs +ℤ dot ys zs }
    ensures multiple { (k : ℤ) (xs ys : List ℤ) → dot (multiples k xs) ys ≡ k *ℤ dot xs ys }
    ensures zeros { (n : ℕ) (xs : List ℤ) → dot (zeros n) xs ≡ pos 0 }
{}

/// The dot product of lists that are put together, padded by zeros, or changed at one place.
#[tactic(auto, using(crate::proofs::Dot::part_laws))]
pub fn dot_product_of_parts()
    ensures append { (front rest xs ys : List ℤ)
        → length front ≡ length xs
        → dot (front ++ rest) (xs ++ ys) ≡ dot front xs +ℤ dot rest ys }
    ensures padded { (xs : List ℤ) (n : ℕ) (ys : List ℤ) → dot (xs ++ zeros n) ys ≡ dot xs ys }
    ensures past { (xs ys more : List ℤ) → length xs ≤ length ys → dot xs (ys ++ more) ≡ dot xs ys }
    ensures replaced { (xs ys : List ℤ) (i : ℕ) (v : ℤ)
        → i < length ys
        → dot xs (slice_set ys i v)
        ≡ dot xs ys +ℤ (slice_index_or xs i (pos 0) *ℤ (v -ℤ slice_index_or ys i (pos 0))) }
{}

/// The dot product with a list that follows others, or zeros.
#[tactic(auto, using(crate::proofs::Lists::part_laws))]
pub fn dot_product_behind_others()
    ensures split { (xs ys zs : List ℤ) → dot xs (ys ++ zs) ≡ dot xs ys +ℤ dot (drop (length ys) xs) zs }
    ensures zeros { (n : ℕ) (xs ys : List ℤ) → dot xs (zeros n ++ ys) ≡ dot (drop n xs) ys }
{}

/// The dot product of lists without a negative entry is not negative.
#[tactic(auto, using(crate::proofs::Lists::sign_laws))]
pub fn dot_product_is_not_negative()
    ensures sign { (xs ys : List ℤ) → NotNegative xs → NotNegative ys → pos 0 ≤ℤ dot xs ys }
    ensures entries { (xs : List ℤ) → NotNegative xs ↔ All (λ x. pos 0 ≤ℤ x) xs }
{}
