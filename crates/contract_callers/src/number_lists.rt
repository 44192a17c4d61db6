//! Callers of the laws of lists of whole numbers, of dot products and the lexicographic order, at lists of two or three
//! numbers; a list or a number stays open where given ones alone would compute.
ghost use Rattle.std.specs.Prelude.{◌≡◌, ◌≤◌, ◌+ℤ◌, ◌*ℤ◌, ◌≤ℤ◌, ◌↔◌, ◌⊎◌, ◌∷◌, [], All, ℤ, List, drop, length, negsuc};
ghost use Rattle.std.specs.Prelude.{pos, slice_index_or};
ghost use Rattle.whole_numbers.specs.Lexicographic.{LexLe, LexLess, LexNotNegative};
ghost use Rattle.whole_numbers.specs.Lists.{NotNegative, dot, multiples, sums};

use whole_numbers::{
    dot_product_behind_others, dot_product_is_bilinear, dot_product_is_not_negative,
    dot_product_of_parts, lexicographic_order_is_decided_by_a_prefix, lexicographic_order_is_total,
    lexicographic_order_of_sums, lexicographically_not_negative_lists,
    positive_factors_keep_the_lexicographic_order,
};

/// The dot product of 3 and -1 with a list, with a list to which 1 and 2 are added, and with twice a list, by
/// `symmetric`, `sum` and `multiple` of `dot_product_is_bilinear`; that of two zeros, by `zeros`.
pub fn dot_products_with_two_numbers()
    ensures symmetric { (xs : List ℤ) → dot xs (pos 3 ∷ negsuc 0 ∷ []) ≡ dot (pos 3 ∷ negsuc 0 ∷ []) xs }
    ensures sum { (xs : List ℤ) → dot (sums (pos 1 ∷ pos 2 ∷ []) xs) (pos 3 ∷ negsuc 0 ∷ [])
        ≡ pos 1 +ℤ dot xs (pos 3 ∷ negsuc 0 ∷ []) }
    ensures multiple { (xs : List ℤ) → dot (multiples (pos 2) xs) (pos 3 ∷ negsuc 0 ∷ [])
        ≡ pos 2 *ℤ dot xs (pos 3 ∷ negsuc 0 ∷ []) }
    ensures zeros { (xs : List ℤ) → dot (pos 0 ∷ pos 0 ∷ []) xs ≡ pos 0 }
{
    dot_product_is_bilinear();
}

/// The dot product of lists that begin with two numbers, of one that ends with two zeros, of a list of at most two
/// numbers with three, and with two of which the second was replaced, by `append`, `padded`, `past` and `replaced` of
/// `dot_product_of_parts`.
pub fn dot_products_of_short_parts()
    ensures append { (rest : List ℤ) → dot (pos 1 ∷ negsuc 1 ∷ rest) (pos 3 ∷ pos 4 ∷ pos 5 ∷ [])
        ≡ negsuc 4 +ℤ dot rest (pos 5 ∷ []) }
    ensures padded { (ys : List ℤ) → dot (pos 1 ∷ negsuc 1 ∷ pos 0 ∷ pos 0 ∷ []) ys ≡ dot (pos 1 ∷ negsuc 1 ∷ []) ys }
    ensures past { (xs : List ℤ) → length xs ≤ 2
        → dot xs (pos 3 ∷ pos 4 ∷ pos 5 ∷ []) ≡ dot xs (pos 3 ∷ pos 4 ∷ []) }
    ensures replaced { (xs : List ℤ) → dot xs (pos 3 ∷ pos 7 ∷ [])
        ≡ dot xs (pos 3 ∷ pos 4 ∷ []) +ℤ (slice_index_or xs 1 (pos 0) *ℤ pos 3) }
{
    dot_product_of_parts();
}

/// The dot product with a number behind two others, by `split` of `dot_product_behind_others`, and behind two zeros, by
/// `zeros`.
pub fn dot_products_behind_two_numbers()
    ensures split { (xs : List ℤ) → dot xs (pos 3 ∷ pos 4 ∷ pos 5 ∷ [])
        ≡ dot xs (pos 3 ∷ pos 4 ∷ []) +ℤ dot (drop 2 xs) (pos 5 ∷ []) }
    ensures zeros { (xs : List ℤ) → dot xs (pos 0 ∷ pos 0 ∷ pos 5 ∷ []) ≡ dot (drop 2 xs) (pos 5 ∷ []) }
{
    dot_product_behind_others();
}

/// The dot product of 2, 0 and 1 with a list without a negative entry, by `sign` of `dot_product_is_not_negative`; a
/// list that begins with 2 has none exactly where each entry is at least 0, by `entries`.
pub fn dot_products_without_a_negative_entry()
    ensures sign { (xs : List ℤ) → NotNegative xs → pos 0 ≤ℤ dot xs (pos 2 ∷ pos 0 ∷ pos 1 ∷ []) }
    ensures entries { (xs : List ℤ) → NotNegative (pos 2 ∷ xs) ↔ All (λ x. pos 0 ≤ℤ x) (pos 2 ∷ xs) }
{
    dot_product_is_not_negative();
}

/// 1 and 2 among other lists, by the clauses of the same names of `lexicographic_order_is_total`.
pub fn lists_beside_one_and_two()
    ensures irreflexive { (xs : List ℤ) → LexLess (pos 1 ∷ pos 2 ∷ xs) (pos 1 ∷ pos 2 ∷ xs) → ⊥ }
    ensures transitive { (xs : List ℤ) → LexLess (pos 1 ∷ pos 5 ∷ []) xs → LexLess (pos 1 ∷ pos 2 ∷ []) xs }
    ensures total { (xs : List ℤ) → LexLess (pos 1 ∷ pos 2 ∷ []) xs
        ⊎ ((pos 1 ∷ pos 2 ∷ [] ≡ xs) ⊎ LexLess xs (pos 1 ∷ pos 2 ∷ [])) }
    ensures at_most { (xs : List ℤ) → LexLe (pos 1 ∷ pos 2 ∷ []) xs
        ↔ (LexLess (pos 1 ∷ pos 2 ∷ []) xs ⊎ (pos 1 ∷ pos 2 ∷ [] ≡ xs)) }
    ensures antisymmetric { (xs : List ℤ) → LexLe (pos 1 ∷ pos 2 ∷ []) xs → LexLe xs (pos 1 ∷ pos 2 ∷ [])
        → pos 1 ∷ pos 2 ∷ [] ≡ xs }
{
    lexicographic_order_is_total();
}

/// 1 and a number in front decide against 1 and 2, and the rests where both are equal, by the clause of
/// `lexicographic_order_is_decided_by_a_prefix`.
pub fn lists_behind_two_numbers()
    ensures { (x : ℤ) (us : List ℤ) → LexLess (pos 1 ∷ x ∷ us) (pos 1 ∷ pos 2 ∷ pos 3 ∷ [])
        ↔ (LexLess (pos 1 ∷ x ∷ []) (pos 1 ∷ pos 2 ∷ [])
        ⊎ ((pos 1 ∷ x ∷ [] ≡ pos 1 ∷ pos 2 ∷ []) × LexLess us (pos 3 ∷ []))) }
{
    lexicographic_order_is_decided_by_a_prefix();
}

/// Two numbers that are not behind 4 and 0 are, with 1 and 2 added, not behind 5 and 5, by `sums` of
/// `lexicographic_order_of_sums`; with 1 and 2 added they are not before these exactly where they are not before zeros,
/// by `more`.
pub fn sums_with_one_and_two()
    ensures sums { (x y : ℤ) → LexLe (x ∷ y ∷ []) (pos 4 ∷ pos 0 ∷ [])
        → LexLe ((pos 1 +ℤ x) ∷ (pos 2 +ℤ y) ∷ []) (pos 5 ∷ pos 5 ∷ []) }
    ensures more { (x y : ℤ) → LexLe (pos 1 ∷ pos 2 ∷ []) ((pos 1 +ℤ x) ∷ (pos 2 +ℤ y) ∷ [])
        ↔ LexNotNegative (x ∷ y ∷ []) }
{
    lexicographic_order_of_sums();
}

/// Three times a list is compared as the list is, by `multiples` of `positive_factors_keep_the_lexicographic_order`;
/// two numbers times 2 and 3 as they are, by `products`.
pub fn lists_times_positive_numbers()
    ensures multiples { (xs : List ℤ) → LexLe (multiples (pos 3) xs) (pos 3 ∷ negsuc 5 ∷ [])
        ↔ LexLe xs (pos 1 ∷ negsuc 1 ∷ []) }
    ensures products { (x y : ℤ) → LexLe ((pos 2 *ℤ x) ∷ (pos 3 *ℤ y) ∷ []) (pos 2 ∷ negsuc 5 ∷ [])
        ↔ LexLe (x ∷ y ∷ []) (pos 1 ∷ negsuc 1 ∷ []) }
{
    positive_factors_keep_the_lexicographic_order();
}

/// A list that is not before zeros with 0 and 2 added, or three times itself, is not either, by `sums` and `multiples`
/// of `lexicographically_not_negative_lists`; two numbers times 2 and 3 are not exactly where they are not, by
/// `products`.
pub fn lists_not_before_zeros()
    ensures sums { (xs : List ℤ) → LexNotNegative xs → LexNotNegative (sums (pos 0 ∷ pos 2 ∷ []) xs) }
    ensures multiples { (xs : List ℤ) → LexNotNegative xs → LexNotNegative (multiples (pos 3) xs) }
    ensures products { (x y : ℤ) → LexNotNegative ((pos 2 *ℤ x) ∷ (pos 3 *ℤ y) ∷ []) ↔ LexNotNegative (x ∷ y ∷ []) }
{
    lexicographically_not_negative_lists();
}
