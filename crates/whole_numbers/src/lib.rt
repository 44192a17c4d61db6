//! The laws of the whole numbers, of lists of them and of affine forms, each stated once for every
//! crate above. Each law is the contract of a function that does nothing; the lemmas behind them
//! stand in proofs/, the definitions that they speak of in specs/.
#![tactic(auto)]

mod affine_laws;
mod content_laws;
mod division_laws;
mod divisor_laws;
mod dot_laws;
mod fits_laws;
mod lexicographic_laws;
mod order_laws;
mod ring_laws;

pub use affine_laws::{
    forms_with_the_same_values_are_one, positive_multiples_keep_equalities_and_rows,
    value_of_affine_forms,
};
pub use content_laws::{
    content_is_the_greatest_common_divisor, lowest_terms_of_forms, lowest_terms_of_lists,
};
pub use division_laws::{
    ceiling_bounds_quotients, dot_products_of_floors_and_remainders, euclidean_division_exists,
    euclidean_division_is_unique, floor_bounds_quotients, remainders_repeat,
    rounded_quotients_are_floor_and_ceiling,
};
pub use divisor_laws::{divisors_of_combinations, greatest_common_divisor_is_unique};
pub use dot_laws::{
    dot_product_behind_others, dot_product_is_bilinear, dot_product_is_not_negative,
    dot_product_of_parts,
};
pub use fits_laws::fits_is_the_range_of_128_bits;
pub use lexicographic_laws::{
    lexicographic_order_is_decided_by_a_prefix, lexicographic_order_is_total,
    lexicographic_order_of_sums, lexicographically_not_negative_lists,
    positive_factors_keep_the_lexicographic_order,
};
pub use order_laws::{multiples_below_a_divisor, positive_factors_cancel, products_keep_the_order};
pub use ring_laws::whole_numbers_are_a_commutative_ring;
