//! Points of fractions as whole numerators over one whole denominator, the elimination of a variable over fractions,
//! lowest terms, and Farkas's identity. Each law is the contract of a function that does nothing.
#![tactic(auto)]

mod farkas_laws;
mod fraction_laws;
mod lowest_laws;

pub use farkas_laws::{
    dropping_rows_keeps_the_projection, eliminations_stay_homogeneous,
    farkas_is_coefficient_matching, farkas_makes_a_form_not_negative,
    farkas_makes_a_form_not_negative_on_a_system, implied_rows_hold_over_fractions,
    own_rows_stay_behind_an_elimination, what_elimination_leaves_is_farkas,
};
pub use fraction_laws::{
    elimination_is_exact_over_fractions, eliminations_chain, values_over_a_denominator,
};
pub use lowest_laws::lowest_terms_keep_each_sign;
