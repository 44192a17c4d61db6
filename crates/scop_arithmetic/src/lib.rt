//! What the expressions of a text are worth by C's own arithmetic, and that forms, tests, values, cells, statements and
//! loops say the same: laws, each the contract of a function that does nothing. A reader of the definitions in
//! `specs/Arithmetic` need not read how an expression is turned into them.
#![tactic(auto)]

mod examples;
mod laws;

pub use examples::{
    operators_compute_in_the_type_of_their_sides, operators_store_in_the_type_of_the_place,
    other_operators_keep_or_change_the_type,
};
pub use laws::{
    accesses_are_cells, commas_stand_in_calls, contents_hold_their_types,
    extents_are_whole_numbers, faultless_texts_have_meanings,
    faultless_texts_lie_within_the_limits, forms_are_whole_numbers, formulas_stand_at_their_tokens,
    loops_count_as_they_say, spelled_texts_mean_their_programs, statements_store_words,
    tests_hold_where_conditions_do, texts_within_the_limits_have_no_fault, values_are_words,
};
