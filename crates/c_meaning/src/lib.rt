//! A small C for emitted texts: what its programs mean by C17 and OpenMP, which of them a loop tree is, and that where
//! `int64_t` holds every number on the way its runs are those of the tree. Laws, each the contract of a function that
//! does nothing or calls the laws that its proof uses.
//! The standards: ISO/IEC 9899:2018 (C17); OpenMP Application Programming Interface, version 5.0, 2018.
#![tactic(auto)]

mod examples;
mod laws;

pub use examples::{two_iterations_run_in_both_orders, undefined_expressions_have_no_value};
pub use laws::{
    printed_forms_are_worth_their_values, printed_functions_round_and_choose,
    printed_programs_leave_the_arrays_of_the_source, printed_runs_are_those_of_the_tree,
    trees_that_fit_are_narrow,
};
