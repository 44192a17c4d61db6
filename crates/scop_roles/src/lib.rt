//! Expressions in their roles: what an expression must be where it stands (affine, a value, a condition), its first
//! fault there, and the form, the value or the comparisons that it stands for where it has none.
//! Static-control parts: P. Feautrier, "Dataflow analysis of array and scalar references" (1991).
#![tactic(auto)]

mod forms;
mod formula;
mod judgement;
mod kinds;
mod laws;
mod nodes;
mod pairs;
mod roles;
mod sides;
mod values;

pub use formula::{
    Argument, Formula, Meaning, Names, Role, has_subscripts, meaning_of, place, resolve,
    with_subscript,
};
pub use judgement::{fault, form, place_fault};
pub use kinds::{Fault, Kind, first_of, precedes};
pub use laws::{
    faultless_formulas_are_within_limits, faultless_values_have_types, faults_stand_within,
    first_faults_join, formulas_are_in_scope,
};
pub use roles::{is_comparison, is_narrow_array, is_narrow_width, last_count};
pub use values::{
    access, expression, is_count, is_long, is_signed, narrowed_where, push_read_places, push_tests,
};
