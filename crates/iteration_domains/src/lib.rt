//! Iteration domains and accesses: a kernel's statement instances as the whole points of systems over the turns of the
//! loops round each statement and the parameters, and each access as forms over them.
//! Promises that a model is exactly that of specs/Model.antt, that the whole points of a statement's domain are the
//! turns of its instances in the walk, each once, and that its accesses touch the cells of the instance
//! (`domain_laws`).
//! Feautrier, "Dataflow analysis of array and scalar references" (1991).
#![tactic(auto)]

mod accesses;
mod dep;
mod domain_laws;
mod forms;
mod items;
mod model;
mod outside;
mod rows;
mod statement;

pub use dep::{Dep, DepEnd};
pub use domain_laws::{
    accesses_touch_the_cells, domains_hold_the_instances, outside_points_are_failures,
};
pub use forms::{
    Numbers, compose, compose_form, constant_form, form_from, plus_multiple, push_numbers,
    push_variables, push_zeros, term_form, variable_form, wide_form,
};
pub use items::{Path, enter_loop, enter_scope};
pub use model::Model;
pub use rows::{Scope, StatementRows, rows_within};
pub use statement::{AccessForms, StatementModel};

// Passed on: what goes with this crate's contracts.
pub use integer_sets::{Form, System, push};
