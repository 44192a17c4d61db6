//! The meaning of a kernel, run: a plain interpreter that does what the walk of its tree says, one
//! instance after another, the check that every subscript lies within its extent, and single
//! instances: what one stores, and which cells it touches. None takes memory.
//! Promises that the arrays end as `exec` of scop_syntax's specs/Execution.antt says, that the check
//! tells the first of its specs/Failures.antt, and that an instance stores and touches what its visit
//! does.
#![tactic(auto)]

mod accesses;
mod cells;
mod expressions;
mod guards;
mod index;
mod instances;
mod interpreter;
mod last_writes;
mod layout;
mod loops;
mod operators;
mod statements;
mod worked_rows;

pub use accesses::{cells_before, number_of};
pub use expressions::{stored_on, value_from};
pub use index::{Outside, count_in, first_outside};
pub use instances::{cell, value};
pub use interpreter::run_plain;
pub use last_writes::executions_go_by_last_writers;
pub use loops::{Point, enter_at, enter_turn, point_at, turns_of};
pub use operators::{combined, complemented, narrowed, negated, shifted_left, shifted_right};
pub use worked_rows::{
    copies_of_cells, guards_and_sequences, last_writers_of_sweeps, loops_of_each_kind,
    subscripts_of_each_kind, sums_of_a_place, the_first_subscript_outside,
};
