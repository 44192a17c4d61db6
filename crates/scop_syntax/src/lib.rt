//! The syntax tree of a static-control kernel: loops, guards and statements whose bounds, conditions
//! and subscripts are affine in the parameters and the iterators of the loops round them.
//! `specs/` says which plain tree a kernel stands for (`View`), the order of its statement
//! instances (`Walk`) and what they do to the arrays (`Execution`).
#![tactic(auto)]

mod accesses;
mod affine_values;
mod arrays;
mod cover_laws;
mod examples;
mod execution_laws;
mod failure_laws;
mod instance;
mod limit_laws;
mod limits;
mod marking;
mod marks;
mod order_laws;
mod reduction_laws;
mod standings;
mod tree;
mod value_laws;
mod walk_laws;

pub use accesses::{access_at, read_count};
pub use affine_values::{exact_at, value_at, with_product, wrapped_at};
pub use arrays::{Arrays, Extents};
pub use cover_laws::conflicts_are_chains_of_covers;
pub use execution_laws::{
    cells_have_numbers_of_their_own, cells_hold_the_last_write, executions_go_along_the_places,
    last_writers_are_greatest_places, next_writers_are_least_places, reads_see_the_last_write,
    writers_conflict,
};
pub use failure_laws::failures_are_the_first;
pub use instance::Instance;
pub use limit_laws::{
    accesses_have_the_ranks_of_arrays, cells_lie_within_22_bits, numbers_of_runs_fit,
    values_lie_within_45_bits,
};
pub use limits::{
    MOST_ARRAYS, MOST_CELLS, MOST_COEFFICIENT, MOST_COMPARISONS, MOST_CONSTANT, MOST_ENTRIES,
    MOST_EXTENTS, MOST_LOOPS, MOST_PARAMETER_VALUE, MOST_PARAMETERS, MOST_READS, MOST_STATEMENTS,
    MOST_STRIDE,
};
pub use marking::marked_arrays;
pub use marks::is_marked;
pub use order_laws::{
    orders_of_walks_end_as_they_do, orders_that_keep_conflicts_end_alike,
    orders_that_keep_covers_keep_conflicts,
};
pub use reduction_laws::marks_are_the_reduced_arrays;
pub use standings::{Standing, standings_of};
pub use tree::{
    Access, Aff, Array, Expr, Guard, Item, Kernel, Loop, Name, Narrowing, Operator, Right, Stmt,
    Test, zeros,
};
pub use value_laws::{
    cells_hold_numbers_of_their_types, narrow_cells_stay_narrow, values_stay_below_2_64,
};
pub use walk_laws::{
    instances_are_those_of_statements, loops_walk_while_their_condition_holds,
    statements_are_numbered, walks_are_acts, walks_are_in_order,
};
