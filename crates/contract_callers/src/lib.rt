//! Callers that hold public promises in place: each function calls a public call or law of a crate below, and its own
//! contract follows from one clause of that call alone. Where such a clause is emptied or weakened, and no proof above
//! cites it, the caller here no longer proves. Nothing is built on this crate.
#![tactic(auto)]

pub mod combined_rows;
pub mod conflicts;
pub mod dependence_rows;
pub mod divisions;
pub mod domains;
pub mod form_values;
pub mod forms;
pub mod fraction_points;
pub mod grammars;
pub mod graphs;
pub mod instances;
pub mod joins;
pub mod minimum_runs;
pub mod moves;
pub mod nodes;
pub mod number_lists;
pub mod numbers;
pub mod ordered_numbers;
pub mod ports;
pub mod projections;
pub mod quasts;
pub mod scan_sets;
pub mod solver;
pub mod systems;
pub mod texts;
pub mod tokens;
pub mod trees;
pub mod vectors;
pub mod walks;
pub mod worked_dependences;
