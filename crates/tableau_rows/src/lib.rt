//! The tableau of parametric integer programming as rows of whole numbers, its moves and the run of a
//! problem without parameters, with the laws that they obey. P. Feautrier, "Parametric integer
//! programming", RAIRO Recherche opérationnelle 22(3), 1988; the cut is R. E. Gomory's, 1958.
#![tactic(auto)]

mod laws;

pub use laws::{
    buffers_are_rows, cuts_keep_the_solutions, pivots_keep_the_solutions,
    questions_are_answered_right, tableaus_begin_with_their_problem,
};
