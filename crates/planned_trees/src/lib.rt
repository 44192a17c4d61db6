//! Loop trees of a plan, whichever way they were made: what is asked of them, and what they are for. Laws, each the
//! contract of a function that does nothing: they can be walked, they visit conflicting instances in order, and in
//! whichever order the iterations of parallel loops are interleaved, the arrays are those of the source's own execution
//! (A. Bernstein, "Analysis of programs for parallel processing", IEEE Transactions on Electronic Computers, 1966).
#![tactic(auto)]

mod laws;

pub use laws::{
    loops_end_as_the_source_does, trees_keep_conflicts_in_order, trees_of_plans_can_be_walked,
    waves_have_one_length,
};
