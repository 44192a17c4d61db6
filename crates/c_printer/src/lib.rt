//! Loop trees as C text: the program that runs a kernel's statements in the order of a loop tree, each loop and guard
//! on a line of its own, parallel loops marked for OpenMP. Promises exactly that text.
//! Abstract syntax trees of a polyhedral code generator, printed: Bastoul, "Code generation in the polyhedral model is
//! easier than you think" (PACT 2004), section 4.
#![tactic(auto)]

mod bounds;
mod examples;
mod forms;
mod header;
mod instances;
mod meaning_laws;
mod nodes;
mod part;
mod place;
mod read_bounds;
mod read_forms;
mod read_instances;
mod read_nodes;
mod read_tests;
mod text_laws;
mod texts;
mod values;

pub use examples::{a_tree_and_its_text, statements_and_their_texts};
pub use meaning_laws::{
    printed_divisions_are_those_of_the_tree, printed_iterators_are_the_source_s,
    printed_values_are_those_of_the_tree, the_functions_of_a_text_round_and_choose,
};
pub use nodes::print;
pub use read_nodes::read_back;
pub use text_laws::{
    flat_trees_can_be_printed, kernels_tell_their_names_apart, printed_trees_are_read_back,
    texts_are_of_one_tree, unread_texts_are_of_no_tree,
};
