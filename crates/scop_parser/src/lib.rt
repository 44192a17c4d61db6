//! The text of a kernel as its tree, or the exact refusal. `specs/Spelling` says which text spells which program and
//! what a refusal tells; what a kernel of the grammar stands for, and its faults, are those of `scop_units`.
//! Static-control parts: P. Feautrier, "Dataflow analysis of array and scalar references" (1991).
#![tactic(auto)]

mod laws;
mod reader;
mod refusal;

pub use laws::{
    faults_leave_no_program, spelled_names_are_words, spelled_programs_are_kernels,
    texts_have_one_first_fault, texts_spell_a_program_or_have_a_fault, texts_spell_one_program,
};
pub use reader::{ReadKernelError, read_kernel};
pub use refusal::{Refusal, RefusalKind};
