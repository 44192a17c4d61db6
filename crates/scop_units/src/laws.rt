//! Laws of kernels without faults, as contracts of functions that do nothing.
ghost use Rattle.std.specs.Prelude.{◌≡◌, [], All};
ghost use Rattle.scop_grammar.specs.Kernel.{Kernel, kernel_elements, spelled};
ghost use Rattle.scop_lexer.specs.Words.{IsName};
ghost use Rattle.scop_syntax.specs.Kernel.{IsKernel};
ghost use Rattle.scop_units.specs.Words.{HasWorth, Words};
ghost use Rattle.scop_units.specs.Judging.{faults_of};
ghost use Rattle.scop_units.specs.Names.{HasDistinctNames, SpellNames, header_names};
ghost use Rattle.scop_units.specs.Programs.{program_spelled};

use scop_roles::{
    faultless_formulas_are_within_limits, faultless_values_have_types, formulas_are_in_scope,
};

/// The program that a kernel without faults stands for is within the limits, and its names are distinct.
pub fn faultless_kernels_are_within_limits()
    ensures kernel { (words : Words) (k : Kernel) → HasWorth words → faults_of words k ≡ []
        → IsKernel (program_spelled words k) }
    ensures names { (words : Words) (k : Kernel) → faults_of words k ≡ [] → HasDistinctNames (program_spelled words k) }
{
    formulas_are_in_scope();
    faultless_formulas_are_within_limits();
    faultless_values_have_types();
}

/// The parameters and arrays of a kernel's program have the names that the kernel's tokens spell.
pub fn names_are_those_of_tokens()
    ensures { (words : Words) (k : Kernel) → SpellNames words (spelled (kernel_elements k))
        → All IsName (header_names (program_spelled words k)) }
{}
