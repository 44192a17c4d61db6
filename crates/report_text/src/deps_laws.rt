//! Laws of the text of sources, as contracts of functions that do nothing.

ghost use Rattle.std.specs.Prelude.{◌≡◌, List, All, codes};
ghost use Rattle.scop_lexer.specs.Bytes.{Text};
ghost use Rattle.scop_lexer.specs.Words.{IsName};
ghost use Rattle.scop_syntax.specs.Tree.{Program};
ghost use Rattle.scop_parser.specs.Spelling.{SpellsProgram};
ghost use Rattle.scop_parser.specs.DistinctNames.{HasDistinctNames, header_names};
ghost use Rattle.iteration_domains.specs.Model.{model_of};
ghost use Rattle.dataflow.specs.ReadSources.{reads_of};
ghost use Rattle.dataflow.specs.Told.{AreTold};
ghost use Rattle.dataflow.specs.declared.source.ReadSource.{ReadSource};
ghost use Rattle.quast_trees.specs.Tree.{initial};
ghost use Rattle.report_text.specs.DepsExamples.{copy, even, even_source, even_text, resolved};
ghost use Rattle.report_text.specs.DepsText.{deps_text};
ghost use Rattle.report_text.specs.DepsReading.{AllSaySame};

use quast_text::texts_are_of_one_quast;
use scop_parser::spelled_programs_are_kernels;

/// A text of sources is read in one way: two lists of sources of a kernel's reads that have one text say the same, quast
/// by quast, and of each unresolved read the same cause with the same number. What is printed is what was proved.
pub fn deps_texts_are_read_in_one_way()
    ensures { (program : Program) (a b : List ReadSource) → HasDistinctNames program
        → All IsName (header_names program) → AreTold (model_of program) (reads_of (model_of program)) a
        → AreTold (model_of program) (reads_of (model_of program)) b → deps_text program a ≡ deps_text program b
        → AllSaySame a b }
{
    texts_are_of_one_quast();
}

/// So is one that the program prints: of the kernel that a text spells, two lists of sources that `last_writes` gives,
/// in whatever budgets, have one text only where they say the same.
pub fn printed_sources_are_read_in_one_way()
    ensures { (text : Text) (program : Program) (a b : List ReadSource) → SpellsProgram text program
        → AreTold (model_of program) (reads_of (model_of program)) a
        → AreTold (model_of program) (reads_of (model_of program)) b → deps_text program a ≡ deps_text program b
        → AllSaySame a b }
{
    deps_texts_are_read_in_one_way();
    spelled_programs_are_kernels();
}

/// Two worked texts: a copy, and a read of cells of which every second was written before.
pub fn texts_of_two_kernels()
    ensures copy { deps_text copy (resolved initial) ≡ codes "S1 read 1 A: initial\n" }
    ensures even { deps_text even (resolved even_source) ≡ even_text }
{}
