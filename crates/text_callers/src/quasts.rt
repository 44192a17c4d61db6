//! Callers of the texts of quasts, of sources and of a schedule: the laws over no names, worked texts, and that a
//! printed text is read in one way.
ghost use Rattle.std.specs.Prelude.{◌≡◌, ◌≢◌, ◌++◌, [], List, codes, get_or};
ghost use Rattle.scop_lexer.specs.Bytes.{Text};
ghost use Rattle.quast_trees.specs.Tree.{Tree, initial};
ghost use Rattle.quast_text.specs.Reading.{IsTellable};
ghost use Rattle.quast_text.specs.Text.{quast_text};
ghost use Rattle.scop_syntax.specs.Tree.{Program};
ghost use Rattle.scop_parser.specs.Spelling.{SpellsProgram};
ghost use Rattle.iteration_domains.specs.Model.{model_of};
ghost use Rattle.dataflow.specs.ReadSources.{reads_of};
ghost use Rattle.dataflow.specs.Told.{AreTold};
ghost use Rattle.dataflow.specs.declared.source.ReadSource.{ReadSource};
ghost use Rattle.report_text.specs.DepsReading.{AllSaySame};
ghost use Rattle.report_text.specs.DepsExamples.{copy, even, even_source, even_text, resolved};
ghost use Rattle.report_text.specs.DepsText.{deps_text};
ghost use Rattle.report_text.specs.ScheduleExamples.{blocks, text};
ghost use Rattle.report_text.specs.ScheduleText.{schedule_text};

use quast_text::texts_are_of_one_quast;
use report_text::{
    a_schedule_and_its_text, printed_sources_are_read_in_one_way, texts_of_two_kernels,
};

/// Two quasts over no names with one text are one, by `one` of `texts_are_of_one_quast`; none begins as `unresolved`, by
/// `first`.
pub fn texts_over_no_names()
    ensures one { (t u : Tree) (x y : Text) → IsTellable [] 0 t → IsTellable [] 0 u
        → quast_text [] 0 t ++ x ≡ quast_text [] 0 u ++ y → t ≡ u }
    ensures first { (t : Tree) (x : Text) → IsTellable [] 0 t → get_or (quast_text [] 0 t ++ x) 0 0 ≢ 117 }
{
    texts_are_of_one_quast();
}

/// The texts of two kernels' sources, by `copy` and `even` of `texts_of_two_kernels`.
pub fn worked_texts()
    ensures copy { deps_text copy (resolved initial) ≡ codes "S1 read 1 A: initial\n" }
    ensures even { deps_text even (resolved even_source) ≡ even_text }
{
    texts_of_two_kernels();
}

/// The text of a schedule with items of both kinds, by the clause of `a_schedule_and_its_text`.
pub fn a_worked_schedule()
    ensures { schedule_text blocks ≡ text }
{
    a_schedule_and_its_text();
}

/// Sources of a kernel that have the text of no source are none, by the clause of `printed_sources_are_read_in_one_way`.
pub fn sources_of_one_text()
    ensures { (text : Text) (program : Program) (sources : List ReadSource) → SpellsProgram text program
        → AreTold (model_of program) (reads_of (model_of program)) sources
        → AreTold (model_of program) (reads_of (model_of program)) [] → deps_text program sources ≡ deps_text program []
        → AllSaySame sources [] }
{
    printed_sources_are_read_in_one_way();
}
