//! What `run` prints is data again, what `deps` prints tells last writes, what `emit` prints is read back and runs the
//! kernel, and only commands that plan have lines: laws, as contracts of functions that do nothing.

ghost use Rattle.std.specs.Prelude.{All, ◌≡◌, ◌<◌, ◌^◌, ℕ, ℤ, List, [], Option};
ghost use Rattle.io_ports.specs.Reads.{SourceShows};
ghost use Rattle.io_ports.specs.Writes.{SinkShows};
ghost use Rattle.scop_syntax.specs.Tree.{Program};
ghost use Rattle.scop_syntax.specs.Execution.{IsShaped, layout};
ghost use Rattle.scop_syntax.specs.Kernel.{narrow_arrays};
ghost use Rattle.scop_syntax.specs.Limits.{WithinLimits};
ghost use Rattle.scop_syntax.specs.Widths.{HoldWidths};
ghost use Rattle.scop_parser.specs.Spelling.{SpellsProgram};
ghost use Rattle.data_text.specs.Cases.{Says};
ghost use Rattle.data_text.specs.Written.{case_text};
ghost use Rattle.plan_search.specs.Status.TheVariants.{Done};
ghost use Rattle.plan_search.specs.Status.{Status};
ghost use Rattle.polypar.specs.Answered.{Answered, HasLines, PrintsText, PrintsTold};
ghost use Rattle.command_line.specs.Command.{IsCertifyCommand, IsCheckCommand, IsDepsCommand, IsEmitCommand};
ghost use Rattle.command_line.specs.Command.{IsScheduleCommand};
ghost use Rattle.polypar.specs.Emitting.{ReadsAsLoops};
ghost use Rattle.polypar.specs.Running.{RunsKernel};
ghost use Rattle.polypar.specs.Sources.{TellsLastWrites};

use c_printer::{
    flat_trees_can_be_printed, kernels_tell_their_names_apart, printed_trees_are_read_back,
};
use data_text::written_cases_are_read_back;
use iteration_domains::{accesses_touch_the_cells, domains_hold_the_instances};
use plan_search::{loops_end_as_the_source_does, trees_keep_conflicts_in_order};
use scop_parser::{spelled_names_are_words, spelled_programs_are_kernels};

/// The text of the arrays of a kernel that a text spells, behind a line for each parameter, says these parameters and
/// these contents.
pub fn printed_arrays_are_data()
    ensures { (text : List ℕ) (program : Program) (params : List ℤ) (contents : List (List ℕ))
        → SpellsProgram text program → WithinLimits program params → IsShaped (layout program params) contents
        → All (λ array. All (λ cell. cell < 2 ^ 64) array) contents → HoldWidths (narrow_arrays program) contents
        → Says (case_text program params contents) program params contents }
{
    spelled_programs_are_kernels();
    written_cases_are_read_back();
}

/// What `deps` prints tells the last writes: at Done some input, which is all that the source told, spells a kernel, and
/// `out` has gained exactly a text of sources that for all parameters in 0..=65536 name the last write of each read.
pub fn printed_sources_tell_last_writes()
    ensures { (words : List (List ℕ)) (budget : ℕ) (source source_after : SourceShows)
        (out out_after err err_after : SinkShows)
        → Answered words Done source source_after out out_after err err_after → IsDepsCommand budget words
        → PrintsText TellsLastWrites source.left out.taken out_after.taken }
{
    domains_hold_the_instances();
    accesses_touch_the_cells();
}

/// What `emit` prints is read back: at Done some input, which is all that the source told, spells a kernel, and `out`
/// has gained exactly a text that is read as loop trees which for all parameters in 0..=65536 carry out a plan of the
/// kernel: that of its schedule, or the kept order, whose line `err` has gained.
pub fn printed_loops_are_read_back()
    ensures { (words : List (List ℕ)) (tile budget : ℕ) (source source_after : SourceShows)
        (out out_after err err_after : SinkShows)
        → Answered words Done source source_after out out_after err err_after → IsEmitCommand tile budget words
        → PrintsTold (ReadsAsLoops tile budget) source.left out out_after err err_after }
{
    spelled_programs_are_kernels();
    spelled_names_are_words();
    kernels_tell_their_names_apart();
    flat_trees_can_be_printed();
    printed_trees_are_read_back();
}

/// What `emit` prints runs the kernel: at Done some input, which is all that the source told, spells a kernel, and `out`
/// has gained exactly a text that is read as loop trees of a plan of the kernel: that of its schedule, or the kept
/// order, whose line `err` has gained. For all parameters in 0..=65536 these visit of two instances that conflict the
/// earlier first; their parallel loops are those of the plan's tiling, and free of conflicts; and they visit each
/// walked instance once and leave the arrays of the source's own execution, in whichever order the iterations of those
/// loops are interleaved.
pub fn printed_loops_run_the_kernel()
    ensures { (words : List (List ℕ)) (tile budget : ℕ) (source source_after : SourceShows)
        (out out_after err err_after : SinkShows)
        → Answered words Done source source_after out out_after err err_after → IsEmitCommand tile budget words
        → PrintsTold (RunsKernel tile budget) source.left out out_after err err_after }
{
    loops_end_as_the_source_does();
    printed_loops_are_read_back();
    trees_keep_conflicts_in_order();
}

/// `schedule`, `deps`, `certify` and `check` have no lines, so all that `err` gains is the status line.
pub fn only_plans_have_lines()
    ensures schedule { (words : List (List ℕ)) (budget : ℕ) (left : Option (List ℕ)) (status : Status)
        (out out_after : SinkShows) (lines : List ℕ) → HasLines words left status out out_after lines
        → IsScheduleCommand budget words → lines ≡ [] }
    ensures deps { (words : List (List ℕ)) (budget : ℕ) (left : Option (List ℕ)) (status : Status)
        (out out_after : SinkShows) (lines : List ℕ) → HasLines words left status out out_after lines
        → IsDepsCommand budget words → lines ≡ [] }
    ensures certify { (words : List (List ℕ)) (budget : ℕ) (left : Option (List ℕ)) (status : Status)
        (out out_after : SinkShows) (lines : List ℕ) → HasLines words left status out out_after lines
        → IsCertifyCommand budget words → lines ≡ [] }
    ensures check { (words : List (List ℕ)) (left : Option (List ℕ)) (status : Status) (out out_after : SinkShows)
        (lines : List ℕ) → HasLines words left status out out_after lines → IsCheckCommand words → lines ≡ [] }
{}
