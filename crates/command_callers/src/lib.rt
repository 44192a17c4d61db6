//! Callers that hold the top call and its laws in place: each function here calls one law, and its own contract follows
//! from one clause of that law alone, but for `room_for_schedules`, which rests on two laws; in `calls` each clause
//! follows from one field of the call's promise. Where such a clause is emptied, weakened or given a premise that its
//! callers do not meet, the caller here no longer proves. Nothing is built on this crate.
#![tactic(auto)]

pub mod calls;

ghost use Rattle.std.specs.Prelude.{All, ◌≡◌, ◌⊎◌, ◌<◌, ◌≤◌, ◌^◌, ℕ, ℤ, [], List, Option, Some, false, map};
ghost use Rattle.clap.specs.Words.{fault_of};
ghost use Rattle.io_ports.specs.Reads.{SourceShows};
ghost use Rattle.io_ports.specs.Writes.{HasRoom, SinkShows};
ghost use Rattle.scop_syntax.specs.Cells.{PlacesConflict};
ghost use Rattle.scop_syntax.specs.Execution.{IsInside, IsShaped, exec, layout, performed_all};
ghost use Rattle.scop_syntax.specs.Kernel.{narrow_arrays};
ghost use Rattle.scop_syntax.specs.Limits.{HasParameters, WithinLimits};
ghost use Rattle.scop_syntax.specs.Members.{In};
ghost use Rattle.scop_syntax.specs.Tree.{Program};
ghost use Rattle.scop_syntax.specs.Walk.{Visit as Walked, instance, walk_of};
ghost use Rattle.scop_syntax.specs.Widths.{HoldWidths};
ghost use Rattle.scop_parser.specs.Spelling.{SpellsProgram};
ghost use Rattle.data_text.specs.Cases.{Says};
ghost use Rattle.data_text.specs.Written.{case_text};
ghost use Rattle.iteration_domains.specs.Model.{model_of};
ghost use Rattle.loop_tree.specs.Plans.{AreFree, AreMarked, Conflict, walked};
ghost use Rattle.loop_tree.specs.Runs.{MayRunAll};
ghost use Rattle.loop_tree.specs.Tiling.{Tiling};
ghost use Rattle.loop_tree.specs.Tree.{Trees};
ghost use Rattle.loop_tree.specs.Walk.{Visit, given, visits, walk_all};
ghost use Rattle.c_printer.specs.Reading.{read_text};
ghost use Rattle.report_text.specs.declared.status.Status.TheVariants.{Done};
ghost use Rattle.report_text.specs.declared.status.Status.{Status};
ghost use Rattle.polypar.specs.Answered.{Answered, HasLines, HasRoomForText, PrintsText, PrintsTold};
ghost use Rattle.polypar.specs.Case.{Spelled};
ghost use Rattle.command_line.specs.Command.{IsCertifyCommand, IsCheckCommand, IsDepsCommand, IsEmitCommand};
ghost use Rattle.command_line.specs.Command.{IsGenCommand, IsScheduleCommand};
ghost use Rattle.command_line.specs.Command.{IsTaken, NamesCommand, NamesNoKind, NamesNoSync, command_names};
ghost use Rattle.command_line.specs.declared.command.GeneratedKernel.{GeneratedKernel};
ghost use Rattle.command_line.specs.declared.command.RunOptions.{RunOptions};
ghost use Rattle.command_line.specs.Stated.{tool};
ghost use Rattle.polypar.specs.Deserves.{Deserves, IsVerdict};
ghost use Rattle.polypar.specs.Emitting.{ReadsAsLoops};
ghost use Rattle.polypar.specs.Executions.{AreVisitsOf};
ghost use Rattle.polypar.specs.ConflictOrders.{IsOrderOf};
ghost use Rattle.polypar.specs.Planned.{ArePlanned};
ghost use Rattle.polypar.specs.Planning.{IsPlanOf};
ghost use Rattle.polypar.specs.Sources.{TellsLastWrites};
ghost use Rattle.polypar.specs.Trees.{StandInOrder};

use command_line::{
    numbers_of_taken_words_are_in_range, other_names_alone_are_not_taken,
    taken_words_name_a_command,
};
use plan_search::models_have_one_plan_text;
use polypar::{
    deserved_once, only_plans_have_lines, printed_arrays_are_data, printed_loops_are_read_back,
    printed_loops_run_the_kernel, printed_sources_tell_last_writes,
};
use scop_parser::texts_spell_one_program;

/// Any words and any input deserve a status, by `some` of `deserved_once`.
pub fn statuses_that_are_deserved()
    ensures { (words : List (List ℕ)) (input : List ℕ)
        → (status : Status) × IsVerdict status × Deserves words input status }
{
    deserved_once();
}

/// They deserve one at most, by `one` of `deserved_once`.
pub fn statuses_deserved_without_input()
    ensures { (words : List (List ℕ)) (a b : Status) → Deserves words [] a → Deserves words [] b → a ≡ b }
{
    deserved_once();
}

/// What `run` prints of a kernel without parameters is data, by the clause of `printed_arrays_are_data`.
pub fn arrays_of_kernels_without_parameters()
    ensures { (text : List ℕ) (program : Program) (contents : List (List ℕ)) → SpellsProgram text program
        → WithinLimits program [] → IsShaped (layout program []) contents
        → All (λ array. All (λ cell. cell < 2 ^ 64) array) contents → HoldWidths (narrow_arrays program) contents
        → Says (case_text program [] contents) program [] contents }
{
    printed_arrays_are_data();
}

/// What `deps` prints with budget 1, by the clause of `printed_sources_tell_last_writes`.
pub fn sources_within_one_move()
    ensures { (words : List (List ℕ)) (source source_after : SourceShows) (out out_after err err_after : SinkShows)
        → Answered words Done source source_after out out_after err err_after → IsDepsCommand 1 words
        → PrintsText TellsLastWrites source.left out.taken out_after.taken }
{
    printed_sources_tell_last_writes();
}

/// What `emit` prints of tiles of size 1, by the clause of `printed_loops_are_read_back`.
pub fn loops_of_tiles_of_size_1()
    ensures { (words : List (List ℕ)) (budget : ℕ) (source source_after : SourceShows)
        (out out_after err err_after : SinkShows)
        → Answered words Done source source_after out out_after err err_after → IsEmitCommand 1 budget words
        → PrintsTold (ReadsAsLoops 1 budget) source.left out out_after err err_after }
{
    printed_loops_are_read_back();
}

/// What these do, by the clause of `printed_loops_run_the_kernel`, with what it says of the plan and of the trees that
/// are read of the text written out.
pub fn runs_of_tiles_of_size_1()
    ensures { (words : List (List ℕ)) (budget : ℕ) (source source_after : SourceShows)
        (out out_after err err_after : SinkShows)
        → Answered words Done source source_after out out_after err err_after → IsEmitCommand 1 budget words
        → PrintsTold (λ program told. (plan : Tiling) × (ts : Trees)
        × ArePlanned 1 budget false [] program plan told.lines ts × (read_text program told.text ≡ Some ts)
        × ((params : List ℤ) → HasParameters program params
        → MayRunAll ts params [] (walk_all ts params [])
        × ((run : List Visit) → MayRunAll ts params [] run
        → IsOrderOf (map given run) (walked program params)
        × ((order : List Walked) × AreVisitsOf program params (map given run) order))
        × ((i j : ℕ) (c : PlacesConflict (walk_of program params) i j)
        → StandInOrder (visits ts params) (instance c.earlier) (instance c.later))
        × AreMarked plan ts params × AreFree (Conflict program params) ts params []
        × ((contents : List (List ℕ)) (run : List Visit) (order : List Walked) → IsInside program params
        → IsShaped (layout program params) contents → MayRunAll ts params [] run
        → AreVisitsOf program params (map given run) order
        → performed_all (layout program params) contents order ≡ exec program params contents)))
        source.left out out_after err err_after }
{
    printed_loops_run_the_kernel();
}

/// What `err` has of `schedule` with budget 1, where nothing was told before, by `schedule` of `only_plans_have_lines`.
pub fn lines_of_schedules_within_one_move()
    ensures { (words : List (List ℕ)) (left : Option (List ℕ)) (out : SinkShows) (lines : List ℕ)
        → HasLines words left Done out out lines → IsScheduleCommand 1 words → lines ≡ [] }
{
    only_plans_have_lines();
}

/// The same of `deps`, by `deps` of `only_plans_have_lines`.
pub fn lines_of_sources_within_one_move()
    ensures { (words : List (List ℕ)) (left : Option (List ℕ)) (out : SinkShows) (lines : List ℕ)
        → HasLines words left Done out out lines → IsDepsCommand 1 words → lines ≡ [] }
{
    only_plans_have_lines();
}

/// The same of `certify`, by `certify` of `only_plans_have_lines`.
pub fn lines_of_certificates_within_one_move()
    ensures { (words : List (List ℕ)) (left : Option (List ℕ)) (out : SinkShows) (lines : List ℕ)
        → HasLines words left Done out out lines → IsCertifyCommand 1 words → lines ≡ [] }
{
    only_plans_have_lines();
}

/// The same of `check`, by `check` of `only_plans_have_lines`.
pub fn lines_of_checks()
    ensures { (words : List (List ℕ)) (left : Option (List ℕ)) (out : SinkShows) (lines : List ℕ)
        → HasLines words left Done out out lines → IsCheckCommand words → lines ≡ [] }
{
    only_plans_have_lines();
}

/// Room on `out` for one text of a kernel's plan, and on `err` for none, is room for all that `schedule` may be asked
/// for there, by the clauses of `models_have_one_plan_text` and `texts_spell_one_program`.
pub fn room_for_schedules()
    ensures { (words : List (List ℕ)) (budget : ℕ) (input : List ℕ) (kernel : Spelled input) (text : List ℕ)
        (out err : SinkShows) → IsScheduleCommand budget words → IsPlanOf budget (model_of kernel.program) text
        → HasRoom out text → HasRoom err [] → HasRoomForText words (Some input) out err }
{
    models_have_one_plan_text();
    texts_spell_one_program();
}

/// Of words that are taken one names a command, by the clause of `taken_words_name_a_command`.
pub fn commands_of_words()
    ensures { (words : List (List ℕ)) → IsTaken words
        → (name : List ℕ) × In name command_names × NamesCommand name words }
{
    taken_words_name_a_command();
}

/// `gen` has a SIZE from 1 to 512, by `size` of `numbers_of_taken_words_are_in_range`; `schedule` has a budget from 1,
/// by `least_budget`, to 20000, by `most_budget`.
pub fn numbers_of_words()
    ensures size { (words : List (List ℕ)) (generated : GeneratedKernel) (options : RunOptions)
        → IsGenCommand generated options words → (1 ≤ generated.size) × (generated.size ≤ 512) }
    ensures least_budget { (words : List (List ℕ)) (budget : ℕ) → IsScheduleCommand budget words → 1 ≤ budget }
    ensures most_budget { (words : List (List ℕ)) (budget : ℕ) → IsScheduleCommand budget words → budget ≤ 20000 }
{
    numbers_of_taken_words_are_in_range();
}

/// Words in which `clap` finds no fault are taken but for kinds and values of `--sync` that are none, by the clause of
/// `other_names_alone_are_not_taken`.
pub fn words_of_other_names()
    ensures { (words : List (List ℕ)) → fault_of tool words ≡ []
        → IsTaken words ⊎ (NamesNoKind words ⊎ NamesNoSync words) }
{
    other_names_alone_are_not_taken();
}
