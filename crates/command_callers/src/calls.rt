//! Callers of the top call: each of their clauses follows from one field of `Answered`, with what that field speaks of
//! written out. So one of these fields that is emptied fails here, and so does a definition under it, but for those
//! that are named here: which input is accepted or spells a kernel, what is asked for, what a generated kernel leaves,
//! which arrays a kernel only adds to (`marks`), which read is the first whose source is not told, and by which line
//! (`first_unresolved`, `line_of_stop`), what the search finds or stops at (`IsSearched`, `IsCauseOf`), what a
//! certificate is (`certificate_of`) and whether it is accepted (`judged`), and what the trees of a plan are
//! (`ArePlanned`, `AreExpanded`), of which it is written out alone which loops of a tiled plan are marked parallel.

ghost use Rattle.std.specs.Prelude.{◌≡◌, ◌≢◌, ◌⊎◌, ◌<◌, ◌++◌, ℕ, ℤ, true, false, List, [], Option, map};
ghost use Rattle.std.specs.Prelude.{Err, codes, length, string_bytes};
ghost use Rattle.std.specs.Io.KnownBytes.{Appends};
ghost use Rattle.clap.specs.Words.{fault_of};
ghost use Rattle.io_ports.specs.Bytes.{GainsFront, IsAllOf};
ghost use Rattle.io_ports.specs.Faults.{Rose};
ghost use Rattle.io_ports.specs.Writes.{SinkShows};
ghost use Rattle.scop_syntax.specs.Execution.{exec};
ghost use Rattle.scop_syntax.specs.Limits.{HasParameters};
ghost use Rattle.scop_syntax.specs.Members.{In};
ghost use Rattle.scop_syntax.specs.Tree.{Program};
ghost use Rattle.scop_parser.specs.Spelling.{SpellsProgram};
ghost use Rattle.data_lines.specs.declared.refusal.DataRefusal.{DataRefusal};
ghost use Rattle.data_text.specs.ArrayText.{array_text};
ghost use Rattle.iteration_domains.specs.Model.{model_of};
ghost use Rattle.dataflow.specs.Covering.{covers_of};
ghost use Rattle.dataflow.specs.ReadSources.{AreSources, NameLastWriters, reads_of};
ghost use Rattle.dataflow.specs.Way.TheVariants.{Later};
ghost use Rattle.dataflow.specs.Told.{AreTold};
ghost use Rattle.dataflow.specs.declared.source.ReadSource.{ReadSource};
ghost use Rattle.report_text.specs.Items.{Block};
ghost use Rattle.loop_tree.specs.Plans.{first_coordinate, has_rows, walked};
ghost use Rattle.loop_tree.specs.Tiling.{IsGoodPlan, Items, Tiling, items_at, tiled};
ghost use Rattle.loop_tree.specs.Tree.{Trees};
ghost use Rattle.loop_tree.specs.Walk.{Visit, walk_all};
ghost use Rattle.tile_list.specs.Counting.{HasTiles, HasWaves};
ghost use Rattle.c_printer.specs.Nodes.{text_of};
ghost use Rattle.scop_syntax.specs.Limits.{AreInRange};
ghost use Rattle.plan_check.specs.Judged.{SaysPlan, judged, rejected_at};
ghost use Rattle.plan_check.specs.Plans.{Plan, tiling_of};
ghost use Rattle.plan_check.specs.declared.kinds.FaultKind.{FaultKind};
ghost use Rattle.polypar.specs.Certificates.{certificate_of};
ghost use Rattle.kernel_gen.specs.Cases as cases;
ghost use Rattle.kernel_gen.specs.Summary.{summary_text};
ghost use Rattle.kernel_gen.specs.Totals.{cells_in, sum_of};
ghost use Rattle.report_text.specs.DepsText.{deps_text};
ghost use Rattle.report_text.specs.KeptText.{kept_text};
ghost use Rattle.report_text.specs.ScheduleText.{schedule_text};
ghost use Rattle.report_text.specs.declared.kept_line.KeptLine.{KeptLine};
ghost use Rattle.report_text.specs.declared.status.Status.TheVariants.{BadData, Done, NoMemory, ReadFault, Rejected, Usage};
ghost use Rattle.report_text.specs.declared.status.Status.TheVariants.{WriteFault};
ghost use Rattle.polypar.specs.Answered.{Answered};
ghost use Rattle.polypar.specs.Planned.{ArePlanned};
ghost use Rattle.polypar.specs.Planning.{IsCauseOf, IsSearched};
ghost use Rattle.command_line.specs.Command.{IsDepsCommand, IsEmitCommand, IsGenCommand, IsRunCommand};
ghost use Rattle.command_line.specs.Command.{IsCertifyCommand, IsCheckCommand, IsScheduleCommand};
ghost use Rattle.command_line.specs.Stated.{tool};
ghost use Rattle.command_line.specs.declared.command.GeneratedKernel.{GeneratedKernel};
ghost use Rattle.command_line.specs.declared.command.RunOptions.{RunOptions};
ghost use Rattle.command_callers.specs.Shown.{GainsCertificate, GainsFault, GainsReport, TellsData};
ghost use Rattle.polypar.specs.Case.{Accepted, Spelled};
ghost use Rattle.polypar.specs.Cut.{data_part, kernel_part};
ghost use Rattle.polypar.specs.Deserves.{Asks};
ghost use Rattle.polypar.specs.Runs.{left_by};
ghost use Rattle.polypar.specs.Told.{Told};

use io_ports::{Gate, Sink, Source};
use polypar::{Status, plain_command, polypar};
use std::alloc::Global;
use std::sync::Wait;
use std::thread::Threads;

/// The call that the program makes: the whole promise, of which the callers below hold the fields.
pub fn answered_program<R: Threads + Wait + Sync, S: Source, O: Sink, E: Sink, G: Gate>(
    rt: &R,
    alloc: Global,
    words: &[String],
    source: &mut S,
    out: &mut O,
    err: &mut E,
    gate: &G,
) -> Status
    ensures { Answered (map string_bytes words.now) result (S.shows source.old) (S.shows source.new) (O.shows out.old)
        (O.shows out.new) (E.shows err.old) (E.shows err.new) }
{
    polypar(rt, alloc, words, source, out, err, gate)
}

/// A run: by `done` the arrays and the report of `run`, by `generated` the summary of `gen`.
pub fn answered_run<S: Source, O: Sink, E: Sink>(
    alloc: Global,
    words: &[String],
    source: &mut S,
    out: &mut O,
    err: &mut E,
) -> Status
    ensures arrays { (options : RunOptions) → IsRunCommand options (map string_bytes words.now) → result ≡ Done
        → (input : List ℕ) × (accepted : Accepted input) × IsAllOf (S.shows source.old).left input
        × Appends (O.shows out.old).taken (O.shows out.new).taken
        (array_text accepted.program (exec accepted.program accepted.params accepted.contents)) }
    ensures report { (options : RunOptions) → IsRunCommand options (map string_bytes words.now)
        → options.report ≡ true → result ≡ Done
        → GainsReport options (S.shows source.old).left (E.shows err.old) (E.shows err.new) }
    ensures summary { (g : GeneratedKernel) (options : RunOptions)
        → IsGenCommand g options (map string_bytes words.now) → result ≡ Done
        → (plan : Tiling) × (trees : Trees) × (lines : List ℕ) × (tiles : ℕ) × (waves : ℕ)
        × ArePlanned options.tile options.budget false [] (cases.program g.kind g.seed) plan lines trees
        × HasTiles plan (walked (cases.program g.kind g.seed) (cases.params g.kind g.size)) tiles
        × HasWaves plan (walked (cases.program g.kind g.seed) (cases.params g.kind g.size)) waves
        × Appends (O.shows out.old).taken (O.shows out.new).taken
        (summary_text g.kind g.seed g.size tiles waves (cells_in (left_by g)) (sum_of (left_by g)))
        × Appends (E.shows err.old).taken (E.shows err.new).taken lines }
{
    plain_command(alloc, words, source, out, err)
}

/// What is told of a kernel: by `scheduled` its schedule, by `sourced` the sources of its reads, by `emitted` its loops.
pub fn answered_kernel<S: Source, O: Sink, E: Sink>(
    alloc: Global,
    words: &[String],
    source: &mut S,
    out: &mut O,
    err: &mut E,
) -> Status
    ensures schedule { (budget : ℕ) → IsScheduleCommand budget (map string_bytes words.now) → result ≡ Done
        → (input : List ℕ) × (kernel : Spelled input) × (text : List ℕ) × IsAllOf (S.shows source.old).left input
        × (((blocks : List Block)
        × IsSearched budget (covers_of budget [] (model_of kernel.program)) (model_of kernel.program) blocks
        × (text ≡ schedule_text blocks))
        ⊎ ((why : KeptLine)
        × IsCauseOf budget (covers_of budget [] (model_of kernel.program)) (model_of kernel.program) why
        × (text ≡ kept_text why)))
        × Appends (O.shows out.old).taken (O.shows out.new).taken text }
    ensures sources { (budget : ℕ) → IsDepsCommand budget (map string_bytes words.now) → result ≡ Done
        → (input : List ℕ) × (kernel : Spelled input) × (sources : List ReadSource)
        × IsAllOf (S.shows source.old).left input
        × AreSources Later (model_of kernel.program) budget (reads_of (model_of kernel.program)) sources
        × NameLastWriters (model_of kernel.program) sources
        × AreTold (model_of kernel.program) (reads_of (model_of kernel.program)) sources
        × Appends (O.shows out.old).taken (O.shows out.new).taken (deps_text kernel.program sources) }
    ensures loops { (tile budget : ℕ) → IsEmitCommand tile budget (map string_bytes words.now) → result ≡ Done
        → (input : List ℕ) × (kernel : Spelled input) × (plan : Tiling) × (trees : Trees) × (lines : List ℕ)
        × IsAllOf (S.shows source.old).left input × ArePlanned tile budget false [] kernel.program plan lines trees
        × Appends (O.shows out.old).taken (O.shows out.new).taken (text_of kernel.program trees)
        × Appends (E.shows err.old).taken (E.shows err.new).taken lines
        × ((params : List ℤ) (size : ℕ) (statements : List Items) → HasParameters kernel.program params
        → plan ≡ tiled size statements → has_rows statements ≡ true → (v : Visit) → In v (walk_all trees params [])
        → v.parallel ≡ first_coordinate size (items_at statements v.number).band v.turns) }
{
    plain_command(alloc, words, source, out, err)
}

/// A certificate: by `checked` that it is accepted, by `deserved` why it is rejected, by `certified` what is written.
pub fn answered_certificate<S: Source, O: Sink, E: Sink>(
    alloc: Global,
    words: &[String],
    source: &mut S,
    out: &mut O,
    err: &mut E,
) -> Status
    ensures checked { IsCheckCommand (map string_bytes words.now) → result ≡ Done
        → (input : List ℕ) × (kernel : Spelled input) × (plan : Plan) × IsAllOf (S.shows source.old).left input
        × SaysPlan kernel.program (data_part input) plan
        × ((params : List ℤ) (size : ℕ) → length params ≡ length kernel.program.parameters → AreInRange params
        → 0 < size → IsGoodPlan kernel.program params (tiling_of size (length (model_of kernel.program).statements) plan))
        × Appends (O.shows out.old).taken (O.shows out.new).taken (codes "yes\n") }
    ensures certified { (budget : ℕ) → IsCertifyCommand budget (map string_bytes words.now) → result ≡ Done
        → GainsCertificate budget (S.shows source.old).left (O.shows out.old).taken (O.shows out.new).taken }
    ensures rejected { (kind : FaultKind) (line : ℕ) → result ≡ Rejected kind line
        → (input : List ℕ) × (program : Program) × IsAllOf (S.shows source.old).left input
        × SpellsProgram (kernel_part input) program
        × (judged program (data_part input) ≡ Err (rejected_at kind line)) }
{
    plain_command(alloc, words, source, out, err)
}

/// How a call ends: by `stranger` over words with a fault; by `read_fault` and `write_fault` only where a count rose; by
/// `unread`, `nothing` and `written` what else ports show; by `error_line` the line of data that is refused, with the names of the program that was read, the lines of a command
/// that is done, and those of one that is cut off, with the count that rose.
pub fn ended_call<S: Source, O: Sink, E: Sink>(
    alloc: Global,
    words: &[String],
    source: &mut S,
    out: &mut O,
    err: &mut E,
) -> Status
    ensures stranger { fault_of tool (map string_bytes words.now) ≢ [] → (result ≡ Usage) ⊎ (result ≡ NoMemory) }
    ensures read_fault { result ≡ ReadFault → Rose (S.shows source.old).faults (S.shows source.new).faults }
    ensures write_fault { result ≡ WriteFault
        → Rose (O.shows out.old).faults (O.shows out.new).faults ⊎ Rose (E.shows err.old).faults (E.shows err.new).faults }
    ensures unread { result ≡ Usage → S.shows source.new ≡ S.shows source.old }
    ensures nothing { result ≢ Done → result ≢ WriteFault → O.shows out.new ≡ O.shows out.old }
    ensures front { result ≡ WriteFault → (input : List ℕ) × (told : Told)
        × IsAllOf (S.shows source.old).left input × Asks (map string_bytes words.now) input told
        × GainsFront (O.shows out.old).taken (O.shows out.new).taken told.text }
    ensures line { (refusal : DataRefusal) → result ≡ BadData refusal
        → TellsData (S.shows source.old).left refusal (E.shows err.old) (E.shows err.new) }
    ensures lines { result ≡ Done → (input : List ℕ) × (told : Told) × (mid : SinkShows)
        × IsAllOf (S.shows source.old).left input × Asks (map string_bytes words.now) input told
        × Appends (O.shows out.old).taken (O.shows out.new).taken told.text
        × Appends (E.shows err.old).taken mid.taken told.lines }
    ensures cut { result ≡ WriteFault → (input : List ℕ) × (told : Told) × (lines : List ℕ) × (named : Option Program)
        × (mid : SinkShows) × IsAllOf (S.shows source.old).left input × Asks (map string_bytes words.now) input told
        × (((lines ≡ told.lines) × GainsFront (O.shows out.old).taken (O.shows out.new).taken told.text)
        ⊎ (((rest : List ℕ) × (told.lines ≡ lines ++ rest)) × (O.shows out.new ≡ O.shows out.old)))
        × Appends (E.shows err.old).taken mid.taken lines
        × GainsFault named (O.shows out.old) (O.shows out.new) (E.shows err.old) mid (E.shows err.new) }
{
    plain_command(alloc, words, source, out, err)
}
