//! The stated command, built with `clap`: `polypar` with its commands, their options and their arguments.

ghost use Rattle.std.specs.Prelude.{IfOk};
ghost use Rattle.clap.specs.Words.{App, Rule, with_rule, with_subcommand};
ghost use Rattle.command_line.specs.Stated.{IsArgument, IsCommand, bare_tool, budget_tool, check_tool, emit_tool};
ghost use Rattle.command_line.specs.Stated.{flag, gen_arguments, gen_tool, number_option, run_tool, sync_option};
ghost use Rattle.command_line.specs.Stated.{tool, wanted, wanted_number};
ghost use Rattle.command_line.specs.Stated.{with_kernel_tools, with_run_options};

use clap::builder::ValueParser;
use clap::{Arg, ArgAction};
use std::alloc::{AllocError, Global};

/// The most workers.
const MOST_WORKERS: u64 = 64;

/// The greatest size of tiles.
const MOST_TILE: u64 = 1024;

/// The most moves of a question.
pub const MOST_MOVES: u64 = 20_000;

/// The greatest size of a generated kernel.
const MOST_SIZE: u64 = 512;

/// An option of this name, whose value is a number from 1 to `most`.
fn number_option<'a>(alloc: Global, name: &'a str, most: u64) -> Arg<'a>
    ensures { IsArgument (number_option name.entry.now most) result }
{
    Arg::new(alloc, name)
        .long(name)
        .action(ArgAction::Set)
        .value_parser(ValueParser::unsigned(1, most))
}

/// The flag of this name.
fn flag<'a>(alloc: Global, name: &'a str) -> Arg<'a>
    ensures { IsArgument (flag name.entry.now) result }
{
    Arg::new(alloc, name).long(name).action(ArgAction::SetTrue)
}

/// The option `--sync`, whose value is any text.
fn sync_option<'a>(alloc: Global) -> Arg<'a>
    ensures { IsArgument sync_option result }
{
    Arg::new(alloc, "sync").long("sync").action(ArgAction::Set)
}

/// An argument that has to be given, at its place among those without a name.
fn wanted<'a>(alloc: Global, name: &'a str) -> Arg<'a>
    ensures { IsArgument (wanted name.entry.now) result }
{
    Arg::new(alloc, name).action(ArgAction::Set).required(true)
}

/// The same, a number from `least` to `most`.
fn wanted_number<'a>(alloc: Global, name: &'a str, least: u64, most: u64) -> Arg<'a>
    ensures { IsArgument (wanted_number name.entry.now least most) result }
{
    wanted(alloc, name).value_parser(ValueParser::unsigned(least, most))
}

/// A command that was made, with one argument more.
#[tactic(auto, using(crate::proofs::BuiltCommands::building))]
fn with_argument<'a>(
    made: Result<clap::Command<'a>, AllocError>,
    arg: Arg<'a>,
) -> Result<clap::Command<'a>, AllocError>
    ensures { (a : App) → (r : Rule) → IfOk made.entry (IsCommand a) → IsArgument r arg.entry
        → IfOk result (IsCommand (with_rule a r)) }
{
    match made {
        Ok(command) => command.arg(arg),
        Err(error) => Err(error),
    }
}

/// A command that was made, with one command more that was made.
#[tactic(auto, using(crate::proofs::BuiltCommands::building))]
fn with_command<'a>(
    made: Result<clap::Command<'a>, AllocError>,
    inner: Result<clap::Command<'a>, AllocError>,
) -> Result<clap::Command<'a>, AllocError>
    ensures { (a s : App) → IfOk made.entry (IsCommand a) → IfOk inner.entry (IsCommand s)
        → IfOk result (IsCommand (with_subcommand a s.top)) }
{
    match made {
        Ok(command) => match inner {
            Ok(inner) => command.subcommand(inner),
            Err(error) => {
                drop(command);
                Err(error)
            }
        },
        Err(error) => {
            drop(inner);
            Err(error)
        }
    }
}

/// A command with the options of a run.
fn with_run_options<'a>(
    alloc: Global,
    command: Result<clap::Command<'a>, AllocError>,
) -> Result<clap::Command<'a>, AllocError>
    ensures { (a : App) → IfOk command.entry (IsCommand a) → IfOk result (IsCommand (with_run_options a)) }
{
    let with_workers = with_argument(command, number_option(alloc, "workers", MOST_WORKERS));
    let with_tile = with_argument(with_workers, number_option(alloc, "tile", MOST_TILE));
    with_argument(with_tile, number_option(alloc, "budget", MOST_MOVES))
}

/// The command `run`.
fn run_command<'a>(alloc: Global) -> Result<clap::Command<'a>, AllocError>
    ensures { IfOk result (IsCommand run_tool) }
{
    let run = with_run_options(alloc, Ok(clap::Command::new(alloc, "run")));
    let with_report = with_argument(run, flag(alloc, "report"));
    let with_expand = with_argument(with_report, flag(alloc, "expand"));
    let with_sync = with_argument(with_expand, sync_option(alloc));
    with_argument(with_sync, flag(alloc, "reduce"))
}

/// The command `gen` with its arguments alone.
fn gen_arguments<'a>(alloc: Global) -> Result<clap::Command<'a>, AllocError>
    ensures { IfOk result (IsCommand gen_arguments) }
{
    let with_kind = with_argument(Ok(clap::Command::new(alloc, "gen")), wanted(alloc, "kind"));
    let with_seed = with_argument(with_kind, wanted_number(alloc, "seed", 0, u64::MAX));
    with_argument(with_seed, wanted_number(alloc, "size", 1, MOST_SIZE))
}

/// The command `gen`.
fn gen_command<'a>(alloc: Global) -> Result<clap::Command<'a>, AllocError>
    ensures { IfOk result (IsCommand gen_tool) }
{
    with_run_options(alloc, gen_arguments(alloc))
}

/// A command of this name with the option `--budget`.
#[tactic(auto, using(crate::proofs::BuiltCommands::building))]
fn budget_command<'a>(alloc: Global, name: &'a str) -> Result<clap::Command<'a>, AllocError>
    ensures { IfOk result (IsCommand (budget_tool name.entry.now)) }
{
    clap::Command::new(alloc, name).arg(number_option(alloc, "budget", MOST_MOVES))
}

/// The command `emit`.
fn emit_command<'a>(alloc: Global) -> Result<clap::Command<'a>, AllocError>
    ensures { IfOk result (IsCommand emit_tool) }
{
    with_argument(
        budget_command(alloc, "emit"),
        number_option(alloc, "tile", MOST_TILE),
    )
}

/// The command `check`.
#[tactic(auto, using(crate::proofs::BuiltCommands::building))]
fn check_command<'a>(alloc: Global) -> Result<clap::Command<'a>, AllocError>
    ensures { IfOk result (IsCommand check_tool) }
{
    Ok(clap::Command::new(alloc, "check"))
}

/// The stated command without its commands, of which it wants one.
#[tactic(auto, using(crate::proofs::BuiltCommands::building))]
fn bare<'a>(alloc: Global) -> clap::Command<'a>
    ensures { IsCommand bare_tool result }
{
    clap::Command::new(alloc, "polypar")
        .subcommand_required(true)
        .disable_help_subcommand(true)
}

/// A command with those that ask of a kernel alone.
fn with_kernel_commands<'a>(
    alloc: Global,
    command: Result<clap::Command<'a>, AllocError>,
) -> Result<clap::Command<'a>, AllocError>
    ensures { (a : App) → IfOk command.entry (IsCommand a) → IfOk result (IsCommand (with_kernel_tools a)) }
{
    let with_schedule = with_command(command, budget_command(alloc, "schedule"));
    let with_deps = with_command(with_schedule, budget_command(alloc, "deps"));
    let with_emit = with_command(with_deps, emit_command(alloc));
    with_command(with_emit, budget_command(alloc, "certify"))
}

/// The stated command. Its definition in specs/Stated.antt says which words it takes.
pub(crate) fn stated<'a>(alloc: Global) -> Result<clap::Command<'a>, AllocError>
    ensures { IfOk result (IsCommand tool) }
{
    let with_run = with_command(Ok(bare(alloc)), run_command(alloc));
    let of_kernels = with_kernel_commands(alloc, with_run);
    let with_gen = with_command(of_kernels, gen_command(alloc));
    with_command(with_gen, check_command(alloc))
}
