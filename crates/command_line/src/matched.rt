//! What the matches of a command say: the values of its options and arguments, and the command that they name.

ghost use Rattle.std.specs.Prelude.{◌≡◌};
ghost use Rattle.clap.specs.Words.{found_of, rows_of, subcommand_rows_of};
ghost use Rattle.command_line.specs.Command.{command_met, command_named, flag_in, gen_named, generated_in};
ghost use Rattle.command_line.specs.Command.{kernel_command_named, kind_in, kind_named, number_in, run_named};
ghost use Rattle.command_line.specs.Command.{run_options_in, sync_in, sync_named};
ghost use Rattle.command_line.specs.declared.command.Sync.TheVariants.{Waves};

use crate::command::{Command, GeneratedKernel, KernelCommand, RunOptions, Sync};
use crate::stated::MOST_MOVES;
use clap::ArgMatches;
use kernel_gen::Kind;

/// How many workers where none are given.
const USUAL_WORKERS: u64 = 1;

/// The size of tiles where none is given.
const USUAL_TILE: u64 = 32;

/// The number that the matches of a command have for an argument, or the usual one.
fn number_in(matches: &ArgMatches, name: &str, usual: u64) -> u64
    ensures { result ≡ number_in name.now usual (rows_of (found_of matches.now)) }
{
    match matches.get_one::<u64>(name) {
        Some(number) => number,
        None => usual,
    }
}

/// Whether the matches of a command have a flag.
fn flag_in(matches: &ArgMatches, name: &str) -> bool
    ensures { result ≡ flag_in name.now (rows_of (found_of matches.now)) }
{
    match matches.get_one::<bool>(name) {
        Some(given) => given,
        None => false,
    }
}

/// The options of a run whose tiles begin so.
fn run_options_in(matches: &ArgMatches, sync: Sync) -> RunOptions
    ensures { result ≡ run_options_in sync (rows_of (found_of matches.now)) }
{
    RunOptions {
        workers: number_in(matches, "workers", USUAL_WORKERS),
        tile: number_in(matches, "tile", USUAL_TILE),
        budget: number_in(matches, "budget", MOST_MOVES),
        report: flag_in(matches, "report"),
        expand: flag_in(matches, "expand"),
        sync,
        reduce: flag_in(matches, "reduce"),
    }
}

/// When tiles begin by a text.
fn sync_named(text: &str) -> Option<Sync>
    ensures { result ≡ sync_named text.now }
{
    if text == "waves" {
        return Some(Sync::Waves);
    }
    if text == "tiles" {
        return Some(Sync::Tiles);
    }
    None
}

/// When tiles begin by the matches of `run`.
fn sync_in(matches: &ArgMatches) -> Option<Sync>
    ensures { result ≡ sync_in (rows_of (found_of matches.now)) }
{
    match matches.get_str("sync") {
        Some(text) => sync_named(text),
        None => Some(Sync::Waves),
    }
}

/// The kind that a text names.
fn kind_named(text: &str) -> Option<Kind>
    ensures { result ≡ kind_named text.now }
{
    if text == "product" {
        return Some(Kind::Product);
    }
    if text == "sweep" {
        return Some(Kind::Sweep);
    }
    if text == "chain" {
        return Some(Kind::Chain);
    }
    None
}

/// The kind that the matches of `gen` name.
fn kind_in(matches: &ArgMatches) -> Option<Kind>
    ensures { result ≡ kind_in (rows_of (found_of matches.now)) }
{
    match matches.get_str("kind") {
        Some(text) => kind_named(text),
        None => None,
    }
}

/// The kernel that the matches of `gen` describe.
fn generated_in(matches: &ArgMatches) -> Option<GeneratedKernel>
    ensures { result ≡ generated_in (rows_of (found_of matches.now)) }
{
    let seed = number_in(matches, "seed", 0);
    let size = number_in(matches, "size", 1);
    match kind_in(matches) {
        Some(kind) => Some(GeneratedKernel { kind, seed, size }),
        None => None,
    }
}

/// What the command of this name with these matches asks of a kernel alone.
fn kernel_command_named(name: &str, matches: &ArgMatches) -> Option<KernelCommand>
    ensures { result ≡ kernel_command_named (name.now, rows_of (found_of matches.now)) }
{
    let budget = number_in(matches, "budget", MOST_MOVES);
    if name == "schedule" {
        return Some(KernelCommand::Schedule { budget });
    }
    if name == "deps" {
        return Some(KernelCommand::Deps { budget });
    }
    if name == "emit" {
        let tile = number_in(matches, "tile", USUAL_TILE);
        return Some(KernelCommand::Emit { tile, budget });
    }
    if name == "certify" {
        return Some(KernelCommand::Certify { budget });
    }
    None
}

/// The command `run` with these matches.
fn run_named(matches: &ArgMatches) -> Option<Command>
    ensures { result ≡ run_named (rows_of (found_of matches.now)) }
{
    match sync_in(matches) {
        Some(sync) => Some(Command::Run(run_options_in(matches, sync))),
        None => None,
    }
}

/// The command `gen` with these matches.
fn gen_named(matches: &ArgMatches) -> Option<Command>
    ensures { result ≡ gen_named (rows_of (found_of matches.now)) }
{
    let options = run_options_in(matches, Sync::Waves);
    match generated_in(matches) {
        Some(generated) => Some(Command::Gen { generated, options }),
        None => None,
    }
}

/// The command of this name with these matches. There is none where the kind of a generated kernel is no kind, or where
/// what stands behind `--sync` tells no way to begin tiles.
fn command_named(name: &str, matches: &ArgMatches) -> Option<Command>
    ensures { result ≡ command_named (name.now, rows_of (found_of matches.now)) }
{
    if name == "run" {
        return run_named(matches);
    }
    if name == "gen" {
        return gen_named(matches);
    }
    if name == "check" {
        return Some(Command::Check);
    }
    match kernel_command_named(name, matches) {
        Some(asked) => Some(Command::OfKernel(asked)),
        None => None,
    }
}

/// The command that matches of the stated command name.
pub(crate) fn command_met(matches: &ArgMatches) -> Option<Command>
    ensures { result ≡ command_met (subcommand_rows_of matches.now) }
{
    match matches.subcommand() {
        Some((name, inner)) => command_named(name, inner),
        None => None,
    }
}
