//! What a command line asks for.

use kernel_gen::Kind;

/// When a tile may begin.
#[derive(Clone, Copy)]
pub enum Sync {
    /// Once all tiles of earlier waves are finished.
    Waves,
    /// Once each tile that it waits for has released it.
    Tiles,
}

/// By how many workers a plan is run, its size of tiles, the budget of its questions, whether it is told, whether it is
/// expanded, when its tiles begin, and whether sums may be made in any order.
#[derive(Clone, Copy)]
pub struct RunOptions {
    /// How many workers, from 1 to 64.
    pub workers: u64,
    /// The size of tiles, from 1 to 1024.
    pub tile: u64,
    /// How many moves each question may make, from 1 to 20000.
    pub budget: u64,
    /// Whether the lines of the plan are to be told.
    pub report: bool,
    /// Whether each instance is to have a copy of its own cell.
    pub expand: bool,
    /// When a tile may begin.
    pub sync: Sync,
    /// Whether arrays that are only added to may be added to in any order.
    pub reduce: bool,
}

/// A generated kernel: its kind, seed and size.
#[derive(Clone, Copy)]
pub struct GeneratedKernel {
    /// By which rule it is made.
    pub kind: Kind,
    /// What its statements and its data are drawn from.
    pub seed: u64,
    /// Its size, from 1 to 512.
    pub size: u64,
}

/// What a command line asks of a kernel alone: its data is not looked at.
#[derive(Clone, Copy)]
pub enum KernelCommand {
    /// The schedule, each question of whose search may make so many moves.
    Schedule { budget: u64 },
    /// The source of each read, where each candidate's problem may make so many moves.
    Deps { budget: u64 },
    /// The loops of the schedule's tiles of this size; the budget is that of the schedule.
    Emit { tile: u64, budget: u64 },
    /// The certificate of the schedule; the budget is that of the schedule.
    Certify { budget: u64 },
}

/// What a command line asks for.
#[derive(Clone, Copy)]
pub enum Command {
    /// The final arrays of a kernel and its data.
    Run(RunOptions),
    /// What is told of a kernel alone.
    OfKernel(KernelCommand),
    /// Whether what stands behind a kernel is the certificate of a plan of it.
    Check,
    /// A run of a generated kernel.
    Gen {
        generated: GeneratedKernel,
        options: RunOptions,
    },
}

/// Why a command line asks for nothing.
#[derive(Clone, Copy)]
pub enum CommandStop {
    /// The words are not taken, or they ask for help.
    Usage,
    /// Memory ran out.
    NoMemory,
}
