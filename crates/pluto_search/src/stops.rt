//! How a question that stops keeps the order.
ghost use Rattle.std.specs.Prelude.{◌≡◌};
ghost use Rattle.pluto_search.specs.steps.Stopping.{kept_by_solver, kept_by_rows};

use crate::kept::Kept;
use pip_solver::Stop;
use pluto_systems::Stuck;

/// How a question to the solver that stops does.
pub fn by_solver(stop: Stop) -> Kept
    ensures { result ≡ kept_by_solver stop }
{
    match stop {
        Stop::NoMemory => Kept::NoMemory,
        Stop::Wide { posed, moves } => Kept::Stuck(Stuck::Solver(Stop::Wide { posed, moves })),
        Stop::Spent { posed, moves } => Kept::Stuck(Stuck::Solver(Stop::Spent { posed, moves })),
    }
}

/// How rows by Farkas's lemma that are not found do.
pub fn by_rows(stuck: Stuck) -> Kept
    ensures { result ≡ kept_by_rows stuck }
{
    match stuck {
        Stuck::NoMemory => Kept::NoMemory,
        Stuck::Solver(stop) => Kept::Stuck(Stuck::Solver(stop)),
        Stuck::Elimination(stop) => Kept::Stuck(Stuck::Elimination(stop)),
    }
}
