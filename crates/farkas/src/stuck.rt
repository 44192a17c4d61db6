//! Why the rows of a dependence are not found.

ghost use Rattle.std.specs.Prelude.{◌≡◌};
ghost use Rattle.farkas.specs.steps.Questions.{stuck_of_form, stuck_of_elimination, stuck_of_solver};

use affine_forms::FormStop;
use fm_projection::FmStop;
use pip_solver::Stop;
use thiserror::Error;

/// Why the rows of a dependence are not found.
#[derive(Debug, Drop, Error)]
pub enum Stuck {
    /// The question whether the other rows imply one stops.
    #[error("{0}")]
    Solver(Stop),
    /// An elimination stops, or a number of its constraints does not fit 128 bits.
    #[error("{0}")]
    Elimination(FmStop),
    /// There is no memory.
    #[error("out of memory")]
    NoMemory,
}

/// How a call on forms that stops makes a call here stuck.
pub fn by_form(stop: FormStop) -> Stuck
    ensures { result ≡ stuck_of_form stop }
{
    match stop {
        FormStop::Wide(wide) => Stuck::Elimination(FmStop::Wide(wide)),
        FormStop::NoMemory => Stuck::NoMemory,
    }
}

/// How an elimination that stops does.
pub fn by_elimination(stop: FmStop) -> Stuck
    ensures { result ≡ stuck_of_elimination stop }
{
    match stop {
        FmStop::Wide(wide) => Stuck::Elimination(FmStop::Wide(wide)),
        FmStop::Crowded { pairs } => Stuck::Elimination(FmStop::Crowded { pairs }),
        FmStop::Large { number } => Stuck::Elimination(FmStop::Large { number }),
        FmStop::NoMemory => Stuck::NoMemory,
    }
}

/// How a question that stops does.
pub fn by_solver(stop: Stop) -> Stuck
    ensures { result ≡ stuck_of_solver stop }
{
    match stop {
        Stop::Wide { posed, moves } => Stuck::Solver(Stop::Wide { posed, moves }),
        Stop::Spent { posed, moves } => Stuck::Solver(Stop::Spent { posed, moves }),
        Stop::NoMemory => Stuck::NoMemory,
    }
}
