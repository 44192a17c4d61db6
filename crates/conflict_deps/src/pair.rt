//! A source and a target that may conflict.

ghost use Rattle.std.specs.Prelude.{◌≡◌, ◌≤◌};
ghost use Rattle.iteration_domains.specs.Sizes.{HaveOneCount};
ghost use Rattle.conflict_deps.specs.Conflicts.{loops_of};
ghost use Rattle.conflict_deps.specs.steps.View.{CanPair, side_of};

use crate::deps::AccessOf;

/// Two accesses of a model, the turns that their statements have, and the number of its parameters.
#[derive(Drop)]
pub struct Pair<'a> {
    pub parameters: usize,
    pub source: &'a AccessOf<'a>,
    pub target: &'a AccessOf<'a>,
    pub loops: usize,
    pub others: usize,
    ghost few: { parameters ≤ 4 },
    ghost first: { CanPair parameters (side_of source.now) },
    ghost second: { CanPair parameters (side_of target.now) },
    ghost one: { HaveOneCount source.now.statement.now target.now.statement.now },
    ghost turns: { loops ≡ loops_of (side_of source.now) },
    ghost other_turns: { others ≡ loops_of (side_of target.now) },
}
