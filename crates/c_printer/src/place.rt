//! Where the nodes of a tree stand in a text.

ghost use Rattle.std.specs.Prelude.{◌≡◌, ◌<◌, ◌^◌, length, map, suc, IfOk};
ghost use Rattle.scop_syntax.specs.View.{program_of};
ghost use Rattle.scop_syntax.specs.StandingView.{standing_of};
ghost use Rattle.scop_syntax.specs.Standings.{standings_of};
ghost use Rattle.scop_syntax.specs.contracts.tree.Kernel.{the_row};
ghost use Rattle.scop_syntax.specs.declared.tree.Kernel.{Kernel};
ghost use Rattle.c_printer.specs.Forms.{names_in};

use crate::texts::{copies, name_of_loop, push_name};
use scop_syntax::{Kernel, Name, Standing};
use std::alloc::{AllocError, Global};
use std::marker::Model;

/// A kernel and its statements. Contracts see the kernel alone.
#[derive(Drop)]
pub struct Source<'a> {
    pub kernel: &'a Kernel,
    pub statements: Vec<Standing<'a>>,
}

impl<'a> Model for Source<'a> {
    ghost Value = { Kernel };

    ghost coded = { the_row.coded };

    ghost view = { λ s. s.kernel.now };

    ghost invariant = { λ s. map standing_of s.statements.items ≡ standings_of (program_of s.kernel.now) };
}

/// Where nodes stand: the kernel and its statements, the names that their forms speak of, the level of indentation,
/// and how many loops are round them.
#[derive(Drop)]
pub struct Place<'a, 'k> {
    pub source: &'a Source<'k>,
    pub names: Vec<Name>,
    pub level: usize,
    pub loops: usize,
    ghost few: { length (standings_of (program_of source.now)) < 2 ^ 64 },
    ghost named: { map (λ n. n.items) names.items ≡ names_in (program_of source.now).parameters loops },
}

/// The place within a guard.
pub fn within_guard<'a, 'k>(alloc: Global, at: &Place<'a, 'k>) -> Result<Place<'a, 'k>, AllocError>
    ensures source { IfOk result (λ p. p.source.now ≡ at.now.source.now) }
    ensures level { IfOk result (λ p. p.level ≡ suc at.now.level) }
    ensures loops { IfOk result (λ p. p.loops ≡ at.now.loops) }
{
    let names = copies(alloc, &at.names)?;
    // no memory holds so deep a tree
    match at.level.checked_add(1) {
        Some(level) => Ok(Place {
            source: at.source,
            names,
            level,
            loops: at.loops,
        }),
        None => Err(AllocError),
    }
}

/// The place within a loop.
#[tactic(auto, using(crate::proofs::PutTexts::putting))]
pub fn within_loop<'a, 'k>(alloc: Global, at: &Place<'a, 'k>) -> Result<Place<'a, 'k>, AllocError>
    ensures source { IfOk result (λ p. p.source.now ≡ at.now.source.now) }
    ensures level { IfOk result (λ p. p.level ≡ suc at.now.level) }
    ensures loops { IfOk result (λ p. p.loops ≡ suc at.now.loops) }
{
    let mut names = copies(alloc, &at.names)?;
    let name = name_of_loop(alloc, at.loops)?;
    push_name(alloc, &mut names, &name)?;
    match (at.level.checked_add(1), at.loops.checked_add(1)) {
        (Some(level), Some(loops)) => Ok(Place {
            source: at.source,
            names,
            level,
            loops,
        }),
        _ => Err(AllocError),
    }
}
