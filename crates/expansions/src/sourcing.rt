//! The sources of a walk's reads, by one pass over its places with a mark for each cell.
ghost use Rattle.std.specs.Prelude.{◌≡◌, ◌<◌, ◌≤◌, [], IfErr, IfOk, OnOk, length, map};
ghost use Rattle.scop_syntax.specs.Execution.{IsInside};
ghost use Rattle.scop_syntax.specs.Limits.{WithinLimits};
ghost use Rattle.scop_syntax.specs.View.{program_of};
ghost use Rattle.scop_syntax.specs.Walk.{instance, walk_of};
ghost use Rattle.loop_tree.specs.Conditions.{CanWalk};
ghost use Rattle.loop_tree.specs.SpotView.{IsSpotOf, to_come};
ghost use Rattle.loop_tree.specs.View.{trees_in};
ghost use Rattle.loop_tree.specs.Walk.{visits};
ghost use Rattle.tile_table.specs.Tables.{IsTableOf};
ghost use Rattle.expansions.specs.Expansions.{AreSourcesOf};
ghost use Rattle.expansions.specs.declared.sourcing.NoSources.TheVariants.{Copies as copies};
ghost use Rattle.expansions.specs.steps.Marks.{HasPassed};
ghost use Rattle.expansions.specs.steps.Passing.{AreSourcesIfFew, CanPass, IsOnItsWay, ReadFew};

use crate::counting::visits_few;
use crate::marking::{mark, put_marks};
use loop_tree::{Spot, Tree};
use scop_syntax::{
    Kernel, cells_have_numbers_of_their_own, cells_lie_within_22_bits,
    instances_are_those_of_statements, statements_are_numbered,
};
use std::alloc::{AllocError, Global};
use tile_table::{Row, Table};

/// The sources of a walk's reads: those of place `j` are `most` numbers from the number `j * most` on, of its reads in the
/// order of the text, each 0 where the read takes the initial value of its cell, or one more than the place of the walk
/// whose value it takes; behind the reads stand zeros. `most` is as many reads as any statement has.
#[derive(Drop)]
pub struct Sources {
    pub numbers: Vec<u32>,
    pub most: usize,
}

/// Why no sources are given: the walk has more than 2^22 places, or memory ran out.
#[derive(Clone, Copy)]
pub enum NoSources {
    Copies,
    NoMemory,
}

/// The marks of cells before a place of the walk, from 0, and the numbers of all places before it.
#[derive(Drop)]
pub struct Pass {
    pub marks: Vec<u32>,
    pub numbers: Vec<u32>,
    pub place: u32,
}

/// The greater number.
fn larger(left: usize, right: usize) -> usize
    ensures left { left ≤ result }
    ensures right { right ≤ result }
{
    if left < right { right } else { left }
}

/// The greatest number of reads.
fn most_reads(rows: &[Row]) -> usize
    ensures { ReadFew rows.now result }
{
    let mut most = 0;
    for row in rows {
        most = larger(most, row.reads());
    }
    most
}

impl Pass {
    /// Passes a place, whose statement has this row.
    fn pass(&mut self, row: &Row, turns: &[i64], most: usize) -> Result<(), AllocError>
        requires place { self.old.place < 4194304 }
        requires row { 0 < length row.now.cells.items }
        ensures { OnOk result (HasPassed row.now turns.now most self.old self.new) }
    {
        put_marks(self.marks.as_slice(), row, turns, most, &mut self.numbers)?;
        mark(&mut self.marks, row.cell_at(turns, 0), self.place)?;
        self.place += 1;
        Ok(())
    }
}

/// Passes all places that are left.
fn pass_rest(
    kernel: &Kernel,
    source: &Tree,
    params: &[i64],
    table: &Table,
    most: usize,
    spot: &mut Spot,
    pass: &mut Pass,
) -> Result<(), AllocError>
    requires can { CanPass (program_of kernel.now) params.now table.now }
    requires walk { CanWalk (trees_in source.now) params.now [] }
    requires spot { IsSpotOf (trees_in source.now) params.now spot.old }
    requires way { IsOnItsWay (program_of kernel.now) params.now most
        (to_come (trees_in source.now) params.now spot.old) pass.old }
    ensures { OnOk result (IsOnItsWay (program_of kernel.now) params.now most [] pass.new) }
{
    instances_are_those_of_statements();
    statements_are_numbered();
    cells_lie_within_22_bits();
    cells_have_numbers_of_their_own();
    while let Some(instance) = spot.next(source, params) {
        pass.pass(table.row(instance.statement), instance.turns(), most)?;
    }
    Ok(())
}

/// The sources of the reads of a walk with no more places than there may be.
fn sources_of(
    alloc: Global,
    kernel: &Kernel,
    source: &Tree,
    params: &[i64],
    table: &Table,
) -> Result<Sources, AllocError>
    requires can { CanPass (program_of kernel.now) params.now table.now }
    requires walk { CanWalk (trees_in source.now) params.now [] }
    requires visits { visits (trees_in source.now) params.now
        ≡ map instance (walk_of (program_of kernel.now) params.now) }
    ensures { IfOk result (AreSourcesOf (program_of kernel.now) params.now) }
{
    instances_are_those_of_statements();
    statements_are_numbered();
    let most = most_reads(table.rows.as_slice());
    let mut spot = Spot::of(alloc, source)?;
    let marks = Vec::new(alloc);
    let numbers = Vec::new(alloc);
    let mut pass = Pass {
        marks,
        numbers,
        place: 0,
    };
    pass_rest(kernel, source, params, table, most, &mut spot, &mut pass)?;
    Ok(Sources {
        numbers: pass.numbers,
        most,
    })
}

/// The sources, unless there are more places than there may be.
fn sources_if_few(
    alloc: Global,
    kernel: &Kernel,
    params: &[i64],
    table: &Table,
) -> Result<Option<Sources>, AllocError>
    requires limits { WithinLimits (program_of kernel.now) params.now }
    requires inside { IsInside (program_of kernel.now) params.now }
    requires table { IsTableOf (program_of kernel.now) params.now table.now }
    ensures { IfOk result (AreSourcesIfFew (program_of kernel.now) params.now) }
{
    let source = Tree::of_source(alloc, kernel)?;
    let few = visits_few(alloc, &source, params)?;
    if few {
        let sources = sources_of(alloc, kernel, &source, params, table)?;
        return Ok(Some(sources));
    }
    Ok(None)
}

/// Of each read of each place of the walk the place whose value it takes, by one pass over the walk.
///
/// # Errors
/// `Copies` exactly where the walk has more than 2^22 places, else `NoMemory`.
pub fn source_places(
    alloc: Global,
    kernel: &Kernel,
    params: &[i64],
    table: &Table,
) -> Result<Sources, NoSources>
    requires limits { WithinLimits (program_of kernel.now) params.now }
    requires inside { IsInside (program_of kernel.now) params.now }
    requires table { IsTableOf (program_of kernel.now) params.now table.now }
    ensures sources { IfOk result (AreSourcesOf (program_of kernel.now) params.now) }
    ensures copies { IfErr result (λ stop. stop ≡ copies
        → 4194304 < length (walk_of (program_of kernel.now) params.now)) }
{
    match sources_if_few(alloc, kernel, params, table) {
        Err(_) => Err(NoSources::NoMemory),
        Ok(None) => Err(NoSources::Copies),
        Ok(Some(sources)) => Ok(sources),
    }
}
