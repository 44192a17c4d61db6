//! The places at which a plan's tree visits the walk.
ghost use Rattle.std.specs.Prelude.{◌≡◌, ◌≤◌, ℕ, [], IfOk, OnOk, length};
ghost use Rattle.scop_syntax.specs.Limits.{WithinLimits};
ghost use Rattle.scop_syntax.specs.View.{instance_of, program_of};
ghost use Rattle.loop_tree.specs.Conditions.{CanWalk};
ghost use Rattle.loop_tree.specs.Plans.{walked};
ghost use Rattle.loop_tree.specs.SpotView.{IsSpotOf, to_come};
ghost use Rattle.loop_tree.specs.View.{trees_in};
ghost use Rattle.loop_tree.specs.Walk.{visits};
ghost use Rattle.expansions.specs.Expansions.{ArePlacesOf, AreWalked};
ghost use Rattle.expansions.specs.steps.Listing.{AreListed, HasPut, entries_in};

use crate::listing::{Listed, find, list};
use loop_tree::{Spot, Tree};
use scop_syntax::{Instance, Kernel, instances_are_those_of_statements, statements_are_numbered};
use std::alloc::{AllocError, Global};

/// Lists the instances of the walk.
fn lists_of(alloc: Global, kernel: &Kernel, params: &[i64]) -> Result<Vec<Listed>, AllocError>
    requires limits { WithinLimits (program_of kernel.now) params.now }
    requires few { length (walked (program_of kernel.now) params.now) ≤ 4194304 }
    ensures { IfOk result (λ lists. AreListed (walked (program_of kernel.now) params.now) lists.items) }
{
    let source = Tree::of_source(alloc, kernel)?;
    let mut spot = Spot::of(alloc, &source)?;
    let mut lists = Vec::new(alloc);
    let mut place = 0u32;
    while let Some(instance) = spot.next(&source, params) {
        place = list(alloc, &mut lists, &instance, place)?;
    }
    Ok(lists)
}

/// Puts down the place of an instance.
fn put_place(
    lists: &mut Vec<Listed>,
    instance: &Instance,
    places: &mut Vec<u32>,
) -> Result<(), AllocError>
    ensures same { (s : ℕ) → entries_in lists.new.items s ≡ entries_in lists.old.items s }
    ensures put { OnOk result (HasPut (entries_in lists.old.items (instance_of instance.now).number)
        (instance_of instance.now).turns places.old.items places.new.items) }
{
    match find(lists, instance) {
        None => Err(AllocError),
        Some(place) => {
            places.push(place)?;
            Ok(())
        }
    }
}

/// Puts down the places of the instances that are to come.
fn place_rest(
    kernel: &Kernel,
    tree: &Tree,
    params: &[i64],
    spot: &mut Spot,
    lists: &mut Vec<Listed>,
    places: &mut Vec<u32>,
) -> Result<(), AllocError>
    requires walk { CanWalk (trees_in tree.now) params.now [] }
    requires walked { AreWalked (program_of kernel.now) params.now (visits (trees_in tree.now) params.now) }
    requires spot { IsSpotOf (trees_in tree.now) params.now spot.old }
    requires rest { to_come (trees_in tree.now) params.now spot.old ≡ visits (trees_in tree.now) params.now }
    requires lists { AreListed (walked (program_of kernel.now) params.now) lists.old.items }
    requires none { places.old.items ≡ [] }
    ensures { OnOk result (ArePlacesOf (program_of kernel.now) params.now (trees_in tree.now) places.new.items) }
{
    instances_are_those_of_statements();
    statements_are_numbered();
    while let Some(instance) = spot.next(tree, params) {
        put_place(lists, &instance, places)?;
    }
    Ok(())
}

/// Of each visit of a plan's tree, in the order of visits, its place in the kernel's walk.
///
/// # Errors
/// `AllocError` alone.
pub fn places_of_visits(
    alloc: Global,
    kernel: &Kernel,
    params: &[i64],
    tree: &Tree,
) -> Result<Vec<u32>, AllocError>
    requires limits { WithinLimits (program_of kernel.now) params.now }
    requires few { length (walked (program_of kernel.now) params.now) ≤ 4194304 }
    requires walk { CanWalk (trees_in tree.now) params.now [] }
    requires walked { AreWalked (program_of kernel.now) params.now (visits (trees_in tree.now) params.now) }
    ensures { IfOk result (λ places. ArePlacesOf (program_of kernel.now) params.now (trees_in tree.now) places.items) }
{
    let mut lists = lists_of(alloc, kernel, params)?;
    let mut spot = Spot::of(alloc, tree)?;
    let mut places = Vec::new(alloc);
    place_rest(kernel, tree, params, &mut spot, &mut lists, &mut places)?;
    Ok(places)
}
