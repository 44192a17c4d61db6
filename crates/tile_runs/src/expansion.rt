//! What a run knows beforehand in which each instance writes a copy of its own: the sources of the walk's reads, and
//! the expansion of its plan.
ghost use Rattle.std.specs.Prelude.{◌≡◌, ◌<◌, ℕ, ⊤, IfErr, IfOk, List, MatchOption, is_some, length};
ghost use Rattle.scop_syntax.specs.Execution.{IsInside, layout, total_cells};
ghost use Rattle.scop_syntax.specs.Limits.{WithinLimits};
ghost use Rattle.scop_syntax.specs.View.{program_of};
ghost use Rattle.scop_syntax.specs.Walk.{walk_of};
ghost use Rattle.loop_tree.specs.Tiling.{Tiling};
ghost use Rattle.loop_tree.specs.View.{trees_in};
ghost use Rattle.planned_trees.specs.Trees.{AreTreesOf};
ghost use Rattle.expansions.specs.Expansions.{AreSourcesOf};
ghost use Rattle.expansions.specs.declared.sourcing.NoSources.TheVariants.{Copies as copies};
ghost use Rattle.tile_core.specs.Expansions.{IsExpansionOf};

use data_text::Case;
use expansions::{NoSources, Sources, source_places};
use loop_tree::Tree;
use planned_trees::trees_of_plans_can_be_walked;
use scop_syntax::Kernel;
use std::alloc::{AllocError, Global};
use tile_core::Expansion;
use tile_list::TileList;
use tile_table::Table;

/// Of each read of each place of a kernel's walk the place whose value it takes.
///
/// # Errors
/// `Copies` exactly where the walk has more than 2^22 places, else `NoMemory`.
pub fn sources_of(alloc: Global, kernel: &Kernel, case: &Case) -> Result<Sources, NoSources>
    requires limits { WithinLimits (program_of kernel.now) case.now.params.items }
    requires laid { case.now.extents ≡ layout (program_of kernel.now) case.now.params.items }
    requires inside { IsInside (program_of kernel.now) case.now.params.items }
    ensures sources { IfOk result (AreSourcesOf (program_of kernel.now) case.now.params.items) }
    ensures copies { IfErr result (λ stop. stop ≡ copies
        → 4194304 < length (walk_of (program_of kernel.now) case.now.params.items)) }
{
    match Table::of(alloc, kernel, &case.params, &case.extents, &[]) {
        Err(_) => Err(NoSources::NoMemory),
        Ok(table) => source_places(alloc, kernel, &case.params, &table),
    }
}

/// The expansion of a plan with this tree and these tiles, where there are sources. `cells` is how many cells all
/// arrays have.
///
/// # Errors
/// `AllocError` alone.
pub(crate) fn expansion_of(
    alloc: Global,
    kernel: &Kernel,
    case: &Case,
    tree: &Tree,
    list: &TileList,
    cells: usize,
    sources: Option<Sources>,
) -> Result<Option<Expansion>, AllocError>
    requires limits { WithinLimits (program_of kernel.now) case.now.params.items }
    requires trees { (marked : List ℕ) × (tiling : Tiling)
        × AreTreesOf (program_of kernel.now) marked tiling (trees_in tree.now) }
    requires cells { cells ≡ total_cells (layout (program_of kernel.now) case.now.params.items) }
    requires sources { MatchOption sources ⊤ (AreSourcesOf (program_of kernel.now) case.now.params.items) }
    ensures is { IfOk result (λ o. MatchOption o ⊤ (IsExpansionOf (program_of kernel.now) case.now.params.items
        (trees_in tree.now) list.now)) }
    ensures some { IfOk result (λ o. is_some o ≡ is_some sources) }
{
    trees_of_plans_can_be_walked();
    match sources {
        None => Ok(None),
        Some(sources) => {
            let expansion = Expansion::of(alloc, kernel, &case.params, tree, list, cells, sources)?;
            Ok(Some(expansion))
        }
    }
}
