//! What a schedule is for, and that a search has one answer, as contracts of functions that call the laws which their
//! proofs use.
ghost use Rattle.std.specs.Prelude.{◌≡◌, ℕ, ℤ, List, Result, length, false};
ghost use Rattle.whole_numbers.specs.Lexicographic.{LexLess};
ghost use Rattle.scop_syntax.specs.Cells.{PlacesConflict, conflict_cell};
ghost use Rattle.scop_syntax.specs.Members.{In};
ghost use Rattle.scop_syntax.specs.Reductions.{is_marked};
ghost use Rattle.scop_syntax.specs.Tree.{Program};
ghost use Rattle.scop_syntax.specs.Walk.{walk_of, instance};
ghost use Rattle.iteration_domains.specs.Dependence.{Dependence};
ghost use Rattle.iteration_domains.specs.Held.{HoldCovers};
ghost use Rattle.iteration_domains.specs.Model.{KernelModel, model_of};
ghost use Rattle.schedule_rows.specs.Items.{Block, values};
ghost use Rattle.schedule_rows.specs.Next.{IsSizedDep};
ghost use Rattle.schedule_rows.specs.Outcomes.{IsSchedule};
ghost use Rattle.schedule_rows.specs.Schedule.{Scheduled, loops_in};
ghost use Rattle.pluto_search.specs.Alike.{AreAlike, IsDecided};
ghost use Rattle.pluto_search.specs.Searching.{Searches};
ghost use Rattle.pluto_search.specs.declared.kept.Kept.{Kept};

use null_space::full_rank_leaves_only_0;
use schedule_rows::each_state_has_one_outcome;
use scop_syntax::{conflicts_are_chains_of_covers, walks_are_in_order};

/// Along a schedule of dependences that hold the covers of a program's walk, but for those on marked arrays, the item
/// values of two places that conflict on another array rise from the earlier to the later.
pub fn schedules_order_conflicts()
    ensures { (program : Program) (marked : List ℕ) (deps : List Dependence) (blocks : List Block) (params : List ℤ)
        (i j : ℕ) (c : PlacesConflict (walk_of program params) i j) → is_marked marked (conflict_cell c).array ≡ false
        → length params ≡ length program.parameters
        → ((d : Dependence) → In d deps → IsSizedDep (loops_in (model_of program)) d)
        → HoldCovers program params marked deps
        → IsSchedule (model_of program).parameters (loops_in (model_of program)) deps blocks
        → LexLess (values blocks (instance c.earlier)) (values blocks (instance c.later)) }
{
    conflicts_are_chains_of_covers();
    walks_are_in_order();
    full_rank_leaves_only_0();
}

/// A search has one answer but for want of memory: two answers for the same dependences and budget are one schedule, or
/// one cause with all that it tells.
pub fn searches_answer_once()
    ensures { (model : KernelModel) (deps : List Dependence) (budget : ℕ) (a b : Result Scheduled Kept)
        → Searches model deps budget a
        → Searches model deps budget b
        → IsDecided a
        → IsDecided b
        → AreAlike a b }
{
    each_state_has_one_outcome();
}
