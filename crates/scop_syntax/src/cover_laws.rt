//! The closure law: of the conflicts of a walk those with last and next writers are enough, since each other one is a
//! chain of them by its own cell (P. Feautrier, "Dataflow analysis of array and scalar references", International
//! Journal of Parallel Programming 20, 1991).
ghost use Rattle.std.specs.Prelude.{ℕ, ◌<◌, List};
ghost use Rattle.scop_syntax.specs.Cells.{Cell, PlacesConflict, conflict_cell};
ghost use Rattle.scop_syntax.specs.Covers.{Chain, Cover};
ghost use Rattle.scop_syntax.specs.Walk.{Visit};

/// Of two places that conflict the later is reached from the earlier by covers alone, one after another, all by the cell
/// that both touch; covers are conflicts themselves, and a chain of them goes upwards.
#[tactic(auto, using(crate::proofs::Covers::cover_laws))]
pub fn conflicts_are_chains_of_covers()
    ensures closure { (visits : List Visit) (i j : ℕ) (p : PlacesConflict visits i j)
        → Chain visits (conflict_cell p) i j }
    ensures covers { (visits : List Visit) (i j : ℕ) → Cover visits i j → PlacesConflict visits i j }
    ensures rises { (visits : List Visit) (c : Cell) (i j : ℕ) → Chain visits c i j → i < j }
{}
