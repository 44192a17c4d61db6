//! Laws of the execution, as contracts of functions that do nothing: what a cell holds, by its last
//! writer, and where cells lie.
ghost use Rattle.std.specs.Prelude.{◌≡◌, ℕ, ◌+◌, ◌<◌, ◌≤◌, List, length, map, slice_get, Some, None, false};
ghost use Rattle.scop_syntax.specs.Walk.{Visit};
ghost use Rattle.scop_syntax.specs.Cells.{Cell, PlacesConflict, cells_read, written};
ghost use Rattle.scop_syntax.specs.Execution.{AreInside, IsCell, IsShaped, before_place, cell_number, held};
ghost use Rattle.scop_syntax.specs.Execution.{performed_all, stored, total_cells, value_stored_at, values_read_at};
ghost use Rattle.scop_syntax.specs.Writers.{IsLast, IsNext, last_of, last_writer, left_by, next_of, next_writer};
ghost use Rattle.scop_syntax.specs.Writers.{writes};

/// The execution goes from place to place: the visit there stores its value over what the places
/// before have left.
#[tactic(auto, using(crate::proofs::Writers::place_laws))]
pub fn executions_go_along_the_places()
    ensures goes_on { (extents contents : List (List ℕ)) (visits : List Visit) (j : ℕ) (v : Visit)
        → slice_get visits j ≡ Some v → before_place extents contents visits (j + 1)
        ≡ stored extents (before_place extents contents visits j) (written v)
        (value_stored_at extents contents visits j) }
    ensures ends { (extents contents : List (List ℕ)) (visits : List Visit)
        → before_place extents contents visits (length visits) ≡ performed_all extents contents visits }
{}

/// Before each place and at the end a cell holds what its last writer has stored, else what stood
/// there at first.
#[tactic(auto, using(crate::proofs::Writers::writer_laws))]
pub fn cells_hold_the_last_write()
    ensures before { (extents contents : List (List ℕ)) (visits : List Visit) (j : ℕ) (c : Cell)
        → j ≤ length visits → IsShaped extents contents → AreInside extents visits → IsCell extents c
        → held extents (before_place extents contents visits j) c
        ≡ left_by extents contents visits c (last_writer visits j c) }
    ensures after { (extents contents : List (List ℕ)) (visits : List Visit) (c : Cell)
        → IsShaped extents contents → AreInside extents visits → IsCell extents c
        → held extents (performed_all extents contents visits) c
        ≡ left_by extents contents visits c (last_writer visits (length visits) c) }
{}

/// The values that a visit reads are those of the last writers of its cells, else what stood there
/// at first.
#[tactic(auto, using(crate::proofs::Writers::reads_left))]
pub fn reads_see_the_last_write()
    ensures { (extents contents : List (List ℕ)) (visits : List Visit) (j : ℕ) (v : Visit)
        → slice_get visits j ≡ Some v → IsShaped extents contents → AreInside extents visits
        → values_read_at extents contents visits j
        ≡ map (λ c. left_by extents contents visits c (last_writer visits j c)) (cells_read v) }
{}

/// The last writer of a cell before a place is the greatest earlier place that writes it.
#[tactic(auto, using(crate::proofs::Writers::writer_laws))]
pub fn last_writers_are_greatest_places()
    ensures last { (visits : List Visit) (j : ℕ) (c : Cell) (i : ℕ)
        → last_writer visits j c ≡ Some i → IsLast visits j c i }
    ensures initial { (visits : List Visit) (j : ℕ) (c : Cell) → last_writer visits j c ≡ None
        → (k : ℕ) → k < j → writes (slice_get visits k) c ≡ false }
{}

/// The next writer of a cell behind a place is the least later place that writes it.
#[tactic(auto, using(crate::proofs::Writers::writer_laws))]
pub fn next_writers_are_least_places()
    ensures next { (visits : List Visit) (j : ℕ) (c : Cell) (k : ℕ)
        → next_writer visits j c ≡ Some k → IsNext visits j c k }
    ensures none { (visits : List Visit) (j : ℕ) (c : Cell) → next_writer visits j c ≡ None
        → (k : ℕ) → j < k → writes (slice_get visits k) c ≡ false }
{}

/// The last and the next writer of a cell that an access touches conflict with the access's place.
#[tactic(auto, using(crate::proofs::Conflicts::conflict_laws))]
pub fn writers_conflict()
    ensures last { (visits : List Visit) (j a i : ℕ) → last_of visits j a ≡ Some i → PlacesConflict visits i j }
    ensures next { (visits : List Visit) (j a k : ℕ) → next_of visits j a ≡ Some k → PlacesConflict visits j k }
{}

/// Among the cells of all arrays each has a number of its own, below the number of cells.
#[tactic(auto, using(crate::proofs::Numbers::number_laws))]
pub fn cells_have_numbers_of_their_own()
    ensures below { (extents : List (List ℕ)) (c : Cell)
        → IsCell extents c → cell_number extents c < total_cells extents }
    ensures apart { (extents : List (List ℕ)) (c d : Cell) → IsCell extents c → IsCell extents d
        → cell_number extents c ≡ cell_number extents d → c ≡ d }
{}
