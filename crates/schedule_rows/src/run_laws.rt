//! What the determined run gives.
ghost use Rattle.std.specs.Prelude.{◌≡◌, ℕ, ◌≤◌, ℤ, pos, ◌≤ℤ◌, ◌+ℤ◌, ◌-ℤ◌, List, [], ◌∷◌, ◌++◌, ◌⊎◌, length};
ghost use Rattle.whole_numbers.specs.Lexicographic.{LexLess};
ghost use Rattle.whole_numbers.specs.Lists.{dot};
ghost use Rattle.scop_syntax.specs.Members.{In};
ghost use Rattle.scop_syntax.specs.Walk.{Instance};
ghost use Rattle.schedule_rows.specs.Items.{Row, Marked, Block, band, phi, values};
ghost use Rattle.schedule_rows.specs.Bands.{Along};
ghost use Rattle.schedule_rows.specs.Sized.{AreSized};
ghost use Rattle.iteration_domains.specs.Dependence.{Dependence};
ghost use Rattle.schedule_rows.specs.Dependences.{Relates};
ghost use Rattle.schedule_rows.specs.Next.{State, IsSizedDep};
ghost use Rattle.schedule_rows.specs.Outcomes.{Runs, IsSchedule, Outcome, Next};
ghost use Rattle.schedule_rows.specs.Posed.{IsLeast};
ghost use Rattle.schedule_rows.specs.Measure.{measure};

use null_space::{full_rank_leaves_only_0, kernel_vectors_are_kept, rows_take_kernel_vectors};
use stmt_graph::numberings_are_unique;

/// A schedule's bands have rows, and its items have a part or a number for each statement, a row a coefficient for each
/// loop round it, and no number of a row is negative or above 4096.
pub fn schedules_have_small_items()
    ensures { (m : ℕ) (loops : List ℕ) (deps : List Dependence) (blocks : List Block)
        → IsSchedule m loops deps blocks
        → AreSized loops blocks }
{}

/// Along a schedule no scalar falls at a pair of any dependence, and as long as all values before are equal no row of a
/// band does; rows that are marked parallel stay; if all are equal the pair is of one statement.
pub fn schedules_keep_every_band()
    ensures { (m : ℕ) (loops : List ℕ) (deps : List Dependence) (blocks : List Block)
        → ((d : Dependence) → In d deps → IsSizedDep loops d)
        → IsSchedule m loops deps blocks
        → (d : Dependence) (params : List ℤ) (x y : Instance)
        → In d deps
        → length params ≡ m
        → Relates params d x y
        → Along blocks x y (x.number ≡ y.number) }
{}

/// Then the item values come in order, or are equal.
pub fn values_are_in_order()
    ensures { (blocks : List Block) (x y : Instance)
        → Along blocks x y (x.number ≡ y.number)
        → LexLess (values blocks x) (values blocks y)
        ⊎ ((values blocks x ≡ values blocks y) × (x.number ≡ y.number)) }
{}

/// A row of a schedule rises by at most u.n + w at each pair of a dependence that is left when its band begins: the
/// values of all items before are equal there.
pub fn schedules_bound_distances()
    ensures { (m : ℕ) (loops : List ℕ) (deps : List Dependence) (before : List Block) (rows : List Marked)
        (behind : List Block)
        → ((d : Dependence) → In d deps → IsSizedDep loops d)
        → IsSchedule m loops deps (before ++ band rows ∷ behind)
        → (r : Marked) (d : Dependence) (params : List ℤ) (x y : Instance)
        → In r rows
        → In d deps
        → length params ≡ m
        → Relates params d x y
        → values before x ≡ values before y
        → (phi r.row y -ℤ phi r.row x) ≤ℤ (dot r.row.u params +ℤ r.row.w) }
{}

/// A run has no more steps than the measure: twice the kernel vectors and the dependences, and the open band.
pub fn runs_are_short()
    ensures { (m : ℕ) (loops : List ℕ) (s : State) (states : List State) (blocks : List Block)
        → Runs m loops s states blocks
        → length states ≤ measure loops s }
{
    kernel_vectors_are_kept();
    rows_take_kernel_vectors();
}

/// What comes next is determined: a state has one outcome.
pub fn each_state_has_one_outcome()
    ensures { (m : ℕ) (loops : List ℕ) (s : State) (o q : Outcome) → Next m loops s o → Next m loops s q → o ≡ q }
{
    numberings_are_unique();
}

/// Dependences have one schedule.
pub fn dependences_have_one_schedule()
    ensures { (m : ℕ) (loops : List ℕ) (deps : List Dependence) (blocks others : List Block)
        → IsSchedule m loops deps blocks
        → IsSchedule m loops deps others
        → blocks ≡ others }
{
    each_state_has_one_outcome();
}

/// The time of the earlier of two dependent instances, its item values and its statement's number, comes first.
pub fn times_rise_along_dependences()
    ensures { (m : ℕ) (loops : List ℕ) (deps : List Dependence) (blocks : List Block)
        → ((d : Dependence) → In d deps → IsSizedDep loops d)
        → IsSchedule m loops deps blocks
        → (d : Dependence) (params : List ℤ) (x y : Instance)
        → In d deps
        → length params ≡ m
        → Relates params d x y
        → (x.number ≡ y.number → LexLess x.turns y.turns)
        → LexLess (values blocks x ++ pos x.number ∷ []) (values blocks y ++ pos y.number ∷ []) }
{
    full_rank_leaves_only_0();
}

/// A posed set has one least row.
pub fn least_rows_are_unique()
    ensures { (m : ℕ) (loops : List ℕ) (deps : List Dependence) (before : List Row) (r q : Row)
        → IsLeast m loops deps before r
        → IsLeast m loops deps before q
        → r ≡ q }
{}
