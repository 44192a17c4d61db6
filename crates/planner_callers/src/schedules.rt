//! Callers of schedules.
ghost use Rattle.std.specs.Prelude.{◌≡◌, ◌<◌, ◌≤◌, ◌+◌, ◌++◌, ◌∷◌, ◌↔◌, [], true, All, IfOk, List, Some, ℕ, length};
ghost use Rattle.std.specs.Prelude.{slice_get};
ghost use Rattle.scop_syntax.specs.Members.{In};
ghost use Rattle.iteration_domains.specs.Dependence.{Dependence};
ghost use Rattle.schedule_rows.specs.Dependences.{IsEqualAt};
ghost use Rattle.schedule_rows.specs.Items.{Block, Marked, Row, band, scalar};
ghost use Rattle.schedule_rows.specs.Outcomes.{IsSchedule, state};
ghost use Rattle.schedule_rows.specs.Reaching.{Reached};
ghost use Rattle.schedule_rows.specs.Schedule.{items_of, loops_in, row};

use iteration_domains::Model;
use schedule_rows::Schedule;
use std::alloc::{AllocError, Global};

/// A row is told as parallel exactly where it has equal values at all pairs that remained where its own band began, by
/// `exact` of `is_parallel`, with what it says of the row's place written out.
pub fn is_parallel_row(schedule: &Schedule, item: usize) -> bool
    requires { item < length schedule.now.items }
    ensures { (r : Row) → slice_get schedule.now.items item ≡ Some (row r)
        → (before : List Block) × (rows : List Marked) × (behind : List Block) × (at : ℕ)
        × (remaining : List Dependence)
        × IsSchedule schedule.now.model.parameters (loops_in schedule.now.model) schedule.now.deps
        (before ++ band rows ∷ behind)
        × (schedule.now.items ≡ items_of (before ++ band rows ∷ behind))
        × (item ≡ length (items_of before) + at)
        × (slice_get rows at ≡ Some (record { row = r; parallel = result }))
        × Reached schedule.now.model.parameters (loops_in schedule.now.model) schedule.now.deps
        (state before [] remaining)
        × ((result ≡ true) ↔ ((d : Dependence) → In d remaining
        → IsEqualAt schedule.now.model.parameters r d)) }
{
    schedule.is_parallel(item)
}

/// The model of a schedule has its parameters, by the clause of `Schedule::model`.
pub fn model_of_schedule<'a>(schedule: &'a Schedule) -> &'a Model
    ensures { result.now.parameters ≡ schedule.now.model.parameters }
{
    schedule.model()
}

/// A scalar of a schedule of no statement has no number, by the clause of `schedules_have_small_items`.
pub fn scalars_of_no_statement()
    ensures { (deps : List Dependence) (numbers : List ℕ) → IsSchedule 0 [] deps (scalar numbers ∷ [])
        → length numbers ≡ 0 }
{
    schedule_rows::schedules_have_small_items();
}

/// Without statements there are no loops, by `loops` of `loops_in`; at most five stand round each, by `few`.
pub fn loops_round_statements(alloc: Global, model: &Model) -> Result<Vec<usize>, AllocError>
    ensures loops { IfOk result (λ v. model.now.statements ≡ [] → v.items ≡ []) }
    ensures few { IfOk result (λ v. All (λ l. l ≤ 5) v.items) }
{
    pluto_systems::loops_in(alloc, model)
}
