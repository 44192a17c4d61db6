//! Certificates of plans: the goals of a kernel's conflicts under a plan, derivations that a goal has no whole point, and
//! their checker, which has no solver and no search.
//! Promises that a text is judged exactly as specs/Judged.antt says, line by line (`check_plan`), that the lines that
//! are read are the printed ones (`text_laws`), that a rejection tells the first fault (`judging_laws`), and that a plan
//! whose goals have no whole point is a good plan of the kernel (`plan_laws`).
//! V. Chvátal, "Edmonds polytopes and a hierarchy of combinatorial problems" (1973).
#![tactic(auto)]

mod checker;
mod checking;
mod derivation_laws;
mod differences;
mod goals;
mod judging_laws;
mod kinds;
mod laying;
mod lines;
mod next;
mod numbered_rows;
mod plan;
mod plan_laws;
mod proving;
mod row_goals;
mod text;
mod text_laws;
mod walk;

pub use checker::Checker;
pub use checking::check_plan;
pub use derivation_laws::{derivations_leave_no_point, needless_lines_may_be_left_out};
pub use goals::Goals;
pub use judging_laws::{rejections_are_the_first, texts_say_one_plan};
pub use kinds::{CheckStop, FaultKind};
pub use lines::{Fault, Line, LineStop, Term, contradicts, quotient_of, sum_of_terms};
pub use next::Next;
pub use numbered_rows::{goal_rows, goal_variables};
pub use plan::{BandRow, LaterItem, PlanItems};
pub use plan_laws::goals_without_points_make_good_plans;
pub use text_laws::lines_are_read_where_they_are_printed;
