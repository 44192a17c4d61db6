//! What certifying gives, as the contract of a function that calls the laws which its proof uses.
ghost use Rattle.std.specs.Prelude.{◌≡◌, ◌<◌, ◌^◌, List, Ok, length, true, ℕ};
ghost use Rattle.scop_lexer.specs.Bytes.{Text};
ghost use Rattle.scop_syntax.specs.Kernel.{IsKernel};
ghost use Rattle.scop_syntax.specs.Tree.{Program};
ghost use Rattle.iteration_domains.specs.Dependence.{Dependence};
ghost use Rattle.iteration_domains.specs.Model.{model_of};
ghost use Rattle.schedule_rows.specs.Items.{Block};
ghost use Rattle.schedule_rows.specs.Outcomes.{IsSchedule};
ghost use Rattle.schedule_rows.specs.Schedule.{loops_in};
ghost use Rattle.plan_check.specs.Judged.{judged};
ghost use Rattle.plan_certificate.specs.Certificates.{certificate_of, IsNarrow};

use crate::derivation_laws::derivations_are_accepted;
use conflict_deps::systems_have_parts;
use plan_check::lines_are_read_where_they_are_printed;
use schedule_rows::schedules_have_small_items;
use scop_syntax::statements_are_numbered;

/// What certifying a schedule gives is a certificate, where its text has fewer than 2^127 bytes.
pub fn certificates_are_accepted()
    ensures { (program : Program) (deps : List Dependence) (blocks : List Block) (text : Text) → IsKernel program
        → IsSchedule (model_of program).parameters (loops_in (model_of program)) deps blocks
        → IsNarrow (model_of program) blocks → length text < 2 ^ 127
        → certificate_of (model_of program) blocks ≡ Ok text → judged program text ≡ Ok true }
{
    lines_are_read_where_they_are_printed();
    derivations_are_accepted();
    schedules_have_small_items();
    systems_have_parts();
    statements_are_numbered();
}
