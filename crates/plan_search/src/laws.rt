//! That what `schedule` prints is one text, as the contract of a function that calls the laws which its proof uses.

ghost use Rattle.std.specs.Prelude.{◌≡◌, ℕ, List};
ghost use Rattle.iteration_domains.specs.Model.{KernelModel};
ghost use Rattle.plan_search.specs.Planning.{IsPlanOf};

use pluto_search::{dependences_have_one_schedule, searches_answer_once};

/// A model has one text within one budget: that of its schedule, or that of the line of its cause.
pub fn models_have_one_plan_text()
    ensures { (budget : ℕ) (model : KernelModel) (text other : List ℕ)
        → IsPlanOf budget model text
        → IsPlanOf budget model other
        → text ≡ other }
{
    dependences_have_one_schedule();
    searches_answer_once();
}
