//! The law of plans with copies, as the contract of a function that does nothing.
ghost use Rattle.std.specs.Prelude.{◌≡◌, ℕ, ◌+◌, ◌<◌, Bool, List, Option, false, if◌then◌else◌};
ghost use Rattle.scop_syntax.specs.Members.{In};
ghost use Rattle.tile_events.specs.Copies.{AreSources, IsFlowPlan, expanded};
ghost use Rattle.tile_events.specs.Plan.{GoodPlan, IsDealt, Plan, stored, values_read, waves, words_of};

/// Places read the same values from copies; a copy holds what its place stores once that is done, and the cells what
/// they held at first; and the plan with copies is good where the sources of each read come before it.
pub fn copies_keep_what_is_read()
    ensures reads { (p : Plan) (sources : ℕ → List (Option ℕ)) → ((c : ℕ) → p.adds c ≡ false)
        → ((j c : ℕ) → j < p.places → In c (p.read j) → c < p.cells)
        → ((j : ℕ) → j < p.places → AreSources p j (p.read j) (sources j)) → (j : ℕ) → j < p.places
        → values_read (expanded p sources) j ≡ values_read p j }
    ensures dealt { (p : Plan) (sources : ℕ → List (Option ℕ)) → ((c : ℕ) → p.adds c ≡ false) → p.gate ≡ waves
        → IsDealt p → ((j : ℕ) → j < p.places → AreSources p j (p.read j) (sources j)) → IsDealt (expanded p sources) }
    ensures good { (p : Plan) (sources : ℕ → List (Option ℕ)) → ((c : ℕ) → p.adds c ≡ false) → p.gate ≡ waves
        → IsDealt p → ((j : ℕ) → j < p.places → AreSources p j (p.read j) (sources j)) → IsFlowPlan p sources
        → GoodPlan (expanded p sources) }
    ensures copies { (p : Plan) (sources : ℕ → List (Option ℕ)) (done : ℕ → Bool) (n i : ℕ)
        → ((c : ℕ) → p.adds c ≡ false) → i < n
        → words_of (expanded p sources) done n (p.cells + i)
        ≡ (if done i then stored (expanded p sources) i else 0) }
    ensures cells { (p : Plan) (sources : ℕ → List (Option ℕ)) (done : ℕ → Bool) (n c : ℕ) → c < p.cells
        → words_of (expanded p sources) done n c ≡ p.initial c }
{}
