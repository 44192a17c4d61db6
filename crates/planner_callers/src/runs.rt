//! Callers of what the determined run gives.
ghost use Rattle.std.specs.Prelude.{◌≡◌, ◌∷◌, ◌++◌, [], ◌⊎◌, ◌<◌, ◌≤◌, ◌-◌, ℕ, ℤ, pos, ◌<ℤ◌, ◌≤ℤ◌, ◌+ℤ◌, ◌-ℤ◌, Err, List};
ghost use Rattle.std.specs.Prelude.{Ok, true, false, length};
ghost use Rattle.whole_numbers.specs.Floor.{floor};
ghost use Rattle.whole_numbers.specs.Lexicographic.{LexLess};
ghost use Rattle.whole_numbers.specs.Lists.{dot, zeros};
ghost use Rattle.integer_sets.specs.Constraints.{Constraints};
ghost use Rattle.scop_syntax.specs.Cells.{PlacesConflict, conflict_cell};
ghost use Rattle.scop_syntax.specs.Members.{In};
ghost use Rattle.scop_syntax.specs.Reductions.{is_marked};
ghost use Rattle.scop_syntax.specs.Tree.{Program};
ghost use Rattle.scop_syntax.specs.Walk.{Instance, instance, walk_of};
ghost use Rattle.iteration_domains.specs.Dependence.{Dependence};
ghost use Rattle.iteration_domains.specs.Held.{HoldCovers};
ghost use Rattle.iteration_domains.specs.Model.{KernelModel, model_of};
ghost use Rattle.schedule_rows.specs.Bands.{Along};
ghost use Rattle.schedule_rows.specs.Dependences.{Relates};
ghost use Rattle.schedule_rows.specs.Items.{Block, Marked, Row, band, phi, values};
ghost use Rattle.schedule_rows.specs.Measure.{measure};
ghost use Rattle.schedule_rows.specs.Next.{IsSizedDep, State};
ghost use Rattle.schedule_rows.specs.Outcomes.{IsSchedule, Next, Outcome, Runs, ends};
ghost use Rattle.schedule_rows.specs.Posed.{IsLeast};
ghost use Rattle.schedule_rows.specs.Schedule.{Scheduled, loops_in};
ghost use Rattle.pluto_search.specs.Searching.{Searches};
ghost use Rattle.pluto_search.specs.declared.kept.Kept.TheVariants.{NoRow};

/// Of one band of one row: its value does not fall along a dependence, stays where the row is parallel, and where it does
/// not rise the statements are one, by the clause of `schedules_keep_every_band`.
pub fn pairs_along_one_row()
    ensures { (loops : List ℕ) (deps : List Dependence) (r : Marked) (d : Dependence) (x y : Instance)
        → ((d : Dependence) → In d deps → IsSizedDep loops d) → IsSchedule 0 loops deps (band (r ∷ []) ∷ [])
        → In d deps → Relates [] d x y
        → (phi r.row x ≤ℤ phi r.row y) × (r.parallel ≡ true → phi r.row x ≡ phi r.row y)
        × ((phi r.row x <ℤ phi r.row y) ⊎ ((phi r.row x ≡ phi r.row y) × (x.number ≡ y.number))) }
{
    schedule_rows::schedules_keep_every_band();
}

/// The values of one block come in order or are equal, by the clause of `values_are_in_order`.
pub fn values_of_one_block()
    ensures { (block : Block) (x y : Instance) → Along (block ∷ []) x y (x.number ≡ y.number)
        → LexLess (values (block ∷ []) x) (values (block ∷ []) y)
        ⊎ ((values (block ∷ []) x ≡ values (block ∷ []) y) × (x.number ≡ y.number)) }
{
    schedule_rows::values_are_in_order();
}

/// Under tiles of a schedule of one row that carries the wave rises along a dependence, or both instances lie in one
/// tile and the times rise, by the clause of `tiled_dependences_are_in_order`.
pub fn plans_of_one_row()
    ensures { (loops : List ℕ) (deps : List Dependence) (size : ℕ) (r : Row) (d : Dependence) (x y : Instance)
        → 0 < size → ((d : Dependence) → In d deps → IsSizedDep loops d)
        → IsSchedule 0 loops deps (band (record { row = r; parallel = false } ∷ []) ∷ []) → In d deps
        → Relates [] d x y → LexLess x.turns y.turns
        → LexLess ((floor (phi r x) (pos size) +ℤ pos 0) ∷ []) ((floor (phi r y) (pos size) +ℤ pos 0) ∷ [])
        ⊎ ((floor (phi r x) (pos size) ∷ [] ≡ floor (phi r y) (pos size) ∷ [])
        × LexLess ((floor (phi r x) (pos size) +ℤ pos 0) ∷ floor (phi r x) (pos size) ∷ phi r x ∷ (x.turns ++ (zeros
        (5 - length x.turns) ++ pos x.number ∷ []))) ((floor (phi r y) (pos size) +ℤ pos 0)
        ∷ floor (phi r y) (pos size) ∷ phi r y ∷ (y.turns ++ (zeros (5 - length y.turns) ++ pos y.number ∷ [])))) }
{
    tile_skew::tiled_dependences_are_in_order();
}

/// Under tiles of a schedule of one row that carries, in a kernel without parameters, the wave rises between two places
/// that conflict, or they lie in one tile, where the dependences hold the covers of the walk, by the clause of
/// `tiled_schedules_are_good_plans`.
pub fn plans_of_covers()
    ensures { (program : Program) (marked : List ℕ) (deps : List Dependence) (size i j : ℕ) (r : Row)
        (c : PlacesConflict (walk_of program []) i j) → 0 < size → program.parameters ≡ []
        → c.earlier.number < length (model_of program).statements
        → c.later.number < length (model_of program).statements → is_marked marked (conflict_cell c).array ≡ false
        → ((d : Dependence) → In d deps → IsSizedDep (loops_in (model_of program)) d)
        → HoldCovers program [] marked deps
        → IsSchedule (model_of program).parameters (loops_in (model_of program)) deps
        (band (record { row = r; parallel = false } ∷ []) ∷ [])
        → LexLess ((floor (phi r (instance c.earlier)) (pos size) +ℤ pos 0) ∷ [])
        ((floor (phi r (instance c.later)) (pos size) +ℤ pos 0) ∷ [])
        ⊎ (floor (phi r (instance c.earlier)) (pos size) ∷ [] ≡ floor (phi r (instance c.later)) (pos size) ∷ []) }
{
    tile_skew::tiled_schedules_are_good_plans();
}

/// Without parameters a row rises by at most w at pairs with equal values before its band, by the clause of
/// `schedules_bound_distances`.
pub fn distances_without_parameters()
    ensures { (loops : List ℕ) (deps : List Dependence) (before : List Block) (rows : List Marked) (behind : List Block)
        (r : Marked) (d : Dependence) (x y : Instance) → ((d : Dependence) → In d deps → IsSizedDep loops d)
        → IsSchedule 0 loops deps (before ++ band rows ∷ behind) → In r rows → In d deps → Relates [] d x y
        → values before x ≡ values before y → (phi r.row y -ℤ phi r.row x) ≤ℤ (dot r.row.u [] +ℤ r.row.w) }
{
    schedule_rows::schedules_bound_distances();
}

/// Where a run has a step the measure is not 0, by the clause of `runs_are_short`.
pub fn measure_of_a_step()
    ensures { (m : ℕ) (loops : List ℕ) (s t : State) (blocks : List Block) → Runs m loops s (t ∷ []) blocks
        → 1 ≤ measure loops s }
{
    schedule_rows::runs_are_short();
}

/// A state at which the run ends has no other outcome, by the clause of `each_state_has_one_outcome`.
pub fn ends_are_the_only_outcome()
    ensures { (m : ℕ) (loops : List ℕ) (s : State) (blocks : List Block) (o : Outcome) → Next m loops s (ends blocks)
        → Next m loops s o → ends blocks ≡ o }
{
    schedule_rows::each_state_has_one_outcome();
}

/// Dependences without parameters have one schedule, by the clause of `dependences_have_one_schedule`.
pub fn schedules_without_parameters_are_one()
    ensures { (loops : List ℕ) (deps : List Dependence) (blocks others : List Block) → IsSchedule 0 loops deps blocks
        → IsSchedule 0 loops deps others → blocks ≡ others }
{
    schedule_rows::dependences_have_one_schedule();
}

/// Two searches find one schedule, and where one finds none for want of a row another finds none, by the clause of
/// `searches_answer_once`.
pub fn schedules_that_searches_find()
    ensures found { (model : KernelModel) (deps : List Dependence) (budget : ℕ) (s t : Scheduled)
        → Searches model deps budget (Ok s) → Searches model deps budget (Ok t) → s ≡ t }
    ensures kept { (model : KernelModel) (deps : List Dependence) (budget : ℕ) (s : Scheduled) (posed : Constraints)
        → Searches model deps budget (Ok s) → Searches model deps budget (Err (NoRow posed)) → ⊥ }
{
    pluto_search::searches_answer_once();
}

/// Of one row its value rises along a dependence, or the statement's number does, unless turns do, by the clause of
/// `times_rise_along_dependences`.
pub fn times_of_one_row()
    ensures { (loops : List ℕ) (deps : List Dependence) (r : Marked) (d : Dependence) (x y : Instance)
        → ((d : Dependence) → In d deps → IsSizedDep loops d) → IsSchedule 0 loops deps (band (r ∷ []) ∷ [])
        → In d deps → Relates [] d x y → (x.number ≡ y.number → LexLess x.turns y.turns)
        → LexLess (phi r.row x ∷ pos x.number ∷ []) (phi r.row y ∷ pos y.number ∷ []) }
{
    schedule_rows::times_rise_along_dependences();
}

/// There is one least first row without dependences, by the clause of `least_rows_are_unique`.
pub fn least_first_rows_are_unique()
    ensures { (m : ℕ) (loops : List ℕ) (r q : Row) → IsLeast m loops [] [] r → IsLeast m loops [] [] q → r ≡ q }
{
    schedule_rows::least_rows_are_unique();
}

/// Conflicting places of a kernel without parameters are in order along a schedule of dependences that hold its covers,
/// by the clause of `schedules_order_conflicts`.
pub fn conflicts_of_kernels_without_parameters_are_in_order()
    ensures { (program : Program) (marked : List ℕ) (deps : List Dependence) (blocks : List Block) (i j : ℕ)
        (c : PlacesConflict (walk_of program []) i j) → program.parameters ≡ []
        → is_marked marked (conflict_cell c).array ≡ false
        → ((d : Dependence) → In d deps → IsSizedDep (loops_in (model_of program)) d)
        → HoldCovers program [] marked deps
        → IsSchedule (model_of program).parameters (loops_in (model_of program)) deps blocks
        → LexLess (values blocks (instance c.earlier)) (values blocks (instance c.later)) }
{
    pluto_search::schedules_order_conflicts();
}
