//! Laws of the walk, as contracts of functions that do nothing.
ghost use Rattle.std.specs.Prelude.{◌≡◌, ℕ, ◌<◌, ◌↔◌, ℤ, pos, List, length, map, slice_get, Some};
ghost use Rattle.std.specs.List.{flat_map, range_with_len};
ghost use Rattle.scop_syntax.specs.Tree.{Head, Program};
ghost use Rattle.scop_syntax.specs.Walk.{Falls, RunsFor, Visit, condition_at, loop_walk, walk_of};
ghost use Rattle.scop_syntax.specs.Acts.{act_of, acts_all};
ghost use Rattle.scop_syntax.specs.Members.{In};
ghost use Rattle.scop_syntax.specs.Kernel.{IsHead, IsKernel, IsPlaced, ranks_of};
ghost use Rattle.scop_syntax.specs.Statements.{Placed, Runs, Scope, loops_in, statements_of, visit_of};
ghost use Rattle.scop_syntax.specs.Order.{Before};

/// Of two places of the walk the earlier is that whose instance comes first, and each instance
/// stands at one place only.
#[tactic(auto, using(crate::proofs::Order::order_laws))]
pub fn walks_are_in_order()
    ensures order { (program : Program) (params : List ℤ) (i j : ℕ) (v w : Visit)
        → slice_get (walk_of program params) i ≡ Some v → slice_get (walk_of program params) j ≡ Some w
        → (i < j) ↔ Before v w }
    ensures once { (program : Program) (params : List ℤ) (i j : ℕ) (v w : Visit)
        → slice_get (walk_of program params) i ≡ Some v → slice_get (walk_of program params) j ≡ Some w
        → v.number ≡ w.number → v.turns ≡ w.turns → i ≡ j }
{}

/// A loop whose condition falls runs for some number of turns and walks the bodies of these turns in
/// order: it goes on just while its condition holds. The loops of kernels are such.
#[tactic(auto, using(crate::proofs::Loops::loop_laws))]
pub fn loops_walk_while_their_condition_holds()
    ensures falls { (head : Head) (point : List ℤ)
        → IsHead (length point) head → Falls (λ k. condition_at head point (pos k)) }
    ensures ends { (condition : ℕ → ℤ) → Falls condition → (m : ℕ) × RunsFor condition m }
    ensures turns { (condition : ℕ → ℤ) (body : ℕ → List Visit) (m : ℕ) → Falls condition → RunsFor condition m
        → loop_walk condition body ≡ flat_map body (range_with_len 0 m) }
{}

/// The instances of the walk are those of its statements at all turns at which the conditions and
/// guards round the statement hold.
#[tactic(auto, using(crate::proofs::Statements::instance_laws))]
pub fn instances_are_those_of_statements()
    ensures found { (program : Program) (params : List ℤ) (v : Visit) → In v (walk_of program params)
        → (p : Placed) × (xs : List ℤ) × In p (statements_of program) × Runs p.scopes params xs
        × (v ≡ visit_of p params xs) }
    ensures stands { (program : Program) (params : List ℤ) (p : Placed) (xs : List ℤ) → IsKernel program
        → length params ≡ length program.parameters → In p (statements_of program) → Runs p.scopes params xs
        → In (visit_of p params xs) (walk_of program params) }
    ensures turns { (scopes : List Scope) (params xs : List ℤ) → Runs scopes params xs → length xs ≡ loops_in scopes }
{}

/// The statements of a program are numbered in the order of the text from 0, and each stands well
/// within the loops and guards round it.
#[tactic(auto, using(crate::proofs::Statements::statement_laws))]
pub fn statements_are_numbered()
    ensures number { (program : Program) (k : ℕ) (p : Placed)
        → slice_get (statements_of program) k ≡ Some p → p.number ≡ k }
    ensures same { (program : Program) (p q : Placed) → In p (statements_of program) → In q (statements_of program)
        → p.number ≡ q.number → p ≡ q }
    ensures loops { (program : Program) (p : Placed)
        → In p (statements_of program) → length p.loops ≡ loops_in p.scopes }
    ensures placed { (program : Program) (p : Placed) → IsKernel program → In p (statements_of program)
        → IsPlaced (ranks_of program) (length program.parameters) p }
{}

/// The walk without its numbers is what an interpreter goes along.
#[tactic(auto, using(crate::proofs::Acts::act_laws))]
pub fn walks_are_acts()
    ensures { (program : Program) (params : List ℤ)
        → map act_of (walk_of program params) ≡ acts_all program.body params }
{}
