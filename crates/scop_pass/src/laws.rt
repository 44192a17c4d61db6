//! Laws of the pass, as contracts of functions that do nothing.
ghost use Rattle.std.specs.Prelude.{◌≡◌, ◌++◌, ◌∷◌, ℕ, List, Some};
ghost use Rattle.scop_grammar.specs.Kernel.{Kernel, KernelFits, Piece, kernel_elements, mark_at, pieces};
ghost use Rattle.scop_grammar.specs.declared.part.Mark.{Mark};
ghost use Rattle.scop_roles.specs.declared.kinds.Fault.{Fault};
ghost use Rattle.scop_roles.specs.Faults.{first};
ghost use Rattle.scop_units.specs.Words.{Words};
ghost use Rattle.scop_units.specs.Judging.{faults_of};
ghost use Rattle.scop_pass.specs.Machine.{first_state, run, settled};

use scop_roles::{faults_stand_within, first_faults_join};

/// A pass over a kernel's pieces may stop where it has found a fault: the first so far is the first of all.
pub fn passes_may_stop_at_a_fault()
    ensures { (words : Words) (kernel : Kernel) (front rest : List Piece) (fault : Fault)
        → KernelFits 64 256 kernel → pieces 0 (kernel_elements kernel) ≡ front ++ rest
        → first (run words first_state front).faults ≡ Some fault → first (faults_of words kernel) ≡ Some fault }
{
    first_faults_join();
    faults_stand_within();
}

/// The same where a pass judges an array that the next sign completes, before it goes on with the sign.
pub fn passes_may_stop_at_an_array()
    ensures { (words : Words) (kernel : Kernel) (front rest : List Piece) (mark : Mark) (at : ℕ) (fault : Fault)
        → KernelFits 64 256 kernel → pieces 0 (kernel_elements kernel) ≡ front ++ mark_at mark at ∷ rest
        → first (settled words (run words first_state front)).faults ≡ Some fault
        → first (faults_of words kernel) ≡ Some fault }
{
    first_faults_join();
    faults_stand_within();
}
