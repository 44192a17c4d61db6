//! Laws of faults, roles and values, as contracts of functions that do nothing.
ghost use Rattle.std.specs.Prelude.{◌+◌, ◌++◌, ◌<◌, ◌≡◌, ◌≤◌, ℕ, All, Bool, List, None, Option, length};
ghost use Rattle.scop_expressions.specs.Tree.{Tree, size};
ghost use Rattle.scop_syntax.specs.Cells.{reads_of};
ghost use Rattle.scop_syntax.specs.Kernel.{IsAccess, IsAffine, IsComparison, IsExpression, test_form};
ghost use Rattle.scop_syntax.specs.Widths.{IsTyped};
ghost use Rattle.scop_roles.specs.declared.kinds.Fault.{Fault};
ghost use Rattle.scop_roles.specs.declared.formula.Role.{Role};
ghost use Rattle.scop_roles.specs.declared.formula.Role.TheVariants as role;
ghost use Rattle.scop_roles.specs.Faults.{faults, first, first_of, own_rank, place_faults};
ghost use Rattle.scop_roles.specs.Forms.{form};
ghost use Rattle.scop_roles.specs.Formula.{Formula, Lookup, formula, place};
ghost use Rattle.scop_roles.specs.Scope.{HasWidths, IsArray, IsInScope, KnowsArrays, KnowsWidth, LiesWithin};
ghost use Rattle.scop_roles.specs.Values.{access, expression, read_places, tests};

/// The first fault of a list is the first of those of its parts, however it is split.
pub fn first_faults_join()
    ensures append { (fs gs : List Fault) → first (fs ++ gs) ≡ first_of (first fs) (first gs) }
    ensures order { (f g h : Option Fault) → first_of (first_of f g) h ≡ first_of f (first_of g h) }
{}

/// The faults of a tree's formula stand among the tree's tokens, and so does the formula's place.
pub fn faults_stand_within()
    ensures faults { (look : Lookup) (at : ℕ) (t : Tree) (n : ℕ) (r : Role)
        → All (LiesWithin at (size t)) (faults n r (formula look at t)) }
    ensures place_faults { (look : Lookup) (at : ℕ) (t : Tree) (n : ℕ)
        → All (LiesWithin at (size t)) (place_faults n (formula look at t)) }
    ensures from { (look : Lookup) (at : ℕ) (t : Tree) → at ≤ place (formula look at t) }
    ensures below { (look : Lookup) (at : ℕ) (t : Tree) → place (formula look at t) < at + size t }
{}

/// A formula has the names and constants of its text: arrays that are there, constants of 64 bits.
pub fn formulas_are_in_scope()
    ensures { (ranks : List ℕ) (look : Lookup) (at : ℕ) (t : Tree) → KnowsArrays ranks look
        → IsInScope ranks (formula look at t) }
{}

/// Without faults in its role, a formula stands for what the role wants.
pub fn faultless_formulas_are_within_limits()
    ensures affine { (n : ℕ) (f : Formula) → first (faults n role.Affine f) ≡ None → IsAffine n (form n f) }
    ensures value { (ranks : List ℕ) (n : ℕ) (f : Formula) → IsInScope ranks f → first (faults n role.Value f) ≡ None
        → IsExpression ranks n (expression n f) }
    ensures place { (ranks : List ℕ) (n : ℕ) (f : Formula) → IsInScope ranks f → IsArray f
        → first (place_faults n f) ≡ None → own_rank f ≡ None → IsAccess ranks n (access n f) }
    ensures some { (n : ℕ) (f : Formula) → first (faults n role.Condition f) ≡ None → 0 < length (tests n f) }
    ensures condition { (n : ℕ) (f : Formula) → first (faults n role.Condition f) ≡ None
        → All (λ test. IsComparison n (test_form test)) (tests n f) }
    ensures reads { (n : ℕ) (f : Formula) → first (faults n role.Value f) ≡ None
        → length (read_places f) ≡ length (reads_of (expression n f)) }
{}

/// A value without faults has the types that C gives it, where the arrays of its text have these widths.
pub fn faultless_values_have_types()
    ensures widths { (narrow : List Bool) (look : Lookup) (at : ℕ) (t : Tree)
        → ((i : ℕ) → KnowsWidth narrow (look.meaning i)) → HasWidths narrow (formula look at t) }
    ensures types { (narrow : List Bool) (n : ℕ) (f : Formula) → HasWidths narrow f
        → first (faults n role.Value f) ≡ None → IsTyped narrow (expression n f) }
{}
