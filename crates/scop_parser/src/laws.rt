//! Laws of texts and programs, as contracts of functions that do nothing.
ghost use Rattle.std.specs.Prelude.{◌≡◌, ◌⊎◌, ℕ, All};
ghost use Rattle.scop_lexer.specs.Bytes.{Text};
ghost use Rattle.scop_lexer.specs.Words.{IsName};
ghost use Rattle.scop_syntax.specs.Kernel.{IsKernel};
ghost use Rattle.scop_syntax.specs.Tree.{Program};
ghost use Rattle.scop_units.specs.Names.{HasDistinctNames, header_names};
ghost use Rattle.scop_parser.specs.declared.refusal.Refusal.{Refusal};
ghost use Rattle.scop_roles.specs.declared.kinds.Kind.{Kind as RefusalKind};
ghost use Rattle.scop_parser.specs.Names.{HasFreeNames};
ghost use Rattle.scop_parser.specs.Spelling.{IsFirstFault, IsRefusedAs, SpellsProgram};

use scop_lexer::names_stand_by_themselves;
use scop_units::{faultless_kernels_are_within_limits, names_are_those_of_tokens};

/// A text spells one program at most.
pub fn texts_spell_one_program()
    ensures { (text : Text) (p q : Program) → SpellsProgram text p → SpellsProgram text q → p ≡ q }
{}

/// A text with a fault spells no program.
pub fn faults_leave_no_program()
    ensures { (text : Text) (kind : RefusalKind) (at : ℕ) (p : Program)
        → IsFirstFault text kind at → SpellsProgram text p → ⊥ }
{}

/// Each text spells a program or has a first fault.
pub fn texts_spell_a_program_or_have_a_fault()
    ensures { (text : Text) → ((p : Program) × SpellsProgram text p)
        ⊎ ((kind : RefusalKind) × (at : ℕ) × IsFirstFault text kind at) }
{}

/// A text has one first fault at most, and is refused in one way.
pub fn texts_have_one_first_fault()
    ensures fault { (text : Text) (kind other : RefusalKind) (at place : ℕ)
        → IsFirstFault text kind at → IsFirstFault text other place → (kind ≡ other) × (at ≡ place) }
    ensures refusal { (text : Text) (refusal other : Refusal)
        → IsRefusedAs text refusal → IsRefusedAs text other → refusal ≡ other }
{}

/// The program that a text spells is a kernel within the limits. Its names are distinct, and those of its parameters
/// and arrays are names by themselves, as data lines have them.
pub fn spelled_programs_are_kernels()
    ensures kernel { (text : Text) (p : Program) → SpellsProgram text p → IsKernel p }
    ensures names { (text : Text) (p : Program) → SpellsProgram text p → HasDistinctNames p }
    ensures words { (text : Text) (p : Program) → SpellsProgram text p → All IsName (header_names p) }
{
    faultless_kernels_are_within_limits();
    names_stand_by_themselves();
    names_are_those_of_tokens();
}

/// The parameters of the program that a text spells have distinct names, the iterator of each loop has a name that is
/// none of theirs, nor that of a loop round it, and no such name begins with `pp_`, nor does that of an array or of the
/// program.
pub fn spelled_names_are_words()
    ensures { (text : Text) (p : Program) → SpellsProgram text p → HasFreeNames p }
{
    spelled_programs_are_kernels();
    names_stand_by_themselves();
    names_are_those_of_tokens();
}
