//! Callers of the names of programs that texts spell.
ghost use Rattle.std.specs.Prelude.{All};
ghost use Rattle.scop_lexer.specs.Bytes.{Text};
ghost use Rattle.scop_syntax.specs.Tree.{Declaration, Program};
ghost use Rattle.scop_parser.specs.Names.{IsUnreserved};
ghost use Rattle.scop_parser.specs.Spelling.{SpellsProgram};

use scop_parser::spelled_names_are_words;

/// `pp_` does not stand in front of the name of a program that a text spells, by `name` of `spelled_names_are_words`,
/// nor of an array's, by `arrays`.
pub fn names_of_spelled_programs()
    ensures name { (text : Text) (p : Program) → SpellsProgram text p → IsUnreserved p.name }
    ensures arrays { (text : Text) (p : Program) → SpellsProgram text p
        → All (λ (d : Declaration). IsUnreserved d.name) p.arrays }
{
    spelled_names_are_words();
}
