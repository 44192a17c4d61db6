//! What a rejection says of a text, and that a text says one plan.
ghost use Rattle.std.specs.Prelude.{◌≡◌, ◌↔◌, Err, length};
ghost use Rattle.scop_lexer.specs.Bytes.{Text};
ghost use Rattle.scop_syntax.specs.Tree.{Program};
ghost use Rattle.plan_check.specs.FirstFaults.{IsAtLine, IsFirstFault};
ghost use Rattle.plan_check.specs.Judged.{Rejected, SaysPlan, judged};
ghost use Rattle.plan_check.specs.Plans.{Plan};

/// A text is rejected exactly at its first fault: all lines before have none, and at that line, or at the end, this is
/// what is wrong. The rejected line is the one behind the accepted lines, or, of kind Goal alone, the last accepted line.
pub fn rejections_are_the_first()
    ensures first { (program : Program) (text : Text) (r : Rejected)
        → (judged program text ≡ Err r) ↔ IsFirstFault program text r }
    ensures line { (program : Program) (text : Text) (r : Rejected) → (f : IsFirstFault program text r)
        → IsAtLine (length f.before) r }
{}

/// A text says one plan.
pub fn texts_say_one_plan()
    ensures { (program : Program) (text : Text) (a b : Plan) → SaysPlan program text a → SaysPlan program text b
        → a ≡ b }
{}
