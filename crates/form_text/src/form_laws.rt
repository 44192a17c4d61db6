//! Laws of the texts of forms, as contracts of functions that do nothing.

ghost use Rattle.std.specs.Prelude.{◌≡◌, ℕ, ◌++◌, List, length, codes, Some};
ghost use Rattle.whole_numbers.specs.Affine.{Affine};
ghost use Rattle.scop_lexer.specs.Bytes.{Text};
ghost use Rattle.form_text.specs.Forms.{form_text};
ghost use Rattle.form_text.specs.Names.{AreNames, IsFormOver};
ghost use Rattle.form_text.specs.Numerals.{numeral};
ghost use Rattle.form_text.specs.Reading.{EndsForm, read_form};

/// The text of a form is read as that form, in front of all that may stand behind one.
pub fn forms_are_read_back()
    ensures { (names : List Text) (form : Affine) (rest : Text) → AreNames names → IsFormOver (length names) form
        → EndsForm rest → read_form names (form_text names form ++ rest) ≡ Some (form, rest) }
{}

/// Two forms with one text in front of such rests are one, and so are the rests.
pub fn texts_are_of_one_form()
    ensures { (names : List Text) (f g : Affine) (r s : Text) → AreNames names → IsFormOver (length names) f
        → IsFormOver (length names) g → EndsForm r → EndsForm s
        → form_text names f ++ r ≡ form_text names g ++ s → (f ≡ g) × (r ≡ s) }
{}

/// What stands behind forms in dependences and programs may stand there: a comparison, a list's comma, a closing
/// bracket, a divisor, an end of a statement, a call behind a sign.
pub fn forms_end_before()
    ensures nothing { EndsForm (codes "") }
    ensures at_least { (rest : Text) → EndsForm (codes " >= 0" ++ rest) }
    ensures equal { (rest : Text) → EndsForm (codes " == 0" ++ rest) }
    ensures comma { (rest : Text) → EndsForm (codes "," ++ rest) }
    ensures parenthesis { (rest : Text) → EndsForm (codes ")" ++ rest) }
    ensures bracket { (rest : Text) → EndsForm (codes "]" ++ rest) }
    ensures semicolon { (rest : Text) → EndsForm (codes ";" ++ rest) }
    ensures divisor { (rest : Text) → EndsForm (codes " / " ++ rest) }
    ensures multiple { (d : ℕ) (rest : Text) → EndsForm (codes " - " ++ numeral d ++ codes "*pp_floord(" ++ rest) }
{}
