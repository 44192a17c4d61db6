//! Callers of the texts of forms: terms at numbers, readings, and the laws over no names.
ghost use Rattle.std.specs.Prelude.{◌≡◌, ◌++◌, [], ℕ, IfOk, OnOk, Some, codes, false, map, option_map};
ghost use Rattle.whole_numbers.specs.Affine.{Affine, form_of};
ghost use Rattle.scop_lexer.specs.Bytes.{Text};
ghost use Rattle.form_text.specs.Forms.{form_text};
ghost use Rattle.form_text.specs.Names.{IsFormOver};
ghost use Rattle.form_text.specs.Numerals.{numeral};
ghost use Rattle.form_text.specs.Reading.{EndsForm, read_form, strip};
ghost use Rattle.form_text.specs.View.{form_in, nearest_form, text_in};

use form_text::{
    FormRead, forms_are_read_back, forms_end_before, put_constant, put_form, put_term, read_form,
    read_number, strip, texts_are_of_one_form,
};
use std::alloc::{AllocError, Global};

/// A term behind others, by `text` of `put_term`; what stands behind it is not in front of all, by `front`.
pub fn put_last_turn(out: &mut Vec<u8>) -> Result<bool, AllocError>
    ensures text { OnOk result (out.new.items ≡ out.old.items ++ codes " - i") }
    ensures front { IfOk result (λ next. next ≡ false) }
{
    put_term(out, false, -1, b"i")
}

/// The constant 0 alone, by the clause of `put_constant`.
pub fn put_zero(out: &mut Vec<u8>) -> Result<(), AllocError>
    ensures { OnOk result (out.new.items ≡ out.old.items ++ codes "0") }
{
    put_constant(out, true, 0)
}

/// A form without coefficients, by the clause of `put_form`.
pub fn put_number(out: &mut Vec<u8>, names: &[Vec<u8>], number: i128) -> Result<(), AllocError>
    ensures { OnOk result
        (out.new.items ≡ out.old.items ++ form_text (map (λ n. n.items) names.now) (form_of [] number)) }
{
    put_form(out, names, &[], number)
}

/// What stands behind a minus, by the clause of `strip`.
pub fn behind_a_minus<'a>(text: &'a [u8]) -> Option<&'a [u8]>
    ensures { text_in result ≡ strip (codes "-") text.now }
{
    strip(text, b"-")
}

/// No digit writes 0, by `number` of `read_number`, and nothing stands behind no text, by `behind`.
pub fn number_in_front<'a>(text: &'a [u8]) -> (u128, &'a [u8])
    ensures number { text.now ≡ [] → result.0 ≡ 0 }
    ensures behind { text.now ≡ [] → result.1.now ≡ [] }
{
    read_number(text)
}

/// The form over no names in front of a text, by the clause of `read_form`.
pub fn number_read<'a>(alloc: Global, text: &'a [u8]) -> Result<Option<FormRead<'a>>, AllocError>
    ensures { IfOk result (λ r. form_in r ≡ option_map nearest_form (read_form [] text.now)) }
{
    read_form(alloc, &[], text)
}

/// A form over no names is read, by the clause of `forms_are_read_back`.
pub fn numbers_are_read_back()
    ensures { (form : Affine) (rest : Text) → IsFormOver 0 form → EndsForm rest
        → read_form [] (form_text [] form ++ rest) ≡ Some (form, rest) }
{
    forms_are_read_back();
}

/// Two forms over no names with one text are one, by the clause of `texts_are_of_one_form`.
pub fn texts_are_of_one_number()
    ensures { (f g : Affine) (r s : Text) → IsFormOver 0 f → IsFormOver 0 g → EndsForm r → EndsForm s
        → form_text [] f ++ r ≡ form_text [] g ++ s → (f ≡ g) × (r ≡ s) }
{
    texts_are_of_one_form();
}

/// Where a form may end, by the clauses of `forms_end_before` of these names.
pub fn numbers_end_before()
    ensures nothing { EndsForm [] }
    ensures at_least { EndsForm (codes " >= 0") }
    ensures equal { EndsForm (codes " == 0") }
    ensures comma { EndsForm (codes ",") }
    ensures parenthesis { EndsForm (codes ")") }
    ensures bracket { EndsForm (codes "]") }
    ensures semicolon { EndsForm (codes ";") }
    ensures divisor { EndsForm (codes " / ") }
    ensures multiple { (d : ℕ) → EndsForm (codes " - " ++ numeral d ++ codes "*pp_floord(" ++ codes "i") }
{
    forms_end_before();
}
