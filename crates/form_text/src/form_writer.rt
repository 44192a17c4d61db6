//! Puts affine forms behind a text.

ghost use Rattle.std.specs.Prelude.{◌≡◌, ◌++◌, ◌&&◌, map, IfOk, OnOk};
ghost use Rattle.whole_numbers.specs.Affine.{form_of};
ghost use Rattle.form_text.specs.Forms.{constant_text, factor_text, form_text, is_zero, sign_text, signed_text};
ghost use Rattle.form_text.specs.Forms.{term_text};
ghost use Rattle.form_text.specs.Numerals.{numeral};

use itoa::Buffer;
use std::alloc::AllocError;

/// Puts bytes behind a text.
///
/// # Errors
/// Memory ran out.
pub fn put_bytes(out: &mut Vec<u8>, bytes: &[u8]) -> Result<(), AllocError>
    ensures { OnOk result (out.new.items ≡ out.old.items ++ bytes.now) }
{
    match out.extend_from_slice(bytes) {
        Ok(()) => Ok(()),
        Err(_) => Err(AllocError),
    }
}

/// Puts a number in decimals.
///
/// # Errors
/// Memory ran out.
pub fn put_numeral(out: &mut Vec<u8>, number: u128) -> Result<(), AllocError>
    ensures { OnOk result (out.new.items ≡ out.old.items ++ numeral number) }
{
    put_bytes(out, Buffer::new().format(number).as_bytes())
}

/// Puts a number times a name, or the number alone where there is no name.
#[tactic(auto, using(crate::proofs::PutTexts::putting))]
fn put_factor(out: &mut Vec<u8>, number: u128, name: &[u8]) -> Result<(), AllocError>
    ensures { OnOk result (out.new.items ≡ out.old.items ++ factor_text number name.now) }
{
    if name.is_empty() {
        return put_numeral(out, number);
    }
    if number == 1 {
        return put_bytes(out, name);
    }
    match put_numeral(out, number) {
        Ok(()) => {}
        Err(_) => return Err(AllocError),
    }
    match put_bytes(out, b"*") {
        Ok(()) => {}
        Err(_) => return Err(AllocError),
    }
    put_bytes(out, name)
}

/// Puts the sign of a term in front of all terms or behind some.
fn put_sign(out: &mut Vec<u8>, front: bool, coefficient: i128) -> Result<(), AllocError>
    ensures { OnOk result (out.new.items ≡ out.old.items ++ sign_text front coefficient) }
{
    if coefficient < 0 {
        if front {
            put_bytes(out, b"-")
        } else {
            put_bytes(out, b" - ")
        }
    } else if front {
        Ok(())
    } else {
        put_bytes(out, b" + ")
    }
}

/// Puts a term that is not 0 in front of all terms or behind some.
#[tactic(auto, using(crate::proofs::PutTexts::putting))]
fn put_nonzero(
    out: &mut Vec<u8>,
    front: bool,
    coefficient: i128,
    name: &[u8],
) -> Result<(), AllocError>
    ensures { OnOk result (out.new.items ≡ out.old.items ++ signed_text front coefficient name.now) }
{
    match put_sign(out, front, coefficient) {
        Ok(()) => {}
        Err(_) => return Err(AllocError),
    }
    put_factor(out, coefficient.unsigned_abs(), name)
}

/// Puts the term of a name, in front of all terms or behind some, and tells whether the next one stands in front of
/// all. A form over names is put by `put_term` for each name, then `put_constant`.
///
/// # Errors
/// Memory ran out.
#[tactic(auto, using(crate::proofs::PutTexts::putting))]
pub fn put_term(
    out: &mut Vec<u8>,
    front: bool,
    coefficient: i128,
    name: &[u8],
) -> Result<bool, AllocError>
    ensures text { OnOk result (out.new.items ≡ out.old.items ++ term_text front coefficient name.now) }
    ensures front { IfOk result (λ next. next ≡ (is_zero coefficient && front)) }
{
    if coefficient == 0 {
        return Ok(front);
    }
    match put_nonzero(out, front, coefficient, name) {
        Ok(()) => Ok(false),
        Err(_) => Err(AllocError),
    }
}

/// Puts the constant, which is left out where it is 0 behind terms.
///
/// # Errors
/// Memory ran out.
#[tactic(auto, using(crate::proofs::PutTexts::putting))]
pub fn put_constant(out: &mut Vec<u8>, front: bool, constant: i128) -> Result<(), AllocError>
    ensures { OnOk result (out.new.items ≡ out.old.items ++ constant_text front constant) }
{
    if constant != 0 {
        return put_nonzero(out, front, constant, b"");
    }
    if front { put_bytes(out, b"0") } else { Ok(()) }
}

/// Puts a form with these coefficients, one for each name, and this constant.
///
/// # Errors
/// Memory ran out.
#[tactic(auto, using(crate::proofs::PutTexts::putting), unfolding(crate::specs::Forms::form_text))]
pub fn put_form(
    out: &mut Vec<u8>,
    names: &[Vec<u8>],
    coefficients: &[i128],
    constant: i128,
) -> Result<(), AllocError>
    ensures { OnOk result (out.new.items
        ≡ out.old.items ++ form_text (map (λ n. n.items) names.now) (form_of coefficients.now constant)) }
{
    let mut front = true;
    for at in 0..names.len() {
        if at >= coefficients.len() {
            return put_constant(out, front, constant);
        }
        match put_term(out, front, coefficients[at], &names[at]) {
            Ok(next) => front = next,
            Err(_) => return Err(AllocError),
        }
    }
    put_constant(out, front, constant)
}
