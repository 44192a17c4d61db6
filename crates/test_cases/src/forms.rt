//! Constraints as lines: a word, then the coefficients in order and the constant.

ghost use Rattle.std.specs.Prelude.{◌≡◌, All, IfOk};
ghost use Rattle.std.specs.Option.{ForSome};
ghost use Rattle.affine_forms.specs.Parts.{variables_of};

use crate::lines::Lines;
use affine_forms::Form;
use std::alloc::{AllocError, Global};
use std::io;

/// The form in the line in front, where that has the word and numbers for so many variables.
fn read_form(
    alloc: Global,
    lines: &Lines,
    word: &str,
    variables: usize,
) -> Result<Option<Form>, AllocError>
    ensures { IfOk result (λ o. ForSome o (λ f. variables_of f ≡ variables)) }
{
    if !lines.begins(word) {
        return Ok(None);
    }
    let mut numbers = match lines.numbers(alloc)? {
        Some(numbers) => numbers,
        None => return Ok(None),
    };
    let constant = match numbers.pop() {
        Some(constant) => constant,
        None => return Ok(None),
    };
    if numbers.len() != variables {
        return Ok(None);
    }
    match Form::of(alloc, numbers.as_slice(), constant) {
        Err(_) => Err(AllocError),
        Ok(form) => Ok(Some(form)),
    }
}

/// The forms in the lines in front that have the word and numbers for so many variables. It reads these lines.
pub fn read_forms(
    alloc: Global,
    lines: &mut Lines,
    word: &str,
    variables: usize,
) -> Result<Vec<Form>, AllocError>
    ensures { IfOk result (λ v. All (λ f. variables_of f ≡ variables) v.items) }
{
    let mut forms = Vec::new(alloc);
    for _ in 0..lines.left() {
        match read_form(alloc, lines, word, variables)? {
            None => return Ok(forms),
            Some(form) => forms.push(form)?,
        }
        lines.pass();
    }
    Ok(forms)
}

/// Prints a line for each form.
pub fn print_forms<R: Print + AllocGlobal>(rt: &R, word: &str, forms: &[Form]) -> io::Result<()> {
    for form in forms {
        print!(rt; "{word}")?;
        for coefficient in form.coefficients() {
            print!(rt; " {coefficient}")?;
        }
        println!(rt; " {}", form.constant())?;
    }
    Ok(())
}
