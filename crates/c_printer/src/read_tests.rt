//! Reads the tests of guards in an emitted text.

ghost use Rattle.std.specs.Prelude.{◌≡◌, ◌∷◌, [], Some, map, IfOk};
ghost use Rattle.c_printer.specs.Reading.{multiple_at, multiple_end, read_divisor, read_more_tests, read_test};
ghost use Rattle.c_printer.specs.Reading.{read_tests, test_behind, with_test};
ghost use Rattle.c_printer.specs.steps.View.{condition_in, form_part, test_in, test_part, tests_in};
ghost use Rattle.c_printer.specs.steps.Reading.{read_condition};

use crate::part::{Read, push};
use crate::read_bounds::read_divisor;
use crate::read_forms::read_tree_form;
use form_text::strip;
use loop_tree::{Guard, Test};
use scop_syntax::{Aff, Name};
use std::alloc::{AllocError, Global};

/// The test of a form and its divisor, behind the form once more.
fn multiple_end<'a>(form: Aff, divisor: i64, again: Read<'a, Aff>) -> Option<Read<'a, Test>>
    ensures { test_in result ≡ multiple_end form divisor (form_part again.entry) }
{
    let Some(behind) = strip(again.rest, b", ") else {
        return None;
    };
    let Some(last) = read_divisor(behind) else {
        return None;
    };
    let Some(rest) = strip(last.rest, b") == 0") else {
        return None;
    };
    let part = Test::Multiple(form, divisor);
    Some(Read { part, rest })
}

/// The test that a form is a multiple of the number in front of a text.
fn read_multiple<'a>(
    alloc: Global,
    parameters: usize,
    names: &[Name],
    form: Aff,
    text: &'a [u8],
) -> Result<Option<Read<'a, Test>>, AllocError>
    ensures { IfOk result (λ r. test_in r
        ≡ multiple_at parameters (map (λ n. n.items) names.now) form (read_divisor text.now)) }
{
    let Some(divisor) = read_divisor(text) else {
        return Ok(None);
    };
    let Some(behind) = strip(divisor.rest, b"*pp_floord(") else {
        return Ok(None);
    };
    match read_tree_form(alloc, parameters, names, behind) {
        Ok(Some(again)) => Ok(multiple_end(form, divisor.part, again)),
        Ok(None) => Ok(None),
        Err(_) => Err(AllocError),
    }
}

/// The test of a form, by what stands behind it.
fn test_behind<'a>(
    alloc: Global,
    parameters: usize,
    names: &[Name],
    form: Read<'a, Aff>,
) -> Result<Option<Read<'a, Test>>, AllocError>
    ensures { IfOk result (λ r. test_in r
        ≡ test_behind parameters (map (λ n. n.items) names.now) (form_part form.entry)) }
{
    if let Some(rest) = strip(form.rest, b" >= 0") {
        let part = Test::AtLeast(form.part);
        return Ok(Some(Read { part, rest }));
    }
    if let Some(rest) = strip(form.rest, b" == 0") {
        let part = Test::Equal(form.part);
        return Ok(Some(Read { part, rest }));
    }
    match strip(form.rest, b" - ") {
        Some(behind) => read_multiple(alloc, parameters, names, form.part, behind),
        None => Ok(None),
    }
}

/// The test in front of a text.
#[tactic(auto, unfolding(crate::specs::Reading::read_test))]
fn read_test<'a>(
    alloc: Global,
    parameters: usize,
    names: &[Name],
    text: &'a [u8],
) -> Result<Option<Read<'a, Test>>, AllocError>
    ensures { IfOk result (λ r. test_in r
        ≡ read_test parameters (map (λ n. n.items) names.now) text.now) }
{
    match read_tree_form(alloc, parameters, names, text) {
        Ok(Some(form)) => test_behind(alloc, parameters, names, form),
        Ok(None) => Ok(None),
        Err(_) => Err(AllocError),
    }
}

/// A test alone.
fn alone(alloc: Global, test: Test) -> Result<Vec<Test>, AllocError>
    ensures { IfOk result (λ v. v.items ≡ test ∷ []) }
{
    let mut tests = Vec::new(alloc);
    match push(&mut tests, test) {
        Ok(()) => Ok(tests),
        Err(_) => Err(AllocError),
    }
}

/// A test and those behind it, in so many steps.
fn with_more<'a>(
    alloc: Global,
    steps: usize,
    parameters: usize,
    names: &[Name],
    first: Read<'a, Test>,
) -> Result<Option<Read<'a, Vec<Test>>>, AllocError>
    ensures { IfOk result (λ r. tests_in r
        ≡ with_test (read_more_tests steps parameters (map (λ n. n.items) names.now))
        (Some (test_part first.entry))) }
{
    let mut tests = alone(alloc, first.part)?;
    let mut rest = first.rest;
    for at in 0..steps {
        let Some(behind) = strip(rest, b" && ") else {
            return Ok(Some(Read { part: tests, rest }));
        };
        match read_test(alloc, parameters, names, behind) {
            Ok(Some(test)) => {
                match push(&mut tests, test.part) {
                    Ok(()) => {}
                    Err(_) => return Err(AllocError),
                }
                rest = test.rest;
            }
            Ok(None) => return Ok(None),
            Err(_) => return Err(AllocError),
        }
    }
    Ok(None)
}

/// The tests of a guard, in so many steps.
#[tactic(auto, unfolding(crate::specs::Reading::read_tests))]
fn read_tests<'a>(
    alloc: Global,
    steps: usize,
    parameters: usize,
    names: &[Name],
    text: &'a [u8],
) -> Result<Option<Read<'a, Vec<Test>>>, AllocError>
    ensures { IfOk result (λ r. tests_in r
        ≡ read_tests steps parameters (map (λ n. n.items) names.now) text.now) }
{
    match read_test(alloc, parameters, names, text) {
        Ok(Some(first)) => with_more(alloc, steps, parameters, names, first),
        Ok(None) => Ok(None),
        Err(_) => Err(AllocError),
    }
}

/// The tests of a guard and the end of its line, behind `if (`.
pub fn read_condition<'a>(
    alloc: Global,
    steps: usize,
    parameters: usize,
    names: &[Name],
    text: &'a [u8],
) -> Result<Option<Read<'a, Guard>>, AllocError>
    ensures { IfOk result (λ r. condition_in r
        ≡ read_condition steps parameters (map (λ n. n.items) names.now) text.now) }
{
    let read = match read_tests(alloc, steps, parameters, names, text) {
        Ok(Some(read)) => read,
        Ok(None) => return Ok(None),
        Err(_) => return Err(AllocError),
    };
    match strip(read.rest, b") {\n") {
        Some(rest) => Ok(Some(Read {
            part: Guard { tests: read.part },
            rest,
        })),
        None => Ok(None),
    }
}
