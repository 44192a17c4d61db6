//! The lines of goals and of their derivations, whose rows' numbers are those that their types hold.
ghost use Rattle.std.specs.Prelude.{◌≡◌, ◌++◌, All, OnOk, codes, map};
ghost use Rattle.plan_check.specs.Derivations.{step_of};
ghost use Rattle.plan_check.specs.Printed.{goal_text, step_text, terms_text};
ghost use Rattle.plan_certificate.specs.Certificates.{IsNarrowStep, IsNarrowTerm, proof_text, step_line_of, steps_text};
ghost use Rattle.plan_certificate.specs.Certificates.{term_line_of};
ghost use Rattle.plan_certificate.specs.steps.Narrow.{IsNarrowLine};
ghost use Rattle.plan_certificate.specs.steps.Numerals.{numbered, term_text};

use form_text::{put_bytes, put_numeral};
use plan_check::{Line, Term};
use std::alloc::AllocError;

/// Appends a text and a number behind it.
fn push_numbered(out: &mut Vec<u8>, front: &[u8], number: u128) -> Result<(), AllocError>
    ensures { OnOk result (out.new.items ≡ out.old.items ++ numbered front.now number) }
{
    match put_bytes(out, front) {
        Err(error) => Err(error),
        Ok(()) => put_numeral(out, number),
    }
}

/// Appends a term.
fn push_term(out: &mut Vec<u8>, term: &Term) -> Result<(), AllocError>
    ensures text { OnOk result (out.new.items ≡ out.old.items ++ term_text (term_line_of term.now)) }
    ensures narrow { IsNarrowTerm term.now }
{
    match push_numbered(out, b" ", term.row as u128) {
        Err(error) => Err(error),
        Ok(()) => push_numbered(out, b":", term.factor.unsigned_abs()),
    }
}

/// Appends terms.
fn push_terms(out: &mut Vec<u8>, terms: &[Term]) -> Result<(), AllocError>
    ensures text { OnOk result (out.new.items ≡ out.old.items ++ terms_text (map term_line_of terms.now)) }
    ensures narrow { OnOk result (All IsNarrowTerm terms.now) }
{
    for term in terms {
        match push_term(out, term) {
            Err(error) => return Err(error),
            Ok(()) => {}
        }
    }
    Ok(())
}

/// Appends the line of a step.
fn push_step(out: &mut Vec<u8>, line: &Line) -> Result<(), AllocError>
    ensures text { OnOk result
        (out.new.items ≡ out.old.items ++ (step_text (step_line_of (step_of line.now)) ++ codes "\n")) }
    ensures narrow { OnOk result (IsNarrowLine line.now) }
{
    match push_numbered(out, b"line ", line.divisor.unsigned_abs()) {
        Err(error) => Err(error),
        Ok(()) => match push_terms(out, &line.terms) {
            Err(error) => Err(error),
            Ok(()) => put_bytes(out, b"\n"),
        },
    }
}

/// Appends the lines of steps.
fn push_steps(out: &mut Vec<u8>, lines: &[Line]) -> Result<(), AllocError>
    ensures text { OnOk result (out.new.items ≡ out.old.items ++ steps_text (map step_of lines.now)) }
    ensures narrow { OnOk result (All IsNarrowStep (map step_of lines.now)) }
{
    for line in lines {
        match push_step(out, line) {
            Err(error) => return Err(error),
            Ok(()) => {}
        }
    }
    Ok(())
}

/// Appends the line of a goal.
fn push_goal(out: &mut Vec<u8>, number: u64) -> Result<(), AllocError>
    ensures { OnOk result (out.new.items ≡ out.old.items ++ (goal_text number ++ codes "\n")) }
{
    match push_numbered(out, b"goal ", number as u128) {
        Err(error) => Err(error),
        Ok(()) => put_bytes(out, b"\n"),
    }
}

/// Appends the line of a goal and those of its derivation.
///
/// # Errors
/// `AllocError` alone.
pub fn push_proof(out: &mut Vec<u8>, number: u64, lines: &[Line]) -> Result<(), AllocError>
    ensures text { OnOk result (out.new.items ≡ out.old.items ++ proof_text number (map step_of lines.now)) }
    ensures narrow { OnOk result (All IsNarrowStep (map step_of lines.now)) }
{
    match push_goal(out, number) {
        Err(error) => Err(error),
        Ok(()) => push_steps(out, lines),
    }
}
