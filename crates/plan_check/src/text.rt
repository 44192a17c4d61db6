//! The lines of a certificate.
ghost use Rattle.std.specs.Prelude.{◌≡◌, ◌≤◌, [], IfOk, length, map, option_map};
ghost use Rattle.std.specs.List.{position_or_len};
ghost use Rattle.schedule_lines.specs.View.{number_read, read_in};
ghost use Rattle.plan_check.specs.Text.{goal_in, is_line_feed, positive_in, proof_in, said_in, step_in, term_in};
ghost use Rattle.plan_check.specs.Text.{terms_in};
ghost use Rattle.plan_check.specs.TextView.{said_view, step_view, term_view};

use affine_forms::push;
use form_text::strip;
use schedule_lines::{Read, RowLine, ScalarLine, read_numeral, read_row, read_scalar};
use std::alloc::{AllocError, Global};

/// A row's number, and how often it is taken.
#[derive(Clone, Copy)]
pub struct TermLine {
    pub row: u128,
    pub factor: u128,
}

/// A step: the sum of its terms' rows, divided.
#[derive(Drop)]
pub struct StepLine {
    pub divisor: u128,
    pub terms: Vec<TermLine>,
}

/// What a line says.
#[derive(Drop)]
pub enum Said {
    Row(RowLine),
    Scalar(ScalarLine),
    Goal(u128),
    Step(StepLine),
}

/// How many bytes the first line has, without its line feed.
pub fn line_len(text: &[u8]) -> usize
    ensures value { result ≡ position_or_len is_line_feed text.now }
    ensures within { result ≤ length text.now }
{
    text.iter().take_while(|byte| **byte != b'\n').count()
}

/// A number that is at least 1.
fn read_positive<'a>(text: &'a [u8]) -> Option<Read<'a, u128>>
    ensures { number_read result ≡ positive_in text.now }
{
    match read_numeral(text) {
        None => None,
        Some(number) => {
            if number.found == 0 {
                None
            } else {
                Some(number)
            }
        }
    }
}

/// A term, and the space in front of it.
fn read_term<'a>(text: &'a [u8]) -> Option<Read<'a, TermLine>>
    ensures { read_in term_view result ≡ term_in text.now }
{
    let Some(behind) = strip(text, b" ") else {
        return None;
    };
    let Some(row) = read_numeral(behind) else {
        return None;
    };
    let Some(rest) = strip(row.rest, b":") else {
        return None;
    };
    let Some(factor) = read_positive(rest) else {
        return None;
    };
    Some(Read {
        found: TermLine {
            row: row.found,
            factor: factor.found,
        },
        rest: factor.rest,
    })
}

/// Terms up to the line's end.
#[tactic(auto, using(crate::proofs::ReadTerms::reading_terms))]
fn read_terms(alloc: Global, text: &[u8]) -> Result<Option<Vec<TermLine>>, AllocError>
    ensures { IfOk result (λ r. option_map (λ v. (map term_view v.items, [])) r ≡ terms_in (length text.now) text.now) }
{
    let mut found = Vec::new(alloc);
    let mut rest = text;
    for _step in 0..text.len() {
        if rest.is_empty() {
            return Ok(Some(found));
        }
        match read_term(rest) {
            None => return Ok(None),
            Some(term) => {
                match push(&mut found, term.found) {
                    Err(_) => return Err(AllocError),
                    Ok(()) => {}
                }
                rest = term.rest;
            }
        }
    }
    Ok(None)
}

/// A step's line.
fn read_step(alloc: Global, text: &[u8]) -> Result<Option<StepLine>, AllocError>
    ensures { IfOk result (λ r. option_map step_view r ≡ step_in text.now) }
{
    let Some(behind) = strip(text, b"line ") else {
        return Ok(None);
    };
    let Some(divisor) = read_positive(behind) else {
        return Ok(None);
    };
    if divisor.rest.is_empty() {
        return Ok(None);
    }
    match read_terms(alloc, divisor.rest) {
        Err(_) => Err(AllocError),
        Ok(None) => Ok(None),
        Ok(Some(terms)) => Ok(Some(StepLine {
            divisor: divisor.found,
            terms,
        })),
    }
}

/// A goal's line.
fn read_goal(text: &[u8]) -> Option<u128>
    ensures { result ≡ goal_in text.now }
{
    let Some(behind) = strip(text, b"goal ") else {
        return None;
    };
    let Some(number) = read_numeral(behind) else {
        return None;
    };
    if number.rest.is_empty() {
        Some(number.found)
    } else {
        None
    }
}

/// A goal's line, or a step's.
fn read_proof(alloc: Global, line: &[u8]) -> Result<Option<Said>, AllocError>
    ensures { IfOk result (λ r. option_map said_view r ≡ proof_in line.now) }
{
    if let Some(number) = read_goal(line) {
        return Ok(Some(Said::Goal(number)));
    }
    match read_step(alloc, line) {
        Err(_) => Err(AllocError),
        Ok(None) => Ok(None),
        Ok(Some(step)) => Ok(Some(Said::Step(step))),
    }
}

/// What a line says, if it says anything, of statements with so many loops each.
pub fn read_said(alloc: Global, loops: &[usize], line: &[u8]) -> Result<Option<Said>, AllocError>
    ensures { IfOk result (λ r. option_map said_view r ≡ said_in loops.now line.now) }
{
    match read_row(alloc, loops, line) {
        Err(_) => Err(AllocError),
        Ok(Some(row)) => Ok(Some(Said::Row(row))),
        Ok(None) => match read_scalar(alloc, loops.len(), line) {
            Err(_) => Err(AllocError),
            Ok(Some(scalar)) => Ok(Some(Said::Scalar(scalar))),
            Ok(None) => read_proof(alloc, line),
        },
    }
}
