//! Calls as their records stand in a text, one after another.

ghost use Rattle.std.specs.Prelude.{◌≤◌, OnSome, length};

use std::alloc::{AllocError, Global};
use std::str::from_utf8;

/// A call, and the text behind its record.
#[derive(Drop)]
pub struct Call<'a> {
    pub name: &'a str,
    /// The command line, the program's name first.
    pub words: Vec<String>,
    pub input: &'a [u8],
    pub rest: &'a [u8],
}

/// How many bytes the three parts behind the first line have.
#[derive(Clone, Copy)]
struct Lengths {
    input: usize,
    out: usize,
    err: usize,
}

/// A part of a text, and what stands behind the line feed that ends it.
#[derive(Clone, Copy)]
struct Part<'a> {
    bytes: &'a [u8],
    rest: &'a [u8],
}

/// The first line of a text, without its end.
fn first_line(text: &[u8]) -> &[u8] {
    for (at, byte) in text.iter().enumerate() {
        if *byte == b'\n' {
            return &text[..at];
        }
    }
    text
}

/// The first bytes of a text, where there are so many and a line feed ends them.
fn ended_part(text: &[u8], length: usize) -> Option<Part<'_>> {
    if length < text.len() && text[length] == b'\n' {
        Some(Part {
            bytes: &text[..length],
            rest: &text[length + 1..],
        })
    } else {
        None
    }
}

/// The lengths that a first line tells, where its words begin as those of a record do.
fn told_lengths(words: &[&str]) -> Option<Lengths>
    ensures { OnSome result (6 ≤ length words.now) }
{
    if words.len() < 6 || words[0] != "case" || words[2].parse::<u8>().is_err() {
        return None;
    }
    match (
        words[3].parse::<usize>(),
        words[4].parse::<usize>(),
        words[5].parse::<usize>(),
    ) {
        (Ok(input), Ok(out), Ok(err)) => Some(Lengths { input, out, err }),
        _ => None,
    }
}

/// The words of a line; none where it is not a text.
fn words_of(alloc: Global, line: &[u8]) -> Result<Vec<&str>, AllocError> {
    let mut words = Vec::new(alloc);
    if let Ok(line) = from_utf8(line) {
        for word in line.split(' ') {
            words.push(word)?;
        }
    }
    Ok(words)
}

/// The command line of a record whose first line has these words.
fn command(alloc: Global, words: &[&str]) -> Result<Vec<String>, AllocError> {
    let mut command = Vec::new(alloc);
    command.push(String::from_str(alloc, "polypar")?)?;
    for word in words.iter().skip(6) {
        command.push(String::from_str(alloc, word)?)?;
    }
    Ok(command)
}

/// The input of a record, and the text behind its answer.
fn input_and_rest(text: &[u8], lengths: Lengths) -> Option<Part<'_>> {
    let input = ended_part(text, lengths.input)?;
    let out = ended_part(input.rest, lengths.out)?;
    let err = ended_part(out.rest, lengths.err)?;
    Some(Part {
        bytes: input.bytes,
        rest: err.rest,
    })
}

/// The call whose record stands at the front of a text; nothing where none does.
pub fn first_call(alloc: Global, text: &[u8]) -> Result<Option<Call<'_>>, AllocError> {
    let line = first_line(text);
    let words = words_of(alloc, line)?;
    let Some(lengths) = told_lengths(&words) else {
        return Ok(None);
    };
    let Some(head) = ended_part(text, line.len()) else {
        return Ok(None);
    };
    let Some(found) = input_and_rest(head.rest, lengths) else {
        return Ok(None);
    };
    Ok(Some(Call {
        name: words[1],
        words: command(alloc, &words)?,
        input: found.bytes,
        rest: found.rest,
    }))
}
