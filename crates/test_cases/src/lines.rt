//! The lines of a text, read one after another, each of which is a word and numbers.

use std::alloc::{AllocError, Global};
use std::str::from_utf8;

/// The lines of a text, and how many of them have been read.
#[derive(Drop)]
pub struct Lines {
    all: Vec<String>,
    read: usize,
}

impl Lines {
    /// The lines of a text in UTF-8, none of them read; of another text there are none.
    pub fn of(alloc: Global, text: &[u8]) -> Result<Lines, AllocError> {
        let mut all = Vec::new(alloc);
        if let Ok(text) = from_utf8(text) {
            for line in text.split_terminator('\n') {
                all.push(String::from_str(alloc, line)?)?;
            }
        }
        Ok(Lines { all, read: 0 })
    }

    /// How many lines are left.
    pub fn left(&self) -> usize {
        self.all.len().saturating_sub(self.read)
    }

    /// The line in front, without its end; an empty one where none is left.
    pub fn front(&self) -> &str {
        if self.read < self.all.len() {
            self.all[self.read].as_str()
        } else {
            ""
        }
    }

    /// Goes on to the next line.
    pub fn pass(&mut self) {
        if self.read < self.all.len() {
            self.read += 1;
        }
    }

    /// Whether the line in front begins with the word.
    pub fn begins(&self, word: &str) -> bool {
        match self.front().split_whitespace().next() {
            Some(first) => first == word,
            None => false,
        }
    }

    /// The numbers behind the first word of the line in front; nothing where one of its words is no number.
    pub fn numbers(&self, alloc: Global) -> Result<Option<Vec<i128>>, AllocError> {
        let mut numbers = Vec::new(alloc);
        let mut words = self.front().split_whitespace();
        let _first = words.next();
        for word in words {
            match word.parse::<i128>() {
                Ok(number) => numbers.push(number)?,
                Err(_) => return Ok(None),
            }
        }
        Ok(Some(numbers))
    }

    /// The numbers behind the word, which the line in front is to begin with, as counts, where there are so many; zeros
    /// behind them.
    pub fn counts(
        &self,
        alloc: Global,
        word: &str,
        many: usize,
    ) -> Result<Option<[usize; 4]>, AllocError> {
        if !self.begins(word) {
            return Ok(None);
        }
        match self.numbers(alloc)? {
            None => Ok(None),
            Some(numbers) => Ok(counts_of(&numbers, many)),
        }
    }
}

/// So many numbers, at most four, as counts.
fn counts_of(numbers: &[i128], many: usize) -> Option<[usize; 4]> {
    if numbers.len() != many {
        return None;
    }
    let mut counts = [0; 4];
    for at in 0..numbers.len() {
        match usize::try_from(numbers[at]) {
            Ok(count) if at < 4 => counts[at] = count,
            _ => return None,
        }
    }
    Some(counts)
}
