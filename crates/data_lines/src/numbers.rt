//! Decimal numbers of 64 bits, one or a whole list, and lists of cells, which may have 32.

ghost use Rattle.std.specs.Prelude.{◌≡◌, ◌^◌, nat_lt, IfOk, IsErrOf, Some, None};
ghost use Rattle.std.specs.List.{list_all};
ghost use Rattle.data_lines.specs.Words.{words_of};
ghost use Rattle.data_lines.specs.Numbers.{cells_of, next_number, number_of, numbers_of};

use crate::words::first_word;
use std::alloc::Global;

/// The number that a word is, if it is one of 64 bits.
pub(crate) fn number_of(word: &[u8]) -> Option<u64>
    ensures { result ≡ number_of word.now }
{
    let mut value = 0;
    for byte in word {
        match next_number(value, *byte) {
            Some(next) => value = next,
            None => return None,
        }
    }
    Some(value)
}

/// The number with one more digit behind it, if the byte is a digit and it has 64 bits.
fn next_number(value: u64, byte: u8) -> Option<u64>
    ensures { result ≡ next_number value byte }
{
    if !byte.is_ascii_digit() {
        return None;
    }
    value.checked_mul(10)?.checked_add(u64::from(byte - b'0'))
}

/// Why a list of numbers was not read.
#[derive(Clone, Copy)]
pub(crate) enum ListError {
    /// A word is no number, or one that is too wide.
    NotANumber,
    /// Memory ran out.
    NoMemory,
}

/// The numbers that the words of a list are.
fn numbers_of(alloc: Global, list: &[u8]) -> Result<Vec<u64>, ListError>
    ensures numbers { IfOk result (λ numbers. numbers_of (words_of list.now) ≡ Some numbers.items) }
    ensures refused { IsErrOf result ListError.NotANumber → numbers_of (words_of list.now) ≡ None }
{
    let mut numbers = Vec::new(alloc);
    let mut behind = list;
    while let Some(first) = first_word(behind) {
        let Some(number) = number_of(first.word) else {
            return Err(ListError::NotANumber);
        };
        let Ok(()) = numbers.push(number) else {
            return Err(ListError::NoMemory);
        };
        behind = first.behind;
    }
    Ok(numbers)
}

/// Whether numbers have 32 bits.
fn are_narrow(numbers: &[u64]) -> bool
    ensures { result ≡ list_all (λ n. nat_lt n (2 ^ 32)) numbers.now }
{
    numbers.iter().all(|number| *number < 1 << 32)
}

/// The cells that the words of a list are, of a narrow array or of another.
pub(crate) fn cells_of(alloc: Global, narrow: bool, list: &[u8]) -> Result<Vec<u64>, ListError>
    ensures cells { IfOk result (λ cells. cells_of narrow (words_of list.now) ≡ Some cells.items) }
    ensures refused { IsErrOf result ListError.NotANumber → cells_of narrow (words_of list.now) ≡ None }
{
    match numbers_of(alloc, list) {
        Ok(cells) => {
            if !narrow {
                return Ok(cells);
            }
            if are_narrow(&cells) {
                return Ok(cells);
            }
            Err(ListError::NotANumber)
        }
        Err(stop) => Err(stop),
    }
}
