//! Names in scope, and what they mean.

ghost use Rattle.std.specs.Prelude.{◌≡◌, ◌<◌, ◌≤◌, IfOk, IfSome, OnOk, length, map};
ghost use Rattle.scop_units.specs.Scopes.{array_in, entries, is_reserved, iterator_fault, meaning_in, no_scope};
ghost use Rattle.scop_units.specs.Scopes.{number_inside, number_of, outer_meaning, redeclared, with_iterator};
ghost use Rattle.scop_units.specs.Scopes.{with_loop};
ghost use Rattle.scop_units.specs.View.{ranked, scope_of};

use crate::words::Words;
use scop_roles::{Kind, Meaning, Names};
use scop_syntax::{Array, Name};
use std::alloc::{AllocError, Global};
use std::collections::BTreeSet;

/// The names in scope.
#[derive(Drop)]
pub struct Scope {
    pub parameters: Vec<Name>,
    pub arrays: Vec<Array>,
    // Iterators declared at the start.
    pub declared: BTreeSet<Name>,
    // The iterators of the open loops, outermost first.
    pub open_loops: Vec<Name>,
}

// The number of a name in a list.
fn number_of(word: &[u8], names: &[Name]) -> Option<usize>
    ensures number { result ≡ number_of word.now (map (λ n. n.items) names.now) }
    ensures within { IfSome result (λ number. number < length names.now) }
{
    let mut at = 0;
    for name in names {
        if name.as_slice() == word {
            return Some(at);
        }
        at += 1;
    }
    None
}

// The array of a name.
fn array_in(word: &[u8], arrays: &[Array]) -> Meaning
    ensures { result ≡ array_in 0 word.now (map ranked arrays.now) }
{
    let mut at = 0;
    for array in arrays {
        if array.name.as_slice() == word {
            return Meaning::Array(at, array.extents.len(), array.narrow);
        }
        at += 1;
    }
    Meaning::Unknown
}

// Names that begin with `pp_` are kept free.
pub(crate) fn is_reserved(word: &[u8]) -> bool
    ensures { result ≡ is_reserved word.now }
{
    word.len() >= 3 && word[0] == b'p' && word[1] == b'p' && word[2] == b'_'
}

/// A name of these bytes.
pub fn copied(alloc: Global, word: &[u8]) -> Result<Name, AllocError>
    ensures { IfOk result (λ name. name.items ≡ word.now) }
{
    Vec::from_slice(alloc, word)
}

impl Scope {
    /// Nothing in scope.
    pub fn new(alloc: Global) -> Scope
        ensures { scope_of result ≡ no_scope }
    {
        Scope {
            parameters: Vec::new(alloc),
            arrays: Vec::new(alloc),
            declared: BTreeSet::new(alloc),
            open_loops: Vec::new(alloc),
        }
    }

    /// The entries of a point: the parameters so far, then the open loops.
    pub fn entries(&self) -> usize
        ensures { result ≡ entries (scope_of self.now) }
    {
        self.parameters.len() + self.open_loops.len()
    }

    // Whether a name is that of an iterator declared at the start.
    fn is_declared(&self, word: &[u8]) -> bool
        ensures { result ≡ (scope_of self.now).declared word.now }
    {
        self.declared.contains(word)
    }

    /// One iterator more is declared at the start.
    ///
    /// # Errors
    /// Want of memory.
    pub fn declare(&mut self, name: Name) -> Result<(), AllocError>
        ensures scope { OnOk result (scope_of self.new ≡ with_iterator (scope_of self.old) name.items) }
        ensures arrays { self.new.arrays ≡ self.old.arrays }
    {
        self.declared.insert(name)?;
        Ok(())
    }

    // What a name means outside of all loops.
    fn outer_meaning(&self, word: &[u8]) -> Meaning
        ensures { result ≡ outer_meaning (scope_of self.now) word.now }
    {
        if self.is_declared(word) {
            return Meaning::Closed;
        }
        match number_of(word, &self.parameters) {
            Some(number) => Meaning::Variable(number),
            None => array_in(word, &self.arrays),
        }
    }

    /// What a name means.
    pub fn meaning(&self, word: &[u8]) -> Meaning
        ensures { result ≡ meaning_in (scope_of self.now) word.now }
    {
        match number_of(word, &self.open_loops) {
            Some(number) => Meaning::Variable(self.parameters.len() + number),
            None => self.outer_meaning(word),
        }
    }

    // The number of a word among the open loops and, behind them, the loop whose head is read.
    fn number_inside(&self, iterator: &[u8], word: &[u8]) -> Option<usize>
        ensures number { result ≡ number_inside iterator.now word.now (scope_of self.now).open_loops }
        ensures within { IfSome result (λ number. number ≤ length (scope_of self.now).open_loops) }
    {
        match number_of(word, &self.open_loops) {
            Some(number) => Some(number),
            None => {
                if iterator == word {
                    Some(self.open_loops.len())
                } else {
                    None
                }
            }
        }
    }

    /// What a name means within the loop whose head is read.
    pub fn meaning_inside(&self, iterator: &[u8], word: &[u8]) -> Meaning
        ensures { result ≡ meaning_in (with_loop (scope_of self.now) iterator.now) word.now }
    {
        match self.number_inside(iterator, word) {
            Some(number) => Meaning::Variable(self.parameters.len() + number),
            None => self.outer_meaning(word),
        }
    }

    // A name that is declared.
    pub(crate) fn redeclared(&self, word: &[u8]) -> Option<Kind>
        ensures { result ≡ redeclared (scope_of self.now) word.now }
    {
        if is_reserved(word) || self.meaning(word) != Meaning::Unknown {
            Some(Kind::Redeclared)
        } else {
            None
        }
    }

    // The name of a loop's iterator; new: the loop declares it.
    pub(crate) fn iterator_fault(&self, new: bool, word: &[u8]) -> Option<Kind>
        ensures { result ≡ iterator_fault new (scope_of self.now) word.now }
    {
        if new {
            return self.redeclared(word);
        }
        match self.meaning(word) {
            Meaning::Unknown => Some(Kind::UnknownName),
            Meaning::Closed => None,
            Meaning::Variable(_) => Some(Kind::IteratorOutside),
            Meaning::Array(_, _, _) => Some(Kind::Rank),
        }
    }
}

/// What stands at a place in a scope.
#[derive(Drop)]
pub struct Look<'a> {
    pub words: Words<'a>,
    pub scope: &'a Scope,
    // The name of the loop whose head is read.
    pub inner: Option<usize>,
}

impl<'a> Names for Look<'a> {
    ghost use Rattle.scop_units.specs.View.{look_of};

    ghost lookup = { look_of };

    fn meaning(&self, at: usize) -> Meaning {
        let word = self.words.spelling(at);
        match self.inner {
            None => self.scope.meaning(word),
            Some(name_at) => self
                .scope
                .meaning_inside(self.words.spelling(name_at), word),
        }
    }

    fn worth(&self, at: usize) -> u64 {
        self.words.worth(at)
    }
}
