//! The reader of a kernel: a machine of one step a token, and the call that runs it over a list of tokens.
//! Nothing recurses over the nesting of items: a count of braces is all that is kept of it.
//! Promises the parts of each tree that the tokens spell, or the first fault.
ghost use Rattle.std.specs.Prelude.{◌≡◌, ◌<◌, ◌^◌, ◌++◌, ◌+◌, [], Some, IfErr, IfOk, OnOk};
ghost use Rattle.scop_expressions.specs.Machine.{step};
ghost use Rattle.scop_expressions.specs.Stepping.{HasRoom};
ghost use Rattle.scop_expressions.specs.declared.reader.TheConstants.{MOST_BRACKETS, MOST_OPERATORS};
ghost use Rattle.scop_grammar.specs.Promises.{IsRead};
ghost use Rattle.scop_grammar.specs.Kernel.{marked};
ghost use Rattle.scop_grammar.specs.Machine.{ahead, answer, first_spot, goes_on, inner_turn, leaves, read, sign_turn};
ghost use Rattle.scop_grammar.specs.Machine.{turn};
ghost use Rattle.scop_grammar.specs.declared.table.Want.TheVariants as want;
ghost use Rattle.scop_grammar.specs.Turns.{Feeds, Gives, HasSpace, IsStop, Turns, pieces_of};

use crate::part::{Mark, Part};
use crate::table::{Role, Want, behind, braced, carried, left, mark, next, room};
use scop_expressions::{MOST_BRACKETS, MOST_OPERATORS, Reader, Stop, Token, told_at};
use std::alloc::{AllocError, Global};
use std::marker::Model;
use std::mem;

// What one token did.
#[derive(Clone, Copy)]
enum Went {
    On,
    // No text goes on so.
    Stop,
    // Only a text beyond the limits goes on so.
    Deep,
}

/// A reader in the midst of a kernel.
#[derive(Drop)]
pub struct KernelReader {
    want: Want,
    braces: usize,
    used: usize,
    parts: Vec<Part>,
    at: usize,
    first: usize,
    inner: Reader,
}

impl Model for KernelReader {
    ghost use Rattle.scop_grammar.specs.Machine.{Spot, spot};
    ghost use Rattle.scop_grammar.specs.Turns.{pieces_of};

    ghost Value = { Spot };

    ghost view = { λ r. spot r.want r.braces r.used (pieces_of r.parts.items) r.at r.first r.inner };
}

// Adds a sign that is kept.
fn keep(parts: &mut Vec<Part>, mark: Option<Mark>, at: usize) -> Result<(), AllocError>
    ensures { OnOk result (pieces_of parts.new.items ≡ pieces_of parts.old.items ++ marked mark at) }
{
    match mark {
        None => Ok(()),
        Some(mark) => {
            parts.push(Part::Sign(mark, at))?;
            Ok(())
        }
    }
}

impl KernelReader {
    /// A reader before its first token.
    pub fn new(alloc: Global) -> KernelReader
        ensures { result ≡ first_spot }
    {
        KernelReader {
            want: Want::Void,
            braces: 0,
            used: 0,
            parts: Vec::new(alloc),
            at: 0,
            first: 0,
            inner: Reader::new(alloc),
        }
    }

    // Goes on behind a sign.
    fn go(&mut self, alloc: Global, want: Want, braces: usize, used: usize)
        requires { HasSpace self.old }
        ensures { self.new ≡ ahead want braces used self.old.pieces (self.old.at + 1) }
    {
        self.want = want;
        self.braces = braces;
        self.used = carried(want, used);
        self.at += 1;
        self.first = self.at;
        self.inner = Reader::new(alloc);
    }

    // A sign between expressions.
    fn sign_turn(
        &mut self,
        alloc: Global,
        token: Token,
        next: Option<Want>,
    ) -> Result<Went, AllocError>
        requires { HasSpace self.old }
        ensures { Turns result self.new (sign_turn self.old token next) }
    {
        let want = match next {
            None => return Ok(Went::Stop),
            Some(want) => want,
        };
        keep(&mut self.parts, mark(self.want, token), self.at)?;
        self.go(
            alloc,
            want,
            braced(self.want, token, self.braces),
            self.used,
        );
        Ok(Went::On)
    }

    // The sign behind the expression in hand, which is complete.
    fn leave(&mut self, alloc: Global, next: Option<Want>) -> Result<Went, AllocError>
        requires space { HasSpace self.old }
        requires room { self.old.inner.used < 2 ^ 62 }
        ensures { Turns result self.new (leaves self.old (Some self.old.inner.nodes) next) }
    {
        let want = match next {
            None => return Ok(Went::Stop),
            Some(want) => want,
        };
        let used = self.used + self.inner.used;
        let inner = mem::replace(&mut self.inner, Reader::new(alloc));
        self.parts.push(Part::Expression(self.first, inner.nodes))?;
        self.go(alloc, want, self.braces, used);
        Ok(Went::On)
    }

    // A token of the expression in hand, or behind it.
    fn inner_turn(&mut self, alloc: Global, role: Role, token: Token) -> Result<Went, AllocError>
        requires want { self.old.want ≡ want.Inner role }
        requires space { HasSpace self.old }
        requires room { HasRoom self.old.inner }
        ensures { Turns result self.new
            (inner_turn MOST_BRACKETS MOST_OPERATORS role self.old token (step self.old.inner token)) }
    {
        if !self.inner.step(token)? {
            if !self.inner.finish()? {
                return Ok(Went::Stop);
            }
            return self.leave(alloc, behind(role, token));
        }
        if !self.inner.fits(
            room(role, MOST_BRACKETS),
            left(role, MOST_OPERATORS, self.used),
        ) {
            return Ok(Went::Deep);
        }
        self.at += 1;
        Ok(Went::On)
    }

    // One token.
    fn turn(&mut self, alloc: Global, token: Token) -> Result<Went, AllocError>
        requires space { HasSpace self.old }
        requires room { HasRoom self.old.inner }
        ensures { Turns result self.new (turn MOST_BRACKETS MOST_OPERATORS self.old token) }
    {
        match self.want {
            Want::Inner(role) => self.inner_turn(alloc, role, token),
            want => self.sign_turn(alloc, token, next(want, self.braces, token)),
        }
    }

    /// One token.
    ///
    /// # Errors
    /// `Unfit` where no text goes on so, `Depth` where only one beyond the limits does. `NoMemory` may come wherever
    /// memory is taken.
    pub fn feed(&mut self, alloc: Global, token: Token) -> Result<(), Stop>
        requires space { HasSpace self.old }
        requires room { HasRoom self.old.inner }
        ensures { Feeds result self.old self.new token (turn MOST_BRACKETS MOST_OPERATORS self.old token) }
    {
        let at = self.at;
        match self.turn(alloc, token)? {
            Went::On => Ok(()),
            Went::Stop => Err(Stop::Unfit(at)),
            Went::Deep => Err(Stop::Depth(told_at(token, at))),
        }
    }

    /// The parts so far, which are taken out.
    pub fn take_parts(&mut self, alloc: Global) -> Vec<Part>
        ensures parts { pieces_of result.items ≡ self.old.pieces }
        ensures rest { self.new ≡ record self.old { pieces = [] } }
    {
        mem::replace(&mut self.parts, Vec::new(alloc))
    }

    /// The text, where no token is left.
    ///
    /// # Errors
    /// `Unended` where the text is not complete.
    pub fn finish(self) -> Result<Text, Stop>
        ensures { Gives result (answer (goes_on self)) }
    {
        match self.want {
            Want::Over => Ok(Text { parts: self.parts }),
            _ => Err(Stop::Unended(self.at)),
        }
    }
}

/// A kernel's text: its parts in textual order.
#[derive(Drop)]
pub struct Text {
    pub parts: Vec<Part>,
}

// The machine's run over the tokens.
fn run(alloc: Global, tokens: &[Token]) -> Result<Text, Stop>
    ensures { Gives result (read MOST_BRACKETS MOST_OPERATORS tokens.now) }
{
    let mut reader = KernelReader::new(alloc);
    for token in tokens {
        match reader.feed(alloc, *token) {
            Err(stop) => return Err(stop),
            Ok(()) => {}
        }
    }
    reader.finish()
}

/// Reads a kernel.
///
/// # Errors
/// The first fault: `Unfit` at the first token with which no text begins so, of any limits; `Unended` where every token
/// fits and the tokens end too early; `Depth` at the first token that only a text beyond the limits has.
/// `NoMemory` may come wherever memory is taken.
pub fn read(alloc: Global, tokens: &[Token]) -> Result<Text, Stop>
    ensures text { IfOk result (λ t. IsRead MOST_BRACKETS MOST_OPERATORS tokens.now (pieces_of t.parts.items)) }
    ensures stop { IfErr result (IsStop MOST_BRACKETS MOST_OPERATORS tokens.now) }
{
    run(alloc, tokens)
}
