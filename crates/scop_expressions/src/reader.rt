//! The reader of one expression: a machine of one step a token, and the call that runs it over a list of tokens.
//! Promises the nodes of each tree that the tokens spell, or the first fault.
//! E. W. Dijkstra, "Algol 60 translation", Mathematisch Centrum MR 34/61, 1961.
ghost use Rattle.std.specs.Prelude.{◌≡◌, ℕ, Err, Ok, IfErr, IfOk, OnOk};
ghost use Rattle.scop_expressions.specs.Tree.{cost, level};
ghost use Rattle.scop_expressions.specs.Machine.{after, bare_closed, call_opened, cast_closed, cast_word, casting};
ghost use Rattle.scop_expressions.specs.Machine.{closed, complete, demand, fits, go, index_opened, leaf, opened};
ghost use Rattle.scop_expressions.specs.Machine.{Kind, operand, or_fault, read, reduced, signed, start, step};
ghost use Rattle.scop_expressions.specs.Grammar.{told_at};
ghost use Rattle.scop_expressions.specs.declared.node.Mode.TheVariants as mode;
ghost use Rattle.scop_expressions.specs.declared.reader.Stop.TheVariants as stop;
ghost use Rattle.scop_expressions.specs.Promises.{IsRead};
ghost use Rattle.scop_expressions.specs.Gives.{Gives, IsStop};
ghost use Rattle.scop_expressions.specs.declared.reader.TheConstants.{MOST_BRACKETS, MOST_OPERATORS};
ghost use Rattle.scop_expressions.specs.Stepping.{Completes, HasRoom, Steps};
ghost use Rattle.scop_expressions.specs.steps.Joining.{ClosesAs, ClosesIndexAs, JoinsAs, tight};

use crate::node::{Held, Last, Mode, Node};
use crate::stack::Stack;
use crate::token::{Op, Sign, Token, Width};
use std::alloc::{AllocError, Global};
use std::marker::Model;

// How tightly an operator binds.
fn level(op: Op) -> usize
    ensures { result ≡ level op }
{
    match op {
        Op::Comma => 0,
        Op::LogicalOr => 1,
        Op::LogicalAnd => 2,
        Op::BitOr => 3,
        Op::BitXor => 4,
        Op::BitAnd => 5,
        Op::Equal | Op::NotEqual => 6,
        Op::Less | Op::AtMost | Op::Greater | Op::AtLeast => 7,
        Op::ShiftLeft | Op::ShiftRight => 8,
        Op::Plus | Op::Minus => 9,
        Op::Times | Op::Divide | Op::Remainder => 10,
    }
}

// What an operator counts.
fn cost(op: Op) -> usize
    ensures { result ≡ cost op }
{
    match op {
        Op::Comma => 0,
        _ => 1,
    }
}

// The node of an operator that binds tighter than `least`.
fn tight(least: usize, held: Held) -> Option<Node>
    ensures { result ≡ tight least held }
{
    match held {
        Held::Binary(op, at) => {
            if least < level(op) + 1 {
                Some(Node::Binary(op, at))
            } else {
                None
            }
        }
        Held::Unary(sign, at) => {
            if least < 11 {
                Some(Node::Unary(sign, at))
            } else {
                None
            }
        }
        Held::Cast(width, at) => {
            if least < 11 {
                Some(Node::Cast(width, at))
            } else {
                None
            }
        }
        Held::Group(_) | Held::Index(_) | Held::Call(_) => None,
    }
}

// The least level of an operand behind what is held.
fn demand(held: &Stack) -> usize
    ensures { result ≡ demand held.now }
{
    match held.top() {
        None => 1,
        Some(Held::Binary(op, _)) => level(op) + 1,
        Some(Held::Unary(_, _)) => 11,
        Some(Held::Cast(_, _)) => 11,
        Some(Held::Group(_)) => 1,
        Some(Held::Index(_)) => 1,
        Some(Held::Call(_)) => 0,
    }
}

// Gives the operators that bind tighter than `least` what is complete as their right operand.
#[tactic(auto, using(crate::proofs::Reductions::reducing))]
fn reduce(least: usize, held: &mut Stack, nodes: &mut Vec<Node>) -> Result<(), AllocError>
    ensures { OnOk result (reduced least held.old nodes.old.items ≡ (held.new, nodes.new.items)) }
{
    while let Some(top) = held.pop() {
        match tight(least, top) {
            None => return held.push(top),
            Some(node) => nodes.push(node)?,
        }
    }
    Ok(())
}

/// A reader in the midst of an expression.
#[derive(Drop)]
pub struct Reader {
    mode: Mode,
    held: Stack,
    pub nodes: Vec<Node>,
    at: usize,
    pub brackets: usize,
    pub used: usize,
}

impl Model for Reader {
    ghost use Rattle.scop_expressions.specs.Machine.{State, state};

    ghost Value = { State };

    ghost view = { λ r. state r.mode r.held r.nodes.items r.at r.brackets r.used };
}

impl Reader {
    /// A reader before its first token.
    pub fn new(alloc: Global) -> Reader
        ensures { result ≡ start }
    {
        Reader {
            mode: Mode::Want,
            held: Stack::new(alloc),
            nodes: Vec::new(alloc),
            at: 0,
            brackets: 0,
            used: 0,
        }
    }

    // An operand that is one token.
    fn leaf(&mut self, last: Last, node: Node) -> Result<bool, AllocError>
        requires { HasRoom self.old }
        ensures { Steps result self.old self.new (leaf self.old last node) }
    {
        self.nodes.push(node)?;
        self.mode = Mode::Done(last);
        self.at += 1;
        Ok(true)
    }

    // A bracket opens.
    fn opened(&mut self, held: Held) -> Result<bool, AllocError>
        requires { HasRoom self.old }
        ensures { Steps result self.old self.new (opened self.old held) }
    {
        self.held.push(held)?;
        self.mode = Mode::Want;
        self.at += 1;
        self.brackets += 1;
        Ok(true)
    }

    // A sign.
    fn signed(&mut self, sign: Sign) -> Result<bool, AllocError>
        requires { HasRoom self.old }
        ensures { Steps result self.old self.new (signed self.old sign) }
    {
        self.held.push(Held::Unary(sign, self.at))?;
        self.mode = Mode::Want;
        self.at += 1;
        self.used += 1;
        Ok(true)
    }

    // A token where an operand is wanted.
    fn operand(&mut self, token: Token) -> Result<bool, AllocError>
        requires { HasRoom self.old }
        ensures { Steps result self.old self.new (operand self.old token) }
    {
        let at = self.at;
        match token {
            Token::Constant(suffix) => self.leaf(Last::Other, Node::Constant(suffix, at)),
            Token::Name => self.leaf(Last::Name, Node::Name(at)),
            Token::Open => self.opened(Held::Group(at)),
            Token::Binary(Op::Minus) => self.signed(Sign::Minus),
            Token::Complement => self.signed(Sign::Complement),
            Token::Not => self.signed(Sign::Not),
            Token::Unsigned(width) => Ok(self.cast_word(width)),
            Token::Close => self.bare_closed(),
            _ => Ok(false),
        }
    }

    // A binary operator behind an operand.
    fn joined(&mut self, op: Op) -> Result<bool, AllocError>
        requires { HasRoom self.old }
        ensures { JoinsAs result self.old self.new op }
    {
        let least = level(op);
        reduce(least, &mut self.held, &mut self.nodes)?;
        if demand(&self.held) > least {
            return Ok(false);
        }
        self.held.push(Held::Binary(op, self.at))?;
        self.mode = Mode::Want;
        self.at += 1;
        self.used += cost(op);
        Ok(true)
    }

    // A bracket is closed.
    fn closed(&mut self, mode: Mode)
        requires { HasRoom self.old }
        ensures { go self.new ≡ closed self.old mode self.old.held self.old.nodes }
    {
        self.mode = mode;
        self.at += 1;
        self.brackets = self.brackets.saturating_sub(1);
    }

    // A `)` behind an operand.
    fn closes(&mut self) -> Result<bool, AllocError>
        requires { HasRoom self.old }
        ensures { ClosesAs result self.old self.new }
    {
        reduce(0, &mut self.held, &mut self.nodes)?;
        match self.held.top() {
            Some(Held::Group(_)) => {}
            Some(Held::Call(at)) => self.nodes.push(Node::Call(at))?,
            _ => return Ok(false),
        }
        let _bracket = self.held.pop();
        self.closed(Mode::Done(Last::Other));
        Ok(true)
    }

    // A `]` behind an operand.
    fn closes_index(&mut self) -> Result<bool, AllocError>
        requires { HasRoom self.old }
        ensures { ClosesIndexAs result self.old self.new }
    {
        reduce(0, &mut self.held, &mut self.nodes)?;
        match self.held.top() {
            Some(Held::Index(at)) => self.nodes.push(Node::Index(at))?,
            _ => return Ok(false),
        }
        let _bracket = self.held.pop();
        self.closed(Mode::Done(Last::Subscript));
        Ok(true)
    }

    // A parenthesis behind a name.
    fn call_opened(&mut self, last: Last) -> Result<bool, AllocError>
        requires { HasRoom self.old }
        ensures { Steps result self.old self.new (call_opened self.old last) }
    {
        match last {
            Last::Name => self.opened(Held::Call(self.at)),
            Last::Subscript | Last::Other => Ok(false),
        }
    }

    // A subscript behind a place.
    fn index_opened(&mut self, last: Last) -> Result<bool, AllocError>
        requires { HasRoom self.old }
        ensures { Steps result self.old self.new (index_opened self.old last) }
    {
        match last {
            Last::Name | Last::Subscript => self.opened(Held::Index(self.at)),
            Last::Other => Ok(false),
        }
    }

    // A token behind an operand.
    fn after(&mut self, last: Last, token: Token) -> Result<bool, AllocError>
        requires mode { self.old.mode ≡ mode.Done last }
        requires room { HasRoom self.old }
        ensures { Steps result self.old self.new (after self.old last token) }
    {
        match token {
            Token::Open => self.call_opened(last),
            Token::OpenIndex => self.index_opened(last),
            Token::Binary(op) => self.joined(op),
            Token::Close => self.closes(),
            Token::CloseIndex => self.closes_index(),
            _ => Ok(false),
        }
    }

    // The word of a cast.
    fn cast_word(&mut self, width: Width) -> bool
        requires { HasRoom self.old }
        ensures { Steps {E = ℕ} (Ok result) self.old self.new (cast_word self.old width self.old.held) }
    {
        match self.held.top() {
            Some(Held::Group(_)) => {}
            _ => return false,
        }
        self.mode = Mode::Casting(width);
        self.at += 1;
        self.used += 1;
        true
    }

    // The bracket behind a cast's word.
    fn cast_closed(&mut self, width: Width) -> Result<bool, AllocError>
        requires { HasRoom self.old }
        ensures { Steps result self.old self.new (cast_closed self.old width self.old.held) }
    {
        let at = match self.held.top() {
            Some(Held::Group(at)) => at,
            _ => return Ok(false),
        };
        let _bracket = self.held.pop();
        self.held.push(Held::Cast(width, at))?;
        self.closed(Mode::Want);
        Ok(true)
    }

    // A call without arguments closes.
    fn bare_closed(&mut self) -> Result<bool, AllocError>
        requires { HasRoom self.old }
        ensures { Steps result self.old self.new (bare_closed self.old self.old.held) }
    {
        let at = match self.held.top() {
            Some(Held::Call(at)) => at,
            _ => return Ok(false),
        };
        let _bracket = self.held.pop();
        self.nodes.push(Node::BareCall(at))?;
        self.closed(Mode::Done(Last::Other));
        Ok(true)
    }

    // The parenthesis behind a cast's word.
    fn casting(&mut self, width: Width, token: Token) -> Result<bool, AllocError>
        requires { HasRoom self.old }
        ensures { Steps result self.old self.new (casting self.old width token) }
    {
        match token {
            Token::Close => self.cast_closed(width),
            _ => Ok(false),
        }
    }

    /// One token. `false`: the token does not go on with what was read, and what is complete stays so.
    pub fn step(&mut self, token: Token) -> Result<bool, AllocError>
        requires { HasRoom self.old }
        ensures { Steps result self.old self.new (step self.old token) }
    {
        match self.mode {
            Mode::Want => self.operand(token),
            Mode::Casting(width) => self.casting(width, token),
            Mode::Done(last) => self.after(last, token),
        }
    }

    /// At most so many brackets are open, and at most so many operators were read.
    pub fn fits(&self, most_brackets: usize, most_operators: usize) -> bool
        ensures { result ≡ fits most_brackets most_operators self.now }
    {
        self.brackets <= most_brackets && self.used <= most_operators
    }

    /// Completes the expression, if it may end here.
    pub fn finish(&mut self) -> Result<bool, AllocError>
        ensures { Completes result self.old self.new }
    {
        match self.mode {
            Mode::Done(_) => {}
            Mode::Want | Mode::Casting(_) => return Ok(false),
        }
        reduce(0, &mut self.held, &mut self.nodes)?;
        match self.held.top() {
            None => Ok(true),
            Some(_) => Ok(false),
        }
    }
}

/// An expression: its nodes in postfix order, and how many tokens it took.
#[derive(Drop)]
pub struct Expression {
    pub nodes: Vec<Node>,
    pub count: usize,
}

/// Why there is no expression, with the place of the token that it is told at.
#[derive(Debug, Clone, Copy)]
pub enum Stop {
    /// The token fits nowhere.
    Unfit(usize),
    /// The tokens end too early.
    Unended(usize),
    /// The token passes a limit.
    Depth(usize),
    NoMemory,
}

impl From<AllocError> for Stop {
    ghost from_gives = { λ _ s. s ≡ stop.NoMemory };

    fn from(_: AllocError) -> Stop {
        Stop::NoMemory
    }
}

/// The most brackets that are open at once.
pub const MOST_BRACKETS: usize = 64;

/// The most operators.
pub const MOST_OPERATORS: usize = 256;

/// Where the token that passes a limit is told: a cast at its parenthesis.
pub fn told_at(token: Token, at: usize) -> usize
    ensures { result ≡ told_at token at }
{
    match token {
        Token::Unsigned(_) => at.saturating_sub(1),
        _ => at,
    }
}

// The expression, if it may end here, else this stop.
fn ended(reader: Reader, stop: Stop) -> Result<Expression, Stop>
    ensures { (k : Kind) → Gives (Err stop) (Err (k, reader.at))
        → Gives result (or_fault (complete reader) k reader.at) }
{
    let mut reader = reader;
    let count = reader.at;
    if !reader.finish()? {
        return Err(stop);
    }
    Ok(Expression {
        nodes: reader.nodes,
        count,
    })
}

// The machine's run over the tokens.
fn run(alloc: Global, tokens: &[Token]) -> Result<Expression, Stop>
    ensures { Gives result (read MOST_BRACKETS MOST_OPERATORS tokens.now) }
{
    let mut reader = Reader::new(alloc);
    for token in tokens {
        let at = reader.at;
        if !reader.step(*token)? {
            return ended(reader, Stop::Unfit(at));
        }
        if !reader.fits(MOST_BRACKETS, MOST_OPERATORS) {
            return Err(Stop::Depth(told_at(*token, at)));
        }
    }
    let at = reader.at;
    ended(reader, Stop::Unended(at))
}

/// Reads the expression with which the tokens begin, up to the first token with which no text goes on, however deep.
///
/// # Errors
/// The first fault: `Unfit` at the first token with which no text goes on so, however deep, where the tokens before
/// it are no expression; `Unended` where every token fits and the tokens end too early; `Depth` at the first token
/// that only a text beyond the limits has. `NoMemory` may come wherever memory is taken.
pub fn read(alloc: Global, tokens: &[Token]) -> Result<Expression, Stop>
    ensures expression { IfOk result (λ e. IsRead MOST_BRACKETS MOST_OPERATORS tokens.now e.nodes.items e.count) }
    ensures stop { IfErr result (IsStop MOST_BRACKETS MOST_OPERATORS tokens.now) }
{
    run(alloc, tokens)
}
