//! Which sign may come where, and what stands behind it.
ghost use Rattle.std.specs.Prelude.{◌≡◌, ◌<◌, ◌^◌};
ghost use Rattle.scop_grammar.specs.Table.{behind, braced, carried, item_mark, item_next, left, mark, next, room};
ghost use Rattle.scop_grammar.specs.Table.{set_next};

use crate::part::Mark;
use scop_expressions::{Assign, Op, Outside, Token, Width};

/// What an expression is for.
#[derive(Clone, Copy)]
pub enum Role {
    Extent,
    Condition,
    First,
    Second,
    Step,
    Subscript,
    Value,
}

/// Where an item may begin.
#[derive(Clone, Copy)]
pub enum Level {
    /// At a kernel's start: a declaration or the last `}` may stand there too.
    Declarations,
    /// In a block: its `}` may stand there too.
    Block,
    /// Behind the head of an `if` or a `for`.
    Body,
}

/// What may come next.
#[derive(Clone, Copy)]
pub enum Want {
    /// `void`
    Void,
    KernelName,
    /// `(`
    ParametersOpen,
    /// `int64_t`, `uint64_t` or `uint32_t`
    Parameter,
    NumberName,
    /// The name of an array of this type.
    ArrayName(Width),
    /// `[`
    ExtentOpen,
    /// An expression, and the sign that ends it.
    Inner(Role),
    /// `[`, `,` or `)`
    AfterExtent,
    /// `,` or `)`
    AfterParameter,
    /// The first `{`.
    BodyOpen,
    DeclaredName,
    /// `,` or `;`
    AfterDeclared,
    Item(Level),
    /// The `(` of an `if`.
    ConditionOpen,
    /// The `(` of a `for`.
    LoopOpen,
    /// `int64_t` or a name.
    LoopFirst,
    LoopName,
    /// `=`
    LoopSet,
    /// A name, `++` or `--`.
    Step,
    StepName,
    /// `++`, `--`, `=`, `+=` or `-=`
    StepSign,
    /// `)`
    StepClose,
    /// A subscript or an assigning operator, behind a place.
    Placed,
    /// Nothing.
    Over,
}

// What stands behind the sign that begins an item or a declaration, or ends a block.
fn item_next(level: Level, braces: usize, token: Token) -> Option<Want>
    ensures { result ≡ item_next level braces token }
{
    match token {
        Token::Name => Some(Want::Placed),
        Token::Outside(Outside::BraceOpen) => Some(Want::Item(Level::Block)),
        Token::Outside(Outside::Semicolon) => Some(Want::Item(Level::Block)),
        Token::Outside(Outside::If) => Some(Want::ConditionOpen),
        Token::Outside(Outside::For) => Some(Want::LoopOpen),
        Token::Outside(Outside::Int64) => match level {
            Level::Declarations => Some(Want::DeclaredName),
            Level::Block | Level::Body => None,
        },
        Token::Outside(Outside::BraceClose) => match level {
            Level::Body => None,
            Level::Declarations | Level::Block => Some(if braces == 0 {
                Want::Over
            } else {
                Want::Item(Level::Block)
            }),
        },
        _ => None,
    }
}

// What stands behind an assigning operator in a loop's step.
fn set_next(assign: Assign) -> Option<Want>
    ensures { result ≡ set_next assign }
{
    match assign {
        Assign::Set | Assign::Plus | Assign::Minus => Some(Want::Inner(Role::Step)),
        _ => None,
    }
}

// What stands behind a sign.
pub(crate) fn next(want: Want, braces: usize, token: Token) -> Option<Want>
    ensures { result ≡ next want braces token }
{
    match (want, token) {
        (Want::Void, Token::Outside(Outside::Void)) => Some(Want::KernelName),
        (Want::KernelName, Token::Name) => Some(Want::ParametersOpen),
        (Want::ParametersOpen, Token::Open) => Some(Want::Parameter),
        (Want::Parameter, Token::Outside(Outside::Int64)) => Some(Want::NumberName),
        (Want::Parameter, Token::Unsigned(width)) => Some(Want::ArrayName(width)),
        (Want::NumberName, Token::Name) => Some(Want::AfterParameter),
        (Want::ArrayName(_), Token::Name) => Some(Want::ExtentOpen),
        (Want::ExtentOpen, Token::OpenIndex) => Some(Want::Inner(Role::Extent)),
        (Want::AfterExtent, Token::OpenIndex) => Some(Want::Inner(Role::Extent)),
        (Want::AfterExtent, Token::Binary(Op::Comma)) => Some(Want::Parameter),
        (Want::AfterExtent, Token::Close) => Some(Want::BodyOpen),
        (Want::AfterParameter, Token::Binary(Op::Comma)) => Some(Want::Parameter),
        (Want::AfterParameter, Token::Close) => Some(Want::BodyOpen),
        (Want::BodyOpen, Token::Outside(Outside::BraceOpen)) => Some(Want::Item(
            Level::Declarations,
        )),
        (Want::DeclaredName, Token::Name) => Some(Want::AfterDeclared),
        (Want::AfterDeclared, Token::Binary(Op::Comma)) => Some(Want::DeclaredName),
        (Want::AfterDeclared, Token::Outside(Outside::Semicolon)) => Some(Want::Item(
            Level::Declarations,
        )),
        (Want::Item(level), _) => item_next(level, braces, token),
        (Want::ConditionOpen, Token::Open) => Some(Want::Inner(Role::Condition)),
        (Want::LoopOpen, Token::Open) => Some(Want::LoopFirst),
        (Want::LoopFirst, Token::Outside(Outside::Int64)) => Some(Want::LoopName),
        (Want::LoopFirst, Token::Name) => Some(Want::LoopSet),
        (Want::LoopName, Token::Name) => Some(Want::LoopSet),
        (Want::LoopSet, Token::Outside(Outside::Assign(Assign::Set))) => Some(Want::Inner(
            Role::First,
        )),
        (Want::Step, Token::Name) => Some(Want::StepSign),
        (Want::Step, Token::Outside(Outside::Count(_))) => Some(Want::StepName),
        (Want::StepName, Token::Name) => Some(Want::StepClose),
        (Want::StepSign, Token::Outside(Outside::Count(_))) => Some(Want::StepClose),
        (Want::StepSign, Token::Outside(Outside::Assign(assign))) => set_next(assign),
        (Want::StepClose, Token::Close) => Some(Want::Item(Level::Body)),
        (Want::Placed, Token::OpenIndex) => Some(Want::Inner(Role::Subscript)),
        (Want::Placed, Token::Outside(Outside::Assign(_))) => Some(Want::Inner(Role::Value)),
        _ => None,
    }
}

// What stands behind the sign that ends an expression.
pub(crate) fn behind(role: Role, token: Token) -> Option<Want>
    ensures { result ≡ behind role token }
{
    match (role, token) {
        (Role::Extent, Token::CloseIndex) => Some(Want::AfterExtent),
        (Role::Condition, Token::Close) => Some(Want::Item(Level::Body)),
        (Role::First, Token::Outside(Outside::Semicolon)) => Some(Want::Inner(Role::Second)),
        (Role::Second, Token::Outside(Outside::Semicolon)) => Some(Want::Step),
        (Role::Step, Token::Close) => Some(Want::Item(Level::Body)),
        (Role::Subscript, Token::CloseIndex) => Some(Want::Placed),
        (Role::Value, Token::Outside(Outside::Semicolon)) => Some(Want::Item(Level::Block)),
        _ => None,
    }
}

// What the sign that begins an item, or ends a block, is.
fn item_mark(token: Token) -> Option<Mark>
    ensures { result ≡ item_mark token }
{
    match token {
        Token::Name => Some(Mark::Place),
        Token::Outside(Outside::BraceOpen) => Some(Mark::Begin),
        Token::Outside(Outside::BraceClose) => Some(Mark::End),
        Token::Outside(Outside::Semicolon) => Some(Mark::Empty),
        Token::Outside(Outside::If) => Some(Mark::If),
        Token::Outside(Outside::For) => Some(Mark::For),
        _ => None,
    }
}

// What a sign is, if it is kept.
pub(crate) fn mark(want: Want, token: Token) -> Option<Mark>
    ensures { result ≡ mark want token }
{
    match (want, token) {
        (Want::KernelName, Token::Name) => Some(Mark::Kernel),
        (Want::NumberName, Token::Name) => Some(Mark::Number),
        (Want::ArrayName(width), Token::Name) => Some(Mark::Array(width)),
        (Want::BodyOpen, Token::Outside(Outside::BraceOpen)) => Some(Mark::Begin),
        (Want::DeclaredName, Token::Name) => Some(Mark::Declared),
        (Want::Item(_), _) => item_mark(token),
        (Want::LoopFirst, Token::Name) => Some(Mark::Iterator),
        (Want::LoopName, Token::Name) => Some(Mark::NewIterator),
        (Want::Step, Token::Name) => Some(Mark::StepName),
        (Want::Step, Token::Outside(Outside::Count(count))) => Some(Mark::Count(count)),
        (Want::StepName, Token::Name) => Some(Mark::StepName),
        (Want::StepSign, Token::Outside(Outside::Count(count))) => Some(Mark::Count(count)),
        (Want::StepSign, Token::Outside(Outside::Assign(assign))) => Some(Mark::Assign(assign)),
        (Want::Placed, Token::Outside(Outside::Assign(assign))) => Some(Mark::Assign(assign)),
        _ => None,
    }
}

// How many braces are open behind a sign, besides the kernel's own.
pub(crate) fn braced(want: Want, token: Token, braces: usize) -> usize
    requires { braces < 2 ^ 62 }
    ensures { result ≡ braced want token braces }
{
    match token {
        Token::Outside(Outside::BraceOpen) => match want {
            Want::BodyOpen => braces,
            _ => braces + 1,
        },
        Token::Outside(Outside::BraceClose) => braces.saturating_sub(1),
        _ => braces,
    }
}

// How many brackets an expression may open.
pub(crate) fn room(role: Role, most: usize) -> usize
    ensures { result ≡ room role most }
{
    match role {
        Role::Subscript => most.saturating_sub(1),
        _ => most,
    }
}

// How many operators an expression may have, where so many were used before it in its place.
pub(crate) fn left(role: Role, most: usize, used: usize) -> usize
    ensures { result ≡ left role most used }
{
    match role {
        Role::Subscript => most.saturating_sub(used),
        _ => most,
    }
}

// The operators so far that count on: those of a place.
pub(crate) fn carried(want: Want, used: usize) -> usize
    ensures { result ≡ carried want used }
{
    match want {
        Want::Placed => used,
        Want::Inner(Role::Subscript) => used,
        _ => 0,
    }
}
