//! A kernel whose parts are worked out by hand.

use scop_expressions::{Assign, Base, Outside, Suffix, Token};
use scop_grammar::read;
use std::alloc::Global;

const VOID: Token = Token::Outside(Outside::Void);

const INT: Token = Token::Outside(Outside::Int64);

const BEGIN: Token = Token::Outside(Outside::BraceOpen);

const END: Token = Token::Outside(Outside::BraceClose);

const SET: Token = Token::Outside(Outside::Assign(Assign::Set));

const SEMICOLON: Token = Token::Outside(Outside::Semicolon);

const ONE: Token = Token::Constant(Suffix::Absent(Base::Decimal));

// void k(int64_t N) { A[1] = 1; }
const TEXT: [Token; 15] = [
    VOID,
    Token::Name,
    Token::Open,
    INT,
    Token::Name,
    Token::Close,
    BEGIN,
    Token::Name,
    Token::OpenIndex,
    ONE,
    Token::CloseIndex,
    SET,
    ONE,
    SEMICOLON,
    END,
];

/// How many parts are read of tokens.
fn count_of(alloc: Global, tokens: &[Token]) -> Option<usize> {
    match read(alloc, tokens) {
        Ok(text) => {
            let count = text.parts.len();
            drop(text);
            Some(count)
        }
        Err(_) => None,
    }
}

#[test]
fn a_kernel_is_read(rt: HostRuntime) {
    assert!(rt; count_of(rt.alloc(), &TEXT) == Some(8));
}
