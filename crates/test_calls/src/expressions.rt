//! An expression whose nodes are worked out by hand.

use scop_expressions::{Base, Op, Suffix, Token, read};
use std::alloc::Global;

const NAME: Token = Token::Name;

const ONE: Token = Token::Constant(Suffix::Absent(Base::Decimal));

const MINUS: Token = Token::Binary(Op::Minus);

/// How many nodes are read of tokens, where they are one expression.
fn count_of(alloc: Global, tokens: &[Token]) -> Option<usize> {
    match read(alloc, tokens) {
        Ok(expression) => {
            let count = expression.nodes.len();
            let is_whole = expression.count == tokens.len();
            drop(expression);
            if is_whole { Some(count) } else { None }
        }
        Err(_) => None,
    }
}

// a - b - 1 * 1
#[test]
fn a_difference_of_three(rt: HostRuntime) {
    let text = [NAME, MINUS, NAME, MINUS, ONE, Token::Binary(Op::Times), ONE];
    assert!(rt; count_of(rt.alloc(), &text) == Some(7));
}
