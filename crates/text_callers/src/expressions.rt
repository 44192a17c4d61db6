//! Callers of the reader of expressions.
ghost use Rattle.std.specs.Prelude.{IfErr, IfOk};
ghost use Rattle.scop_expressions.specs.Promises.{IsRead};
ghost use Rattle.scop_expressions.specs.Gives.{IsStop};
ghost use Rattle.scop_expressions.specs.declared.reader.TheConstants.{MOST_BRACKETS, MOST_OPERATORS};

use scop_expressions::{Expression, Stop, Token, read};
use std::alloc::Global;

/// The nodes that are read are those of the tokens, and a stop is told where it is, by the clauses of `read`.
pub fn expression_of(alloc: Global, tokens: &[Token]) -> Result<Expression, Stop>
    ensures expression { IfOk result (λ e. IsRead MOST_BRACKETS MOST_OPERATORS tokens.now e.nodes.items e.count) }
    ensures stop { IfErr result (IsStop MOST_BRACKETS MOST_OPERATORS tokens.now) }
{
    read(alloc, tokens)
}
