//! One turn of an expression that goes on.
use super::nested::NestedExpression;
use java_lexer::Token;

/// What one turn gave: the expression is whole, or it is the left part of a larger one.
#[derive(Drop)]
pub enum Progress<'a> {
    Stop(NestedExpression),
    Next(NestedExpression, &'a [Token]),
}
