//! Trees with their nesting.
ghost use Rattle.std.specs.Prelude.{◌≡◌, ◌≤◌, ◌++◌, ◌∷◌, [], Some, length, map, IfOk, IfErr, OnErr};
ghost use Rattle.java_tree.specs.KeptPlaces.{Marks, kept, expr_places, init_places};
ghost use Rattle.java_tree.specs.Nesting.{expr_nesting, exprs_nesting, array_nesting, init_nesting};
ghost use Rattle.java_tree.specs.Trees.{pack_exprs};
ghost use Rattle.java_tree.specs.View.{expr_of, array_of, init_of};
ghost use Rattle.java_parser_types.specs.declared.error.ReadError.TheVariants.{Memory};
ghost use Rattle.java_parser_types.specs.ReadAnswer.{Gives};
ghost use Rattle.java_parser_types.specs.Tokens.{spelled};
ghost use Rattle.java_parser_expressions.specs.Closings.{as_read};

use java_lexer::Token;
use java_parser_types::error::ReadError;
use java_parser_types::nested::NestedExact;
use java_tree::{ArrayTree, Expression, Ident, Initialiser};
use std::alloc::Global;

#[derive(Drop)]
pub struct NestedExpression {
    pub tree: Box<Expression>,
    pub nesting: u32,
    ghost measured: { nesting ≡ expr_nesting (expr_of tree.value) },
}

#[derive(Drop)]
pub struct NestedExpressions {
    pub trees: Vec<Expression>,
    pub nesting: u32,
    ghost measured: { nesting ≡ exprs_nesting (pack_exprs (map expr_of trees.items)) },
}

#[derive(Drop)]
pub struct NestedArray {
    pub tree: ArrayTree,
    pub nesting: u32,
    ghost measured: { nesting ≡ array_nesting (array_of tree) },
}

#[derive(Drop)]
pub struct NestedInitialiser {
    pub tree: Box<Initialiser>,
    pub nesting: u32,
    ghost measured: { nesting ≡ init_nesting (init_of tree.value) },
}

/// What stands behind the `::` of a method reference: no name where `new` does (JLS 15.13).
#[derive(Drop)]
pub struct NestedReferred {
    pub types: NestedExact,
    pub name: Option<Ident>,
}

impl NestedExpression {
    /// This tree, in memory of its own.
    pub fn new(alloc: Global, tree: Expression, nesting: u32) -> Result<NestedExpression, ReadError>
        requires measured { nesting ≡ expr_nesting (expr_of tree) }
        ensures gives { Gives (λ x. x.tree.value) result (Some tree) }
        ensures small { IfOk result (λ x. x.nesting ≡ nesting) }
    {
        let tree = Box::new(alloc, tree)?;
        Ok(NestedExpression { tree, nesting })
    }

    /// This tree, in memory of its own, and the tokens behind it.
    pub fn before(
        alloc: Global,
        tree: Expression,
        nesting: u32,
        tokens: &[Token],
    ) -> Result<(NestedExpression, &[Token]), ReadError>
        requires measured { nesting ≡ expr_nesting (expr_of tree) }
        ensures gives { Gives (λ x. (expr_of x.0.tree.value, map spelled x.1.now)) result (as_read
            (expr_of tree) (map spelled tokens.now)) }
        ensures places { IfOk result (λ x. (marks : Marks) → expr_places x.0.tree.value marks ≡ expr_places tree
            marks) }
        ensures behind { IfOk result (λ x. kept x.1.now ≡ kept tokens.now) }
        ensures small { IfOk result (λ x. x.0.nesting ≡ nesting) }
        ensures shorter { IfOk result (λ x. length x.1.now ≤ length tokens.now) }
    {
        Ok((NestedExpression::new(alloc, tree, nesting)?, tokens))
    }
}

/// One more tree behind others.
pub fn push_tree<T: Drop>(trees: &mut Vec<T>, tree: Box<T>) -> Result<(), ReadError>
    ensures items { IfOk result (λ _. trees.new.items ≡ trees.old.items ++ tree.value ∷ []) }
    ensures memory { IfErr result (λ e. e ≡ Memory) }
    ensures err { OnErr result (trees.new.items ≡ trees.old.items) }
{
    trees.push(Box::into_inner(tree))?;
    Ok(())
}

impl NestedInitialiser {
    /// This tree, in memory of its own, and the tokens behind it.
    pub fn before(
        alloc: Global,
        tree: Initialiser,
        nesting: u32,
        tokens: &[Token],
    ) -> Result<(NestedInitialiser, &[Token]), ReadError>
        requires measured { nesting ≡ init_nesting (init_of tree) }
        ensures gives { Gives (λ x. (init_of x.0.tree.value, map spelled x.1.now)) result (as_read
            (init_of tree) (map spelled tokens.now)) }
        ensures places { IfOk result (λ x. (marks : Marks) → init_places x.0.tree.value marks ≡ init_places tree
            marks) }
        ensures behind { IfOk result (λ x. kept x.1.now ≡ kept tokens.now) }
        ensures small { IfOk result (λ x. x.0.nesting ≡ nesting) }
        ensures shorter { IfOk result (λ x. length x.1.now ≤ length tokens.now) }
    {
        let tree = Box::new(alloc, tree)?;
        Ok((NestedInitialiser { tree, nesting }, tokens))
    }
}
