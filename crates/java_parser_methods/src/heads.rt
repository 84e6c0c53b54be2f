//! Reading what stands in the parentheses of a `for`, and expressions that statements run (JLS 14.8, 14.14).
ghost use Rattle.std.specs.Prelude.{◌≡◌, ◌<◌, ◌≤◌, ◌^◌, suc, Some, [], ◌∷◌, length, map, option_map, IfOk};
ghost use Rattle.java_tree.specs.KeptPlaces.{Marks, kept, maybe_puts, each_puts, expr_places, start_places};
ghost use Rattle.java_tree.specs.Formed.{is_run};
ghost use Rattle.java_tree.specs.View.{expr_of, start_of};
ghost use Rattle.java_parser_grammar.specs.Taking.{commas};
ghost use Rattle.java_parser_grammar.specs.StatementReading.{expr_until, run_at, runs_until};
ghost use Rattle.java_parser_methods.specs.HeadReading.{counted_head_at, each_head_at, declared_head_at, typed_head_at};
ghost use Rattle.java_parser_methods.specs.HeadReading.{run_head_at, head_at};
ghost use Rattle.java_parser_methods.specs.HeadView.{each_of, each_places, head_of, head_places};
ghost use Rattle.java_parser_methods.specs.TypedReading.{typed_of, typed_places};
ghost use Rattle.java_parser_grammar.specs.JavaReaders.{method_readers};
ghost use Rattle.java_parser_types.specs.LedPlaces.{Leads, LeadsOn};
ghost use Rattle.java_parser_types.specs.Tokens.{spelled};
ghost use Rattle.java_parser_types.specs.Finishing.{finished};
ghost use Rattle.java_parser_types.specs.Endings.{as_they_are};
ghost use Rattle.java_parser_types.specs.ReadAnswer.{Gives};

use super::locals::variables;
use super::typed::{TypedFront, typed};
use java_lexer::Token;
use java_parser_expressions::expressions::read_expression;
use java_parser_expressions::nested::push_tree;
use java_parser_lookahead::leads::is_step;
use java_parser_lookahead::lookahead::{begins_with, looks_local, name_and_colon};
use java_parser_types::error::ReadError;
use java_parser_types::look::{after_sign, ident, sign};
use java_tree::{EachTree, Expression, Made, StartTree};
use racer_base::Items;
use std::alloc::Global;

/// What stands in the parentheses of a `for`.
#[derive(Drop)]
pub enum ForHead {
    /// JLS 14.14.1.
    Counted(Box<StartTree>, Option<Box<Expression>>, Vec<Expression>),
    /// JLS 14.14.2.
    Each(Box<EachTree>, Box<Expression>),
}

/// Whether an expression is one that a statement can be (JLS 14.8).
fn is_run(tree: &Expression) -> bool
    ensures { result ≡ is_run (expr_of tree.now) }
{
    match tree {
        Expression::Assign(_, _, _) | Expression::Postfix(_, _) | Expression::Call(_) => true,
        Expression::New(tree) => matches!(tree.made, Made::Object(_) | Made::Anonymous(_, _)),
        Expression::Prefix(operator, _) => is_step(operator.as_str()),
        _ => false,
    }
}

/// An expression, where the sign that ends it does not stand here.
pub fn expression_until<'a>(
    alloc: Global,
    limit: u32,
    end: &str,
    tokens: &'a [Token],
) -> Result<(Option<Box<Expression>>, &'a [Token]), ReadError>
    requires few { length tokens.now < 2 ^ 32 }
    requires room { suc (suc limit) < 2 ^ 32 }
    ensures gives { Gives (λ x. (option_map (λ e. expr_of e.value) x.0, map spelled x.1.now)) result
        (expr_until method_readers limit end.now (map spelled tokens.now)) }
    ensures places { IfOk result (λ x. Leads (maybe_puts (option_map (λ e. expr_places e.value) x.0)) (kept tokens.now)
        (kept x.1.now)) }
    ensures shorter { IfOk result (λ x. length x.1.now ≤ length tokens.now) }
{
    if begins_with(tokens, end) {
        return Ok((None, tokens));
    }
    let (value, rest) = read_expression(alloc, limit, 0, tokens)?;
    Ok((Some(value.tree), rest))
}

/// An expression that is run for what it does (JLS 14.8).
pub fn run(
    alloc: Global,
    limit: u32,
    tokens: &[Token],
) -> Result<(Box<Expression>, &[Token]), ReadError>
    requires few { length tokens.now < 2 ^ 32 }
    requires room { suc (suc limit) < 2 ^ 32 }
    ensures gives { Gives (λ x. (expr_of x.0.value, map spelled x.1.now)) result (run_at method_readers limit
        (map spelled tokens.now)) }
    ensures places { IfOk result (λ x. Leads (expr_places x.0.value) (kept tokens.now) (kept x.1.now)) }
    ensures shorter { IfOk result (λ x. length x.1.now ≤ length tokens.now) }
{
    let (run, rest) = read_expression(alloc, limit, 0, tokens)?;
    if !is_run(&run.tree) {
        return Err(ReadError::Unformed);
    }
    Ok((run.tree, rest))
}

/// This expression and others that are run, each behind a comma.
fn more_runs(
    alloc: Global,
    limit: u32,
    first: Box<Expression>,
    tokens: &[Token],
) -> Result<(Vec<Expression>, &[Token]), ReadError>
    requires few { length tokens.now < 2 ^ 32 }
    requires room { suc (suc limit) < 2 ^ 32 }
    ensures gives { Gives (λ x. (map expr_of x.0.items, map spelled x.1.now)) result (finished as_they_are
        (expr_of first.value ∷ []) (commas (run_at method_readers limit) (length (map spelled tokens.now))
        (map spelled tokens.now))) }
    ensures places { IfOk result (λ x. LeadsOn (expr_places first.value) (each_puts (map expr_places x.0.items)) (kept
        tokens.now) (kept x.1.now)) }
    ensures shorter { IfOk result (λ x. length x.1.now ≤ length tokens.now) }
{
    let mut items = Vec::new(alloc);
    push_tree(&mut items, first)?;
    let mut rest = tokens;
    for _ in 0..tokens.len() {
        let Some(after) = after_sign(rest, ",") else {
            break;
        };
        let (next, after) = run(alloc, limit, after)?;
        push_tree(&mut items, next)?;
        rest = after;
    }
    Ok((items, rest))
}

/// Expressions that are run, where the sign that ends them does not stand here (JLS 14.14.1).
fn runs_until<'a>(
    alloc: Global,
    limit: u32,
    end: &str,
    tokens: &'a [Token],
) -> Result<(Vec<Expression>, &'a [Token]), ReadError>
    requires few { length tokens.now < 2 ^ 32 }
    requires room { suc (suc limit) < 2 ^ 32 }
    ensures gives { Gives (λ x. (map expr_of x.0.items, map spelled x.1.now)) result (runs_until method_readers limit
        end.now (map spelled tokens.now)) }
    ensures places { IfOk result (λ x. Leads (each_puts (map expr_places x.0.items)) (kept tokens.now) (kept x.1.now)) }
    ensures shorter { IfOk result (λ x. length x.1.now ≤ length tokens.now) }
{
    if begins_with(tokens, end) {
        return Ok((Vec::new(alloc), tokens));
    }
    let (first, rest) = run(alloc, limit, tokens)?;
    more_runs(alloc, limit, first, rest)
}

/// What stands before the first `;`, in memory of its own.
fn boxed_start(alloc: Global, start: StartTree) -> Result<Box<StartTree>, ReadError>
    ensures { Gives (λ b. b.value) result (Some start) }
{
    Ok(Box::new(alloc, start)?)
}

/// The head of a `for` from its first `;` on (JLS 14.14.1).
#[tactic(auto, unfolding(crate::specs::HeadReading::counted_head_at))]
fn counted(
    alloc: Global,
    limit: u32,
    start: Box<StartTree>,
    tokens: &[Token],
) -> Result<(ForHead, &[Token]), ReadError>
    requires few { length tokens.now < 2 ^ 32 }
    requires room { suc (suc limit) < 2 ^ 32 }
    ensures gives { Gives (λ x. (head_of x.0, map spelled x.1.now)) result (counted_head_at method_readers limit
        (start_of start.value) (map spelled tokens.now)) }
    ensures places { IfOk result (λ x. LeadsOn (start_places start.value) (head_places x.0) (kept tokens.now) (kept
        x.1.now)) }
    ensures shorter { IfOk result (λ x. length x.1.now ≤ length tokens.now) }
{
    let rest = sign(tokens, ";")?;
    let (condition, rest) = expression_until(alloc, limit, ";", rest)?;
    let rest = sign(rest, ";")?;
    let (updates, rest) = runs_until(alloc, limit, ")", rest)?;
    let rest = sign(rest, ")")?;
    Ok((ForHead::Counted(start, condition, updates), rest))
}

/// The head of a `for` of this variable from behind its `:` on (JLS 14.14.2).
#[tactic(auto, unfolding(crate::specs::HeadReading::each_head_at))]
fn each(
    alloc: Global,
    limit: u32,
    variable: Box<EachTree>,
    tokens: &[Token],
) -> Result<(ForHead, &[Token]), ReadError>
    requires few { length tokens.now < 2 ^ 32 }
    requires room { suc (suc limit) < 2 ^ 32 }
    ensures gives { Gives (λ x. (head_of x.0, map spelled x.1.now)) result (each_head_at method_readers limit
        (each_of variable.value) (map spelled tokens.now)) }
    ensures places { IfOk result (λ x. LeadsOn (each_places variable.value) (head_places x.0) (kept tokens.now)
        (kept x.1.now)) }
    ensures shorter { IfOk result (λ x. length x.1.now ≤ length tokens.now) }
{
    let (all, rest) = read_expression(alloc, limit, 0, tokens)?;
    let rest = sign(rest, ")")?;
    Ok((ForHead::Each(variable, all.tree), rest))
}

/// The variable of this name behind its modifiers and its type.
fn each_variable(alloc: Global, front: TypedFront, word: &Token) -> Result<Box<EachTree>, ReadError>
    ensures gives { Gives (λ x. each_of x.value) result (Some (typed_of front, word.now.text)) }
    ensures places { IfOk result (λ x. (rest : Marks) → each_places x.value rest ≡ typed_places front
        (Some word.now.place ∷ rest)) }
{
    let name = ident(alloc, word)?;
    let variable = EachTree {
        modifiers: front.modifiers,
        kind: Box::into_inner(front.kind),
        name,
    };
    Ok(Box::new(alloc, variable)?)
}

/// The head of a `for` from behind the type of its variables on.
fn declared(
    alloc: Global,
    limit: u32,
    front: TypedFront,
    tokens: &[Token],
) -> Result<(ForHead, &[Token]), ReadError>
    requires few { length tokens.now < 2 ^ 32 }
    requires room { suc (suc limit) < 2 ^ 32 }
    ensures gives { Gives (λ x. (head_of x.0, map spelled x.1.now)) result (declared_head_at method_readers limit
        (typed_of front) (map spelled tokens.now)) }
    ensures places { IfOk result (λ x. LeadsOn (typed_places front) (head_places x.0) (kept tokens.now)
        (kept x.1.now)) }
    ensures shorter { IfOk result (λ x. length x.1.now ≤ length tokens.now) }
{
    if let Some((word, rest)) = name_and_colon(tokens) {
        let variable = each_variable(alloc, front, word)?;
        return each(alloc, limit, variable, rest);
    }
    let (locals, rest) = variables(alloc, limit, front, tokens)?;
    let start = boxed_start(alloc, StartTree::Local(Box::into_inner(locals)))?;
    counted(alloc, limit, start, rest)
}

/// The head of a `for` with a declaration in front.
#[tactic(auto, unfolding(crate::specs::HeadReading::typed_head_at))]
fn typed_head(alloc: Global, limit: u32, tokens: &[Token]) -> Result<(ForHead, &[Token]), ReadError>
    requires few { length tokens.now < 2 ^ 32 }
    requires room { suc (suc limit) < 2 ^ 32 }
    ensures gives { Gives (λ x. (head_of x.0, map spelled x.1.now)) result (typed_head_at method_readers limit
        (map spelled tokens.now)) }
    ensures places { IfOk result (λ x. Leads (head_places x.0) (kept tokens.now) (kept x.1.now)) }
    ensures shorter { IfOk result (λ x. length x.1.now ≤ length tokens.now) }
{
    let (front, rest) = typed(alloc, limit, tokens)?;
    declared(alloc, limit, front, rest)
}

/// The head of a `for` with expressions in front, or nothing.
#[tactic(auto, unfolding(crate::specs::HeadReading::run_head_at))]
fn untyped(alloc: Global, limit: u32, tokens: &[Token]) -> Result<(ForHead, &[Token]), ReadError>
    requires few { length tokens.now < 2 ^ 32 }
    requires room { suc (suc limit) < 2 ^ 32 }
    ensures gives { Gives (λ x. (head_of x.0, map spelled x.1.now)) result (run_head_at method_readers limit
        (map spelled tokens.now)) }
    ensures places { IfOk result (λ x. Leads (head_places x.0) (kept tokens.now) (kept x.1.now)) }
    ensures shorter { IfOk result (λ x. length x.1.now ≤ length tokens.now) }
{
    let (runs, rest) = runs_until(alloc, limit, ";", tokens)?;
    let start = boxed_start(alloc, StartTree::Expressions(Items::from(runs)))?;
    counted(alloc, limit, start, rest)
}

/// What stands in the parentheses of a `for`.
#[tactic(auto, unfolding(crate::specs::HeadReading::head_at))]
pub fn head(alloc: Global, limit: u32, tokens: &[Token]) -> Result<(ForHead, &[Token]), ReadError>
    requires few { length tokens.now < 2 ^ 32 }
    requires room { suc (suc limit) < 2 ^ 32 }
    ensures gives { Gives (λ x. (head_of x.0, map spelled x.1.now)) result (head_at method_readers limit
        (map spelled tokens.now)) }
    ensures places { IfOk result (λ x. Leads (head_places x.0) (kept tokens.now) (kept x.1.now)) }
    ensures shorter { IfOk result (λ x. length x.1.now ≤ length tokens.now) }
{
    let rest = sign(tokens, "(")?;
    if looks_local(rest) {
        typed_head(alloc, limit, rest)
    } else {
        untyped(alloc, limit, rest)
    }
}
