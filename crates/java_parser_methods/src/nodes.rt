//! Statements with statements or expressions in them, made of what was read (JLS 14).
ghost use Rattle.std.specs.Prelude.{◌≡◌, ◌≤◌, ◌∷◌, Some, length, map, option_map, IfOk};
ghost use Rattle.java_tree.specs.Trees.{If, IfElse, Block, Labelled, Local, LocalClass, Run, Empty};
ghost use Rattle.java_tree.specs.Trees.{pack_stmts};
ghost use Rattle.java_tree.specs.Rows.{Do, While, Sync, Switch};
ghost use Rattle.java_tree.specs.KeptPlaces.{Marks, kept, maybe_puts, each_puts, expr_places, stmt_places};
ghost use Rattle.java_tree.specs.KeptPlaces.{locals_places, group_places};
ghost use Rattle.java_tree.specs.View.{expr_of, locals_of, stmt_of, group_of, pack_groups};
ghost use Rattle.java_parser_expressions.specs.Closings.{as_read};
ghost use Rattle.java_parser_methods.specs.ClassReading.{class_places};
ghost use Rattle.java_parser_methods.specs.HeadReading.{for_of};
ghost use Rattle.java_parser_methods.specs.RowReading.{as_made, labelled_with};
ghost use Rattle.java_parser_methods.specs.HeadView.{head_of, head_places};
ghost use Rattle.java_parser_types.specs.Tokens.{spelled};
ghost use Rattle.java_parser_types.specs.ReadAnswer.{Gives};

use super::heads::ForHead;
use super::local_classes::ClassTokens;
use java_lexer::Token;
use java_parser_parts::bodies::may_have_label;
use java_parser_types::error::ReadError;
use java_parser_types::look::ident;
use java_tree::{Apart, Expression, GroupTree, LocalsTree, Statement};
use racer_base::{Items, Place};
use std::alloc::Global;

/// This statement in memory of its own, and the tokens behind it.
pub fn boxed(
    alloc: Global,
    statement: Statement,
    tokens: &[Token],
) -> Result<(Box<Statement>, &[Token]), ReadError>
    ensures gives { Gives (λ x. (stmt_of x.0.value, map spelled x.1.now)) result (as_made (stmt_of statement)
        (map spelled tokens.now)) }
    ensures places { IfOk result (λ x. (marks : Marks) → stmt_places x.0.value marks ≡ stmt_places statement marks) }
    ensures behind { IfOk result (λ x. kept x.1.now ≡ kept tokens.now) }
    ensures shorter { IfOk result (λ x. length x.1.now ≤ length tokens.now) }
{
    Ok((Box::new(alloc, statement)?, tokens))
}

/// JLS 14.6.
pub fn empty(alloc: Global, tokens: &[Token]) -> Result<(Box<Statement>, &[Token]), ReadError>
    ensures gives { Gives (λ x. (stmt_of x.0.value, map spelled x.1.now)) result (as_read
        Empty (map spelled tokens.now)) }
    ensures places { IfOk result (λ x. (marks : Marks) → stmt_places x.0.value marks ≡ marks) }
    ensures behind { IfOk result (λ x. kept x.1.now ≡ kept tokens.now) }
    ensures shorter { IfOk result (λ x. length x.1.now ≤ length tokens.now) }
{
    boxed(alloc, Statement::Empty, tokens)
}

/// JLS 14.2.
pub fn block(
    alloc: Global,
    statements: Vec<Statement>,
    tokens: &[Token],
) -> Result<(Box<Statement>, &[Token]), ReadError>
    ensures gives { Gives (λ x. (stmt_of x.0.value, map spelled x.1.now)) result (as_read
        (Block (pack_stmts (map stmt_of statements.items))) (map spelled tokens.now)) }
    ensures places { IfOk result (λ x. (marks : Marks) → stmt_places x.0.value marks ≡ each_puts (map stmt_places
        statements.items) marks) }
    ensures behind { IfOk result (λ x. kept x.1.now ≡ kept tokens.now) }
    ensures shorter { IfOk result (λ x. length x.1.now ≤ length tokens.now) }
{
    boxed(alloc, Statement::Block(statements), tokens)
}

/// JLS 14.4.
pub fn local(
    alloc: Global,
    locals: Box<LocalsTree>,
    tokens: &[Token],
) -> Result<(Box<Statement>, &[Token]), ReadError>
    ensures gives { Gives (λ x. (stmt_of x.0.value, map spelled x.1.now)) result (as_read
        (Local (locals_of locals.value)) (map spelled tokens.now)) }
    ensures places { IfOk result (λ x. (marks : Marks) → stmt_places x.0.value marks ≡ locals_places locals.value
        marks) }
    ensures behind { IfOk result (λ x. kept x.1.now ≡ kept tokens.now) }
    ensures shorter { IfOk result (λ x. length x.1.now ≤ length tokens.now) }
{
    boxed(alloc, Statement::Local(Apart::from(locals)), tokens)
}

/// JLS 14.3.
pub fn class_declared(
    alloc: Global,
    class: ClassTokens,
    tokens: &[Token],
) -> Result<(Box<Statement>, &[Token]), ReadError>
    ensures gives { Gives (λ x. (stmt_of x.0.value, map spelled x.1.now)) result (as_read
        (LocalClass class.name.text class.items.items) (map spelled tokens.now)) }
    ensures places { IfOk result (λ x. (marks : Marks) → stmt_places x.0.value marks ≡ class_places class marks) }
    ensures behind { IfOk result (λ x. kept x.1.now ≡ kept tokens.now) }
    ensures shorter { IfOk result (λ x. length x.1.now ≤ length tokens.now) }
{
    let name = Apart::new(alloc, class.name)?;
    let items = Apart::new(alloc, Items::from(class.items))?;
    boxed(alloc, Statement::LocalClass(name, items), tokens)
}

/// JLS 14.8.
pub fn ran(
    alloc: Global,
    tree: Box<Expression>,
    tokens: &[Token],
) -> Result<(Box<Statement>, &[Token]), ReadError>
    ensures gives { Gives (λ x. (stmt_of x.0.value, map spelled x.1.now)) result (as_read
        (Run (expr_of tree.value)) (map spelled tokens.now)) }
    ensures places { IfOk result (λ x. (marks : Marks) → stmt_places x.0.value marks ≡ expr_places tree.value marks) }
    ensures behind { IfOk result (λ x. kept x.1.now ≡ kept tokens.now) }
    ensures shorter { IfOk result (λ x. length x.1.now ≤ length tokens.now) }
{
    boxed(alloc, Statement::Expr(Box::into_inner(tree)), tokens)
}

/// An expression that may be left out, as a part of its statement.
pub fn maybe_tree(tree: Option<Box<Expression>>) -> Option<Apart<Expression>>
    ensures gives { option_map expr_of result ≡ option_map (λ e. expr_of e.value) tree }
    ensures places { (rest : Marks) → maybe_puts (option_map expr_places result) rest ≡ maybe_puts
        (option_map (λ e. expr_places e.value) tree) rest }
{
    match tree {
        Some(tree) => Some(Apart::from(tree)),
        None => None,
    }
}

/// Without `else` (JLS 14.9.1).
pub fn without_else(
    alloc: Global,
    condition: Box<Expression>,
    then: Box<Statement>,
    tokens: &[Token],
) -> Result<(Box<Statement>, &[Token]), ReadError>
    ensures gives { Gives (λ x. (stmt_of x.0.value, map spelled x.1.now)) result (as_read
        (If (expr_of condition.value) (stmt_of then.value)) (map spelled tokens.now)) }
    ensures places { IfOk result (λ x. (marks : Marks) → stmt_places x.0.value marks ≡ expr_places condition.value
        (stmt_places then.value marks)) }
    ensures behind { IfOk result (λ x. kept x.1.now ≡ kept tokens.now) }
    ensures shorter { IfOk result (λ x. length x.1.now ≤ length tokens.now) }
{
    boxed(
        alloc,
        Statement::If(Apart::from(condition), then, None),
        tokens,
    )
}

/// JLS 14.9.2.
pub fn with_else(
    alloc: Global,
    condition: Box<Expression>,
    then: Box<Statement>,
    other: Box<Statement>,
    tokens: &[Token],
) -> Result<(Box<Statement>, &[Token]), ReadError>
    ensures gives { Gives (λ x. (stmt_of x.0.value, map spelled x.1.now)) result (as_read
        (IfElse (expr_of condition.value) (stmt_of then.value) (stmt_of other.value)) (map spelled tokens.now)) }
    ensures places { IfOk result (λ x. (marks : Marks) → stmt_places x.0.value marks ≡ expr_places condition.value
        (stmt_places then.value (stmt_places other.value marks))) }
    ensures behind { IfOk result (λ x. kept x.1.now ≡ kept tokens.now) }
    ensures shorter { IfOk result (λ x. length x.1.now ≤ length tokens.now) }
{
    boxed(
        alloc,
        Statement::If(Apart::from(condition), then, Some(other)),
        tokens,
    )
}

/// JLS 14.12.
pub fn repeated(
    alloc: Global,
    condition: Box<Expression>,
    body: Box<Statement>,
    tokens: &[Token],
) -> Result<(Box<Statement>, &[Token]), ReadError>
    ensures gives { Gives (λ x. (stmt_of x.0.value, map spelled x.1.now)) result (as_read
        (While (expr_of condition.value) (stmt_of body.value)) (map spelled tokens.now)) }
    ensures places { IfOk result (λ x. (marks : Marks) → stmt_places x.0.value marks ≡ expr_places condition.value
        (stmt_places body.value marks)) }
    ensures behind { IfOk result (λ x. kept x.1.now ≡ kept tokens.now) }
    ensures shorter { IfOk result (λ x. length x.1.now ≤ length tokens.now) }
{
    boxed(
        alloc,
        Statement::While(Apart::from(condition), body),
        tokens,
    )
}

/// At this place (JLS 14.19).
pub fn locked(
    alloc: Global,
    place: Place,
    lock: Box<Expression>,
    statements: Vec<Statement>,
    tokens: &[Token],
) -> Result<(Box<Statement>, &[Token]), ReadError>
    ensures gives { Gives (λ x. (stmt_of x.0.value, map spelled x.1.now)) result (as_read
        (Sync (expr_of lock.value) (pack_stmts (map stmt_of statements.items))) (map spelled tokens.now)) }
    ensures places { IfOk result (λ x. (marks : Marks) → stmt_places x.0.value marks ≡ Some place ∷ expr_places
        lock.value (each_puts (map stmt_places statements.items) marks)) }
    ensures behind { IfOk result (λ x. kept x.1.now ≡ kept tokens.now) }
    ensures shorter { IfOk result (λ x. length x.1.now ≤ length tokens.now) }
{
    boxed(
        alloc,
        Statement::Sync(place, Apart::from(lock), statements),
        tokens,
    )
}

/// JLS 14.11.
pub fn switched(
    alloc: Global,
    value: Box<Expression>,
    groups: Vec<GroupTree>,
    tokens: &[Token],
) -> Result<(Box<Statement>, &[Token]), ReadError>
    ensures gives { Gives (λ x. (stmt_of x.0.value, map spelled x.1.now)) result (as_read
        (Switch (expr_of value.value) (pack_groups (map group_of groups.items))) (map spelled tokens.now)) }
    ensures places { IfOk result (λ x. (marks : Marks) → stmt_places x.0.value marks ≡ expr_places value.value
        (each_puts (map group_places groups.items) marks)) }
    ensures behind { IfOk result (λ x. kept x.1.now ≡ kept tokens.now) }
    ensures shorter { IfOk result (λ x. length x.1.now ≤ length tokens.now) }
{
    boxed(alloc, Statement::Switch(Apart::from(value), groups), tokens)
}

/// The `for` of this head and body.
fn headed_statement(head: ForHead, body: Box<Statement>) -> Statement
    ensures gives { stmt_of result ≡ for_of (head_of head) (stmt_of body.value) }
    ensures places { (rest : Marks) → stmt_places result rest ≡ head_places head (stmt_places body.value rest) }
{
    match head {
        ForHead::Counted(start, condition, updates) => {
            Statement::For(Apart::from(start), maybe_tree(condition), updates, body)
        }
        ForHead::Each(variable, all) => {
            Statement::ForEach(Apart::from(variable), Apart::from(all), body)
        }
    }
}

/// JLS 14.14.
pub fn headed(
    alloc: Global,
    head: ForHead,
    body: Box<Statement>,
    tokens: &[Token],
) -> Result<(Box<Statement>, &[Token]), ReadError>
    ensures gives { Gives (λ x. (stmt_of x.0.value, map spelled x.1.now)) result (as_read
        (for_of (head_of head) (stmt_of body.value)) (map spelled tokens.now)) }
    ensures places { IfOk result (λ x. (marks : Marks) → stmt_places x.0.value marks ≡ head_places head (stmt_places
        body.value marks)) }
    ensures behind { IfOk result (λ x. kept x.1.now ≡ kept tokens.now) }
    ensures shorter { IfOk result (λ x. length x.1.now ≤ length tokens.now) }
{
    boxed(alloc, headed_statement(head, body), tokens)
}

/// JLS 14.13.
pub fn repeated_after(
    alloc: Global,
    body: Box<Statement>,
    condition: Box<Expression>,
    tokens: &[Token],
) -> Result<(Box<Statement>, &[Token]), ReadError>
    ensures gives { Gives (λ x. (stmt_of x.0.value, map spelled x.1.now)) result (as_read
        (Do (stmt_of body.value) (expr_of condition.value)) (map spelled tokens.now)) }
    ensures places { IfOk result (λ x. (marks : Marks) → stmt_places x.0.value marks ≡ stmt_places body.value
        (expr_places condition.value marks)) }
    ensures behind { IfOk result (λ x. kept x.1.now ≡ kept tokens.now) }
    ensures shorter { IfOk result (λ x. length x.1.now ≤ length tokens.now) }
{
    boxed(alloc, Statement::Do(body, Apart::from(condition)), tokens)
}

/// Behind a name with its `:` (JLS 14.7).
fn naming<'a>(
    alloc: Global,
    token: &Token,
    body: Box<Statement>,
    tokens: &'a [Token],
) -> Result<(Box<Statement>, &'a [Token]), ReadError>
    ensures gives { Gives (λ x. (stmt_of x.0.value, map spelled x.1.now)) result (as_read
        (Labelled token.now.text (stmt_of body.value)) (map spelled tokens.now)) }
    ensures places { IfOk result (λ x. (marks : Marks) → stmt_places x.0.value marks ≡ Some token.now.place ∷
        stmt_places body.value marks) }
    ensures behind { IfOk result (λ x. kept x.1.now ≡ kept tokens.now) }
    ensures shorter { IfOk result (λ x. length x.1.now ≤ length tokens.now) }
{
    let name = Apart::new(alloc, ident(alloc, token)?)?;
    boxed(alloc, Statement::Labelled(name, body), tokens)
}

/// The same, where the statement behind is no declaration.
pub fn labelled<'a>(
    alloc: Global,
    token: &Token,
    body: Box<Statement>,
    tokens: &'a [Token],
) -> Result<(Box<Statement>, &'a [Token]), ReadError>
    ensures gives { Gives (λ x. (stmt_of x.0.value, map spelled x.1.now)) result (labelled_with token.now.text
        (stmt_of body.value) (map spelled tokens.now)) }
    ensures places { IfOk result (λ x. (marks : Marks) → stmt_places x.0.value marks ≡ Some token.now.place ∷
        stmt_places body.value marks) }
    ensures behind { IfOk result (λ x. kept x.1.now ≡ kept tokens.now) }
    ensures shorter { IfOk result (λ x. length x.1.now ≤ length tokens.now) }
{
    if !may_have_label(&body) {
        return Err(ReadError::Unformed);
    }
    naming(alloc, token, body, tokens)
}
