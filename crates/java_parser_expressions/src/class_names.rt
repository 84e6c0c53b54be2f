//! Names that are no expression: of a class before `. class` or `. this`, or of a type (JLS 15.8.2, 15.8.4, 15.13).
ghost use Rattle.std.specs.Prelude.{◌≡◌, ◌<◌, ◌≤◌, ◌^◌, ℕ, true, false, Some, None, [], ◌∷◌, length, map, MatchOption};
ghost use Rattle.std.specs.Prelude.{IfOk, IfSome};
ghost use Rattle.java_tree.specs.Trees.{Expr, pack_parts};
ghost use Rattle.java_tree.specs.KeptPlaces.{Marks, kept, all_places, each_puts, some_onto, name_places, expr_places};
ghost use Rattle.java_tree.specs.KeptPlaces.{part_places};
ghost use Rattle.java_tree.specs.View.{expr_of, name_of, part_of};
ghost use Rattle.java_parser_grammar.specs.BalancedReading.{Reading};
ghost use Rattle.java_parser_grammar.specs.ExpressionReading.{array_class_at, bare_parts, class_at, ended, goes_typed};
ghost use Rattle.java_parser_grammar.specs.ExpressionReading.{name_with};
ghost use Rattle.java_parser_expressions.specs.ClassFollows.{class_behind, class_follows, end_of, names_end_at};
ghost use Rattle.java_parser_expressions.specs.Closings.{as_read};
ghost use Rattle.java_parser_types.specs.LedPlaces.{Leads, LeadsOn};
ghost use Rattle.java_parser_types.specs.Tokens.{spelled};
ghost use Rattle.java_parser_types.specs.ReadAnswer.{Gives};

use super::nested::NestedExpression;
use java_lexer::Token;
use java_parser_lookahead::lookahead::{after_name, after_word, begins_with};
use java_parser_types::angles::closes_angle;
use java_parser_types::error::ReadError;
use java_parser_types::look::{after_sign, brackets, ident, is_sign, name, sign};
use java_parser_types::made_types::bare;
use java_tree::{BaseType, Expression, Ident, TypePart, TypeTree};
use std::alloc::Global;

/// What ends names that are no expression.
#[derive(Clone, Copy)]
pub enum NamesEnd {
    /// `. class`.
    Class,
    /// As many `[ ]` and `. class`.
    Array(u32),
    /// `. this`.
    This,
}

/// The `. class` behind brackets, where some stand in front, and the tokens behind it.
fn array_class(tokens: &[Token]) -> Option<(NamesEnd, &[Token])>
    requires { length tokens.now < 2 ^ 32 }
    ensures gives { MatchOption result (array_class_at (map spelled tokens.now) ≡ None) (λ x. array_class_at
        (map spelled tokens.now) ≡ Some (end_of x.0, map spelled x.1.now)) }
    ensures places { IfSome result (λ x. kept x.1.now ≡ kept tokens.now) }
    ensures shorter { IfSome result (λ x. length x.1.now < length tokens.now) }
{
    let (arrays, rest) = brackets(tokens);
    let rest = after_sign(rest, ".")?;
    let rest = after_word(rest, "class")?;
    if arrays == 0 {
        return None;
    }
    Some((NamesEnd::Array(arrays), rest))
}

/// The end of names, where one stands behind them.
fn names_end(tokens: &[Token]) -> Option<(NamesEnd, &[Token])>
    requires { length tokens.now < 2 ^ 32 }
    ensures gives { MatchOption result (names_end_at (map spelled tokens.now) ≡ None) (λ x. names_end_at
        (map spelled tokens.now) ≡ Some (end_of x.0, map spelled x.1.now)) }
    ensures places { IfSome result (λ x. kept x.1.now ≡ kept tokens.now) }
    ensures shorter { IfSome result (λ x. length x.1.now < length tokens.now) }
{
    let Some(rest) = after_sign(tokens, ".") else {
        if begins_with(tokens, "[") {
            return array_class(tokens);
        }
        return None;
    };
    if let Some(behind) = after_word(rest, "class") {
        return Some((NamesEnd::Class, behind));
    }
    let behind = after_word(rest, "this")?;
    Some((NamesEnd::This, behind))
}

/// Whether names, each behind a point, and their end are in front. It passes over the names once, and over nothing
/// behind them.
#[tactic(auto, unfolding(java_parser_grammar::specs::ExpressionReading::class_at))]
pub fn class_follows(tokens: &[Token]) -> bool
    requires { length tokens.now < 2 ^ 32 }
    ensures { result ≡ class_follows (map spelled tokens.now) }
{
    let mut rest = tokens;
    for _ in 0..tokens.len() {
        if names_end(rest).is_some() {
            return true;
        }
        let Some(after) = after_sign(rest, ".") else {
            return false;
        };
        let Some((_, behind)) = after_name(after) else {
            return false;
        };
        rest = behind;
    }
    false
}

/// Whether names go on as a type with `[ ]` or with type arguments, of which at most `limit` stand in one another.
pub fn goes_typed(limit: u32, tokens: &[Token]) -> bool
    ensures { result ≡ goes_typed limit (map spelled tokens.now) }
{
    let mut rest = tokens;
    while let [token, after @ ..] = rest {
        if !is_sign(token, ".") {
            return (is_sign(token, "[") && begins_with(after, "]"))
                || (is_sign(token, "<") && closes_angle(limit, after));
        }
        let Some((_, behind)) = after_name(after) else {
            return false;
        };
        rest = behind;
    }
    false
}

/// These names as the parts of a type.
fn bare_parts(alloc: Global, names: Vec<Ident>) -> Result<Vec<TypePart>, ReadError>
    ensures gives { Gives (λ parts. pack_parts (map part_of parts.items)) result (Some (bare_parts
        (map name_of names.items))) }
    ensures places { IfOk result (λ parts. (rest : Marks) → some_onto (all_places (map part_places parts.items)) rest
        ≡ each_puts (map name_places names.items) rest) }
{
    let mut parts = Vec::new(alloc);
    for name in names {
        let part = bare(name);
        parts.push(part.tree)?;
    }
    Ok(parts)
}

/// The expression that names with this end are.
fn class_tree(alloc: Global, names: Vec<Ident>, end: NamesEnd) -> Result<Expression, ReadError>
    ensures gives { Gives expr_of result (Some (ended (map name_of names.items) (end_of end))) }
    ensures places { IfOk result (λ tree. (rest : Marks) → expr_places tree rest ≡ each_puts (map name_places
        names.items) rest) }
{
    match end {
        NamesEnd::Class => Ok(Expression::ClassOf(names)),
        NamesEnd::This => Ok(Expression::ThisOf(names)),
        NamesEnd::Array(arrays) => {
            let base = BaseType::Named(bare_parts(alloc, names)?);
            Ok(Expression::PlainClass(TypeTree { base, arrays }))
        }
    }
}

/// The same before the tokens behind it.
fn class_of(
    alloc: Global,
    names: Vec<Ident>,
    end: NamesEnd,
    tokens: &[Token],
) -> Result<(NestedExpression, &[Token]), ReadError>
    ensures gives { Gives (λ x. (expr_of x.0.tree.value, map spelled x.1.now)) result (as_read
        (ended (map name_of names.items) (end_of end)) (map spelled tokens.now)) }
    ensures places { IfOk result (λ x. (marks : Marks) → expr_places x.0.tree.value marks ≡ each_puts (map name_places
        names.items) marks) }
    ensures behind { IfOk result (λ x. kept x.1.now ≡ kept tokens.now) }
    ensures small { IfOk result (λ x. x.0.nesting ≡ 1) }
    ensures shorter { IfOk result (λ x. length x.1.now ≤ length tokens.now) }
{
    let tree = class_tree(alloc, names, end)?;
    NestedExpression::before(alloc, tree, 1, tokens)
}

/// What this name is, and those behind it with their end.
#[tactic(auto, unfolding(java_parser_grammar::specs::ExpressionReading::class_at))]
fn names(
    alloc: Global,
    first: Ident,
    tokens: &[Token],
) -> Result<(NestedExpression, &[Token]), ReadError>
    requires { length tokens.now < 2 ^ 32 }
    ensures gives { Gives (λ x. (expr_of x.0.tree.value, map spelled x.1.now)) result (class_behind
        (first.text ∷ []) (class_at true (map spelled tokens.now))) }
    ensures places { IfOk result (λ x. LeadsOn (name_places first) (expr_places x.0.tree.value) (kept tokens.now)
        (kept x.1.now)) }
    ensures small { IfOk result (λ x. x.0.nesting ≡ 1) }
    ensures shorter { IfOk result (λ x. length x.1.now ≤ length tokens.now) }
{
    let mut names = Vec::new(alloc);
    names.push(first)?;
    let mut rest = tokens;
    for _ in 0..tokens.len() {
        if let Some((end, behind)) = names_end(rest) {
            return class_of(alloc, names, end, behind);
        }
        let after = sign(rest, ".")?;
        let (next, behind) = name(alloc, after)?;
        names.push(next)?;
        rest = behind;
    }
    Err(ReadError::Unformed)
}

/// What this name is with those behind it and their end, where one follows.
#[tactic(auto, unfolding(java_parser_grammar::specs::ExpressionReading::name_with))]
pub fn class<'a>(
    alloc: Global,
    token: &Token,
    tokens: &'a [Token],
) -> Result<(NestedExpression, &'a [Token]), ReadError>
    requires few { length tokens.now < 2 ^ 32 }
    requires follows { class_follows (map spelled tokens.now) ≡ true }
    ensures gives { (read : ℕ → Reading Expr) (n : ℕ) → Gives (λ x. (expr_of x.0.tree.value, map spelled x.1.now))
        result (name_with read n token.now.text (map spelled tokens.now)) }
    ensures places { IfOk result (λ x. Leads (expr_places x.0.tree.value) (token.now.place ∷ kept tokens.now)
        (kept x.1.now)) }
    ensures small { IfOk result (λ x. x.0.nesting ≡ 1) }
    ensures shorter { IfOk result (λ x. length x.1.now ≤ length tokens.now) }
{
    let name = ident(alloc, token)?;
    names(alloc, name, tokens)
}
