//! Reading local classes, whose bodies stay tokens (JLS 14.3).
ghost use Rattle.std.specs.Prelude.{◌≡◌, ◌<◌, ◌≤◌, ◌∷◌, ◌++◌, [], List, Some, None, codes, length, map};
ghost use Rattle.std.specs.Prelude.{MatchOption, IfOk, IfSome};
ghost use Rattle.java_tree.specs.declared.words.Spelled.{Spelled};
ghost use Rattle.java_tree.specs.Brackets.{is_class_word, are_none, awaited_in_head};
ghost use Rattle.java_tree.specs.KeptPlaces.{kept, behind_name};
ghost use Rattle.java_tree.specs.Words.{keyword, identifier};
ghost use Rattle.java_parser_grammar.specs.StatementReading.{class_from, local_class_at};
ghost use Rattle.java_parser_lookahead.specs.AwaitedBrackets.{awaited_onto};
ghost use Rattle.java_parser_grammar.specs.BalancedReading.{between_at};
ghost use Rattle.java_parser_methods.specs.ClassReading.{Appends, class_words_at, class_head_at, named_class_at};
ghost use Rattle.java_parser_methods.specs.ClassReading.{class_of, class_places};
ghost use Rattle.java_parser_types.specs.LedPlaces.{Leads};
ghost use Rattle.java_parser_types.specs.Tokens.{spelled};
ghost use Rattle.java_parser_types.specs.Finishing.{finished};
ghost use Rattle.java_parser_types.specs.Endings.{as_they_are};
ghost use Rattle.java_parser_types.specs.ReadAnswer.{Gives};

use java_lexer::Token;
use java_parser_lookahead::brackets::{Bracket, between, copied, is_closing, pass};
use java_parser_types::error::ReadError;
use java_parser_types::look::{ident, is_keyword, is_name, is_sign};
use java_tree::{Ident, Spelled};
use std::alloc::Global;

/// The name of a class, and all of its tokens.
#[derive(Drop)]
pub struct ClassTokens {
    pub name: Ident,
    pub items: Vec<Spelled>,
}

/// Whether the token is a word of a local class.
fn is_class_word(token: &Token) -> bool
    ensures { result ≡ is_class_word (spelled token.now) }
{
    is_keyword(token, "final") || is_keyword(token, "abstract")
}

/// Words of a local class, as long as they come.
fn class_words(alloc: Global, tokens: &[Token]) -> Result<(Vec<Spelled>, &[Token]), ReadError>
    ensures gives { Gives (λ x. (x.0.items, map spelled x.1.now)) result (class_words_at (map spelled tokens.now)) }
    ensures unnamed { IfOk result (λ x. (more : List Spelled) → behind_name (x.0.items ++ more)
        ≡ behind_name more) }
    ensures places { IfOk result (λ x. kept x.1.now ≡ kept tokens.now) }
    ensures shorter { IfOk result (λ x. length x.1.now ≤ length tokens.now) }
{
    let mut items = Vec::new(alloc);
    let mut rest = tokens;
    while let Some((first, after)) = rest.split_first() {
        if !is_class_word(first) {
            return Ok((items, rest));
        }
        let copy = copied(alloc, first)?;
        items.push(copy)?;
        rest = after;
    }
    Ok((items, rest))
}

/// Goes on by one token of a head where no bracket is open.
fn pass_outside(open: &mut Vec<Bracket>, token: &Token) -> Result<(), ReadError>
    requires { open.old.items ≡ [] }
    ensures { Gives (λ _. awaited_onto open.new.items []) result (awaited_in_head (spelled token.now) []) }
{
    if is_sign(token, "(") {
        open.push(Bracket::Round)?;
        Ok(())
    } else if is_sign(token, "[") {
        open.push(Bracket::Square)?;
        Ok(())
    } else if is_closing(token) {
        Err(ReadError::Unformed)
    } else {
        Ok(())
    }
}

/// Goes on by one token of a head behind open brackets, of which the last is the innermost.
fn pass_in_head(open: &mut Vec<Bracket>, token: &Token) -> Result<(), ReadError>
    ensures { Gives (λ _. awaited_onto open.new.items []) result (awaited_in_head (spelled token.now)
        (awaited_onto open.old.items [])) }
{
    match open.pop() {
        Some(inner) => pass(open, inner, token),
        None => pass_outside(open, token),
    }
}

/// Whether no bracket is open.
fn is_outside(open: &[Bracket]) -> bool
    ensures { result ≡ are_none (awaited_onto open.now []) }
{
    match open {
        [] => true,
        [_, ..] => false,
    }
}

/// These tokens and a pair of braces.
fn with_braces(
    alloc: Global,
    items: Vec<Spelled>,
    tokens: &[Token],
) -> Result<(Vec<Spelled>, &[Token]), ReadError>
    ensures gives { Gives (λ x. (x.0.items, map spelled x.1.now)) result (finished as_they_are items.items
        (between_at (codes "}") (map spelled tokens.now))) }
    ensures places { IfOk result (λ x. Appends items.items x.0.items (kept tokens.now) (kept x.1.now)) }
    ensures shorter { IfOk result (λ x. length x.1.now < length tokens.now) }
{
    let (mut body, rest) = between(alloc, Bracket::Curly, tokens)?;
    let mut items = items;
    items.append(&mut body)?;
    Ok((items, rest))
}

/// These tokens, and those of a class from behind its name on.
fn class_from(
    alloc: Global,
    items: Vec<Spelled>,
    tokens: &[Token],
) -> Result<(Vec<Spelled>, &[Token]), ReadError>
    ensures gives { Gives (λ x. (x.0.items, map spelled x.1.now)) result (finished as_they_are items.items
        (class_from [] (map spelled tokens.now))) }
    ensures places { IfOk result (λ x. Appends items.items x.0.items (kept tokens.now) (kept x.1.now)) }
    ensures shorter { IfOk result (λ x. length x.1.now ≤ length tokens.now) }
{
    let mut items = items;
    let mut open = Vec::new(alloc);
    let mut rest = tokens;
    while let Some((first, after)) = rest.split_first() {
        if is_sign(first, "{") {
            if !is_outside(open.as_slice()) {
                return Err(ReadError::Unformed);
            }
            return with_braces(alloc, items, rest);
        }
        pass_in_head(&mut open, first)?;
        let copy = copied(alloc, first)?;
        items.push(copy)?;
        rest = after;
    }
    Err(ReadError::Unformed)
}

/// The tokens `class` and a name, and those behind them.
fn class_head(tokens: &[Token]) -> Option<(&Token, &Token, &[Token])>
    ensures gives { MatchOption result (class_head_at (map spelled tokens.now) ≡ None) (λ x. class_head_at
        (map spelled tokens.now) ≡ Some (x.1.now.text, map spelled x.2.now)) }
    ensures word { IfSome result (λ x. spelled x.0.now ≡ keyword (codes "class")) }
    ensures named { IfSome result (λ x. spelled x.1.now ≡ identifier x.1.now.text) }
    ensures places { IfSome result (λ x. x.1.now.place ∷ kept x.2.now ≡ kept tokens.now) }
    ensures shorter { IfSome result (λ x. length x.2.now < length tokens.now) }
{
    match tokens {
        [word, name, rest @ ..] if is_keyword(word, "class") && is_name(name) => {
            Some((word, name, rest))
        }
        _ => None,
    }
}

/// A class behind its words, which are these.
fn named_class(
    alloc: Global,
    words: Vec<Spelled>,
    tokens: &[Token],
) -> Result<(ClassTokens, &[Token]), ReadError>
    requires { (more : List Spelled) → behind_name (words.items ++ more) ≡ behind_name more }
    ensures gives { Gives (λ x. (class_of x.0, map spelled x.1.now)) result (named_class_at words.items
        (map spelled tokens.now)) }
    ensures places { IfOk result (λ x. Leads (class_places x.0) (kept tokens.now) (kept x.1.now)) }
    ensures shorter { IfOk result (λ x. length x.1.now ≤ length tokens.now) }
{
    let Some((word, token, rest)) = class_head(tokens) else {
        return Err(ReadError::Unformed);
    };
    let name = ident(alloc, token)?;
    let mut items = words;
    let copy = copied(alloc, word)?;
    items.push(copy)?;
    let copy = copied(alloc, token)?;
    items.push(copy)?;
    let (items, rest) = class_from(alloc, items, rest)?;
    Ok((ClassTokens { name, items }, rest))
}

/// A local class with all of its tokens.
pub fn local_class(alloc: Global, tokens: &[Token]) -> Result<(ClassTokens, &[Token]), ReadError>
    ensures gives { Gives (λ x. (class_of x.0, map spelled x.1.now)) result (local_class_at
        (map spelled tokens.now)) }
    ensures places { IfOk result (λ x. Leads (class_places x.0) (kept tokens.now) (kept x.1.now)) }
    ensures shorter { IfOk result (λ x. length x.1.now ≤ length tokens.now) }
{
    let (words, rest) = class_words(alloc, tokens)?;
    named_class(alloc, words, rest)
}
