//! Classes that are read (JLS 8.1).
ghost use Rattle.std.specs.Prelude.{◌≡◌, Some, None, map, IfOk, MatchOption};
ghost use Rattle.java_tree.specs.View.{modifier_of};
ghost use Rattle.java_parser_grammar.specs.ClassHeads.{IsHead, HasNoHead};
ghost use Rattle.java_parser_grammar.specs.ClassHeadReading.{is_class, name_behind_class};
ghost use Rattle.java_parser_grammar.specs.Units.{IsClass};

use super::annotations::annotations;
use super::fronts::cut;
use crate::bodies::body;
use crate::members::members;
use java_lexer::Token;
use java_parser_methods::modifiers::type_modifiers;
use java_parser_types::ReadError;
use java_parser_types::look::{is_keyword, is_name, is_sign};
use java_tree::{ClassTree, ModifierTree};
use racer_base::{Memory, Text};
use std::alloc::Global;

/// Whether these are the word of a class that is read, its name and what stands behind it.
fn is_class(word: &Token, name: &Token, next: &Token) -> bool
    ensures { result ≡ is_class word.now name.now next.now }
{
    is_keyword(word, "class")
        && is_name(name)
        && (is_sign(next, "{") || is_keyword(next, "implements"))
}

/// The name of a class that is read, from its word on.
fn name_behind_class(tokens: &[Token]) -> Option<&Token>
    ensures { MatchOption result (name_behind_class tokens.now ≡ None) (λ t. name_behind_class tokens.now
        ≡ Some t.now) }
{
    match tokens {
        [word, name, next, ..] if is_class(word, name, next) => Some(name),
        _ => None,
    }
}

/// The modifiers of a class that is read, and its name: behind it stand its braces, or `implements`.
pub fn class_head(
    alloc: Global,
    tokens: &[Token],
) -> Result<Option<(Vec<ModifierTree>, &Token)>, Memory>
    ensures { IfOk result (λ o. MatchOption o (HasNoHead tokens.now) (λ x. IsHead tokens.now
        (map modifier_of x.0.items) x.1.now)) }
{
    let (modifiers, left) = match type_modifiers(alloc, tokens) {
        Ok(read) => read,
        Err(ReadError::Unformed) => return Ok(None),
        Err(ReadError::Memory) => return Err(Memory),
    };
    let (_, rest) = cut(tokens, left);
    match name_behind_class(rest) {
        Some(name) => Ok(Some((modifiers, name))),
        None => Ok(None),
    }
}

/// The class with these modifiers and this name that the type is.
pub fn class(
    alloc: Global,
    modifiers: Vec<ModifierTree>,
    name: &Token,
    tokens: &[Token],
) -> Result<ClassTree, Memory>
    requires { IsHead tokens.now (map modifier_of modifiers.items) name.now }
    ensures { IfOk result (λ class. IsClass tokens.now class) }
{
    let annotations = annotations(alloc, modifiers)?;
    let text = Text::from_str(alloc, name.text.as_str())?;
    let members = members(alloc, name.text.as_str(), body(tokens))?;
    Ok(ClassTree {
        name: text,
        place: name.place,
        annotations,
        members,
    })
}
