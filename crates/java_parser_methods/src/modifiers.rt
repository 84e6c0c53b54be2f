//! Reading modifiers, of types, methods, fields and variables alike (JLS 8.1.1, 8.3.1, 8.4.3, 14.4).
ghost use Rattle.std.specs.Prelude.{◌≡◌, ◌<◌, ◌≤◌, Some, None, length, map, option_map, MatchOption, IfOk, IfSome};
ghost use Rattle.java_lexer.specs.declared.token.TokenKind.TheVariants as kind;
ghost use Rattle.java_tree.specs.KeptPlaces.{kept, place_onto, modifier_marks, each_marks};
ghost use Rattle.java_tree.specs.View.{modifier_of};
ghost use Rattle.java_parser_grammar.specs.BalancedReading.{before_type_at};
ghost use Rattle.java_parser_grammar.specs.ClassHeadReading.{word_at, modifier_at, type_modifiers_at};
ghost use Rattle.java_parser_grammar.specs.MethodReading.{modifiers_at};
ghost use Rattle.java_parser_methods.specs.ModifierReading.{is_word, words_behind, listed_at};
ghost use Rattle.java_parser_types.specs.LedPlaces.{Leads};
ghost use Rattle.java_parser_types.specs.Tokens.{spelled};
ghost use Rattle.java_parser_types.specs.ReadAnswer.{Gives};

use super::annotations::annotation;
use java_lexer::{Token, TokenKind};
use java_parser_types::error::ReadError;
use java_parser_types::look::{after_sign, is_listed};
use java_tree::ModifierTree;
use racer_base::Text;
use std::alloc::Global;

/// JLS 8.4.3.
const METHOD_WORDS: [&[u8]; 7] = [
    b"public",
    b"protected",
    b"private",
    b"static",
    b"final",
    b"synchronized",
    b"strictfp",
];

/// JLS 8.3.1.
const FIELD_WORDS: [&[u8]; 7] = [
    b"public",
    b"protected",
    b"private",
    b"static",
    b"final",
    b"transient",
    b"volatile",
];

/// The words of a class or an interface (JLS 8.1.1, 9.1.1).
pub const TYPE_MODIFIERS: [&[u8]; 7] = [
    b"public",
    b"protected",
    b"private",
    b"static",
    b"abstract",
    b"final",
    b"strictfp",
];

/// The words that may stand among modifiers, beside annotations.
#[derive(Clone, Copy)]
pub enum ModifierWords {
    Type,
    Method,
    Field,
    /// `final`, before the type of a local variable or a parameter (JLS 8.4.1, 14.4).
    Variable,
    Nothing,
}

fn is_word(words: ModifierWords, text: &str) -> bool
    ensures { result ≡ is_word words text.now }
{
    match words {
        ModifierWords::Type => is_listed(&TYPE_MODIFIERS, text.as_bytes()),
        ModifierWords::Method => is_listed(&METHOD_WORDS, text.as_bytes()),
        ModifierWords::Field => is_listed(&FIELD_WORDS, text.as_bytes()),
        ModifierWords::Variable => text == "final",
        ModifierWords::Nothing => false,
    }
}

/// One of these words in front, and the tokens behind it.
fn word(words: ModifierWords, tokens: &[Token]) -> Option<(&Token, &[Token])>
    ensures gives { MatchOption result (word_at (is_word words) (map spelled tokens.now) ≡ None) (λ x. word_at
        (is_word words) (map spelled tokens.now) ≡ Some (x.0.now.text, map spelled x.1.now)) }
    ensures places { IfSome result (λ x. place_onto kind.Keyword x.0.now.text x.0.now.place (kept x.1.now)
        ≡ kept tokens.now) }
    ensures shorter { IfSome result (λ x. length x.1.now < length tokens.now) }
{
    match tokens {
        [token, rest @ ..]
            if matches!(token.kind, TokenKind::Keyword)
                && !token.glued
                && is_word(words, token.text.as_str()) => { Some((token, rest)) }
        _ => None,
    }
}

/// One of these words or an annotation, where one stands.
pub fn modifier(
    alloc: Global,
    words: ModifierWords,
    tokens: &[Token],
) -> Result<Option<(ModifierTree, &[Token])>, ReadError>
    ensures gives { Gives (option_map (λ x. (modifier_of x.0, map spelled x.1.now))) result
        (modifier_at (is_word words) (map spelled tokens.now)) }
    ensures places { IfOk result (λ o. IfSome o (λ x. Leads (modifier_marks x.0) (kept tokens.now)
        (kept x.1.now))) }
    ensures shorter { IfOk result (λ o. IfSome o (λ x. length x.1.now < length tokens.now)) }
{
    if let Some(after) = after_sign(tokens, "@") {
        let (annotation, rest) = annotation(alloc, after)?;
        return Ok(Some((ModifierTree::Annotated(annotation), rest)));
    }
    let Some((word, rest)) = word(words, tokens) else {
        return Ok(None);
    };
    let text = Text::from_str(alloc, word.text.as_str())?;
    Ok(Some((ModifierTree::Word(text), rest)))
}

/// The words that may still come behind one of them: `final` stands once (JLS 14.4).
fn words_behind(words: ModifierWords, modifier: &ModifierTree) -> ModifierWords
    ensures { result ≡ words_behind words (modifier_of modifier.now) }
{
    match (words, modifier) {
        (ModifierWords::Variable, ModifierTree::Word(_)) => ModifierWords::Nothing,
        _ => words,
    }
}

/// These words and annotations, as long as they come.
fn listed(
    alloc: Global,
    words: ModifierWords,
    tokens: &[Token],
) -> Result<(Vec<ModifierTree>, &[Token]), ReadError>
    ensures gives { Gives (λ x. (map modifier_of x.0.items, map spelled x.1.now)) result
        (listed_at words (length (map spelled tokens.now)) (map spelled tokens.now)) }
    ensures places { IfOk result (λ x. Leads (each_marks modifier_marks x.0.items) (kept tokens.now) (kept x.1.now)) }
    ensures shorter { IfOk result (λ x. length x.1.now ≤ length tokens.now) }
{
    let mut items = Vec::new(alloc);
    let mut words = words;
    let mut rest = tokens;
    for _ in 0..tokens.len() {
        let Some((next, after)) = modifier(alloc, words, rest)? else {
            return Ok((items, rest));
        };
        words = words_behind(words, &next);
        items.push(next)?;
        rest = after;
    }
    Err(ReadError::Unformed)
}

/// The modifiers of a type (JLS 8.1.1).
pub fn type_modifiers(
    alloc: Global,
    tokens: &[Token],
) -> Result<(Vec<ModifierTree>, &[Token]), ReadError>
    ensures gives { Gives (λ x. (map modifier_of x.0.items, map spelled x.1.now)) result
        (type_modifiers_at (length (map spelled tokens.now)) (map spelled tokens.now)) }
    ensures shorter { IfOk result (λ x. length x.1.now ≤ length tokens.now) }
{
    listed(alloc, ModifierWords::Type, tokens)
}

/// The modifiers of a method (JLS 8.4.3).
pub fn modifiers(
    alloc: Global,
    tokens: &[Token],
) -> Result<(Vec<ModifierTree>, &[Token]), ReadError>
    ensures gives { Gives (λ x. (map modifier_of x.0.items, map spelled x.1.now)) result
        (modifiers_at (length (map spelled tokens.now)) (map spelled tokens.now)) }
    ensures places { IfOk result (λ x. Leads (each_marks modifier_marks x.0.items) (kept tokens.now) (kept x.1.now)) }
    ensures shorter { IfOk result (λ x. length x.1.now ≤ length tokens.now) }
{
    listed(alloc, ModifierWords::Method, tokens)
}

/// What stands before the type of a variable: annotations, and `final` at most once (JLS 14.4).
pub fn before_type(
    alloc: Global,
    tokens: &[Token],
) -> Result<(Vec<ModifierTree>, &[Token]), ReadError>
    ensures gives { Gives (λ x. (map modifier_of x.0.items, map spelled x.1.now)) result
        (before_type_at (map spelled tokens.now)) }
    ensures places { IfOk result (λ x. Leads (each_marks modifier_marks x.0.items) (kept tokens.now) (kept x.1.now)) }
    ensures shorter { IfOk result (λ x. length x.1.now ≤ length tokens.now) }
{
    listed(alloc, ModifierWords::Variable, tokens)
}
