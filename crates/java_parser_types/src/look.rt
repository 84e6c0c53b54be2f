//! The tokens in front.
ghost use Rattle.std.specs.Prelude.{◌≡◌, ◌<◌, ◌≤◌, ◌^◌, not, ◌&&◌, Some, None, ◌∷◌, MatchOption, IfSome, IfOk};
ghost use Rattle.std.specs.Prelude.{length, map, drop, if◌then◌else◌};
ghost use Rattle.racer_base.specs.Name.{is_listed};
ghost use Rattle.java_lexer.specs.declared.token.TokenKind.TheVariants as kind;
ghost use Rattle.java_tree.specs.KeptPlaces.{is_kept, kept};
ghost use Rattle.java_tree.specs.Brackets.{is_sign};
ghost use Rattle.java_tree.specs.Formed.{is_plain_word};
ghost use Rattle.java_tree.specs.Brackets.{is_keyword, is_name_kind};
ghost use Rattle.java_parser_grammar.specs.Taking.{after_sign, after_keyword, after_name};
ghost use Rattle.java_parser_grammar.specs.Taking.{after_angle, after_glued};
ghost use Rattle.java_parser_grammar.specs.TypeReading.{after_plain, after_brackets, brackets_at, is_plain_type};
ghost use Rattle.java_parser_types.specs.Tokens.{spelled};
ghost use Rattle.java_parser_types.specs.ReadAnswer.{Gives};

use super::error::ReadError;
use java_lexer::{Token, TokenKind};
use java_tree::Ident;
use racer_base::Text;
use std::alloc::Global;

/// The primitive types (JLS 4.2).
const PLAIN_WORDS: [&[u8]; 8] = [
    b"boolean", b"byte", b"short", b"int", b"long", b"char", b"float", b"double",
];

/// Whether a text is one of these.
pub fn is_listed(table: &[&[u8]], text: &[u8]) -> bool
    ensures { result ≡ is_listed (map (λ entry. entry.now) table.now) text.now }
{
    for entry in table {
        if text == *entry {
            return true;
        }
    }
    false
}

pub fn is_plain_word(text: &[u8]) -> bool
    ensures { result ≡ is_plain_word text.now }
{
    is_listed(&PLAIN_WORDS, text)
}

/// Whether the token is this keyword, glued to nothing.
pub fn is_keyword(token: &Token, text: &str) -> bool
    ensures { result ≡ is_keyword text.now (spelled token.now) }
{
    matches!(token.kind, TokenKind::Keyword) && !token.glued && token.text.as_str() == text
}

/// Whether the token is this sign, glued to nothing.
pub fn is_sign(token: &Token, text: &str) -> bool
    ensures { result ≡ is_sign text.now (spelled token.now) }
{
    matches!(token.kind, TokenKind::Sign) && !token.glued && token.text.as_str() == text
}

/// Whether the token is a name.
pub fn is_name(token: &Token) -> bool
    ensures { result ≡ (is_name_kind token.now.kind && not token.now.glued) }
{
    matches!(token.kind, TokenKind::Name) && !token.glued
}

/// Whether the token is the word of a primitive type (JLS 4.2).
pub fn is_plain_type(token: &Token) -> bool
    ensures { result ≡ is_plain_type (spelled token.now) }
{
    matches!(token.kind, TokenKind::Keyword)
        && !token.glued
        && is_plain_word(token.text.as_str().as_bytes())
}

/// The tokens behind this sign, where it stands in front and is glued to nothing.
pub fn after_sign<'a>(tokens: &'a [Token], text: &str) -> Option<&'a [Token]>
    ensures gives { MatchOption result (after_sign text.now (map spelled tokens.now) ≡ None) (λ rest. after_sign
        text.now (map spelled tokens.now) ≡ Some (map spelled rest.now)) }
    ensures places { IfSome result (λ rest. kept rest.now ≡ kept tokens.now) }
    ensures shorter { IfSome result (λ rest. length rest.now < length tokens.now) }
{
    match tokens {
        [token, rest @ ..] if is_sign(token, text) => Some(rest),
        _ => None,
    }
}

/// The tokens behind this keyword, where it stands in front.
pub fn after_keyword<'a>(tokens: &'a [Token], text: &str) -> Option<&'a [Token]>
    ensures gives { MatchOption result (after_keyword text.now (map spelled tokens.now) ≡ None) (λ rest. after_keyword
        text.now (map spelled tokens.now) ≡ Some (map spelled rest.now)) }
    ensures places { IfSome result (λ rest. kept rest.now ≡ (if is_kept kind.Keyword text.now then drop 1
        (kept tokens.now) else kept tokens.now)) }
    ensures shorter { IfSome result (λ rest. length rest.now < length tokens.now) }
{
    match tokens {
        [token, rest @ ..] if is_keyword(token, text) => Some(rest),
        _ => None,
    }
}

/// The tokens behind a `>` that is glued to the one before it.
pub fn after_glued(tokens: &[Token]) -> Option<&[Token]>
    ensures gives { MatchOption result (after_glued (map spelled tokens.now) ≡ None) (λ rest. after_glued
        (map spelled tokens.now) ≡ Some (map spelled rest.now)) }
    ensures places { IfSome result (λ rest. kept rest.now ≡ kept tokens.now) }
    ensures shorter { IfSome result (λ rest. length rest.now < length tokens.now) }
{
    match tokens {
        [token, rest @ ..]
            if matches!(token.kind, TokenKind::Sign) && token.glued && token.text.as_str() == ">" =>
            { Some(rest) }
        _ => None,
    }
}

/// Whether a `>` that closes type arguments is glued, and the tokens behind it.
pub fn after_angle(tokens: &[Token]) -> Option<(bool, &[Token])>
    ensures gives { MatchOption result (after_angle (map spelled tokens.now) ≡ None) (λ x. after_angle
        (map spelled tokens.now) ≡ Some (x.0, map spelled x.1.now)) }
    ensures places { IfSome result (λ x. kept x.1.now ≡ kept tokens.now) }
    ensures shorter { IfSome result (λ x. length x.1.now < length tokens.now) }
{
    match tokens {
        [token, rest @ ..] if matches!(token.kind, TokenKind::Sign) && token.text.as_str() == ">" =>
            { Some((token.glued, rest)) }
        _ => None,
    }
}

/// The tokens behind this sign, which has to be in front.
pub fn sign<'a>(tokens: &'a [Token], text: &str) -> Result<&'a [Token], ReadError>
    ensures gives { Gives (λ rest. map spelled rest.now) result (after_sign text.now (map spelled tokens.now)) }
    ensures places { IfOk result (λ rest. kept rest.now ≡ kept tokens.now) }
    ensures shorter { IfOk result (λ rest. length rest.now < length tokens.now) }
{
    after_sign(tokens, text).ok_or(ReadError::Unformed)
}

/// The same of a `>` that closes type arguments.
pub fn angle(tokens: &[Token]) -> Result<(bool, &[Token]), ReadError>
    ensures gives { Gives (λ x. (x.0, map spelled x.1.now)) result (after_angle (map spelled tokens.now)) }
    ensures places { IfOk result (λ x. kept x.1.now ≡ kept tokens.now) }
    ensures shorter { IfOk result (λ x. length x.1.now < length tokens.now) }
{
    after_angle(tokens).ok_or(ReadError::Unformed)
}

/// A name with its place, which has to be in front, and the tokens behind it.
pub fn name(alloc: Global, tokens: &[Token]) -> Result<(Ident, &[Token]), ReadError>
    ensures gives { Gives (λ x. (x.0.text, map spelled x.1.now)) result (after_name (map spelled tokens.now)) }
    ensures places { IfOk result (λ x. x.0.place ∷ kept x.1.now ≡ kept tokens.now) }
    ensures shorter { IfOk result (λ x. length x.1.now < length tokens.now) }
{
    match tokens {
        [token, rest @ ..] if matches!(token.kind, TokenKind::Name) && !token.glued => {
            let text = Text::from_str(alloc, token.text.as_str())?;
            let place = token.place;
            Ok((Ident { text, place }, rest))
        }
        _ => Err(ReadError::Unformed),
    }
}

/// The name that a token is, with its place.
pub fn ident(alloc: Global, token: &Token) -> Result<Ident, ReadError>
    ensures gives { Gives (λ x. x.text) result (Some token.now.text) }
    ensures places { IfOk result (λ x. x.place ≡ token.now.place) }
{
    let text = Text::from_str(alloc, token.text.as_str())?;
    let place = token.place;
    Ok(Ident { text, place })
}

/// The word of a primitive type and the tokens behind it, where it stands in front (JLS 4.2).
pub fn after_plain(tokens: &[Token]) -> Option<(&Token, &[Token])>
    ensures gives { MatchOption result (after_plain (map spelled tokens.now) ≡ None) (λ x. after_plain
        (map spelled tokens.now) ≡ Some (x.0.now.text, map spelled x.1.now)) }
    ensures places { IfSome result (λ x. kept x.1.now ≡ kept tokens.now) }
    ensures shorter { IfSome result (λ x. length x.1.now < length tokens.now) }
{
    match tokens {
        [token, rest @ ..]
            if matches!(token.kind, TokenKind::Keyword)
                && !token.glued
                && is_plain_word(token.text.as_str().as_bytes()) => { Some((token, rest)) }
        _ => None,
    }
}

/// The tokens behind `[ ]`, where these stand in front.
pub fn after_brackets(tokens: &[Token]) -> Option<&[Token]>
    ensures gives { MatchOption result (after_brackets (map spelled tokens.now) ≡ None) (λ rest. after_brackets
        (map spelled tokens.now) ≡ Some (map spelled rest.now)) }
    ensures places { IfSome result (λ rest. kept rest.now ≡ kept tokens.now) }
    ensures shorter { IfSome result (λ rest. length rest.now < length tokens.now) }
{
    after_sign(after_sign(tokens, "[")?, "]")
}

/// The number of `[ ]` in front, and the tokens behind them.
#[tactic(auto, unfolding(java_parser_grammar::specs::TypeReading::brackets_at))]
pub fn brackets(tokens: &[Token]) -> (u32, &[Token])
    requires { length tokens.now < 2 ^ 32 }
    ensures gives { (result.0, map spelled result.1.now) ≡ brackets_at (length (map spelled tokens.now))
        (map spelled tokens.now) }
    ensures places { kept result.1.now ≡ kept tokens.now }
    ensures shorter { length result.1.now ≤ length tokens.now }
    ensures few { result.0 ≤ length tokens.now }
{
    let mut count = 0;
    let mut rest = tokens;
    for _ in 0..tokens.len() {
        let Some(after) = after_brackets(rest) else {
            return (count, rest);
        };
        count += 1;
        rest = after;
    }
    (count, rest)
}
