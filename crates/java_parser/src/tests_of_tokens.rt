//! Tests of tokens by the first of them, and its place.
ghost use Rattle.std.specs.Prelude.{◌≡◌, IsTrue, map};
ghost use Rattle.java_tree.specs.FormedModifiers.{has_some};
ghost use Rattle.java_parser_grammar.specs.Tokens.{is_name, is_angle, is_keyword_of, begins, begins_sign, begins_word};
ghost use Rattle.java_parser_grammar.specs.Units.{BeginsAt};

use java_lexer::{Token, TokenKind};
use java_parser_types::look::{is_keyword, is_listed, is_name, is_sign};
use racer_base::Place;

/// The place of the first token, where there is one.
pub fn first_place(tokens: &[Token]) -> Place
    requires { IsTrue (has_some tokens.now) }
    ensures { BeginsAt tokens.now result }
{
    match tokens {
        [token, ..] => token.place,
        [] => unreachable!(),
    }
}

/// Whether the first token is this sign.
pub fn begins_sign(tokens: &[Token], text: &str) -> bool
    ensures { result ≡ begins_sign text.now tokens.now }
{
    match tokens {
        [token, ..] => is_sign(token, text),
        [] => false,
    }
}

/// Whether the first token is this keyword.
pub fn begins_word(tokens: &[Token], text: &str) -> bool
    ensures { result ≡ begins_word text.now tokens.now }
{
    match tokens {
        [token, ..] => is_keyword(token, text),
        [] => false,
    }
}

/// Whether the first token is a name.
pub fn begins_name(tokens: &[Token]) -> bool
    ensures { result ≡ begins is_name tokens.now }
{
    match tokens {
        [token, ..] => is_name(token),
        [] => false,
    }
}

/// Whether the token is one of these keywords.
pub fn is_keyword_of(token: &Token, words: &[&[u8]]) -> bool
    ensures { result ≡ is_keyword_of (map (λ word. word.now) words.now) token.now }
{
    matches!(token.kind, TokenKind::Keyword)
        && !token.glued
        && is_listed(words, token.text.as_str().as_bytes())
}

/// Whether the first token is one of these keywords.
pub fn worded_among(tokens: &[Token], words: &[&[u8]]) -> bool
    ensures { result ≡ begins (is_keyword_of (map (λ word. word.now) words.now)) tokens.now }
{
    match tokens {
        [token, ..] => is_keyword_of(token, words),
        [] => false,
    }
}

/// Whether the token is a `>`, glued or not.
pub fn is_angle(token: &Token) -> bool
    ensures { result ≡ is_angle token.now }
{
    matches!(token.kind, TokenKind::Sign) && token.text.as_str() == ">"
}

/// Whether the first token is a `>`, glued or not.
pub fn begins_angle(tokens: &[Token]) -> bool
    ensures { result ≡ begins is_angle tokens.now }
{
    match tokens {
        [token, ..] => is_angle(token),
        [] => false,
    }
}
