//! Whether type arguments or a comparison begin with a `<` (JLS 15.20).
ghost use Rattle.std.specs.Prelude.{◌≡◌, ◌<◌, [], ◌∷◌, Some, None, MatchOption, IfSome, length, map};
ghost use Rattle.java_tree.specs.Formed.{is_literal};
ghost use Rattle.java_tree.specs.KeptPlaces.{kept};
ghost use Rattle.java_tree.specs.Operators.{is_signed};
ghost use Rattle.java_parser_grammar.specs.TypeReading.{after_less, begins_operand, closes_angle, in_arguments};
ghost use Rattle.java_parser_grammar.specs.TypeReading.{is_angle_sign, no_operand_at, opens, opens_word};
ghost use Rattle.java_tree.specs.Words.{sign};
ghost use Rattle.java_parser_types.specs.AngleSteps.{Steps};
ghost use Rattle.java_parser_types.specs.Tokens.{spelled};

use super::look::{
    after_sign, is_keyword, is_listed, is_name, is_plain_type, is_plain_word, is_sign,
};
use java_lexer::{Token, TokenKind};

/// The keywords that begin an operand and are no types.
const OPENING_WORDS: [&[u8]; 4] = [b"this", b"new", b"super", b"void"];

/// The signs that begin an operand and are no operators between operands.
const OPENING: [&[u8]; 3] = [b"(", b"!", b"~"];

/// The prefix operators that could go on with an operand before them (JLS 15.16).
const SIGNED: [&[u8]; 4] = [b"+", b"-", b"++", b"--"];

/// Whether an operand begins with this keyword.
pub fn opens_word(text: &str) -> bool
    ensures { result ≡ opens_word text.now }
{
    is_listed(&OPENING_WORDS, text.as_bytes()) || is_plain_word(text.as_bytes())
}

/// Whether an operand, and no operator between operands, begins with this sign.
pub fn opens(text: &str) -> bool
    ensures { result ≡ opens text.now }
{
    is_listed(&OPENING, text.as_bytes())
}

pub fn is_signed(text: &str) -> bool
    ensures { result ≡ is_signed text.now }
{
    is_listed(&SIGNED, text.as_bytes())
}

fn is_literal(kind: TokenKind) -> bool
    ensures { result ≡ is_literal kind }
{
    matches!(
        kind,
        TokenKind::Number | TokenKind::Character | TokenKind::Text | TokenKind::Fixed
    )
}

/// Whether an operand may begin with this token, or it belongs to a shift.
fn begins_operand(token: &Token) -> bool
    ensures { result ≡ begins_operand (spelled token.now) }
{
    let text = token.text.as_str();
    token.glued
        || matches!(token.kind, TokenKind::Name)
        || is_literal(token.kind)
        || (matches!(token.kind, TokenKind::Keyword) && opens_word(text))
        || (matches!(token.kind, TokenKind::Sign) && (opens(text) || is_signed(text)))
}

/// Whether no operand stands behind type arguments.
pub fn no_operand_at(tokens: &[Token]) -> bool
    ensures { result ≡ no_operand_at (map spelled tokens.now) }
{
    match tokens {
        [token, ..] => !begins_operand(token),
        [] => true,
    }
}

/// Whether the token is a `>`, glued or not.
pub fn is_angle_sign(token: &Token) -> bool
    ensures { result ≡ is_angle_sign (spelled token.now) }
{
    matches!(token.kind, TokenKind::Sign) && token.text.as_str() == ">"
}

/// Whether the token may stand among type arguments, brackets of all kinds left out.
pub fn in_arguments(token: &Token) -> bool
    ensures { result ≡ in_arguments (spelled token.now) }
{
    is_name(token)
        || is_plain_type(token)
        || is_sign(token, ".")
        || is_sign(token, ",")
        || is_sign(token, "?")
        || is_keyword(token, "extends")
        || is_keyword(token, "super")
}

/// What a token is among type arguments.
#[derive(Clone, Copy)]
enum AngleStep {
    /// A `<`.
    Opens,
    /// A `>`, glued or not.
    Closes,
    /// A `[`, behind which a `]` has to stand.
    Indexes,
    /// It may stand there.
    Stays,
    /// It may not.
    Ends,
}

/// What a sign of one byte is that is glued to nothing.
fn byte_step(byte: u8) -> AngleStep
    ensures { Steps (sign (byte ∷ [])) result }
{
    match byte {
        b'<' => AngleStep::Opens,
        b'>' => AngleStep::Closes,
        b'[' => AngleStep::Indexes,
        b',' | b'.' | b'?' => AngleStep::Stays,
        _ => AngleStep::Ends,
    }
}

/// What a sign is that is glued to nothing.
fn sign_step(text: &[u8]) -> AngleStep
    ensures { Steps (sign text.now) result }
{
    match text {
        [byte] => byte_step(*byte),
        _ => AngleStep::Ends,
    }
}

/// What the token is among type arguments, of a sign by its byte: each `<` asks it of all tokens up to where it is
/// closed or not.
fn angle_step(token: &Token) -> AngleStep
    ensures { Steps (spelled token.now) result }
{
    if matches!(token.kind, TokenKind::Sign) && !token.glued {
        return sign_step(token.text.as_str().as_bytes());
    }
    if is_angle_sign(token) {
        AngleStep::Closes
    } else if in_arguments(token) {
        AngleStep::Stays
    } else {
        AngleStep::Ends
    }
}

/// Whether the tokens behind a `<` close it as type arguments, with no operand behind the `>`.
///
/// It looks no further than to where more than `limit` are open, so that all of these look-aheads in an expression look
/// at a token at most `limit` times and once.
pub fn closes_angle(limit: u32, tokens: &[Token]) -> bool
    ensures { result ≡ closes_angle limit 0 (map spelled tokens.now) }
{
    let mut depth: u32 = 0;
    let mut rest = tokens;
    while let [token, after @ ..] = rest {
        rest = after;
        if is_name(token) {
            continue;
        }
        match angle_step(token) {
            AngleStep::Opens => {
                if depth >= limit {
                    return false;
                }
                depth += 1;
            }
            AngleStep::Closes => {
                if depth == 0 {
                    return no_operand_at(after);
                }
                depth -= 1;
            }
            AngleStep::Indexes => {
                let Some(behind) = after_sign(after, "]") else {
                    return false;
                };
                rest = behind;
            }
            AngleStep::Stays => {}
            AngleStep::Ends => return false,
        }
    }
    false
}

/// The tokens behind a `<` that begins type arguments, where one stands in front.
pub fn after_less(limit: u32, tokens: &[Token]) -> Option<&[Token]>
    ensures gives { MatchOption result (after_less limit (map spelled tokens.now) ≡ None) (λ rest. after_less limit
        (map spelled tokens.now) ≡ Some (map spelled rest.now)) }
    ensures places { IfSome result (λ rest. kept rest.now ≡ kept tokens.now) }
    ensures shorter { IfSome result (λ rest. length rest.now < length tokens.now) }
{
    let rest = after_sign(tokens, "<")?;
    if closes_angle(limit, rest) {
        Some(rest)
    } else {
        None
    }
}
