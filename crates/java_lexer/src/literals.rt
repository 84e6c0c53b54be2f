//! Character and text literals (JLS 3.10.4, 3.10.5).
ghost use Rattle.std.specs.Prelude.{◌≡◌, ◌<◌, ◌≤◌, IfSome, ◌∷◌, length};
ghost use Rattle.std.specs.List.{list_all};
ghost use Rattle.java_lexer.specs.Literals.{double_quote, single_quote, is_continuation, is_one_character};
ghost use Rattle.java_lexer.specs.Literals.{escapes_hold};
ghost use Rattle.java_lexer.specs.Scanning.{quoted_len};
ghost use Rattle.java_lexer.specs.Scanning.{IsScanned};
ghost use Rattle.java_lexer.specs.JavaKinds.{java_lexis};

use crate::TokenKind;
use crate::comments::is_line_end;
use crate::escapes::{begins_escape, is_escape};
use crate::piece::{LexicalFault, PieceKind};

/// How many bytes there are up to and with the closing quote.
fn quoted_len(quote: u8, bytes: &[u8]) -> Option<usize>
    ensures gives { result ≡ quoted_len quote bytes.now }
    ensures some { IfSome result (λ n. 0 < n) }
    ensures fits { IfSome result (λ n. n ≤ length bytes.now) }
{
    let mut rest = bytes;
    while let Some((first, after)) = rest.split_first() {
        if *first == quote {
            return Some(bytes.len() - after.len());
        }
        rest = after;
        if *first == b'\\' {
            let Some((taken, more)) = after.split_first() else {
                return None;
            };
            if is_line_end(*taken) {
                return None;
            }
            rest = more;
        } else if is_line_end(*first) {
            return None;
        }
    }
    None
}

/// Whether each backslash begins an escape of a text.
fn escapes_hold(content: &[u8]) -> bool
    ensures { result ≡ escapes_hold content.now }
{
    let mut rest = content;
    while let Some((first, after)) = rest.split_first() {
        rest = after;
        if *first == b'\\' {
            if !begins_escape(b'"', after) {
                return false;
            }
            let Some((_, more)) = after.split_first() else {
                return true;
            };
            rest = more;
        }
    }
    true
}

fn is_continuation(byte: u8) -> bool
    ensures { result ≡ is_continuation byte }
{
    matches!(byte, 0x80..=0xbf)
}

fn all_continuation(bytes: &[u8]) -> bool
    ensures { result ≡ list_all is_continuation bytes.now }
{
    bytes.iter().all(|byte| is_continuation(*byte))
}

fn is_one_character(content: &[u8]) -> bool
    ensures { result ≡ is_one_character content.now }
{
    let Some((first, rest)) = content.split_first() else {
        return false;
    };
    if *first == b'\\' {
        return is_escape(b'\'', rest);
    }
    *first != b'\'' && !is_line_end(*first) && all_continuation(rest)
}

/// The literal that a double quote begins, by what stands behind it.
pub fn text(rest: &[u8]) -> Result<(usize, PieceKind), LexicalFault>
    ensures { IsScanned java_lexis (double_quote ∷ rest.now) result }
{
    if rest.starts_with(b"\"\"") {
        return Err(LexicalFault::BadLiteral);
    }
    let Some(len) = quoted_len(b'"', rest) else {
        return Err(LexicalFault::Unclosed);
    };
    let (content, _) = rest.split_at(len - 1);
    if !escapes_hold(content) {
        return Err(LexicalFault::BadLiteral);
    }
    Ok((1 + len, PieceKind::Token(TokenKind::Text)))
}

/// The literal that a single quote begins, by what stands behind it.
pub fn character(rest: &[u8]) -> Result<(usize, PieceKind), LexicalFault>
    ensures { IsScanned java_lexis (single_quote ∷ rest.now) result }
{
    let Some(len) = quoted_len(b'\'', rest) else {
        return Err(LexicalFault::Unclosed);
    };
    let (content, _) = rest.split_at(len - 1);
    if !is_one_character(content) {
        return Err(LexicalFault::BadLiteral);
    }
    Ok((1 + len, PieceKind::Token(TokenKind::Character)))
}
