//! Comments (JLS 3.7).
ghost use Rattle.std.specs.Prelude.{◌≡◌, ◌≤◌, IfSome, true, length, codes, nat_eq};
ghost use Rattle.std.specs.List.{prefix_len, starts_with};
ghost use Rattle.java_lexer.specs.Comments.{is_line_end, is_inline, closes};
ghost use Rattle.java_lexer.specs.Scanning.{closed_len};
ghost use Rattle.java_lexer.specs.Scanning.{IsScanned};
ghost use Rattle.java_lexer.specs.JavaKinds.{java_lexis};

use crate::piece::{LexicalFault, PieceKind};

pub fn is_line_end(byte: u8) -> bool
    ensures { result ≡ is_line_end byte }
{
    byte == b'\n' || byte == b'\r'
}

/// How many bytes there are up to the line's end.
fn inline_len(bytes: &[u8]) -> usize
    ensures gives { result ≡ prefix_len is_inline bytes.now }
    ensures fits { result ≤ length bytes.now }
{
    bytes.iter().take_while(|byte| !is_line_end(**byte)).count()
}

/// Whether the bytes begin with `*/`.
fn closes(bytes: &[u8]) -> bool
    ensures { result ≡ closes bytes.now }
{
    bytes.starts_with(b"*/")
}

/// How many bytes there are up to and with the first `*/`.
fn closed_len(bytes: &[u8]) -> Option<usize>
    ensures gives { result ≡ closed_len bytes.now }
    ensures fits { IfSome result (λ n. n ≤ length bytes.now) }
{
    let mut rest = bytes;
    while let Some((_, after)) = rest.split_first() {
        if closes(rest) {
            return Some(bytes.len() - rest.len() + 2);
        }
        rest = after;
    }
    None
}

/// The comment that `//` begins.
pub fn line_comment(bytes: &[u8]) -> Result<(usize, PieceKind), LexicalFault>
    requires { starts_with nat_eq bytes.now (codes "//") ≡ true }
    ensures { IsScanned java_lexis bytes.now result }
{
    let Some((_, rest)) = bytes.split_at_checked(2) else {
        unreachable!()
    };
    Ok((2 + inline_len(rest), PieceKind::Comment))
}

/// The comment that `/*` begins.
pub fn block_comment(bytes: &[u8]) -> Result<(usize, PieceKind), LexicalFault>
    requires { starts_with nat_eq bytes.now (codes "/*") ≡ true }
    ensures { IsScanned java_lexis bytes.now result }
{
    let Some((_, rest)) = bytes.split_at_checked(2) else {
        unreachable!()
    };
    match closed_len(rest) {
        Some(len) => Ok((2 + len, PieceKind::Comment)),
        None => Err(LexicalFault::Unclosed),
    }
}
