//! The tokens of a file in a profile of Java SE 8.
ghost use Rattle.std.specs.Prelude.{◌≡◌, ◌+◌, ◌^◌, ◌<◌, ◌≤◌, ◌++◌, IfOk, IfErr, OnOk, Some, length, false};
ghost use Rattle.std.specs.Str.{IsUtf8};
ghost use Rattle.racer_base.specs.Name.{is_listed};
ghost use Rattle.java_lexer.specs.Signs.{shifts};
ghost use Rattle.java_lexer.specs.Divisions.{undivided};
ghost use Rattle.java_lexer.specs.JavaKinds.{java_fault, java_lexis};
ghost use Rattle.java_lexer.specs.JavaTokens.{angle_tokens, java_tokens_of, fault_answer, divided_answer, lexed_answer};
ghost use Rattle.java_lexer.specs.JavaTokens.{IsFaultOf};

use crate::piece::{LexicalFault, PieceKind};
use crate::scan::next_piece;
use crate::spot::Spot;
use crate::words::text_of;
use crate::{LexFault, Lexed, Token, TokenKind};
use racer_base::{FileId, Items, Memory, Place, Text};
use std::alloc::Global;

/// Whether this is a shift that is given as single `>`.
fn is_shift(bytes: &[u8]) -> bool
    ensures { result ≡ is_listed shifts bytes.now }
{
    matches!(bytes, [b'>', b'>'] | [b'>', b'>', b'>'])
}

/// Puts a token `>` for each byte at the end; each but the first is glued.
fn put_angles(
    alloc: Global,
    tokens: &mut Items<Token>,
    file: FileId,
    spot: Spot,
    bytes: &[u8],
) -> Result<(), Memory>
    requires one { 1 ≤ spot.column }
    requires line { spot.line + length bytes.now < 2 ^ 32 }
    requires column { spot.column + length bytes.now < 2 ^ 32 }
    ensures { OnOk result (tokens.new ≡ tokens.old ++ angle_tokens file spot false bytes.now) }
{
    let mut at = spot;
    let mut glued = false;
    for byte in bytes {
        tokens.push(Token {
            kind: TokenKind::Sign,
            text: Text::from_str(alloc, ">")?,
            place: at.place(file),
            glued,
        })?;
        at = at.advance(*byte);
        glued = true;
    }
    Ok(())
}

/// Puts the tokens of a piece at the end.
fn put(
    alloc: Global,
    tokens: &mut Items<Token>,
    file: FileId,
    spot: Spot,
    kind: PieceKind,
    bytes: &[u8],
) -> Result<(), Memory>
    requires utf8 { (k : TokenKind) → kind ≡ PieceKind.Token k → IsUtf8 bytes.now }
    requires one { 1 ≤ spot.column }
    requires line { spot.line + length bytes.now < 2 ^ 32 }
    requires column { spot.column + length bytes.now < 2 ^ 32 }
    ensures { OnOk result (tokens.new ≡ tokens.old ++ java_tokens_of file spot kind bytes.now) }
{
    let PieceKind::Token(kind) = kind else {
        return Ok(());
    };
    if kind == TokenKind::Sign && is_shift(bytes) {
        return put_angles(alloc, tokens, file, spot, bytes);
    }
    tokens.push(Token {
        kind,
        text: text_of(alloc, bytes)?,
        place: spot.place(file),
        glued: false,
    })?;
    Ok(())
}

fn fault_answer(fault: LexicalFault, place: Place) -> LexFault
    ensures { result ≡ fault_answer fault place }
{
    match fault {
        LexicalFault::BadCharacter => LexFault::BadCharacter(place),
        LexicalFault::Unclosed => LexFault::Unclosed(place),
        LexicalFault::BadLiteral => LexFault::BadLiteral(place),
    }
}

/// The tokens of a text, or the first fault.
fn divided(alloc: Global, file: FileId, bytes: &[u8]) -> Result<Lexed, LexFault>
    requires utf8 { IsUtf8 bytes.now }
    requires small { length bytes.now + 1 < 2 ^ 32 }
    ensures ok { IfOk result
        (λ lexed. divided_answer file bytes.now (java_fault (undivided java_lexis bytes.now)) ≡ Ok lexed) }
    ensures err { IfErr result
        (λ fault. IsFaultOf (divided_answer file bytes.now (java_fault (undivided java_lexis bytes.now))) fault) }
{
    let mut tokens = Items::new(alloc);
    let mut spot = Spot::begin();
    let mut rest = bytes;
    while !rest.is_empty() {
        let (len, kind) = match next_piece(rest) {
            Ok(piece) => piece,
            Err(fault) => return Err(fault_answer(fault, spot.place(file))),
        };
        let (piece, after) = rest.split_at(len);
        put(alloc, &mut tokens, file, spot, kind, piece)?;
        spot = spot.behind(piece);
        rest = after;
    }
    Ok(Lexed {
        tokens,
        end: spot.place(file),
    })
}

/// The tokens of a file in a profile of Java SE 8 (JLS 3), or the first fault in it. That it is UTF-8 is looked
/// for in all of it first. Bytes are taken as they stand: a Unicode escape is one in literals alone.
///
/// Want of memory is also the answer to a text of 4 GiB, whose lines may have no number.
pub fn lex(alloc: Global, file: FileId, bytes: &[u8]) -> Result<Lexed, LexFault>
    ensures ok { IfOk result (λ lexed. lexed_answer file bytes.now ≡ Ok lexed) }
    ensures err { IfErr result (λ fault. IsFaultOf (lexed_answer file bytes.now) fault) }
{
    if let Err(error) = str::from_utf8(bytes) {
        return Err(LexFault::NotUtf8(error.valid_up_to()));
    }
    if bytes.len() >= u32::MAX as usize {
        return Err(LexFault::Memory);
    }
    divided(alloc, file, bytes)
}
