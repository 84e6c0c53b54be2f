//! Tokens and faults, a line each.
use crate::page::Page;
use java_lexer::{LexFault, Lexed, Token, TokenKind};

fn kind_word(kind: TokenKind) -> &'static str {
    match kind {
        TokenKind::Keyword => " Keyword ",
        TokenKind::Fixed => " Fixed ",
        TokenKind::Name => " Name ",
        TokenKind::Number => " Number ",
        TokenKind::Character => " Character ",
        TokenKind::Text => " Text ",
        TokenKind::Sign => " Sign ",
    }
}

/// A token, with a `+` before it where it is glued to the one before.
fn put_token(page: &mut Page, token: &Token) {
    page.put_placed(if token.glued { "+" } else { "" }, token.place);
    page.put_after(kind_word(token.kind), token.text.as_str());
    page.put("\n");
}

/// The tokens, and the place of the text's end.
pub fn put_tokens(page: &mut Page, lexed: &Lexed) {
    for token in lexed.tokens.as_slice() {
        put_token(page, token);
    }
    page.put_placed("", lexed.end);
    page.put(" end\n");
}

pub fn put_fault(page: &mut Page, fault: LexFault) {
    match fault {
        LexFault::Memory => page.put("memory\n"),
        LexFault::NotUtf8(offset) => {
            page.put_counted("not utf8 at", offset);
            page.put("\n");
        }
        LexFault::BadCharacter(place) => page.put_line("bad character ", place),
        LexFault::Unclosed(place) => page.put_line("unclosed ", place),
        LexFault::BadLiteral(place) => page.put_line("bad literal ", place),
    }
}
