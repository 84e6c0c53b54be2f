//! Keywords and fixed words, and the texts of tokens.
ghost use Rattle.std.specs.Prelude.{◌≡◌, ◌≤◌, IfOk, map, length, Bool};
ghost use Rattle.std.specs.List.{prefix_len};
ghost use Rattle.std.specs.Str.{IsUtf8};
ghost use Rattle.racer_base.specs.Name.{is_listed, is_letter, is_digit, is_word_byte, keywords, fixed_words};
ghost use Rattle.java_lexer.specs.Kinds.{is_white, is_number_byte, word_kind};
ghost use Rattle.java_lexer.specs.Scanning.{keywords_with};

use crate::TokenKind;
use racer_base::{Memory, Text};
use std::alloc::Global;

const FIXED_WORDS: [&[u8]; 3] = [b"true", b"false", b"null"];

pub fn is_white(byte: u8) -> bool
    ensures { result ≡ is_white byte }
{
    matches!(byte, b' ' | b'\t' | 0x0c | b'\r' | b'\n')
}

pub fn is_letter(byte: u8) -> bool
    ensures { result ≡ is_letter byte }
{
    byte.is_ascii_alphabetic() || byte == b'_' || byte == b'$'
}

pub fn is_digit(byte: u8) -> bool
    ensures { result ≡ is_digit byte }
{
    byte.is_ascii_digit()
}

pub fn is_word_byte(byte: u8) -> bool
    ensures { result ≡ is_word_byte byte }
{
    is_letter(byte) || is_digit(byte)
}

pub fn is_number_byte(byte: u8) -> bool
    ensures { result ≡ is_number_byte byte }
{
    is_word_byte(byte) && byte != b'$'
}

/// How many of the bytes go on a word.
pub fn word_len(bytes: &[u8]) -> usize
    ensures gives { result ≡ prefix_len is_word_byte bytes.now }
    ensures fits { result ≤ length bytes.now }
{
    bytes.iter().take_while(|byte| is_word_byte(**byte)).count()
}

/// Whether a text is one of these.
pub fn is_listed(table: &[&[u8]], text: &[u8]) -> bool
    ensures { result ≡ is_listed (map (λ entry. entry.now) table.now) text.now }
{
    for entry in table {
        if text == *entry {
            return true;
        }
    }
    false
}

/// The keywords that begin with this byte.
#[tactic(none)]
fn keywords_with(first: u8) -> &'static [&'static [u8]]
    ensures { map (λ word. word.now) result.now ≡ keywords_with first }
{
    match first {
        b'a' => &[b"abstract", b"assert"],
        b'b' => &[b"boolean", b"break", b"byte"],
        b'c' => &[b"case", b"catch", b"char", b"class", b"const", b"continue"],
        b'd' => &[b"default", b"do", b"double"],
        b'e' => &[b"else", b"enum", b"extends"],
        b'f' => &[b"final", b"finally", b"float", b"for"],
        b'g' => &[b"goto"],
        b'i' => &[
            b"if",
            b"implements",
            b"import",
            b"instanceof",
            b"int",
            b"interface",
        ],
        b'l' => &[b"long"],
        b'n' => &[b"native", b"new"],
        b'p' => &[b"package", b"private", b"protected", b"public"],
        b'r' => &[b"return"],
        b's' => &[
            b"short",
            b"static",
            b"strictfp",
            b"super",
            b"switch",
            b"synchronized",
        ],
        b't' => &[b"this", b"throw", b"throws", b"transient", b"try"],
        b'v' => &[b"void", b"volatile"],
        b'w' => &[b"while"],
        _ => &[],
    }
}

fn is_keyword(word: &[u8]) -> bool
    ensures { result ≡ is_listed keywords word.now }
{
    match word.split_first() {
        Some((first, _)) => is_listed(keywords_with(*first), word),
        None => false,
    }
}

fn is_fixed_word(word: &[u8]) -> bool
    ensures { result ≡ is_listed fixed_words word.now }
{
    is_listed(&FIXED_WORDS, word)
}

pub fn word_kind(word: &[u8]) -> TokenKind
    ensures { result ≡ word_kind word.now }
{
    if is_keyword(word) {
        TokenKind::Keyword
    } else if is_fixed_word(word) {
        TokenKind::Fixed
    } else {
        TokenKind::Name
    }
}

/// The text of a token. That the file is UTF-8 was looked for in all of it, so it is not looked for again here.
pub fn text_of(alloc: Global, bytes: &[u8]) -> Result<Text, Memory>
    requires { IsUtf8 bytes.now }
    ensures { IfOk result (λ text. text ≡ bytes.now) }
{
    let text = unsafe { str::from_utf8_unchecked(bytes) };
    Text::from_str(alloc, text)
}
