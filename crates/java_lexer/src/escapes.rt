//! Escapes of literals, behind their backslash (JLS 3.3, 3.10.6).
ghost use Rattle.std.specs.Prelude.{◌≡◌, ◌<◌, ◌≤◌, [], ◌∷◌, length, take, true, nat_eq, nat_le, if◌then◌else◌};
ghost use Rattle.std.specs.List.{list_all, list_any};
ghost use Rattle.std.specs.Str.{byte};
ghost use Rattle.java_lexer.specs.Literals.{backslash, is_simple, is_simple_escape, is_octal, is_octal_escape, is_hex};
ghost use Rattle.java_lexer.specs.Literals.{hex_digit, hex_value, is_allowed_unit, behind_u_run, is_unicode_escape};
ghost use Rattle.java_lexer.specs.Literals.{is_escape};
ghost use Rattle.java_lexer.specs.Fronts.{some_front};
ghost use Rattle.java_lexer.specs.Scanning.{begins_escape};

use crate::words::is_digit;

fn is_simple(byte: u8) -> bool
    ensures { result ≡ is_simple byte }
{
    matches!(
        byte,
        b'b' | b't' | b'n' | b'f' | b'r' | b'"' | b'\'' | b'\\'
    )
}

fn is_simple_escape(bytes: &[u8]) -> bool
    ensures { result ≡ is_simple_escape bytes.now }
{
    match bytes.split_first() {
        Some((first, rest)) => is_simple(*first) && rest.is_empty(),
        None => false,
    }
}

fn is_octal(byte: u8) -> bool
    ensures { result ≡ is_octal byte }
{
    matches!(byte, b'0'..=b'7')
}

fn all_octal(bytes: &[u8]) -> bool
    ensures { result ≡ list_all is_octal bytes.now }
{
    bytes.iter().all(|byte| is_octal(*byte))
}

/// Whether an octal escape that begins with this digit may have so many others.
fn may_follow(first: u8, count: usize) -> bool
    ensures { result ≡ nat_le count (if nat_le first (byte "3") then 2 else 1) }
{
    if first <= b'3' {
        count <= 2
    } else {
        count <= 1
    }
}

fn is_octal_escape(bytes: &[u8]) -> bool
    ensures { result ≡ is_octal_escape bytes.now }
{
    match bytes.split_first() {
        Some((first, rest)) => {
            is_octal(*first) && all_octal(rest) && may_follow(*first, rest.len())
        }
        None => false,
    }
}

fn is_hex(byte: u8) -> bool
    ensures { result ≡ is_hex byte }
{
    is_digit(byte) || matches!(byte, b'a'..=b'f') || matches!(byte, b'A'..=b'F')
}

fn hex_digit(byte: u8) -> u32
    requires { is_hex byte ≡ true }
    ensures value { result ≡ hex_digit byte }
    ensures small { result < 16 }
{
    let digit = if is_digit(byte) {
        byte - b'0'
    } else if byte >= b'a' {
        byte - (b'a' - 10)
    } else {
        byte - (b'A' - 10)
    };
    u32::from(digit)
}

/// The number that these digits spell.
fn hex_value(digits: &[u8]) -> u32
    requires few { length digits.now ≤ 4 }
    requires hex { list_all is_hex digits.now ≡ true }
    ensures { result ≡ hex_value digits.now }
{
    let mut value = 0;
    for digit in digits {
        value = value * 16 + hex_digit(*digit);
    }
    value
}

fn all_hex(bytes: &[u8]) -> bool
    ensures { result ≡ list_all is_hex bytes.now }
{
    bytes.iter().all(|byte| is_hex(*byte))
}

/// Whether this is the number of a line end, of a backslash or of the quote.
fn is_barred(quote: u8, value: u32) -> bool
    ensures { result ≡ list_any (nat_eq value) (byte "\n" ∷ byte "\r" ∷ backslash ∷ quote ∷ []) }
{
    value == 10 || value == 13 || value == 92 || value == u32::from(quote)
}

/// Whether these are four hexadecimal digits of a number that is not barred: with such a one the escape would
/// be read as a line end, a backslash or the quote before the literal is looked at (JLS 3.3).
fn is_allowed_unit(quote: u8, bytes: &[u8]) -> bool
    ensures { result ≡ is_allowed_unit quote bytes.now }
{
    bytes.len() == 4 && all_hex(bytes) && !is_barred(quote, hex_value(bytes))
}

/// What stands behind a run of `u`.
fn behind_u_run(bytes: &[u8]) -> &[u8]
    ensures { result.now ≡ behind_u_run bytes.now }
{
    let mut rest = bytes;
    while let Some((first, after)) = rest.split_first() {
        if *first != b'u' {
            return rest;
        }
        rest = after;
    }
    rest
}

fn is_unicode_escape(quote: u8, bytes: &[u8]) -> bool
    ensures { result ≡ is_unicode_escape quote bytes.now }
{
    match bytes.split_first() {
        Some((first, rest)) => *first == b'u' && is_allowed_unit(quote, behind_u_run(rest)),
        None => false,
    }
}

/// Whether the bytes are one escape.
pub fn is_escape(quote: u8, bytes: &[u8]) -> bool
    ensures { result ≡ is_escape quote bytes.now }
{
    is_simple_escape(bytes) || is_octal_escape(bytes) || is_unicode_escape(quote, bytes)
}

/// The first four of the bytes, or all.
fn first_four(bytes: &[u8]) -> &[u8]
    ensures { result.now ≡ take 4 bytes.now }
{
    match bytes.split_at_checked(4) {
        Some((four, _)) => four,
        None => bytes,
    }
}

/// Whether the bytes begin with an escape.
pub fn begins_escape(quote: u8, bytes: &[u8]) -> bool
    ensures { result ≡ some_front (is_escape quote) bytes.now }
{
    begins(quote, bytes)
}

fn begins(quote: u8, bytes: &[u8]) -> bool
    ensures { result ≡ begins_escape quote bytes.now }
{
    let Some((first, rest)) = bytes.split_first() else {
        return false;
    };
    if is_simple(*first) || is_octal(*first) {
        return true;
    }
    *first == b'u' && is_allowed_unit(quote, first_four(behind_u_run(rest)))
}
