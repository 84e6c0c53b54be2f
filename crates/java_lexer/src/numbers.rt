//! Numbers (JLS 3.10.1, 3.10.2), whose digits are not looked at further.
ghost use Rattle.std.specs.Prelude.{◌≡◌, ◌≤◌, length};
ghost use Rattle.java_lexer.specs.Numbers.{begins_with_digit, begins_number, begins_hex, is_next};
ghost use Rattle.java_lexer.specs.Scanning.{number_len};

use crate::words::{is_digit, is_number_byte};

fn begins_with_digit(bytes: &[u8]) -> bool
    ensures { result ≡ begins_with_digit bytes.now }
{
    match bytes.split_first() {
        Some((first, _)) => is_digit(*first),
        None => false,
    }
}

pub fn begins_number(bytes: &[u8]) -> bool
    ensures { result ≡ begins_number bytes.now }
{
    let Some((first, rest)) = bytes.split_first() else {
        return false;
    };
    is_digit(*first) || (*first == b'.' && begins_with_digit(rest))
}

pub fn begins_hex(bytes: &[u8]) -> bool
    ensures { result ≡ begins_hex bytes.now }
{
    bytes.starts_with(b"0x") || bytes.starts_with(b"0X")
}

fn is_next(hex: bool, before: u8, byte: u8) -> bool
    ensures { result ≡ is_next hex before byte }
{
    if is_number_byte(byte) || byte == b'.' {
        return true;
    }
    if byte != b'+' && byte != b'-' {
        return false;
    }
    if hex {
        before == b'p' || before == b'P'
    } else {
        before == b'e' || before == b'E'
    }
}

/// How many of the bytes behind the first one go on a number.
pub fn number_len(hex: bool, first: u8, rest: &[u8]) -> usize
    ensures gives { result ≡ number_len hex first rest.now }
    ensures fits { result ≤ length rest.now }
{
    let mut before = first;
    for (i, byte) in rest.iter().enumerate() {
        if !is_next(hex, before, *byte) {
            return i;
        }
        before = *byte;
    }
    rest.len()
}
