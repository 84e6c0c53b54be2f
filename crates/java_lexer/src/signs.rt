//! Separators and operators.
ghost use Rattle.std.specs.Prelude.{◌≡◌, map};
ghost use Rattle.java_lexer.specs.Scanning.{is_mark, signs_with, first_len};

/// Whether the byte is a sign, and no longer piece begins with it.
pub fn is_mark(byte: u8) -> bool
    ensures { result ≡ is_mark byte }
{
    matches!(
        byte,
        b'(' | b')' | b'{' | b'}' | b'[' | b']' | b';' | b',' | b'@' | b'~' | b'?'
    )
}

/// The signs that begin with this byte, the longer ones first.
#[tactic(none)]
fn signs_with(first: u8) -> &'static [&'static [u8]]
    ensures { map (λ sign. sign.now) result.now ≡ signs_with first }
{
    match first {
        b'(' => &[b"("],
        b')' => &[b")"],
        b'{' => &[b"{"],
        b'}' => &[b"}"],
        b'[' => &[b"["],
        b']' => &[b"]"],
        b';' => &[b";"],
        b',' => &[b","],
        b'.' => &[b"...", b"."],
        b'@' => &[b"@"],
        b':' => &[b"::", b":"],
        b'~' => &[b"~"],
        b'?' => &[b"?"],
        b'=' => &[b"==", b"="],
        b'!' => &[b"!=", b"!"],
        b'>' => &[b">>>=", b">>>", b">>=", b">>", b">=", b">"],
        b'<' => &[b"<<=", b"<<", b"<=", b"<"],
        b'-' => &[b"->", b"--", b"-=", b"-"],
        b'+' => &[b"++", b"+=", b"+"],
        b'*' => &[b"*=", b"*"],
        b'/' => &[b"/=", b"/"],
        b'%' => &[b"%=", b"%"],
        b'&' => &[b"&&", b"&=", b"&"],
        b'|' => &[b"||", b"|=", b"|"],
        b'^' => &[b"^=", b"^"],
        _ => &[],
    }
}

/// The length of the first of these texts that begins the bytes.
fn first_len(table: &[&[u8]], bytes: &[u8]) -> Option<usize>
    ensures { result ≡ first_len (map (λ sign. sign.now) table.now) bytes.now }
{
    for sign in table {
        if bytes.starts_with(sign) {
            return Some(sign.len());
        }
    }
    None
}

/// The length of the longest sign in front, of those with the first byte.
pub fn sign_len(first: u8, bytes: &[u8]) -> Option<usize>
    ensures { result ≡ first_len (signs_with first) bytes.now }
{
    first_len(signs_with(first), bytes)
}
