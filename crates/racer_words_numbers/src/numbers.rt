//! Numbers on a command line: one to three decimal digits without a leading zero.
ghost use Rattle.std.specs.Prelude.{◌≡◌, ◌<◌, ◌≤◌, ◌-◌, length, option_map, IfSome};
ghost use Rattle.std.specs.List.{list_all};
ghost use Rattle.racer_words_numbers.specs.Numbers.{is_digit, is_number, number, up_to, workers_of};

use racer_base::MAX_WORKERS;

/// The workers of a line that names no number.
const WORKERS: u32 = 4;

/// The most files of a made folder.
const MOST_MADE: u32 = 800;

fn is_digit(byte: u8) -> bool
    ensures { result ≡ is_digit byte }
{
    b'0' <= byte && byte <= b'9'
}

fn are_digits(bytes: &[u8]) -> bool
    ensures { result ≡ list_all is_digit bytes.now }
{
    for byte in bytes {
        if !is_digit(*byte) {
            return false;
        }
    }
    true
}

/// Whether the bytes are a number.
fn is_number(bytes: &[u8]) -> bool
    ensures { result ≡ is_number bytes.now }
{
    match bytes {
        [] => false,
        [first, ..] => *first != b'0' && are_digits(bytes) && bytes.len() <= 3,
    }
}

fn digit(byte: u8) -> u32
    ensures { result ≡ byte - 48 }
{
    u32::from(byte.saturating_sub(b'0'))
}

/// What up to three digits are worth.
fn number(bytes: &[u8]) -> u32
    requires { length bytes.now ≤ 3 }
    ensures { result ≡ number bytes.now }
{
    match bytes {
        [a] => digit(*a),
        [a, b] => digit(*a) * 10 + digit(*b),
        [a, b, c] => (digit(*a) * 10 + digit(*b)) * 10 + digit(*c),
        _ => 0,
    }
}

/// The number that a word is, where it is at most this one. No number is 0.
#[tactic(auto, using(crate::proofs::NotZero::some_number))]
fn up_to(most: u32, word: &str) -> Option<u32>
    ensures is { result ≡ up_to most word.now }
    ensures in_range { IfSome result (λ n. (0 < n) × (n ≤ most)) }
{
    let bytes = word.as_bytes();
    if !is_number(bytes) {
        return None;
    }
    let all = number(bytes);
    if all <= most { Some(all) } else { None }
}

/// The number of workers that the line names, or 4.
pub fn workers_of(word: Option<&str>) -> Option<u32>
    ensures is { result ≡ workers_of (option_map (λ s. s.now) word.entry) }
    ensures in_range { IfSome result (λ n. (0 < n) × (n ≤ 64)) }
{
    match word {
        Some(word) => up_to(MAX_WORKERS, word),
        None => Some(WORKERS),
    }
}

/// The number of made files that a word names.
pub fn made_of(word: &str) -> Option<u32>
    ensures is { result ≡ up_to 800 word.now }
    ensures most { IfSome result (λ n. n ≤ 800) }
{
    up_to(MOST_MADE, word)
}
