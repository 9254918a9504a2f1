//! The address of a tag: a number or a pattern, where it ends and what may follow it (tags(5),
//! "Proposal"). `specs/Grammar`.
ghost use Rattle.std.specs.Prelude.{◌≡◌, ◌≤◌, ◌<◌, IfSome, false, length, not, position};
ghost use Rattle.std.specs.Char.{is_ascii_digit};
ghost use Rattle.tags.specs.Steps.Cutting.{address_len, after_number_len, closing, digits_len, is_delimiter, is_in_range_number, is_number, pattern_len};

use crate::limits::GREATEST_NUMBER;

fn is_delimiter(byte: u8) -> bool
    ensures { result ≡ is_delimiter byte }
{
    byte == b'/' || byte == b'?'
}

/// The place of the first byte that is no digit.
fn digits_end(bytes: &[u8]) -> Option<usize>
    ensures { result ≡ position (λ b. not (is_ascii_digit b)) bytes.now }
{
    bytes.iter().position(|b| !b.is_ascii_digit())
}

/// How many digits are at the front.
#[tactic(auto, using(crate::proofs::AddressLemmas::digits))]
fn digits_len(bytes: &[u8]) -> usize
    ensures value { result ≡ digits_len bytes.now }
    ensures within { result ≤ length bytes.now }
{
    match digits_end(bytes) {
        Some(end) => end,
        None => bytes.len(),
    }
}

/// Whether there are digits alone, of a number up to the greatest.
fn is_in_range_number(digits: &[u8]) -> bool
    ensures { result ≡ is_in_range_number digits.now }
{
    let mut value: u64 = 0;
    for digit in digits {
        if !digit.is_ascii_digit() {
            return false;
        }
        value = value * 10 + u64::from(*digit - b'0');
        if value > GREATEST_NUMBER {
            return false;
        }
    }
    true
}

/// A line's number, from 1 to 2147483647 without leading zero.
#[tactic(auto, unfolding(crate::specs::Steps::Cutting::is_number))]
fn is_number(digits: &[u8]) -> bool
    ensures { result ≡ is_number digits.now }
{
    match digits {
        [] | [b'0', ..] => false,
        _ => is_in_range_number(digits),
    }
}

/// The place of the delimiter that ends a pattern.
fn closing(bytes: &[u8], delimiter: u8) -> Option<usize>
    ensures value { result ≡ closing delimiter false bytes.now }
    ensures within { IfSome result (λ n. n < length bytes.now) }
{
    let mut escaped = false;
    for (i, byte) in bytes.iter().enumerate() {
        if escaped {
            escaped = false;
        } else if *byte == delimiter {
            return Some(i);
        } else {
            escaped = *byte == b'\\';
        }
    }
    None
}

/// How many bytes the pattern at the front takes, with both delimiters.
#[tactic(auto, unfolding(crate::specs::Steps::Cutting::pattern_len))]
fn pattern_len(bytes: &[u8]) -> Option<usize>
    ensures value { result ≡ pattern_len bytes.now }
    ensures within { IfSome result (λ n. n ≤ length bytes.now) }
{
    match bytes {
        [delimiter, pattern @ ..] if is_delimiter(*delimiter) => {
            Some(closing(pattern, *delimiter)? + 2)
        }
        _ => None,
    }
}

/// How many bytes the pattern after a number takes, with its `;`.
#[tactic(auto, unfolding(crate::specs::Steps::Cutting::after_number_len))]
fn after_number_len(bytes: &[u8]) -> Option<usize>
    ensures value { result ≡ after_number_len bytes.now }
    ensures within { IfSome result (λ n. n ≤ length bytes.now) }
{
    match bytes {
        [b';', delimiter, ..] if is_delimiter(*delimiter) => Some(pattern_len(&bytes[1..])? + 1),
        _ => Some(0),
    }
}

/// How many bytes the address at the front takes.
#[tactic(auto, unfolding(crate::specs::Steps::Cutting::address_len))]
pub(crate) fn address_len(bytes: &[u8]) -> Option<usize>
    ensures value { result ≡ address_len bytes.now }
    ensures within { IfSome result (λ n. n ≤ length bytes.now) }
{
    if is_delimiter(*bytes.first()?) {
        return pattern_len(bytes);
    }
    let digits = digits_len(bytes);
    if !is_number(&bytes[..digits]) {
        return None;
    }
    Some(after_number_len(&bytes[digits..])? + digits)
}
