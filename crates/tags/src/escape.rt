//! The escapes of a name, a file, a kind and a field's value (tags(5), "Exceptions in Universal
//! Ctags"). `specs/Escapes`.
ghost use Rattle.std.specs.Prelude.{◌≡◌, ◌<◌, ◌≤◌, ◌-◌, IfOk, IfSome, IsUtf8, Some, length, is_some, slice_index, string_bytes, true};
ghost use Rattle.tags.specs.Escapes.{decoded, hex_value, letter_value};
ghost use Rattle.tags.specs.Steps.Escapes.{escape_at};

use crate::around::{around_byte, around_char, text_of};
use std::alloc::{AllocError, Global};

/// The byte that a backslash and the letter represent.
#[tactic(auto, unfolding(crate::specs::Escapes::letter_value))]
fn letter_value(letter: u8) -> Option<u8>
    ensures value { result ≡ letter_value letter }
    ensures ascii { IfSome result (λ v. (v < 128) × (letter < 128)) }
{
    match letter {
        b't' => Some(b'\t'),
        b'r' => Some(b'\r'),
        b'n' => Some(b'\n'),
        b'\\' => Some(b'\\'),
        b'a' => Some(7),
        b'b' => Some(8),
        b'v' => Some(11),
        b'f' => Some(12),
        _ => None,
    }
}

/// The byte that `\x` and two hexadecimal digits represent, from 01 to 7F.
#[tactic(auto, unfolding(crate::specs::Escapes::hex_value))]
fn hex_value(high: u8, low: u8) -> Option<u8>
    ensures value { result ≡ hex_value high low }
    ensures ascii { IfSome result (λ v. (v < 128) × (high < 128) × (low < 128)) }
{
    let high = char::from(high).to_digit(16)?;
    let low = char::from(low).to_digit(16)?;
    let value = high * 16 + low;
    if 0 < value && value < 128 {
        Some(value as u8)
    } else {
        None
    }
}

/// The byte that an escape represents, and how many bytes the escape has after its backslash.
#[tactic(auto, unfolding(crate::specs::Steps::Escapes::escape_at))]
fn escape_at(text: &[u8]) -> Option<(u8, usize)>
    ensures value { result ≡ escape_at text.now }
    ensures within { IfSome result (λ e. (0 < e.1) × (e.1 ≤ length text.now)) }
    ensures ascii { IfSome result (λ e. slice_index text.now (e.1 - 1) < 128) }
    ensures byte { IfSome result (λ e. e.0 < 128) }
{
    match text {
        [b'x', high, low, ..] => Some((hex_value(*high, *low)?, 3)),
        [letter, ..] => Some((letter_value(*letter)?, 1)),
        [] => None,
    }
}

/// The text that a name, a file, a kind or a field's value represents, in which each backslash
/// begins an escape.
pub(crate) fn decode(alloc: Global, written: &[u8]) -> Result<String, AllocError>
    requires text { IsUtf8 written.now }
    requires good { is_some (decoded written.now) ≡ true }
    ensures { IfOk result (λ s. decoded written.now ≡ Some (string_bytes s)) }
{
    let mut value = String::new(alloc);
    let mut rest = text_of(written);
    while let Some((before, escape)) = around_char(rest, '\\') {
        value.push_str(before)?;
        let Some((byte, len)) = escape_at(escape.as_bytes()) else {
            unreachable!()
        };
        value.push(char::from(byte))?;
        rest = &escape[len..];
    }
    value.push_str(rest)?;
    Ok(value)
}

/// Whether each backslash begins an escape, so that the text has a meaning. It takes no memory.
pub(crate) fn is_decodable(written: &[u8]) -> bool
    ensures { result ≡ is_some (decoded written.now) }
{
    let mut rest = written;
    'escapes: while let Some((_, escape)) = around_byte(rest, b'\\') {
        let Some((_, len)) = escape_at(escape) else {
            return false;
        };
        rest = &escape[len..];
    }
    true
}
