//! Texts that are split at the first of a byte: a linear scan, which takes no memory.
//! `specs/Around`.
ghost use Rattle.std.specs.Prelude.{◌≡◌, ◌==◌, ◌+◌, ◌<◌, IfSome, length, option_map, position, IsUtf8};
ghost use Rattle.tags.specs.Around.{around};

/// The text before and after the first of an ASCII character.
pub(crate) fn around_char(text: &str, separator: char) -> Option<(&str, &str)>
    requires { separator < 128 }
    ensures value { option_map (λ p. (p.0.now, p.1.now)) result ≡ around separator text.now }
    ensures shorter { IfSome result (λ p. length p.0.now + length p.1.now < length text.now) }
{
    text.split_once(separator)
}

/// The place of the first of a byte.
pub(crate) fn place_of(bytes: &[u8], byte: u8) -> Option<usize>
    ensures { result ≡ position (λ b. b == byte) bytes.now }
{
    bytes.iter().position(|b| *b == byte)
}

/// The bytes before and after the first of a byte.
#[tactic(auto, using(crate::proofs::AroundLemmas::places))]
pub(crate) fn around_byte(bytes: &[u8], separator: u8) -> Option<(&[u8], &[u8])>
    ensures value { option_map (λ p. (p.0.now, p.1.now)) result ≡ around separator bytes.now }
    ensures lengths { IfSome result (λ p. length p.0.now + length p.1.now + 1 ≡ length bytes.now) }
    ensures texts { separator < 128 → IsUtf8 bytes.now → IfSome result (λ p. IsUtf8 p.0.now × IsUtf8 p.1.now) }
{
    let place = place_of(bytes, separator)?;
    Some((&bytes[..place], &bytes[place + 1..]))
}

/// The bytes as the text that they are.
pub(crate) fn text_of(bytes: &[u8]) -> &str
    requires { IsUtf8 bytes.now }
    ensures { result.now ≡ bytes.now }
{
    match str::from_utf8(bytes) {
        Ok(text) => text,
        Err(_) => unreachable!(),
    }
}
