//! The fields of a head that say how long the body is (RFC 9112, section 6.3). All other fields are
//! ignored.
ghost use Rattle.std.specs.Prelude.{◌≡◌, ℕ, ◌+◌, ◌<◌, List, [], ◌∷◌, Option, Some, None, length, map, All, if◌then◌else◌};
ghost use Rattle.std.specs.Str.Parse.{digits_value};
ghost use Rattle.httparse.specs.Spans.{IsHeaderWithin, header_bytes};
ghost use Rattle.http_edge.specs.Values.{values};
ghost use Rattle.http_edge.specs.Steps.Values.{with_value};
ghost use Rattle.http_edge.specs.Fields.{same_name, field_values, is_length, limited, content_length, body_length};
ghost use Rattle.http_edge.specs.Steps.Fields.{field_values_of};

use crate::limits::{BODY_LIMIT, LENGTH_DIGITS};
use crate::refusal::Refusal;
use httparse::spans::HeaderSpan;

/// The values of the fields of one name.
#[derive(Clone, Copy, Debug, PartialEq, Eq)]
enum FieldValues<'a> {
    Absent,
    Single(&'a [u8]),
    Several,
}

/// Whether two names are the same, whatever their ASCII case (RFC 9110, section 5.1).
fn is_same_name(a: &[u8], b: &[u8]) -> bool
    ensures { result ≡ same_name a.now b.now }
{
    a.eq_ignore_ascii_case(b)
}

fn with_value<'a>(found: FieldValues<'a>, value: &'a [u8]) -> FieldValues<'a>
    ensures { field_values_of result ≡ with_value (field_values_of found.entry) value.entry.now }
{
    match found {
        FieldValues::Absent => FieldValues::Single(value),
        _ => FieldValues::Several,
    }
}

/// The values of the fields of that name.
fn field_values<'a>(head: &'a [u8], headers: &[HeaderSpan], name: &[u8]) -> FieldValues<'a>
    requires { All (IsHeaderWithin (length head.now)) headers.now }
    ensures { field_values_of result ≡ values (field_values name.now (map (header_bytes head.now) headers.now)) }
{
    let mut found = FieldValues::Absent;
    for header in headers {
        if !is_same_name(header.name.of(head), name) {
            continue;
        }
        found = with_value(found, header.value.of(head));
    }
    found
}

/// The number that 1 to `LENGTH_DIGITS` decimal digits are. So it fits a `u64`.
fn read_length(text: &[u8]) -> Option<u64>
    ensures { result ≡ (if is_length text.now then Some (digits_value 10 text.now) else None) }
{
    if text.is_empty() || text.len() > LENGTH_DIGITS {
        return None;
    }
    let mut length = 0u64;
    for digit in text {
        if !digit.is_ascii_digit() {
            return None;
        }
        length = length * 10 + (*digit - b'0') as u64;
    }
    Some(length)
}

#[tactic(auto, using(crate::proofs::FieldLemmas::body_limit_is))]
fn limited(length: u64) -> Result<usize, Refusal>
    ensures { result ≡ limited length }
{
    if length > BODY_LIMIT as u64 {
        Err(Refusal::BodyTooLarge)
    } else {
        Ok(length as usize)
    }
}

/// The body's length by the values of `Content-Length`.
fn content_length(is_put: bool, found: FieldValues<'_>) -> Result<usize, Refusal>
    ensures { result ≡ content_length is_put (field_values_of found.entry) }
{
    match found {
        FieldValues::Absent => {
            if is_put {
                Err(Refusal::LengthRequired)
            } else {
                Ok(0)
            }
        }
        FieldValues::Single(text) => match read_length(text) {
            Some(length) => limited(length),
            None => Err(Refusal::BadHead),
        },
        FieldValues::Several => Err(Refusal::BadHead),
    }
}

/// The length of the body that follows a head with these fields (RFC 9112, section 6.3). A transfer
/// coding is refused, and so is a PUT without a length.
pub(crate) fn body_length(
    head: &[u8],
    headers: &[HeaderSpan],
    is_put: bool,
) -> Result<usize, Refusal>
    requires { All (IsHeaderWithin (length head.now)) headers.now }
    ensures { result ≡ body_length is_put (map (header_bytes head.now) headers.now) }
{
    match field_values(head, headers, b"transfer-encoding") {
        FieldValues::Absent => {
            content_length(is_put, field_values(head, headers, b"content-length"))
        }
        _ => Err(Refusal::TransferCoding),
    }
}
