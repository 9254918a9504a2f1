//! The head of a request: where it ends, and what it says. A head that hasn't ended is scanned
//! again once more bytes have come; it has at most `HEAD_LIMIT` of them.
ghost use Rattle.std.specs.Prelude.{◌≡◌, ℕ, ◌+◌, ◌<◌, ◌≤◌, List, [], drop, take, Option, Some, None, IfSome, IfNone, MatchOption, length, option_map, codes};
ghost use Rattle.http_edge.specs.Heads.{same, is_end, find_head, IsSaidBy, Says, SettlesHead, IsHeadUnended, lines_in};
ghost use Rattle.http_edge.specs.Steps.Heads.{head_value, FitsIn};

use crate::fields::body_length;
use crate::limits::{FIELD_LIMIT, HEAD_LIMIT, LINE_LIMIT};
use crate::refusal::Refusal;
use http::Method;
use httparse::Status;
use httparse::spans::{EMPTY_HEADER_SPAN, Span, parse_request};

/// Where the parts of a request line are that say what it asks.
#[derive(Clone, Copy, Debug, PartialEq, Eq)]
pub(crate) struct RequestLine {
    pub method: Span,
    pub target: Span,
}

/// What a head says.
#[derive(Clone, Copy, Debug, PartialEq, Eq)]
pub(crate) enum Head {
    Refused(Refusal),
    /// What is asked, and the length of the body in bytes.
    Request(RequestLine, usize),
}

fn is_end(bytes: &[u8]) -> bool
    ensures { result ≡ is_end bytes.now }
{
    match bytes {
        [a, b, c, d, ..] => *a == b'\r' && *b == b'\n' && *c == b'\r' && *d == b'\n',
        _ => false,
    }
}

/// The length of the head at the front, with the empty line that ends it.
fn find_head(bytes: &[u8]) -> Option<usize>
    ensures { result ≡ find_head bytes.now }
{
    for i in 0..bytes.len() {
        if is_end(&bytes[i..]) {
            return Some(i + 4);
        }
    }
    None
}

fn is_put(method: &[u8]) -> bool
    ensures { result ≡ same method.now (codes "PUT") }
{
    method == Method::PUT.as_str().as_bytes()
}

/// What a head of few enough lines says.
fn read_head(head: &[u8]) -> Head
    ensures reads { IsSaidBy head.now (head_value head.now result) }
    ensures fits { FitsIn (length head.now) result }
{
    let mut headers = [EMPTY_HEADER_SPAN; FIELD_LIMIT];
    match parse_request(head, &mut headers) {
        Ok(Status::Complete(spans)) => {
            if spans.len != head.len() {
                return Head::Refused(Refusal::BadHead);
            }
            let line = RequestLine {
                method: spans.method,
                target: spans.path,
            };
            let is_put = is_put(line.method.of(head));
            match body_length(head, &headers[..spans.headers], is_put) {
                Ok(len) => Head::Request(line, len),
                Err(refusal) => Head::Refused(refusal),
            }
        }
        _ => Head::Refused(Refusal::BadHead),
    }
}

fn lines_in(head: &[u8]) -> usize
    ensures { result ≡ lines_in head.now }
{
    head.iter().filter(|b| **b == b'\n').count()
}

/// What a head says.
fn judge(head: &[u8]) -> Head
    ensures says { Says head.now (head_value head.now result) }
    ensures fits { FitsIn (length head.now) result }
{
    if lines_in(head) > LINE_LIMIT {
        return Head::Refused(Refusal::HeadTooLarge);
    }
    read_head(head)
}

/// What the bytes settle of the first head, and how many of them it takes. None where it hasn't
/// ended.
pub(crate) fn first_head(bytes: &[u8]) -> Option<(Head, usize)>
    ensures settles { MatchOption result (IsHeadUnended bytes.now) (λ found. (found.1 ≤ length bytes.now)
        × SettlesHead bytes.now (head_value bytes.now found.0) (drop found.1 bytes.now)) }
    ensures fits { IfSome result (λ found. FitsIn (length bytes.now) found.0) }
{
    let front = &bytes[..bytes.len().min(HEAD_LIMIT)];
    match find_head(front) {
        Some(len) => Some((judge(&bytes[..len]), len)),
        None => {
            if bytes.len() < HEAD_LIMIT {
                None
            } else {
                Some((Head::Refused(Refusal::HeadTooLarge), 0))
            }
        }
    }
}
