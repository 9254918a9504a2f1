//! The text of replies: status line, fields and body (RFC 9112). What a body says is known to the
//! crate `machine`. `specs/Replies`.
ghost use Rattle.std.specs.Prelude.{◌≡◌, ◌+◌, ◌≤◌, ◌++◌, codes, length};
ghost use Rattle.arrayvec.specs.ArrayString.{array_string_len};
ghost use Rattle.streams.specs.Sending.{Sends};
ghost use Rattle.streams.specs.Streams.{CanCount};
ghost use Rattle.http_edge.specs.Replies.{phrase, allow_text, head_text, response_text, answer_text};
ghost use Rattle.http_edge.specs.Steps.Replies.{answer_value};

use crate::joined::Joined;
use crate::limits::REPLY_HEAD_LIMIT;
use crate::refusal::Refusal;
use crate::route::Route;
use arrayvec::ArrayString;
use http::{Method, StatusCode};
use itoa::Buffer;
use machine::Reply;
use streams::{Failed, Sink, push_all};

/// The answer to a request.
#[derive(Drop)]
pub(crate) enum Answer {
    Reply(Reply),
    Refused(Refusal),
}

/// The phrase of a status (RFC 9112, section 4: a reason phrase).
fn phrase(status: u16) -> &'static str
    ensures text { result.now ≡ phrase status }
    ensures short { length result.now ≤ 31 }
{
    match StatusCode::from_u16(status) {
        Ok(status) => status.canonical_reason().unwrap_or(""),
        Err(_) => "",
    }
}

/// The phrases of the statuses that replies have.
#[tactic(auto, unfolding(crate::specs::Replies::phrase))]
pub fn phrase_law()
    ensures ok { phrase 200 ≡ codes "OK" }
    ensures bad_request { phrase 400 ≡ codes "Bad Request" }
    ensures not_found { phrase 404 ≡ codes "Not Found" }
    ensures method_not_allowed { phrase 405 ≡ codes "Method Not Allowed" }
    ensures length_required { phrase 411 ≡ codes "Length Required" }
    ensures too_large { phrase 413 ≡ codes "Payload Too Large" }
    ensures unprocessable { phrase 422 ≡ codes "Unprocessable Entity" }
    ensures head_too_large { phrase 431 ≡ codes "Request Header Fields Too Large" }
    ensures not_implemented { phrase 501 ≡ codes "Not Implemented" }
    ensures unavailable { phrase 503 ≡ codes "Service Unavailable" }
{}

/// Adds a method to a head.
fn push_method(head: &mut ArrayString<REPLY_HEAD_LIMIT>, method: &Method)
    requires { array_string_len head.old + length method.now ≤ REPLY_HEAD_LIMIT }
    ensures text { head.new.bytes ≡ head.old.bytes ++ method.now }
    ensures len { array_string_len head.new ≡ array_string_len head.old + length method.now }
{
    head.push_str(method.as_str());
}

/// Adds the field `Allow` to a head where a method is allowed.
fn push_allow(head: &mut ArrayString<REPLY_HEAD_LIMIT>, allow: Option<Route>)
    requires { array_string_len head.old + 15 ≤ REPLY_HEAD_LIMIT }
    ensures text { head.new.bytes ≡ head.old.bytes ++ allow_text allow }
    ensures short { array_string_len head.new ≤ array_string_len head.old + 15 }
{
    if let Some(route) = allow {
        let method = route.method();
        head.push_str("Allow: ");
        push_method(head, &method);
        head.push_str("\r\n");
    }
}

/// The head of a response (RFC 9112, sections 4 and 5), to its empty line. It has at most 222
/// bytes, since a phrase has at most 31 and the digits of its numbers are at most 40.
fn head(status: u16, allow: Option<Route>, body_length: usize) -> ArrayString<REPLY_HEAD_LIMIT>
    ensures { result.bytes ≡ head_text status allow body_length }
{
    let mut digits = Buffer::new();
    let mut head = ArrayString::new();
    head.push_str("HTTP/1.1 ");
    head.push_str(digits.format(status));
    head.push_str(" ");
    head.push_str(phrase(status));
    head.push_str("\r\nConnection: close\r\nContent-Type: application/json\r\n");
    push_allow(&mut head, allow);
    head.push_str("Content-Length: ");
    head.push_str(digits.format(body_length));
    head.push_str("\r\n\r\n");
    head
}

/// Writes a response (RFC 9112, section 2.1): its head joined with the beginning of its body, and
/// then the rest of the body. The field `Allow` is there where a method is allowed.
fn push_response<W: Sink>(
    w: &mut W,
    joined: &mut Joined,
    status: u16,
    allow: Option<Route>,
    body: &str,
) -> Result<(), Failed>
    requires { CanCount (W.output w.old) }
    ensures { Sends (W.output w.old) (response_text status allow body.now) result (W.output w.new) }
{
    let head = head(status, allow, body.len());
    let count = joined.join(head.as_str().as_bytes(), body.as_bytes());
    match push_all(w, joined.bytes()) {
        Ok(()) => push_all(w, &body.as_bytes()[count..]),
        Err(e) => Err(e),
    }
}

impl Answer {
    /// Writes it: a reply of at most `FIRST_BYTES` by one write.
    pub(crate) fn write<W: Sink>(&self, w: &mut W, joined: &mut Joined) -> Result<(), Failed>
        requires { CanCount (W.output w.old) }
        ensures { Sends (W.output w.old) (answer_text (answer_value self.now)) result (W.output w.new) }
    {
        match self {
            Answer::Reply(reply) => push_response(w, joined, reply.status(), None, reply.body()),
            Answer::Refused(refusal) => {
                push_response(w, joined, refusal.status(), refusal.allow(), refusal.body())
            }
        }
    }
}
