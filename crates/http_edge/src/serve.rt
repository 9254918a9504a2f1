//! Serves a stream by any desk: one message after the other is read, answered and written. Reading
//! is in `reading.rt`, the text of answers in `reply.rt`. `specs/Serving`.
ghost use Rattle.std.specs.Prelude.{◌≡◌, ◌≢◌, ℕ, ◌≤◌, List, [], Err, length};
ghost use Rattle.machine.specs.State.{State};
ghost use Rattle.streams.specs.Sending.{CountsSending, Sends};
ghost use Rattle.streams.specs.Streams.{CanCount, IsCountable};
ghost use Rattle.http_edge.specs.Messages.{ends};
ghost use Rattle.http_edge.specs.Replies.{AnswerValue, answer_text};
ghost use Rattle.http_edge.specs.Steps.Replies.{answer_value};
ghost use Rattle.http_edge.specs.Requests.{MessageValue};
ghost use Rattle.http_edge.specs.Serving.{MayAnswer, answered, after_a_stop_of_answer, after_a_stop_of_answers, CountsRead, CountsWrite, Serves, session};
ghost use Rattle.http_edge.specs.Steps.Serving.{Knows, Responds, Says, known_of};
ghost use Rattle.http_edge.specs.declared.serve.ServeFault.TheVariants.{Memory};

use crate::joined::Joined;
use crate::reading::{Message, MessageReader};
use crate::reply::Answer;
use crate::request::Asked;
use machine::{Desk, Reply, Request};
use matchit::InsertError;
use std::alloc::{AllocError, Global};
use streams::{CANNOT_READ, CANNOT_WRITE, Failed, OUT_OF_MEMORY, Sink, Source};
use thiserror::Error;

/// Why serving stopped.
#[derive(Clone, Copy, Debug, PartialEq, Eq, Error)]
pub enum ServeFault {
    /// Memory was refused before anything was read or written.
    #[error("{}", OUT_OF_MEMORY)]
    Memory,
    /// The reader failed. The request that was being read has no reply and no effect.
    #[error("{}", CANNOT_READ)]
    Read,
    /// The writer failed, or took no byte. The request whose reply was cut has its effect.
    #[error("{}", CANNOT_WRITE)]
    Write,
}

impl From<AllocError> for ServeFault {
    ghost use Rattle.http_edge.specs.declared.serve.ServeFault.TheVariants.{Memory};

    ghost from_gives = { λ _ fault. fault ≡ Memory };

    fn from(_: AllocError) -> ServeFault {
        ServeFault::Memory
    }
}

impl From<InsertError> for ServeFault {
    ghost use Rattle.http_edge.specs.declared.serve.ServeFault.TheVariants.{Memory};

    ghost from_gives = { λ _ fault. fault ≡ Memory };

    fn from(_: InsertError) -> ServeFault {
        ServeFault::Memory
    }
}

/// Answers a message.
fn answer<D: Desk>(desk: &mut D, message: Message<'_>) -> Answer
    ensures reliable { D.is_reliable desk.new → D.is_reliable desk.old }
    ensures answer { D.is_reliable desk.new → (m : State) (asked : MessageValue) → D.stands desk.old m → Knows D.store_may_refuse m (known_of message.entry)
        → Says message.entry asked → MayAnswer D.store_may_refuse m asked (answer_value result) }
    ensures state { D.is_reliable desk.new → (m : State) (asked : MessageValue) → D.stands desk.old m → Knows D.store_may_refuse m (known_of message.entry)
        → Says message.entry asked → D.stands desk.new (answered m asked (answer_value result)) }
    ensures left { D.is_reliable desk.new → (m : State) (states : List State) (asked : MessageValue) → D.stands desk.old m → D.may_leave desk.old states
        → Knows D.store_may_refuse m (known_of message.entry) → Says message.entry asked
        → D.may_leave desk.new (after_a_stop_of_answer m states asked (answer_value result)) }
{
    match message {
        Message::Asked(Asked::Upload(upload)) => Answer::Reply(desk.finish_upload(upload)),
        Message::Asked(Asked::Request(Request::Command(command))) => {
            Answer::Reply(desk.apply(&command))
        }
        Message::Asked(Asked::Request(Request::Query(query))) => Answer::Reply(desk.ask(&query)),
        Message::Asked(Asked::Refused(refusal)) => Answer::Refused(refusal),
        Message::Known(upload, reply) => {
            drop(upload);
            Answer::Reply(reply)
        }
        Message::OutOfMemory => Answer::Reply(Reply::out_of_memory()),
    }
}

/// Answers a message, and writes the reply.
fn respond<D: Desk, W: Sink>(
    desk: &mut D,
    w: &mut W,
    joined: &mut Joined,
    message: Message<'_>,
) -> Result<(), Failed>
    requires count { CanCount (W.output w.old) }
    ensures sent { (answer : AnswerValue) × Responds D.store_may_refuse (D.stands desk.old) (D.stands desk.new) (D.may_leave desk.old) (D.may_leave desk.new)
        (D.is_reliable desk.old) (D.is_reliable desk.new) message.entry answer × Sends (W.output w.old) (answer_text answer) result (W.output w.new) }
    ensures counted { CountsSending (W.output w.old) result (W.output w.new) }
{
    let answer = answer(desk, message);
    answer.write(w, joined)
}

/// Whether nothing after the message is served.
fn ends(message: &Message<'_>) -> bool
    ensures { (asked : MessageValue) → Says message.now asked → result ≡ ends asked }
{
    match message {
        Message::Asked(Asked::Refused(refusal)) => refusal.ends_stream(),
        _ => false,
    }
}

/// Serves at most so many requests, and says how many replies were written.
fn serve<D: Desk, R: Source, W: Sink>(
    reader: &mut MessageReader,
    joined: &mut Joined,
    desk: &mut D,
    r: &mut R,
    w: &mut W,
    limit: u32,
) -> Result<u32, ServeFault>
    requires reads { IsCountable (R.failed r.old) }
    requires writes { CanCount (W.output w.old) }
    requires empty { reader.old ≡ [] }
    ensures reliable { D.is_reliable desk.new → D.is_reliable desk.old }
    ensures served { (messages : List MessageValue) × (answers : List AnswerValue) × (D.is_reliable desk.new → (m : State) → D.stands desk.old m → (n : State)
        × Serves D.store_may_refuse limit (session (R.left r.old) (R.left r.new) (W.output w.old) (W.output w.new) messages answers) m n result
        × D.stands desk.new n
        × ((states : List State) → D.may_leave desk.old states → D.may_leave desk.new (after_a_stop_of_answers m states messages answers))) }
    ensures read { CountsRead (R.failed r.old) (R.failed r.new) result }
    ensures write { CountsWrite (W.output w.old) result (W.output w.new) }
    ensures made { result ≢ Err Memory }
{
    let mut count = 0;
    'serving: while count < limit {
        let message = match reader.next(desk, r) {
            Ok(Some(message)) => message,
            Ok(None) => return Ok(count),
            Err(_) => return Err(ServeFault::Read),
        };
        let is_last = ends(&message);
        match respond(desk, w, joined, message) {
            Ok(()) => {}
            Err(_) => return Err(ServeFault::Write),
        }
        count += 1;
        if is_last {
            return Ok(count);
        }
    }
    Ok(count)
}

/// Serves the requests of a stream (HTTP/1.1, RFC 9112), one after the other and at most `limit` of
/// them, and says how many replies were written. Stops at the end of the input, at the limit, and
/// at a refusal that ends the stream.
///
/// How long a head and a body may be, and which replies go out by one write, is in `limits.rt`. A
/// body is never held whole: an upload takes it in pieces, and nothing has an effect before all of
/// it came. The buffers and the router are made first: where memory for them is refused, nothing
/// was read or written. What is buffered is served before more is read.
pub fn serve_stream<D: Desk, R: Source, W: Sink>(
    alloc: Global,
    desk: &mut D,
    r: &mut R,
    w: &mut W,
    limit: u32,
) -> Result<u32, ServeFault>
    requires reads { IsCountable (R.failed r.old) }
    requires writes { CanCount (W.output w.old) }
    ensures reliable { D.is_reliable desk.new → D.is_reliable desk.old }
    ensures served { (messages : List MessageValue) × (answers : List AnswerValue) × (D.is_reliable desk.new → (m : State) → D.stands desk.old m → (n : State)
        × Serves D.store_may_refuse limit (session (R.left r.old) (R.left r.new) (W.output w.old) (W.output w.new) messages answers) m n result
        × D.stands desk.new n
        × ((states : List State) → D.may_leave desk.old states → D.may_leave desk.new (after_a_stop_of_answers m states messages answers))) }
    ensures memory { result ≡ Err Memory → (desk.new ≡ desk.old) × (r.new ≡ r.old) × (w.new ≡ w.old) }
    ensures read { CountsRead (R.failed r.old) (R.failed r.new) result }
    ensures write { CountsWrite (W.output w.old) result (W.output w.new) }
{
    let mut reader = MessageReader::new(alloc)?;
    let mut joined = Joined::new(alloc)?;
    serve(&mut reader, &mut joined, desk, r, w, limit)
}
