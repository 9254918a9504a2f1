//! Reads the messages of a stream: a head, and then the body in pieces of at most `HEAD_LIMIT`
//! bytes. An upload takes each piece as it comes, so that no body is held whole. Where the desk
//! knows the reply already, since the upload's key is kept, the body is read and dropped.
//! `specs/Messages` says which messages a stream has.
ghost use Rattle.std.specs.Prelude.{◌≡◌, ◌≢◌, ℕ, ◌+◌, ◌<◌, ◌≤◌, List, [], ◌++◌, drop, take, Option, Some, None, IfOk, IfSome, length};
ghost use Rattle.httparse.specs.Spans.{span_bytes, IsWithin};
ghost use Rattle.streams.specs.Streams.{AtEnd, CountsFailure, IsCountable, Moves, Pulls};
ghost use Rattle.machine.specs.State.{State};
ghost use Rattle.http_edge.specs.Steps.Heads.{FitsIn};
ghost use Rattle.http_edge.specs.Limits.{head_limit};
ghost use Rattle.http_edge.specs.Steps.Requests.{Asks};
ghost use Rattle.http_edge.specs.Steps.Routes.{routes};
ghost use Rattle.http_edge.specs.Steps.Serving.{Knows, MessageAfter, NextHead, NextMessage, ReadsBody, Refills, Stays, TakesBody, TakesPiece, known_of};

use crate::head::{Head, RequestLine, first_head};
use crate::limits::HEAD_LIMIT;
use crate::refusal::Refusal;
use crate::request::{Asked, read_request};
use crate::route::{Route, router};
use machine::{Desk, Reply, Upload};
use matchit::{InsertError, Router};
use std::alloc::{AllocError, Global};
use std::marker::Model;
use streams::{Buffer, Failed, Source};

/// What was read of a message.
#[derive(Drop)]
pub(crate) enum Message<'b> {
    /// What it asks. An upload takes its body as it comes.
    Asked(Asked<'b>),
    /// An upload and its reply, which the desk knows before the body has come.
    Known(Upload, Reply),
    /// Memory was refused before it was known what is asked.
    OutOfMemory,
}

/// What the next head says, and how many of the buffered bytes it takes. None at the end of the
/// input.
fn next_head<R: Source>(r: &mut R, buffer: &mut Buffer) -> Result<Option<(Head, usize)>, Failed>
    requires count { IsCountable (R.failed r.old) }
    requires room { head_limit ≤ buffer.old.capacity }
    ensures head { NextHead buffer.old.pending (R.left r.old) buffer.new.pending (R.left r.new) result }
    ensures fits { IfOk result (λ o. IfSome o (λ found. FitsIn (length buffer.new.pending) found.0)) }
    ensures counted { CountsFailure (R.failed r.old) (R.failed r.new) result }
    ensures capacity { buffer.new.capacity ≡ buffer.old.capacity }
{
    'reading: loop {
        let pending = buffer.pending();
        let len = pending.len();
        if let Some(found) = first_head(pending) {
            return Ok(Some(found));
        }
        match buffer.fill(r) {
            Ok(0) => {
                if len == 0 {
                    return Ok(None);
                }
                return Ok(Some((Head::Refused(Refusal::BadHead), len)));
            }
            Ok(_) => {}
            Err(e) => return Err(e),
        }
    }
}

/// The message of a head that asks this, before its body. A desk that has the upload's key kept
/// knows the reply.
fn begin<'b, D: Desk>(desk: &mut D, asked: Result<Asked<'b>, AllocError>) -> Message<'b>
    ensures stays { Stays (D.stands desk.old) (D.stands desk.new) (D.may_leave desk.old) (D.may_leave desk.new) (D.is_reliable desk.old) (D.is_reliable desk.new) }
    ensures known { D.is_reliable desk.new → (m : State) → D.stands desk.old m → Knows D.store_may_refuse m (known_of result) }
    ensures asked { (method target : List ℕ) → IfOk asked.entry (λ a. Asks a method target) → MessageAfter result method target [] }
{
    match asked {
        Ok(Asked::Upload(upload)) => match desk.kept_reply(&upload.project, &upload.key) {
            Some(reply) => Message::Known(upload, reply),
            None => Message::Asked(Asked::Upload(upload)),
        },
        Ok(asked) => Message::Asked(asked),
        Err(_) => Message::OutOfMemory,
    }
}

/// Passes the next bytes of a body to the upload that takes them. Without one they're dropped, and
/// also where memory was refused for it.
fn pass_on(message: &mut Message<'_>, piece: &[u8])
    ensures asked { (method target body : List ℕ) → MessageAfter message.old method target body → MessageAfter message.new method target (body ++ piece.now) }
    ensures known { known_of message.new ≡ known_of message.old }
{
    if let Message::Asked(Asked::Upload(upload)) = message {
        let _ = upload.piece(piece);
    }
}

/// Passes on what is buffered of a body, at most so many bytes, and says how many they were.
fn take_piece(buffer: &mut Buffer, message: &mut Message<'_>, most: usize) -> usize
    ensures within { result ≤ most }
    ensures some { result ≡ 0 → most ≢ 0 → buffer.old.pending ≡ [] }
    ensures fits { result ≤ length buffer.old.pending }
    ensures pending { buffer.new.pending ≡ drop result buffer.old.pending }
    ensures asked { (method target body : List ℕ) → MessageAfter message.old method target body
        → MessageAfter message.new method target (body ++ take result buffer.old.pending) }
    ensures known { known_of message.new ≡ known_of message.old }
    ensures capacity { buffer.new.capacity ≡ buffer.old.capacity }
{
    let pending = buffer.pending();
    let count = pending.len().min(most);
    pass_on(message, &pending[..count]);
    buffer.advance(count);
    count
}

/// Reads bytes where none are buffered.
fn refill<R: Source>(r: &mut R, buffer: &mut Buffer) -> Result<(), Failed>
    requires count { IsCountable (R.failed r.old) }
    requires room { 0 < buffer.old.capacity }
    ensures read { Refills buffer.old.pending (R.left r.old) buffer.new.pending (R.left r.new) result }
    ensures counted { CountsFailure (R.failed r.old) (R.failed r.new) result }
    ensures capacity { buffer.new.capacity ≡ buffer.old.capacity }
{
    if !buffer.pending().is_empty() {
        return Ok(());
    }
    match buffer.fill(r) {
        Ok(_) => Ok(()),
        Err(e) => Err(e),
    }
}

/// Passes on at most so many bytes of a body, which are read where none are buffered, and says how
/// many they were: none only at the end of the input.
fn next_piece<R: Source>(
    r: &mut R,
    buffer: &mut Buffer,
    message: &mut Message<'_>,
    most: usize,
) -> Result<usize, Failed>
    requires count { IsCountable (R.failed r.old) }
    requires room { 0 < buffer.old.capacity }
    requires most { 0 < most }
    ensures piece { TakesPiece most buffer.old.pending (R.left r.old) message.old buffer.new.pending (R.left r.new) message.new result }
    ensures counted { CountsFailure (R.failed r.old) (R.failed r.new) result }
    ensures capacity { buffer.new.capacity ≡ buffer.old.capacity }
{
    match refill(r, buffer) {
        Ok(()) => Ok(take_piece(buffer, message, most)),
        Err(e) => Err(e),
    }
}

/// Reads a body of so many bytes and passes it on, piece by piece. Says whether so many came before
/// the input ended.
fn read_body<R: Source>(
    r: &mut R,
    buffer: &mut Buffer,
    message: &mut Message<'_>,
    len: usize,
) -> Result<bool, Failed>
    requires count { IsCountable (R.failed r.old) }
    requires room { 0 < buffer.old.capacity }
    ensures body { ReadsBody len buffer.old.pending (R.left r.old) message.old buffer.new.pending (R.left r.new) message.new result }
    ensures counted { CountsFailure (R.failed r.old) (R.failed r.new) result }
    ensures capacity { buffer.new.capacity ≡ buffer.old.capacity }
{
    let mut rest = len;
    'reading: while rest > 0 {
        match next_piece(r, buffer, message, rest) {
            Ok(0) => return Ok(false),
            Ok(count) => rest -= count,
            Err(e) => return Err(e),
        }
    }
    Ok(true)
}

/// Reads messages. Bytes that were read and not yet used stay here.
#[derive(Drop)]
pub(crate) struct MessageReader {
    alloc: Global,
    router: Router<Route>,
    buffer: Buffer,
}

impl Model for MessageReader {
    ghost use Rattle.std.specs.Prelude.{◌≡◌, ◌≤◌, ℕ, List};
    ghost use Rattle.http_edge.specs.Limits.{head_limit};
    ghost use Rattle.http_edge.specs.Steps.Routes.{routes};

    ghost Value = { List ℕ };

    ghost view = { λ reader. reader.buffer.pending };

    ghost invariant = { λ reader. (reader.router ≡ routes) × (head_limit ≤ reader.buffer.capacity) };
}

impl MessageReader {
    ghost use Rattle.std.specs.Prelude.{[]};

    /// A reader of a stream's messages, from its first byte on. The buffer and the router are made
    /// here.
    pub(crate) fn new(alloc: Global) -> Result<MessageReader, InsertError>
        ensures { IfOk result (λ reader. reader ≡ []) }
    {
        let router = router(alloc)?;
        let buffer = Buffer::new(alloc, HEAD_LIMIT)?;
        Ok(MessageReader {
            alloc,
            router,
            buffer,
        })
    }

    /// The message of a head that is the first buffered bytes, whose body follows.
    fn with_body<'b, D: Desk, R: Source>(
        &mut self,
        desk: &mut D,
        r: &mut R,
        line: RequestLine,
        len: usize,
        taken: usize,
    ) -> Result<Message<'b>, Failed>
        requires count { IsCountable (R.failed r.old) }
        requires line { IsWithin (length self.old) line.method × IsWithin (length self.old) line.target }
        requires taken { taken ≤ length self.old }
        ensures stays { Stays (D.stands desk.old) (D.stands desk.new) (D.may_leave desk.old) (D.may_leave desk.new) (D.is_reliable desk.old) (D.is_reliable desk.new) }
        ensures known { D.is_reliable desk.new → (m : State) → D.stands desk.old m → IfOk result (λ message. Knows D.store_may_refuse m (known_of message)) }
        ensures message { TakesBody len (span_bytes self.old line.method) (span_bytes self.old line.target) (drop taken self.old) (R.left r.old) self.new
            (R.left r.new) result }
        ensures counted { CountsFailure (R.failed r.old) (R.failed r.new) result }
    {
        let held = self.buffer.pending();
        let method = line.method.of(held);
        let target = line.target.of(held);
        let asked = read_request(self.alloc, &self.router, method, target);
        let mut message = begin(desk, asked);
        self.buffer.advance(taken);
        match read_body(r, &mut self.buffer, &mut message, len) {
            Ok(true) => Ok(message),
            Ok(false) => {
                drop(message);
                Ok(Message::Asked(Asked::Refused(Refusal::BodyCut)))
            }
            Err(e) => {
                drop(message);
                Err(e)
            }
        }
    }

    /// The next message: of the buffered bytes, and then of those that are read. None at the end of
    /// the input. The desk is asked for kept replies alone.
    pub(crate) fn next<'b, D: Desk, R: Source>(
        &mut self,
        desk: &mut D,
        r: &mut R,
    ) -> Result<Option<Message<'b>>, Failed>
        requires count { IsCountable (R.failed r.old) }
        ensures stays { Stays (D.stands desk.old) (D.stands desk.new) (D.may_leave desk.old) (D.may_leave desk.new) (D.is_reliable desk.old) (D.is_reliable desk.new) }
        ensures known { D.is_reliable desk.new → (m : State) → D.stands desk.old m
            → IfOk result (λ o. IfSome o (λ message. Knows D.store_may_refuse m (known_of message))) }
        ensures message { NextMessage self.old (R.left r.old) self.new (R.left r.new) result }
        ensures counted { CountsFailure (R.failed r.old) (R.failed r.new) result }
    {
        match next_head(r, &mut self.buffer) {
            Ok(None) => Ok(None),
            Ok(Some((Head::Refused(refusal), taken))) => {
                self.buffer.advance(taken);
                Ok(Some(Message::Asked(Asked::Refused(refusal))))
            }
            Ok(Some((Head::Request(line, len), taken))) => {
                match self.with_body(desk, r, line, len, taken) {
                    Ok(message) => Ok(Some(message)),
                    Err(e) => Err(e),
                }
            }
            Err(e) => Err(e),
        }
    }
}
