//! `codenav replay`: the replies to the requests of a stream, over a database in memory or in a
//! file. `specs/Replay`.
ghost use Rattle.std.specs.Prelude.{◌≡◌, false, true, List, Err, IfOk, IfErr};
ghost use Rattle.sqlite_wal.specs.Files.{image_at};
ghost use Rattle.sqlite.specs.Files.{file_state};
ghost use Rattle.sqlite.specs.Held.{state};
ghost use Rattle.sqlite.specs.State.{HasCleanDisk};
ghost use Rattle.tables.specs.Stands.{Finds};
ghost use Rattle.machine.specs.State.{State};
ghost use Rattle.streams.specs.Streams.{CanCount, IsCountable};
ghost use Rattle.http_edge.specs.Replies.{AnswerValue};
ghost use Rattle.http_edge.specs.Requests.{MessageValue};
ghost use Rattle.http_edge.specs.Serving.{CountsRead, CountsWrite, Serves, session, after_a_stop_of_answers};
ghost use Rattle.http_edge.specs.declared.serve.ServeFault.TheVariants.{Memory};
ghost use Rattle.calls.specs.Databases.{HoldsIndex};
ghost use Rattle.calls.specs.Replay.{Replays, ReplaysFrom, most_requests};

use crate::database::{connect_file, connection_of, open_desk};
use crate::limits::STREAM_REQUESTS;
use desk::{Desk, IndexDesk, TableDesk, memory_law};
use http_edge::{ServeFault, serve_stream};
use sqlite::{Alter, Connection, FileFrom, FileStore, Start};
use std::alloc::Global;
use streams::{Sink, Source};
use tables::{Tables, TablesFault};

/// Answers the requests (HTTP/1.1, RFC 9112) of a stream, one after the other and at most 1,000,000
/// of them, by this desk, from the state that it represents, and returns how many replies were
/// written. Fails where memory for its buffers was refused, and then nothing was read or written
/// and the desk is as before; where the reader failed; and where the writer failed or took no byte.
pub fn replay<S: Alter, R: Source, W: Sink>(
    alloc: Global,
    desk: &mut TableDesk<S>,
    r: &mut R,
    w: &mut W,
) -> Result<u32, ServeFault>
    requires reads { IsCountable (R.failed r.old) }
    requires writes { CanCount (W.output w.old) }
    ensures reliable { ⟦<IndexDesk<Tables<S>> as Desk>⟧.is_reliable desk.new → ⟦<IndexDesk<Tables<S>> as Desk>⟧.is_reliable desk.old }
    ensures replays { (messages : List MessageValue) × (answers : List AnswerValue) × (⟦<IndexDesk<Tables<S>> as Desk>⟧.is_reliable desk.new → (m : State)
        → ⟦<IndexDesk<Tables<S>> as Desk>⟧.stands desk.old m → (n : State)
        × Serves true most_requests (session (R.left r.old) (R.left r.new) (W.output w.old) (W.output w.new) messages answers) m n result
        × ⟦<IndexDesk<Tables<S>> as Desk>⟧.stands desk.new n
        × ((states : List State) → ⟦<IndexDesk<Tables<S>> as Desk>⟧.may_leave desk.old states
        → ⟦<IndexDesk<Tables<S>> as Desk>⟧.may_leave desk.new (after_a_stop_of_answers m states messages answers))) }
    ensures memory { result ≡ Err Memory → (desk.new ≡ desk.old) × (r.new ≡ r.old) × (w.new ≡ w.old) }
    ensures read { CountsRead (R.failed r.old) (R.failed r.new) result }
    ensures write { CountsWrite (W.output w.old) result (W.output w.new) }
{
    serve_stream(alloc, desk, r, w, STREAM_REQUESTS)
}

/// The same over a database in memory that is empty at first. Where memory for that was refused,
/// nothing was read or written either.
pub fn replay_in_memory<R: Source, W: Sink>(
    alloc: Global,
    r: &mut R,
    w: &mut W,
) -> Result<u32, ServeFault>
    requires reads { IsCountable (R.failed r.old) }
    requires writes { CanCount (W.output w.old) }
    ensures replays { Replays (R.left r.old) (R.left r.new) (W.output w.old) (W.output w.new) result }
    ensures memory { result ≡ Err Memory → (r.new ≡ r.old) × (w.new ≡ w.old) }
    ensures read { CountsRead (R.failed r.old) (R.failed r.new) result }
    ensures write { CountsWrite (W.output w.old) result (W.output w.new) }
{
    let Ok(mut desk) = TableDesk::open_in_memory(alloc) else {
        return Err(ServeFault::Memory);
    };
    let answer = replay(alloc, &mut desk, r, w);
    memory_law(&desk);
    answer
}

/// What a replay over a database gives back: its answer, as `replay` has it, and the connection.
pub type DatabaseReplay<S> = (Result<u32, ServeFault>, Connection<S>);

/// The same over the tables of a database. Where its connection shows tables that represent a state
/// of the index, the replies are given from that state, and the connection then shows tables that
/// represent the state after them; and a crash leaves of them what it leaves of such an index.
/// Refuses where the database isn't one of this product, and then nothing was read or written.
fn replay_database<S: Alter + Drop, R: Source, W: Sink>(
    alloc: Global,
    conn: Connection<S>,
    r: &mut R,
    w: &mut W,
) -> Result<DatabaseReplay<S>, TablesFault>
    requires mode { conn.in_transaction ≡ false }
    requires reads { IsCountable (R.failed r.old) }
    requires writes { CanCount (W.output w.old) }
    ensures clean { IfOk result (λ o. HasCleanDisk (state S.Store o.1) → HasCleanDisk (state S.Store conn)) }
    ensures replays { IfOk result (λ o. HasCleanDisk (state S.Store o.1) → (m : State) → Finds (state S.Store conn) m
        → ReplaysFrom m (state S.Store o.1) (R.left r.old) (R.left r.new) (W.output w.old) (W.output w.new) o.0) }
    ensures unread { IfErr result (λ _. (r.new ≡ r.old) × (w.new ≡ w.old)) }
    ensures read { IfOk result (λ o. CountsRead (R.failed r.old) (R.failed r.new) o.0) }
    ensures write { IfOk result (λ o. CountsWrite (W.output w.old) o.0 (W.output w.new)) }
{
    let mut desk = open_desk(alloc, conn)?;
    let answer = replay(alloc, &mut desk, r, w);
    Ok((answer, connection_of(desk)))
}

/// What a replay over a database in a file gives back: its answer, and the connection, which has
/// the file still.
pub type FileReplay<S> = DatabaseReplay<FileStore<FileFrom<S>>>;

/// The same over the database in this file, which is made where there is none. Where the file and
/// its log hold tables that represent a state of the index, as `S` says what they hold, the replies
/// are given from that state. Refuses where the file can't be opened as a database of this product,
/// and then nothing was read or written.
pub fn replay_file<S: Start, R: Source, W: Sink>(
    rt: &HostRuntime,
    path: &str,
    start: S,
    r: &mut R,
    w: &mut W,
) -> Result<FileReplay<S>, TablesFault>
    requires reads { IsCountable (R.failed r.old) }
    requires writes { CanCount (W.output w.old) }
    ensures replays { IfOk result (λ o. HasCleanDisk (file_state o.1) → (m : State) → HoldsIndex (image_at S.Start) m
        → ReplaysFrom m (file_state o.1) (R.left r.old) (R.left r.new) (W.output w.old) (W.output w.new) o.0) }
    ensures unread { IfErr result (λ _. (r.new ≡ r.old) × (w.new ≡ w.old)) }
    ensures read { IfOk result (λ o. CountsRead (R.failed r.old) (R.failed r.new) o.0) }
    ensures write { IfOk result (λ o. CountsWrite (W.output w.old) o.0 (W.output w.new)) }
{
    let conn = connect_file(rt, path, start)?;
    replay_database(rt.alloc(), conn, r, w)
}
