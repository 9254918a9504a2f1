//! `codenav serve`: the replies to the requests of connections, one request each, one connection
//! after the other. A stream is served in the crate `http_edge`. `specs/Serve`.
ghost use Rattle.std.specs.Prelude.{◌≡◌, ◌+◌, ◌^◌, ◌<◌, true, List, IfErr, length};
ghost use Rattle.machine.specs.State.{State};
ghost use Rattle.streams.specs.Streams.{IsCountable};
ghost use Rattle.http_edge.specs.Serving.{after_a_stop_of_answers};
ghost use Rattle.calls.specs.Serve.{ConnectionValue, CountsAccept, CountsServed, ServesConnection, ServesEach};

use crate::limits::CONNECTION_REQUESTS;
use crate::timed::{Limits, Timed};
use desk::{Desk, IndexDesk, MemoryDesk, memory_law};
use http_edge::{ServeFault, serve_stream};
use sqlite::FileStore;
use std::alloc::{AllocError, Global};
use std::io::{Read, Write};
use std::net::{OpenListener, OpenStream};
use std::time::{Clock, Instant};
use streams::{Counted, OUT_OF_MEMORY};
use tables::{MemoryDisk, Tables};
use thiserror::Error;

/// Why no more connections are served.
#[derive(Clone, Copy, Debug, PartialEq, Eq, Error)]
pub enum ServerFault {
    /// No connection could be accepted.
    #[error("cannot accept")]
    Accept,
    /// Memory was refused before anything of a connection was read or written.
    #[error("{}", OUT_OF_MEMORY)]
    Memory,
}

/// A listener with a count of the connections that it accepted.
#[derive(Drop)]
pub struct CountedListener<'a, L> {
    listener: &'a L,
    accepted: u64,
}

impl<'a, L: OpenListener> CountedListener<'a, L> {
    /// The listener, with no connection accepted so far.
    pub fn new(listener: &'a L) -> CountedListener<'a, L>
        ensures { result.accepted ≡ 0 }
    {
        CountedListener {
            listener,
            accepted: 0,
        }
    }

    /// The next connection, or none where it can't be accepted.
    fn accept(&mut self) -> Option<L::Stream>
        requires { IsCountable self.old.accepted }
        ensures { CountsAccept self.old.accepted result self.new.accepted }
    {
        match self.listener.accept() {
            Ok((stream, _)) => {
                self.accepted += 1;
                Some(stream)
            }
            Err(_) => None,
        }
    }
}

/// Both ends of a connection that was just accepted. None where one isn't given or the time can't
/// be read.
fn ends<'a, S: OpenStream + Drop, C: Clock>(
    stream: S,
    clock: &'a C,
    limits: Limits,
) -> Option<(Timed<'a, S, C>, Timed<'a, S, C>)> {
    let start = Instant::now(clock).ok()?;
    let other = stream.try_clone().ok()?;
    let reader = Timed::new(other, clock, start, limits);
    Some((reader, Timed::new(stream, clock, start, limits)))
}

/// Serves the one request of a connection by its ends, and then ends it.
fn serve_ends<D: Desk, S: OpenStream + Read + Write + Drop, C: Clock>(
    alloc: Global,
    desk: &mut D,
    reader: Timed<'_, S, C>,
    writer: Timed<'_, S, C>,
) -> Result<(), AllocError>
    ensures reliable { D.is_reliable desk.new → D.is_reliable desk.old }
    ensures served { (c : ConnectionValue)
        × (D.is_reliable desk.new → (m : State) → D.stands desk.old m → (n : State) × ServesConnection D.store_may_refuse m c n
        × D.stands desk.new n
        × ((states : List State) → D.may_leave desk.old states → D.may_leave desk.new (after_a_stop_of_answers m states c.messages c.answers))) }
    ensures memory { IfErr result (λ _. desk.new ≡ desk.old) }
{
    let mut r = Counted::new(reader);
    let mut w = Counted::new(writer);
    match serve_stream(alloc, desk, &mut r, &mut w, CONNECTION_REQUESTS) {
        Ok(_) => {
            r.into_inner().finish();
            Ok(())
        }
        Err(ServeFault::Memory) => Err(AllocError),
        Err(ServeFault::Read | ServeFault::Write) => Ok(()),
    }
}

/// Serves a connection that was accepted: its one request, within the limits. It counts as served
/// also where a read or a write of it fails, or its time is over. Refuses where memory was refused
/// before anything was read or written; then the desk is as before.
pub fn serve_connection<D: Desk, S: OpenStream + Read + Write + Drop, C: Clock>(
    alloc: Global,
    desk: &mut D,
    clock: &C,
    limits: Limits,
    stream: S,
) -> Result<(), AllocError>
    ensures reliable { D.is_reliable desk.new → D.is_reliable desk.old }
    ensures served { (c : ConnectionValue)
        × (D.is_reliable desk.new → (m : State) → D.stands desk.old m → (n : State) × ServesConnection D.store_may_refuse m c n
        × D.stands desk.new n
        × ((states : List State) → D.may_leave desk.old states → D.may_leave desk.new (after_a_stop_of_answers m states c.messages c.answers))) }
    ensures memory { IfErr result (λ _. desk.new ≡ desk.old) }
{
    match ends(stream, clock, limits) {
        Some((reader, writer)) => serve_ends(alloc, desk, reader, writer),
        None => Ok(()),
    }
}

/// Serves so many connections, one after the other. Stops where none can be accepted, and where
/// memory was refused before anything of one was read or written.
pub fn serve_connections<D: Desk, L: OpenListener, C: Clock>(
    alloc: Global,
    desk: &mut D,
    clock: &C,
    limits: Limits,
    listener: &mut CountedListener<'_, L>,
    requests: u32,
) -> Result<(), ServerFault>
where
    L::Stream: OpenStream + Read + Write,
    requires { listener.old.accepted + requests < 2 ^ 64 }
    ensures { (connections : List ConnectionValue) × CountsServed requests (length connections) listener.old.accepted result listener.new.accepted
        × (D.is_reliable desk.new → (m : State) (states : List State) → D.stands desk.old m → D.may_leave desk.old states → (n : State) × (left : List State)
        × ServesEach D.store_may_refuse m states connections n left × D.stands desk.new n × D.may_leave desk.new left) }
{
    let mut count = 0;
    'serving: while count < requests {
        let stream = match listener.accept() {
            Some(stream) => stream,
            None => return Err(ServerFault::Accept),
        };
        match serve_connection(alloc, desk, clock, limits, stream) {
            Ok(()) => {}
            Err(_) => return Err(ServerFault::Memory),
        }
        count += 1;
    }
    Ok(())
}

/// The same over a database in memory.
pub fn serve_in_memory<L: OpenListener, C: Clock>(
    alloc: Global,
    desk: &mut MemoryDesk,
    clock: &C,
    limits: Limits,
    listener: &mut CountedListener<'_, L>,
    requests: u32,
) -> Result<(), ServerFault>
where
    L::Stream: OpenStream + Read + Write,
    requires { listener.old.accepted + requests < 2 ^ 64 }
    ensures { (connections : List ConnectionValue) × CountsServed requests (length connections) listener.old.accepted result listener.new.accepted
        × ((m : State) (states : List State) → ⟦<IndexDesk<Tables<FileStore<MemoryDisk>>> as Desk>⟧.stands desk.old m
        → ⟦<IndexDesk<Tables<FileStore<MemoryDisk>>> as Desk>⟧.may_leave desk.old states → (n : State) × (left : List State)
        × ServesEach true m states connections n left × ⟦<IndexDesk<Tables<FileStore<MemoryDisk>>> as Desk>⟧.stands desk.new n
        × ⟦<IndexDesk<Tables<FileStore<MemoryDisk>>> as Desk>⟧.may_leave desk.new left) }
{
    let answer = serve_connections(alloc, desk, clock, limits, listener, requests);
    memory_law(desk);
    answer
}
