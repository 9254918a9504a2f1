//! Connections on loopback and clients that take their time, and what they're replied.
use crate::asserts::{expect_equal, expect_equal_text};
use calls::{
    CountedListener, Limits, ServerFault, connect_file, serve_connection, serve_in_memory,
};
use desk::{Desk, PlainDesk, TableDesk};
use sample_stores::opened;
use samples::{NO_PROJECTS, PROJECTS, exchange, reply, there};
use sqlite::{Alter, Connection, Unknown};
use std::alloc::Global;
use std::cell::Cell;
use std::io;
use std::io::{ErrorKind, Read, Write};
use std::net::{
    Ipv4Addr, Net, OpenListener, OpenStream, Shutdown, SocketAddr, TcpListener, TcpStream,
};
use std::process::Abort;
use std::test::Fail;
use std::time::{Clock, Duration};

/// Requests, one a connection, written as streams of requests are in `samples`: the base dump, a
/// list of projects, a definition and a removal.
const ROWS: &str = r#"PUT /projects/app/lsif?key=k1 < base => 200 {"accepted":"lsif","count":11}
GET /projects => 200 {"projects":[{"dump":true,"name":"app","tags":false}]}
GET /projects/app/definition?uri=file:///a.ts&line=2&character=1 => 200 {"places":[{"end":{"character":7,"line":0},"project":"app","start":{"character":4,"line":0},"uri":"file:///a.ts"}]}
DELETE /projects/app?key=k2 => 200 {"removed":true}"#;

/// Limits of so many milliseconds.
fn limits(wait: u64, whole: u64) -> Limits {
    Limits {
        wait: Duration::from_millis(wait),
        whole: Duration::from_millis(whole),
        rest: Duration::from_millis(wait),
    }
}

/// A listener on a free port.
fn listen<R: Net<Listener = TcpListener, Stream = TcpStream>>(rt: &R) -> io::Result<TcpListener> {
    TcpListener::bind(rt, SocketAddr::from((Ipv4Addr::LOCALHOST, 0)))
}

/// A client of the listener that has sent these bytes.
fn client<R: Net<Listener = TcpListener, Stream = TcpStream>>(
    rt: &R,
    listener: &TcpListener,
    bytes: &str,
) -> io::Result<TcpStream> {
    let mut stream = TcpStream::connect(rt, listener.local_addr()?)?;
    stream.write_all(bytes.as_bytes())?;
    Ok(stream)
}

/// What a client is sent, up to the end of its connection.
fn received(alloc: Global, client: TcpStream) -> Result<String, Fail> {
    let mut client = client;
    let mut text = String::new(alloc);
    client.read_to_string(&mut text)?;
    Ok(text)
}

/// What a client is sent for its request: it writes, then it's served, and then it reads.
fn answer<D: Desk>(
    rt: &HostRuntime,
    listener: &TcpListener,
    desk: &mut D,
    request: &str,
) -> Result<String, Fail> {
    let client = client(rt, listener, request)?;
    let (stream, _) = listener.accept()?;
    serve_connection(rt.alloc(), desk, rt, limits(50, 5000), stream)?;
    received(rt.alloc(), client)
}

/// What the first of the connections that isn't replied as it is to be is sent.
fn first_other<D: Desk>(rt: &HostRuntime, desk: &mut D) -> Result<Option<String>, Fail> {
    let listener = listen(rt)?;
    for row in ROWS.lines() {
        let (request, wanted) = exchange(rt.alloc(), row, 1)?;
        let found = answer(rt, &listener, desk, request.as_str())?;
        if found.as_str() != wanted.as_str() {
            return Ok(Some(found));
        }
    }
    Ok(None)
}

/// The same over the tables of a new database of this connection.
fn first_other_over<S: Alter + Drop>(
    rt: &HostRuntime,
    conn: Connection<S>,
) -> Result<Option<String>, Fail> {
    first_other(rt, &mut TableDesk::new(rt.alloc(), opened(conn)?))
}

/// The same over a desk that keeps dumps in memory, and over a database in a file.
#[test]
fn served(rt: HostRuntime) -> Result<(), Fail> {
    assert_eq!(rt; first_other(&rt, &mut PlainDesk::new(rt.alloc()))?, None);
    match connect_file(&rt, "served.db", Unknown) {
        Ok(conn) => assert_eq!(rt; first_other_over(&rt, conn)?, None),
        Err(fault) => return Err(fault)?,
    }
    Ok(())
}

/// How the service of so many connections ends over a database in memory that is empty at first.
fn serve_all(
    rt: &HostRuntime,
    listener: &TcpListener,
    requests: u32,
) -> Result<Result<(), ServerFault>, Fail> {
    let mut desk = TableDesk::open_in_memory(rt.alloc())?;
    let mut counted = CountedListener::new(listener);
    let limits = limits(50, 5000);
    Ok(serve_in_memory(rt.alloc(), &mut desk, rt, limits, &mut counted, requests))
}

/// Clients that have sent these texts, the first one first.
fn clients(
    rt: &HostRuntime,
    listener: &TcpListener,
    rows: &[(&str, &str)],
) -> Result<Vec<TcpStream>, Fail> {
    let mut clients = Vec::new(rt.alloc());
    for (sent, _) in rows {
        clients.push(client(rt, listener, sent)?)?;
    }
    Ok(clients)
}

/// The same once they are served, after a client that sends nothing and ends.
fn served_clients(
    rt: &HostRuntime,
    listener: &TcpListener,
    rows: &[(&str, &str)],
) -> Result<Vec<TcpStream>, Fail> {
    drop(client(rt, listener, "")?);
    let clients = clients(rt, listener, rows)?;
    match serve_all(rt, listener, 5)? {
        Ok(()) => Ok(clients),
        Err(_) => Err(Fail::from("not served")),
    }
}

/// Asserts what a client is sent.
fn expect_sent<R: AllocGlobal + Abort>(
    rt: &R,
    client: TcpStream,
    sent: &str,
    wanted: &str,
) -> Result<(), Fail> {
    let found = received(rt.alloc(), client)?;
    expect_equal_text(rt, found.as_str(), wanted, sent);
    Ok(())
}

/// Asserts what the clients of these rows are sent.
fn expect_received<R: AllocGlobal + Abort>(
    rt: &R,
    clients: &mut Vec<TcpStream>,
    rows: &[(&str, &str)],
) -> Result<(), Fail> {
    for &(sent, wanted) in rows.iter().rev() {
        let client = there(clients.pop(), "no client")?;
        expect_sent(rt, client, sent, wanted)?;
    }
    Ok(())
}

/// A head that says no length, with 50,000 bytes after it.
fn long_request(alloc: Global) -> Result<String, Fail> {
    let behind = "1234567890".repeat(alloc, 5000)?;
    Ok(format!(in alloc; "PUT /projects/app/tags?key=k1 HTTP/1.1\r\n\r\n{behind}")?)
}

/// A client that sends nothing and ends, one that sends nothing and stays, one that stops in its
/// head, one whose head says no length and is refused before the 50,000 bytes after it are read,
/// and one that gets the reply that there's no project: each counts as one connection.
#[test]
fn counted(rt: HostRuntime) -> Result<(), Fail> {
    let long = long_request(rt.alloc())?;
    let refused = r#"{"fault":"H03","text":"length required"}"#;
    let refused = reply(rt.alloc(), "411 Length Required", 40, refused)?;
    let rows = [
        ("", ""),
        ("GET /projects HTTP/1.1\r\nHost: ", ""),
        (long.as_str(), refused.as_str()),
        (PROJECTS, NO_PROJECTS),
    ];
    let listener = listen(&rt)?;
    let mut clients = served_clients(&rt, &listener, &rows)?;
    expect_received(&rt, &mut clients, &rows)
}

/// No client comes.
#[test]
fn none_accepted(rt: HostRuntime) -> Result<(), Fail> {
    let listener = listen(&rt)?;
    listener.set_nonblocking(true)?;
    assert_eq!(rt; serve_all(&rt, &listener, 1)?, Err(ServerFault::Accept));
    Ok(())
}

/// A clock that moves only when a test moves it.
#[derive(Drop)]
struct Moved<'a> {
    now: &'a Cell<Duration>,
}

impl Clock for Moved<'_> {
    fn monotonic(&self) -> io::Result<Duration> {
        Ok(self.now.get())
    }

    fn since_1970(&self) -> io::Result<Duration> {
        Ok(self.now.get())
    }
}

/// The request of a client that takes its time.
const REQUEST: &[u8] = b"GET /projects HTTP/1.1\r\n\r\n";

/// What a client takes its time for: for each byte that it sends, that it takes of the reply, or
/// that it sends after the reply.
#[derive(Clone, Copy, Debug, PartialEq, Eq)]
enum Slowness {
    Sends,
    Takes,
    SendsOn,
}

/// What is seen of a connection to such a client.
#[derive(Drop)]
struct Seen {
    now: Cell<Duration>,
    has_asked: Cell<bool>,
    /// How many bytes it sent or took while it took its time.
    moved: Cell<u32>,
    /// How long the last read and the last write may wait.
    read_wait: Cell<Duration>,
    write_wait: Cell<Duration>,
}

/// A client that takes so much time for each byte.
#[derive(Drop)]
struct Trickle<'a> {
    seen: &'a Seen,
    slowness: Slowness,
    each: Duration,
}

impl Trickle<'_> {
    /// Takes the time of a byte, or fails where that is longer than what may be waited for.
    fn take_time(&self, wait: Duration) -> io::Result<()> {
        self.seen
            .now
            .set(self.seen.now.get().saturating_add(self.each));
        if wait < self.each {
            return Err(io::Error::from(ErrorKind::WouldBlock));
        }
        self.seen.moved.set(self.seen.moved.get().saturating_add(1));
        Ok(())
    }
}

impl Read for Trickle<'_> {
    fn read(&mut self, buf: &mut [u8]) -> io::Result<usize> {
        let has_asked = self.seen.has_asked.get();
        let is_slow = match self.slowness {
            Slowness::Sends => true,
            Slowness::Takes => false,
            Slowness::SendsOn => has_asked,
        };
        if is_slow {
            self.take_time(self.seen.read_wait.get())?;
            return match buf.first_mut() {
                Some(byte) => {
                    *byte = b'G';
                    Ok(1)
                }
                None => Ok(0),
            };
        }
        if has_asked || buf.len() < REQUEST.len() {
            return Ok(0);
        }
        buf[..REQUEST.len()].copy_from_slice(REQUEST);
        self.seen.has_asked.set(true);
        Ok(REQUEST.len())
    }
}

impl Write for Trickle<'_> {
    fn write(&mut self, bytes: &[u8]) -> io::Result<usize> {
        if self.slowness != Slowness::Takes || bytes.is_empty() {
            return Ok(bytes.len());
        }
        self.take_time(self.seen.write_wait.get())?;
        Ok(1)
    }

    fn flush(&mut self) -> io::Result<()> {
        Ok(())
    }
}

impl OpenStream for Trickle<'_> {
    fn set_read_timeout(&self, wait: Option<Duration>) -> io::Result<()> {
        self.seen.read_wait.set(wait.unwrap_or(Duration::ZERO));
        Ok(())
    }

    fn set_write_timeout(&self, wait: Option<Duration>) -> io::Result<()> {
        self.seen.write_wait.set(wait.unwrap_or(Duration::ZERO));
        Ok(())
    }

    fn shutdown(&self, _how: Shutdown) -> io::Result<()> {
        Ok(())
    }

    fn try_clone(&self) -> io::Result<Self> {
        Ok(Trickle {
            seen: self.seen,
            slowness: self.slowness,
            each: self.each,
        })
    }
}

/// How many bytes a client moves that takes so many milliseconds for each, and how many
/// milliseconds the last read or write may wait.
fn trickled(alloc: Global, slowness: Slowness, each: u64) -> Result<(u32, u128), Fail> {
    let seen = Seen {
        now: Cell::new(Duration::from_secs(7)),
        has_asked: Cell::new(false),
        moved: Cell::new(0),
        read_wait: Cell::new(Duration::ZERO),
        write_wait: Cell::new(Duration::ZERO),
    };
    let client = Trickle {
        seen: &seen,
        slowness,
        each: Duration::from_millis(each),
    };
    let clock = Moved { now: &seen.now };
    let limits = Limits {
        rest: Duration::from_millis(30),
        ..limits(50, 200)
    };
    let mut desk = PlainDesk::new(alloc);
    serve_connection(alloc, &mut desk, &clock, limits, client)?;
    let wait = match slowness {
        Slowness::Takes => seen.write_wait.get(),
        Slowness::Sends | Slowness::SendsOn => seen.read_wait.get(),
    };
    Ok((seen.moved.get(), wait.as_millis()))
}

/// A client that sends or takes a byte now and then is dropped when a byte takes longer than 50 ms,
/// after the reply 30 ms, or the connection in all 200 ms.
#[test]
fn trickles(rt: HostRuntime) -> Result<(), Fail> {
    // the time of a byte, the bytes that are moved, and what the last read or write may wait
    for &(slowness, each, count, wait) in &[
        (Slowness::Sends, 40, 5, 40),
        (Slowness::Sends, 50, 4, 50),
        (Slowness::Sends, 51, 0, 50),
        (Slowness::Sends, 30, 6, 20),
        (Slowness::Sends, 100, 0, 50),
        (Slowness::Takes, 40, 5, 40),
        (Slowness::Takes, 50, 4, 50),
        (Slowness::Takes, 51, 0, 50),
        (Slowness::Takes, 30, 6, 20),
        (Slowness::SendsOn, 20, 10, 20),
        (Slowness::SendsOn, 30, 6, 20),
        (Slowness::SendsOn, 31, 0, 30),
    ] {
        let found = trickled(rt.alloc(), slowness, each)?;
        expect_equal(
            &rt,
            &(slowness, each, found),
            &(slowness, each, (count, wait)),
            "",
        );
    }
    Ok(())
}
