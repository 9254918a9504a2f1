//! Stores that stop at a call in the midst of two uploads over the whole way: what is answered,
//! what a new start finds, and what comes of uploads that are sent again.
use desk::TableDesk;
use http_edge::serve_stream;
use sample_stores::{Lived, connected, files_of, fuses, opened, reopened};
use samples::{Slow, exchange, in_pieces, reply_of, slow_writer};
use sqlite::{Alter, Connection, Files};
use sqlite_disk::{Fuse, Memory};
use std::alloc::Global;
use std::process::Abort;
use std::test::Fail;
use streams::Counted;
use tables::{Tables, TablesFault};

/// A dump under a key, and another, in which a range starts elsewhere, under a second; written as
/// the streams of `replies.rt` are.
const FIRST: &str =
    "PUT /projects/app/lsif?key=k1 < base => 200 {\"accepted\":\"lsif\",\"count\":11}";

const SECOND: &str =
    "PUT /projects/app/lsif?key=k2 < base | 3 range 0:5 0:7 => 200 {\"accepted\":\"lsif\",\"count\":11}";

/// What is found where neither is there, the first, or the second.
const NONE: &str =
    "GET /projects/app/definition?uri=file:///a.ts&line=2&character=1 => 404 {\"fault\":\"D01\",\"text\":\"project has no dump\"}";

const AT_FOUR: &str =
    "GET /projects/app/definition?uri=file:///a.ts&line=2&character=1 => 200 {\"places\":[{\"end\":{\"character\":7,\"line\":0},\"project\":\"app\",\"start\":{\"character\":4,\"line\":0},\"uri\":\"file:///a.ts\"}]}";

const AT_FIVE: &str =
    "GET /projects/app/definition?uri=file:///a.ts&line=2&character=1 => 200 {\"places\":[{\"end\":{\"character\":7,\"line\":0},\"project\":\"app\",\"start\":{\"character\":5,\"line\":0},\"uri\":\"file:///a.ts\"}]}";

/// The reply to an upload that the store refuses.
const REFUSED: &str = r#"503 {"fault":"S01","text":"store refused"}"#;

/// How many requests of a stream are answered at most.
const MOST: u32 = 9;

/// What is written for the requests of these rows, and what is to be.
fn written<S: Alter>(
    alloc: Global,
    desk: &mut TableDesk<S>,
    rows: &'static str,
) -> Result<(Vec<u8>, String), Fail> {
    let (requests, replies) = exchange(alloc, rows, usize::MAX)?;
    let mut r = Counted::new(in_pieces(requests.as_bytes(), 4096));
    let mut w = Counted::new(slow_writer(alloc, 1_000_000, 0));
    if serve_stream(alloc, desk, &mut r, &mut w, MOST).is_err() {
        return Err("not replayed")?;
    }
    let Slow { taken, .. } = w.into_inner();
    Ok((taken, replies))
}

/// Whether the replies to these rows are theirs.
fn is_answered<S: Alter>(
    alloc: Global,
    desk: &mut TableDesk<S>,
    rows: &'static str,
) -> Result<bool, Fail> {
    let (found, wanted) = written(alloc, desk, rows)?;
    Ok(found.as_slice() == wanted.as_bytes())
}

/// Whether an upload is accepted; else the reply says that the store refused it.
fn is_accepted<S: Alter>(
    alloc: Global,
    desk: &mut TableDesk<S>,
    row: &'static str,
) -> Result<bool, Fail> {
    let (found, wanted) = written(alloc, desk, row)?;
    if found.as_slice() == wanted.as_bytes() {
        return Ok(true);
    }
    let refused = reply_of(alloc, REFUSED)?;
    if found.as_slice() != refused.as_bytes() {
        return Err("another reply")?;
    }
    Ok(false)
}

/// Sends both uploads, the second where the first is accepted, and says how many are.
fn uploaded<S: Alter>(alloc: Global, desk: &mut TableDesk<S>) -> Result<usize, Fail> {
    if !is_accepted(alloc, desk, FIRST)? {
        return Ok(0);
    }
    if is_accepted(alloc, desk, SECOND)? {
        Ok(2)
    } else {
        Ok(1)
    }
}

/// The same over this connection, which is given back, with the fault of the opening where the
/// tables aren't opened.
fn uploaded_over<S: Alter + Drop>(alloc: Global, conn: Connection<S>) -> Result<Lived<S>, Fail> {
    if !conn.is_autocommit() {
        return Err("in a transaction")?;
    }
    match Tables::open(conn) {
        Ok(tables) => {
            let mut desk = TableDesk::new(alloc, tables);
            let count = uploaded(alloc, &mut desk)?;
            Ok((count, None, desk.into_tables().into_connection()))
        }
        Err((fault, conn)) => Ok((0, Some(fault), conn)),
    }
}

/// Whether what is found is what is left where so many uploads were accepted: the state before the
/// one that was refused, or the one after it.
fn is_left<S: Alter>(alloc: Global, desk: &mut TableDesk<S>, count: usize) -> Result<bool, Fail> {
    let (before, after) = match count {
        0 => (NONE, AT_FOUR),
        1 => (AT_FOUR, AT_FIVE),
        _ => (AT_FIVE, AT_FIVE),
    };
    Ok(is_answered(alloc, desk, before)? || is_answered(alloc, desk, after)?)
}

/// Whether the uploads that weren't accepted are accepted when they are sent again, and the first
/// one, which comes late, changes nothing.
fn is_mended<S: Alter>(alloc: Global, desk: &mut TableDesk<S>, count: usize) -> Result<bool, Fail> {
    if count == 0 && !is_answered(alloc, desk, FIRST)? {
        return Ok(false);
    }
    for &row in &[SECOND, AT_FIVE, FIRST, AT_FIVE] {
        if !is_answered(alloc, desk, row)? {
            return Ok(false);
        }
    }
    Ok(true)
}

/// Whether both hold of the tables that a new connection shows.
fn goes_on<S: Alter + Drop>(
    alloc: Global,
    conn: Connection<S>,
    count: usize,
) -> Result<bool, Fail> {
    let mut desk = TableDesk::new(alloc, opened(conn)?);
    Ok(is_left(alloc, &mut desk, count)? && is_mended(alloc, &mut desk, count)?)
}

/// How many uploads are accepted, the fault of the opening, and the files.
type Stopped = (usize, Option<TablesFault>, Files<Fuse<Memory>>);

/// The uploads over new files in memory that stop after so many calls of the log and of the other.
fn stopped(alloc: Global, log: u64, db: u64) -> Result<Stopped, Fail> {
    match connected(alloc, log, db) {
        Ok(conn) => {
            let (count, fault, conn) = uploaded_over(alloc, conn)?;
            Ok((count, fault, files_of(conn)))
        }
        Err(files) => Ok((0, None, files)),
    }
}

/// Whether what a crash left of the files is what so many uploads leave.
fn is_recovered(alloc: Global, count: usize, files: Files<Fuse<Memory>>) -> Result<bool, Fail> {
    goes_on(alloc, reopened(alloc, files)?, count)
}

/// Asserts, where one call in so many of one of the files stops the store in turn, that what is
/// left is what was before the upload that was refused, or what comes after it, and that an upload
/// that was accepted isn't lost. What is refused says that the store refused, the opening too.
fn expect_stops<R: AllocGlobal + Abort>(rt: &R, is_log: bool, each: u64) -> Result<(), Fail> {
    let mut taken = 0;
    for turn in 0..10000u64 {
        let (log, db) = fuses(is_log, turn.saturating_mul(each));
        let (count, fault, files) = stopped(rt.alloc(), log, db)?;
        assert!(rt; is_recovered(rt.alloc(), count, files)?);
        assert!(rt; fault.is_none() || fault == Some(TablesFault::Refused));
        taken = count;
        if taken == 2 {
            break;
        }
    }
    assert_eq!(rt; taken, 2);
    Ok(())
}

#[test]
fn stop_at_some_calls(rt: HostRuntime) -> Result<(), Fail> {
    expect_stops(&rt, true, 29)?;
    expect_stops(&rt, false, 29)
}

#[test]
fn great_stop_at_each_call(rt: HostRuntime) -> Result<(), Fail> {
    expect_stops(&rt, true, 1)?;
    expect_stops(&rt, false, 1)
}
