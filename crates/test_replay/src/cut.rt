//! Streams of requests that are cut, and readers and writers that fail: what is written, and which
//! requests have their effect.
use crate::asserts::{expect_equal, expect_equal_text};
use crate::replies::{expect, replay_new};
use desk::{MemoryDesk, PlainDesk, TableDesk};
use http_edge::{ServeFault, serve_stream};
use samples::{
    NO_PROJECTS, PROJECTS, Slow, UPLOADS, exchange, in_pieces, reply_of, slow_writer, there,
};
use std::alloc::Global;
use std::process::Abort;
use std::test::Fail;
use streams::Counted;

/// A command whose reply the writer fails to take, behind what is asked before it and before what
/// is asked after it.
type Cut = (&'static str, &'static str, &'static str);

/// What comes after shows that the command had its effect: another command under its key gets its
/// reply, and changes nothing.
const CUT: &[Cut] = &[
    (
        "",
        r#"PUT /projects/app/lsif?key=k1 < base => 200 {"accepted":"lsif","count":11}"#,
        r#"
GET /projects => 200 {"projects":[{"dump":true,"name":"app","tags":false}]}
PUT /projects/app/lsif?key=k1 < nested => 200 {"accepted":"lsif","count":11}
GET /projects/app/definition?uri=file:///a.ts&line=2&character=1 => 200 {"places":[{"end":{"character":7,"line":0},"project":"app","start":{"character":4,"line":0},"uri":"file:///a.ts"}]}
"#,
    ),
    (
        "",
        r#"PUT /projects/app/tags?key=k1 < tags a>f.c>1 => 200 {"accepted":"tags","count":1}"#,
        r#"
GET /projects => 200 {"projects":[{"dump":false,"name":"app","tags":true}]}
PUT /projects/app/tags?key=k1 < tags b>f.c>1 | c>f.c>2 => 200 {"accepted":"tags","count":1}
GET /names?name=b => 200 {"tags":[]}
"#,
    ),
    (
        r#"PUT /projects/app/lsif?key=k1 < base => 200 {"accepted":"lsif","count":11}"#,
        r#"DELETE /projects/app?key=k2 => 200 {"removed":true}"#,
        r#"
GET /projects => 200 {"projects":[]}
PUT /projects/app/lsif?key=k2 < base => 200 {"removed":true}
GET /projects => 200 {"projects":[]}
"#,
    ),
];

/// An upload whose body isn't JSON, of 66 bytes, of which 61 are the head.
const SHORT_PUT: &str =
    "PUT /projects/app/lsif?key=k1 HTTP/1.1\r\nContent-Length: 5\r\n\r\n{\"id\"";

/// The reply to an upload and how many there are, where only so many bytes of it come.
fn reply_to_cut(at: usize) -> (u32, &'static str) {
    match at {
        0 => (0, ""),
        1..=60 => (1, r#"400 {"fault":"H01","text":"bad head"}"#),
        61..=65 => (1, r#"400 {"fault":"H05","text":"body cut"}"#),
        _ => (1, r#"422 {"fault":"L02","line":1,"text":"not JSON"}"#),
    }
}

/// Streams that end in a request, which change nothing.
fn cut_streams<R: AllocGlobal + Abort>(rt: &R, desk: &mut MemoryDesk) -> Result<(), Fail> {
    for at in 0..67 {
        let (count, short) = reply_to_cut(at);
        let wanted = if count == 0 {
            String::new(rt.alloc())
        } else {
            reply_of(rt.alloc(), short)?
        };
        expect(
            rt,
            desk,
            &SHORT_PUT.as_bytes()[..at],
            9,
            count,
            wanted.as_str(),
        );
    }
    let (_, bad_head) = reply_to_cut(1);
    let bad_head = reply_of(rt.alloc(), bad_head)?;
    let stream = format!(in rt.alloc(); "{PROJECTS}{PROJECTS}")?;
    let wanted = format!(in rt.alloc(); "{NO_PROJECTS}{bad_head}")?;
    for at in 27..52 {
        expect(rt, desk, &stream.as_bytes()[..at], 9, 2, wanted.as_str());
    }
    Ok(())
}

/// What is served over a desk of a stream whose bytes are read one at a time, where the reader
/// fails at one read and the writer at one write.
fn serve_over(
    alloc: Global,
    desk: &mut PlainDesk,
    stream: &str,
    read: u32,
    write: u32,
) -> (Result<u32, ServeFault>, Vec<u8>) {
    let mut reader = in_pieces(stream.as_bytes(), 1);
    reader.fails_at = read;
    let mut r = Counted::new(reader);
    let mut w = Counted::new(slow_writer(alloc, 1, write));
    let answer = serve_stream(alloc, desk, &mut r, &mut w, 9);
    let Slow { taken, .. } = w.into_inner();
    (answer, taken)
}

/// A reader that fails at any byte of an upload: it has no effect.
fn without_effect<R: AllocGlobal + Abort>(rt: &R, desk: &mut PlainDesk) {
    for fails_at in 1..67 {
        let (answer, written) = serve_over(rt.alloc(), desk, SHORT_PUT, fails_at, 0);
        expect_equal(
            rt,
            &(answer, written.len()),
            &(Err(ServeFault::Read), 0),
            SHORT_PUT,
        );
    }
    let (answer, written) = serve_over(rt.alloc(), desk, PROJECTS, 0, 0);
    expect_equal(
        rt,
        &(answer, written.as_slice()),
        &(Ok(1), NO_PROJECTS.as_bytes()),
        PROJECTS,
    );
}

/// Asserts what is written for the requests of these rows over a desk.
fn expect_over<R: AllocGlobal + Abort>(
    rt: &R,
    desk: &mut PlainDesk,
    rows: &'static str,
    row: &str,
) -> Result<(), Fail> {
    let (requests, replies) = exchange(rt.alloc(), rows, usize::MAX)?;
    let (_, written) = serve_over(rt.alloc(), desk, requests.as_str(), 0, 0);
    let found = str::from_utf8(&written).unwrap_or("not UTF-8");
    expect_equal_text(rt, found, replies.as_str(), row);
    Ok(())
}

/// A writer that takes one byte at a time and fails behind so many bytes of the replies: it took
/// what comes before.
fn expect_taken<R: AllocGlobal + Abort>(
    rt: &R,
    desk: &mut PlainDesk,
    requests: &str,
    wanted: &str,
    before: usize,
) -> Result<(), Fail> {
    let fails_at = u32::try_from(before)?.saturating_add(1);
    let taken = there(wanted.as_bytes().get(..before), "no such place")?;
    let (answer, written) = serve_over(rt.alloc(), desk, requests, 0, fails_at);
    expect_equal(
        rt,
        &(answer, written.as_slice()),
        &(Err(ServeFault::Write), taken),
        requests,
    );
    Ok(())
}

/// A writer that fails behind so many bytes of the reply to a command, and what is asked before it
/// and after it.
fn expect_effect<R: AllocGlobal + Abort>(
    rt: &R,
    desk: &mut PlainDesk,
    (before, row, after): Cut,
    taken: usize,
) -> Result<(), Fail> {
    expect_over(rt, desk, before, row)?;
    let (command, wanted) = exchange(rt.alloc(), row, 1)?;
    expect_taken(rt, desk, command.as_str(), wanted.as_str(), taken)?;
    expect_over(rt, desk, after, row)
}

/// A writer that fails at the first byte of the reply to a command, or at a later one: the command
/// has its effect.
fn with_effect<R: AllocGlobal + Abort>(rt: &R) -> Result<(), Fail> {
    for &(before, row, after) in CUT {
        let (_, wanted) = exchange(rt.alloc(), row, 1)?;
        for taken in &[0, 1, 9, 20, wanted.len().saturating_sub(1)] {
            let mut desk = PlainDesk::new(rt.alloc());
            expect_effect(rt, &mut desk, (before, row, after), *taken)?;
        }
    }
    Ok(())
}

/// The replies to those of the uploads that come whole within so many bytes.
fn replies_within(alloc: Global, bytes: usize) -> Result<String, Fail> {
    let mut wanted = String::new(alloc);
    for count in 1..8 {
        let (requests, replies) = exchange(alloc, UPLOADS, count)?;
        if requests.len() <= bytes {
            wanted = replies;
        }
    }
    Ok(wanted)
}

/// A reader that fails at this read.
fn expect_read<R: AllocGlobal + Abort>(rt: &R, stream: &str, fails_at: u32) -> Result<(), Fail> {
    let mut reader = in_pieces(stream.as_bytes(), 100);
    reader.fails_at = fails_at;
    let replayed = replay_new(rt.alloc(), reader, 1_000_000)?;
    let wanted = replies_within(rt.alloc(), stream.len().saturating_sub(replayed.left))?;
    expect_equal(
        rt,
        &(replayed.answer, replayed.written.as_slice()),
        &(Err(ServeFault::Read), wanted.as_bytes()),
        "",
    );
    Ok(())
}

/// A reader that fails at the first of its reads and at each that is so many later: the requests
/// that came whole are answered.
fn readers_that_fail<R: AllocGlobal + Abort>(rt: &R, each: usize) -> Result<(), Fail> {
    let (stream, _) = exchange(rt.alloc(), UPLOADS, 7)?;
    let reads = u32::try_from(stream.len() / 100)?;
    for fails_at in (1..=reads).step_by(each.max(1)) {
        expect_read(rt, stream.as_str(), fails_at)?;
    }
    Ok(())
}

/// A writer that fails behind each number of bytes that is a multiple of this one, each time over
/// a new desk.
fn expect_each_taken<R: AllocGlobal + Abort>(
    rt: &R,
    requests: &str,
    wanted: &str,
    each: usize,
) -> Result<(), Fail> {
    for before in (0..wanted.len()).step_by(each.max(1)) {
        let mut desk = PlainDesk::new(rt.alloc());
        expect_taken(rt, &mut desk, requests, wanted, before)?;
    }
    Ok(())
}

fn writers_that_fail<R: AllocGlobal + Abort>(rt: &R, each: usize) -> Result<(), Fail> {
    let (stream, replies) = exchange(rt.alloc(), UPLOADS, 7)?;
    expect_each_taken(rt, PROJECTS, NO_PROJECTS, 1)?;
    expect_each_taken(rt, stream.as_str(), replies.as_str(), each)
}

#[test]
fn cut(rt: HostRuntime) -> Result<(), Fail> {
    let mut desk = TableDesk::open_in_memory(rt.alloc())?;
    cut_streams(&rt, &mut desk)
}

#[test]
fn failed(rt: HostRuntime) -> Result<(), Fail> {
    without_effect(&rt, &mut PlainDesk::new(rt.alloc()));
    with_effect(&rt)?;
    readers_that_fail(&rt, 7)?;
    writers_that_fail(&rt, 29)
}

#[test]
fn great_readers_that_fail(rt: HostRuntime) -> Result<(), Fail> {
    readers_that_fail(&rt, 1)
}

#[test]
fn great_writers_that_fail(rt: HostRuntime) -> Result<(), Fail> {
    writers_that_fail(&rt, 1)
}
