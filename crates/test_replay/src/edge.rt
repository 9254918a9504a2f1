//! Heads, bodies, routes, methods and parameters that are refused, and of two refusals of one
//! request the one that is tried first. In a table's row `|` is CR LF, `=>` comes before
//! the names of the replies, and a row that begins with `#` says something of those below it. The
//! streams of a test are replied to by one desk, over an index that is empty at first.
use crate::replies::expect;
use desk::{MemoryDesk, TableDesk};
use http_edge::{phrase_law, requests_law, route_law, run_law};
use samples::{parted, there};
use std::alloc::Global;
use std::process::Abort;
use std::test::Fail;

/// Names of replies, and what is written.
const REPLIES: &str = r#"
H01 => HTTP/1.1 400 Bad Request|Connection: close|Content-Type: application/json|Content-Length: 33||{"fault":"H01","text":"bad head"}
H02 => HTTP/1.1 431 Request Header Fields Too Large|Connection: close|Content-Type: application/json|Content-Length: 39||{"fault":"H02","text":"head too large"}
H03 => HTTP/1.1 411 Length Required|Connection: close|Content-Type: application/json|Content-Length: 40||{"fault":"H03","text":"length required"}
H04 => HTTP/1.1 413 Payload Too Large|Connection: close|Content-Type: application/json|Content-Length: 39||{"fault":"H04","text":"body too large"}
H05 => HTTP/1.1 400 Bad Request|Connection: close|Content-Type: application/json|Content-Length: 33||{"fault":"H05","text":"body cut"}
H06 => HTTP/1.1 404 Not Found|Connection: close|Content-Type: application/json|Content-Length: 38||{"fault":"H06","text":"no such route"}
H08 => HTTP/1.1 501 Not Implemented|Connection: close|Content-Type: application/json|Content-Length: 54||{"fault":"H08","text":"transfer coding not supported"}
D03 => HTTP/1.1 400 Bad Request|Connection: close|Content-Type: application/json|Content-Length: 38||{"fault":"D03","text":"bad parameter"}
D01 => HTTP/1.1 404 Not Found|Connection: close|Content-Type: application/json|Content-Length: 44||{"fault":"D01","text":"project has no dump"}
tags => HTTP/1.1 200 OK|Connection: close|Content-Type: application/json|Content-Length: 32||{"accepted":"tags","count":2500}
none => HTTP/1.1 200 OK|Connection: close|Content-Type: application/json|Content-Length: 15||{"projects":[]}
H07_PUT => HTTP/1.1 405 Method Not Allowed|Connection: close|Content-Type: application/json|Allow: PUT|Content-Length: 43||{"fault":"H07","text":"method not allowed"}
H07_DELETE => HTTP/1.1 405 Method Not Allowed|Connection: close|Content-Type: application/json|Allow: DELETE|Content-Length: 43||{"fault":"H07","text":"method not allowed"}
H07_GET => HTTP/1.1 405 Method Not Allowed|Connection: close|Content-Type: application/json|Allow: GET|Content-Length: 43||{"fault":"H07","text":"method not allowed"}
"#;

const GET: &str =
    "GET /projects/app/definition?uri=file:///a.ts&line=2&character=1 HTTP/1.1\r\n\r\n";

/// Heads and bodies that are refused.
const REFUSED: &str = r#"
GET|| => H01
|| => H01
GET /projects HTTP/1.1| => H01
GET /x HTTP/1.1|Content-Length: 0|Content-Length: 0|| => H01
GET /x HTTP/1.1|Content-Length:|| => H01
GET /x HTTP/1.1|Content-Length: 1a|| => H01
GET /x HTTP/1.1|content-length: 00000000000000000000|| => H01
GET /x HTTP/1.1|content-length: 0000000000000000000|| => H06
PUT /projects/app/lsif?key=k HTTP/1.1|| => H03
GET /x HTTP/1.1|Content-Length: 33554433|| => H04
PUT /projects/app/lsif?key=k HTTP/1.1|Content-Length: 33554433|| => H04
GET /x HTTP/1.1|Content-Length: 33554432||ab => H05
GET /x HTTP/1.1|Content-Length: 3||ab => H05
GET /x HTTP/1.1|Content-Length: 3||abc => H06
GET /x HTTP/1.1|| => H06
GET /projects//lsif HTTP/1.1|| => H06
GET /projects/app/lsif/ HTTP/1.1|| => H06
GET /projects/app HTTP/1.1|| => H07_DELETE
POST /projects HTTP/1.1|| => H07_GET
POST /names HTTP/1.1|| => H07_GET
GET /projects/app/tags?key=k HTTP/1.1|| => H07_PUT
GET /projects/ HTTP/1.1|| => H06
GET /projects/app/other HTTP/1.1|| => H06
PUT /projects/app%2D/lsif?key=k HTTP/1.1|Content-Length: 0|| => D03
GET /projects/APP/definition HTTP/1.1|| => D03
GET /projects/app/lsif?key=k HTTP/1.1|| => H07_PUT
PUT /projects/app/definition HTTP/1.1|Content-Length: 0|| => H07_GET
put /projects/app/lsif?key=k HTTP/1.1|| => H07_PUT
GET /x HTTP/1.1|transfer-encoding: chunked|| => H08
"#;

/// Of two refusals that hold of one request, the one that is tried first.
const ORDERED: &str = r#"
# a head that doesn't read, though it has a transfer coding
GET  HTTP/1.1|Transfer-Encoding: a|| => H01
# a transfer coding, and two lengths, none for a PUT, or one too large
GET /x HTTP/1.1|Transfer-Encoding: a|Content-Length: 1|Content-Length: 1|| => H08
PUT /x HTTP/1.1|Transfer-Encoding: a|| => H08
PUT /x HTTP/1.1|Transfer-Encoding: a|Content-Length: 33554433|| => H08
# a length that isn't one, and too large
PUT /x HTTP/1.1|Content-Length: 99999999999999999999|| => H01
# no length, and no route
PUT /x HTTP/1.1|| => H03
# too large, and cut
GET /x HTTP/1.1|Content-Length: 33554433||abc => H04
# cut, and no route
GET /x HTTP/1.1|Content-Length: 4||abc => H05
# cut, and another method
GET /projects/app HTTP/1.1|Content-Length: 4||abc => H05
# no route, and a method that no route takes
POST /x HTTP/1.1|| => H06
# no route, and a parameter twice
GET /x?key=a&key=a HTTP/1.1|| => H06
# another method, and a missing parameter
GET /projects/app/lsif HTTP/1.1|| => H07_PUT
# a missing parameter, and a project without a dump
GET /projects/app/definition HTTP/1.1|| => D03
"#;

/// Before a query: after some refusals nothing is served, after the others the stream goes on.
const FOLLOWED: &str = r#"
GET|| => H01
PUT /x HTTP/1.1|| => H03
GET /x HTTP/1.1|Content-Length: 33554433|| => H04
GET /x HTTP/1.1|Transfer-Encoding: a|| => H08
GET /x HTTP/1.1|Content-Length: 2||ab => H06 D01
GET /projects/app/lsif HTTP/1.1|| => H07_PUT D01
GET /projects/app/definition HTTP/1.1|| => D03 D01
"#;

/// Parameters of a query.
const QUERIES: &str = r#"
line=2&character=1 => D03
uri=file:///a.ts&character=1 => D03
uri=file:///a.ts&line=2 => D03
uri=file:///a.ts&line=2&character=1&line=2 => D03
uri=file:///a.ts&line=2&character=1&%6cine=2 => D03
uri=a.ts&line=2&character=1 => D03
uri=file:///a.ts&line=02&character=1 => D03
uri=file:///a.ts&line=-2&character=1 => D03
uri=file:///a.ts&line=&character=1 => D03
uri=file:///a.ts&line=2&character=2147483648 => D03
uri=file:///a.ts&line=2&character=99999999999 => D03
uri=file:///a.ts&line=2147483647&character=2147483647 => D01
character=0&line=0&uri=file%3A%2F%2F%2Fa.ts&other=1&other=2 => D01
"#;

/// Targets of an upload.
const UPLOADS: &str = r#"
/projects/app/lsif => D03
/projects/app/lsif?key= => D03
/projects/app/lsif?key=a.b => D03
/projects/app/lsif?key=a&key=a => D03
/projects/App/lsif?key=a => D03
"#;

/// The reply of this name, as the table has it.
fn reply(name: &str) -> Option<&'static str> {
    for row in REPLIES.lines() {
        if let Some((found, text)) = row.split_once(" => ") {
            if found == name {
                return Some(text);
            }
        }
    }
    None
}

/// Asserts that the replies to a stream are those of these names.
fn expect_replies<R: AllocGlobal + Abort>(
    rt: &R,
    desk: &mut MemoryDesk,
    stream: &str,
    names: &str,
) -> Result<(), Fail> {
    let mut signs = String::new(rt.alloc());
    for name in names.split_whitespace() {
        signs.push_str(there(reply(name), "no such reply")?)?;
    }
    let wanted = signs.replace(rt.alloc(), '|', "\r\n")?;
    let count = u32::try_from(names.split_whitespace().count())?;
    expect(
        rt,
        desk,
        stream.as_bytes(),
        1_000_000,
        count,
        wanted.as_str(),
    );
    Ok(())
}

/// Asserts the replies to the stream of a row, which has these texts before and behind it. A remark
/// has none.
fn expect_row<R: AllocGlobal + Abort>(
    rt: &R,
    desk: &mut MemoryDesk,
    before: &str,
    row: &str,
    after: &str,
) -> Result<(), Fail> {
    if row.starts_with('#') {
        return Ok(());
    }
    let (part, names) = parted(row, " => ")?;
    let signs = format!(in rt.alloc(); "{before}{part}{after}")?;
    let stream = signs.replace(rt.alloc(), '|', "\r\n")?;
    expect_replies(rt, desk, stream.as_str(), names)
}

/// Asserts the replies to the streams of the tables, whose rows have a text before them and one
/// after them.
fn expect_rows<R: AllocGlobal + Abort>(rt: &R, desk: &mut MemoryDesk) -> Result<(), Fail> {
    for &(before, table, after) in &[
        ("", REFUSED, ""),
        ("", ORDERED, ""),
        ("", FOLLOWED, GET),
        ("GET /projects/app/definition?", QUERIES, " HTTP/1.1||"),
        ("PUT ", UPLOADS, " HTTP/1.1|Content-Length: 0||"),
    ] {
        for row in table.trim_matches('\n').lines() {
            expect_row(rt, desk, before, row, after)?;
        }
    }
    let line_feeds = "GET /projects HTTP/1.1\nA: b\n\nC: d\r\n\r\n";
    expect_replies(rt, desk, line_feeds, "H01")
}

/// None of the streams changes the index.
#[test]
fn edge_refusals(rt: HostRuntime) -> Result<(), Fail> {
    phrase_law();
    requests_law();
    route_law();
    run_law();
    let mut desk = TableDesk::open_in_memory(rt.alloc())?;
    expect_rows(&rt, &mut desk)
}

/// A stream that has a text so many times.
fn long_stream(
    alloc: Global,
    first: &str,
    text: &str,
    times: usize,
    last: &str,
) -> Result<String, Fail> {
    let middle = text.repeat(alloc, times)?;
    Ok(format!(in alloc; "{first}{middle}{last}")?)
}

/// Asserts the replies to it.
fn expect_long<R: AllocGlobal + Abort>(
    rt: &R,
    desk: &mut MemoryDesk,
    (first, text, times, last): (&str, &str, usize, &str),
    names: &str,
) -> Result<(), Fail> {
    let stream = long_stream(rt.alloc(), first, text, times, last)?;
    expect_replies(rt, desk, stream.as_str(), names)
}

/// Asserts the replies to long heads, and to bodies that come in several pieces: an upload takes
/// all of its body, and a query none.
fn expect_all_long<R: AllocGlobal + Abort>(rt: &R, desk: &mut MemoryDesk) -> Result<(), Fail> {
    let upload = "PUT /projects/app/tags?key=k1 HTTP/1.1\r\nContent-Length: 20000\r\n\r\n";
    let query = "GET /projects HTTP/1.1\r\nContent-Length: 20000\r\n\r\n";
    for &(first, text, times, last, names) in &[
        ("", "a", 8191, "", "H01"),
        ("", "a", 8192, "", "H02"),
        ("", "a", 8192, "\r\n\r\n", "H02"),
        ("GET /x HTTP/1.1\r\n", "a: b\r\n", 32, "\r\n", "H06"),
        ("GET /x HTTP/1.1\r\n", "a: b\r\n", 33, "\r\n", "H02"),
        ("", "\n", 34, "\r\n\r\n", "H02"),
        (query, "body ", 4000, GET, "none D01"),
        (upload, "x\tf.c\t1\n", 2500, GET, "tags D01"),
    ] {
        expect_long(rt, desk, (first, text, times, last), names)?;
    }
    Ok(())
}

/// The last stream alone changes the index.
#[test]
fn long_heads_and_bodies(rt: HostRuntime) -> Result<(), Fail> {
    let mut desk = TableDesk::open_in_memory(rt.alloc())?;
    expect_all_long(&rt, &mut desk)
}
