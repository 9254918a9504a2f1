//! Uploads that are deep, long or many: long lines and values in many arrays, many lines, long
//! chains, ranges that lie in each other, a ring of results, a result of many edges, long ids, and
//! long texts that many rows have.
mod shapes;

use crate::replies::expect_new;
use samples::{exchange, reply_of};
use shapes::{Shape, text_of_shape};
use std::alloc::Global;
use std::process::Abort;
use std::test::Fail;

/// A request at the first position of `file:///a.ts`, and how many places it has: the first
/// characters of so many lines of that document.
type Asked = (&'static str, u32);

/// Dumps, the reply to the upload of each by either profile, and what is asked then, if anything.
const ROWS: &[(Shape, &str, Option<Asked>)] = &[
    (
        Shape::Arrays(126),
        r#"200 {"accepted":"lsif","count":2}"#,
        None,
    ),
    (
        Shape::Arrays(127),
        r#"422 {"fault":"L02","line":2,"text":"not JSON"}"#,
        None,
    ),
    (
        Shape::Bytes(1_048_576),
        r#"200 {"accepted":"lsif","count":1}"#,
        None,
    ),
    (
        Shape::Bytes(1_048_577),
        r#"422 {"fault":"L01","line":1,"text":"line too long"}"#,
        None,
    ),
    (
        Shape::Lines(100_000),
        r#"200 {"accepted":"lsif","count":100000}"#,
        None,
    ),
    (
        Shape::Lines(100_001),
        r#"422 {"fault":"L20","line":100001,"text":"too many elements"}"#,
        None,
    ),
    (
        Shape::Chain { is_closed: false },
        r#"200 {"accepted":"lsif","count":99996}"#,
        None,
    ),
    (
        Shape::Chain { is_closed: true },
        r#"422 {"fault":"L14","line":99997,"text":"next closes a cycle"}"#,
        None,
    ),
    (
        Shape::LongList,
        r#"200 {"accepted":"lsif","count":10003}"#,
        None,
    ),
    (
        Shape::EdgeEach {
            is_falling: false,
            overlaps: false,
        },
        r#"200 {"accepted":"lsif","count":40002}"#,
        None,
    ),
    (
        Shape::EdgeEach {
            is_falling: true,
            overlaps: false,
        },
        r#"200 {"accepted":"lsif","count":40002}"#,
        None,
    ),
    (
        Shape::EdgeEach {
            is_falling: false,
            overlaps: true,
        },
        r#"422 {"fault":"L12","line":40004,"text":"range equal to or overlapping another"}"#,
        None,
    ),
    (
        Shape::EdgeEach {
            is_falling: true,
            overlaps: true,
        },
        r#"422 {"fault":"L12","line":40004,"text":"range equal to or overlapping another"}"#,
        None,
    ),
    (
        Shape::OneEdge { is_falling: false },
        r#"200 {"accepted":"lsif","count":20003}"#,
        None,
    ),
    (
        Shape::OneEdge { is_falling: true },
        r#"200 {"accepted":"lsif","count":20003}"#,
        None,
    ),
    (
        Shape::LongChain,
        r#"200 {"accepted":"lsif","count":99999}"#,
        Some(("definition", 1)),
    ),
    (
        Shape::Ring,
        r#"200 {"accepted":"lsif","count":503}"#,
        Some(("references", 100)),
    ),
    (
        Shape::ManyEdges,
        r#"200 {"accepted":"lsif","count":10006}"#,
        Some(("definition", 1)),
    ),
    (
        Shape::ManyTargets,
        r#"200 {"accepted":"lsif","count":10}"#,
        Some(("definition", 1)),
    ),
    (
        Shape::LongIds,
        r#"200 {"accepted":"lsif","count":99999}"#,
        None,
    ),
    (
        Shape::LongIdentifier,
        r#"503 {"fault":"S02","text":"out of memory"}"#,
        None,
    ),
    (
        Shape::LongUri,
        r#"200 {"accepted":"lsif","count":255}"#,
        None,
    ),
];

/// The reply with the places of a request: the first characters of so many lines of `file:///a.ts`.
fn places_reply(alloc: Global, lines: u32) -> Result<String, Fail> {
    let mut places = String::from_str(alloc, "200 {\"places\":[")?;
    for line in 0..lines {
        let place = format!(in alloc;
            "{{\"end\":{{\"character\":1,\"line\":{line}}},\"project\":\"app\",\"start\":{{\"character\":0,\"line\":{line}}},\"uri\":\"file:///a.ts\"}},"
        )?;
        places.push_str(place.as_str())?;
    }
    places.pop();
    places.push_str("]}")?;
    reply_of(alloc, places.as_str())
}

/// The uploads of a dump by both profiles.
fn uploads(alloc: Global, shape: &Shape) -> Result<String, Fail> {
    let dump = text_of_shape(alloc, shape)?;
    let length = dump.len();
    Ok(format!(in alloc;
        "PUT /projects/app/lsif?key=k1 HTTP/1.1\r\nContent-Length: {length}\r\n\r\n{dump}PUT /projects/app/lsif?key=k2&profile=2 HTTP/1.1\r\nContent-Length: {length}\r\n\r\n{dump}"
    )?)
}

/// Asserts the replies to the uploads of a dump by both profiles, and the places of what is asked
/// then.
fn expect_row<R: AllocGlobal + Abort>(
    rt: &R,
    shape: &Shape,
    reply: &str,
    asked: Option<Asked>,
) -> Result<(), Fail> {
    let mut stream = uploads(rt.alloc(), shape)?;
    let reply = reply_of(rt.alloc(), reply)?;
    let mut wanted = format!(in rt.alloc(); "{reply}{reply}")?;
    let mut count = 2;
    if let Some((request, lines)) = asked {
        write!(
            stream,
            "GET /projects/app/{request}?uri=file:///a.ts&line=0&character=0 HTTP/1.1\r\n\r\n"
        )?;
        wanted.push_str(places_reply(rt.alloc(), lines)?.as_str())?;
        count = 3;
    }
    expect_new(rt, stream.as_bytes(), 1_000_000, count, wanted.as_str())
}

/// Tags files with a backslash at the end of a part, in the form of the streams of `replies.rt`.
const TAGS: &str = r#"
PUT /projects/app/tags?key=k1 < tags a\>f.c>1 => 422 {"fault":"T05","line":1,"text":"bad escape"}
PUT /projects/app/tags?key=k1 < tags a>f\x4>1 => 422 {"fault":"T05","line":1,"text":"bad escape"}
PUT /projects/app/tags?key=k1 < tags a>f.c>/a\/ => 422 {"fault":"T06","line":1,"text":"bad address"}
PUT /projects/app/tags?key=k1 < tags a>f.c>/a\\/ => 200 {"accepted":"tags","count":1}
"#;

/// Over the desk with tables in memory.
#[test]
fn great_malicious(rt: HostRuntime) -> Result<(), Fail> {
    for (shape, reply, asked) in ROWS {
        expect_row(&rt, shape, *reply, *asked)?;
    }
    let (requests, replies) = exchange(rt.alloc(), TAGS, usize::MAX)?;
    expect_new(&rt, requests.as_bytes(), 1_000_000, 4, replies.as_str())
}
