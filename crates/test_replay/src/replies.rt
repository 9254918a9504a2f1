//! The bytes that are written for streams of requests that come whole. Streams that are cut, and
//! readers and writers that fail, are in `cut.rt`.
use crate::asserts::expect_equal;
use desk::{MemoryDesk, TableDesk};
use http_edge::{ServeFault, serve_stream};
use samples::{NO_PROJECTS, PROJECTS, Pieces, Slow, UPLOADS, exchange, in_pieces, slow_writer};
use std::alloc::Global;
use std::process::Abort;
use std::test::Fail;
use streams::Counted;

/// Streams, split by empty lines, each over an index that is empty at first: what is asked, what
/// is uploaded after ` < `, and after ` => ` the status and the body of the reply. A dump has its
/// name, and after ` | ` each line that is another, as in the reports of dumps; in tags, `>` is
/// a tab and ` | ` the end of a line.
const FIRST: &str = r#"
PUT /projects/app/lsif?key=k1 < base => 200 {"accepted":"lsif","count":11}
GET /projects/app/definition?uri=file:///a.ts&line=2&character=1 => 200 {"places":[{"end":{"character":7,"line":0},"project":"app","start":{"character":4,"line":0},"uri":"file:///a.ts"}]}
GET /projects/app/definition?uri=file:///a.ts&line=2&character=3 => 200 {"places":[]}
GET /projects/app/definition?uri=file:///a.ts&line=2147483647&character=2147483647 => 200 {"places":[]}
GET /projects/app/definition?uri=file:///a.ts&line=2147483647&character=2147483648 => 400 {"fault":"D03","text":"bad parameter"}
GET /projects/app/definition?uri=file:///b.ts&line=2&character=1 => 404 {"fault":"D02","text":"no such document"}
GET /projects/lib/definition?uri=file:///a.ts&line=2&character=1 => 404 {"fault":"D01","text":"project has no dump"}
GET /projects/app/profile => 200 {"profile":1}
GET /projects => 200 {"projects":[{"dump":true,"name":"app","tags":false}]}

PUT /projects/app/lsif?key=k1 < => 422 {"fault":"L06","line":1,"text":"metaData missing, wrong or repeated"}
PUT /projects/app/lsif?key=k1 < base | 8 #9 textDocument/definition 5>8 | 9 #8 definitionResult => 422 {"fault":"L09","line":8,"text":"vertex not emitted before"}
PUT /projects/app/lsif?key=k1 < base | 11 - => 422 {"fault":"E01","line":3,"text":"range in no document"}
PUT /projects/app/lsif?key=k1 < base | 10 item 8>[3] x @2 | 11 - => 422 {"fault":"L15","line":10,"text":"bad item property or shard"}
PUT /projects/app/lsif?key=k1 < base | 4 range 0:6 0:9 => 422 {"fault":"L12","line":11,"text":"range equal to or overlapping another"}
PUT /projects/app/lsif?key=k1 < base | 1 #9007199254740992 metaData 0.6.0 utf-16 => 422 {"fault":"L03","line":1,"text":"no valid id"}
PUT /projects/app/lsif?key=k1 < base | 7 next 5>5 => 422 {"fault":"L14","line":7,"text":"next closes a cycle"}
GET /projects => 200 {"projects":[]}
PUT /projects/app/lsif?key=k1 < base | 1 #9007199254740991 metaData 0.6.0 utf-16 => 200 {"accepted":"lsif","count":11}

PUT /projects/app/lsif?key=k1 < nested => 200 {"accepted":"lsif","count":8}
GET /projects/app/definition?uri=file:///n.ts&line=0&character=6 => 200 {"places":[{"end":{"character":20,"line":0},"project":"app","start":{"character":0,"line":0},"uri":"file:///n.ts"}]}

PUT /projects/app/lsif?key=k1 < touching => 200 {"accepted":"lsif","count":15}
GET /projects/app/definition?uri=file:///u.ts&line=0&character=5 => 200 {"places":[{"end":{"character":9,"line":0},"project":"app","start":{"character":5,"line":0},"uri":"file:///u.ts"}]}

PUT /projects/app/lsif?key=k1 < base => 200 {"accepted":"lsif","count":11}
PUT /projects/app/lsif?key=k2 < base | 11 - => 422 {"fault":"E01","line":3,"text":"range in no document"}
GET /projects/app/definition?uri=file:///a.ts&line=2&character=1 => 200 {"places":[{"end":{"character":7,"line":0},"project":"app","start":{"character":4,"line":0},"uri":"file:///a.ts"}]}
PUT /projects/app/lsif?key=k2 < base => 200 {"accepted":"lsif","count":11}
"#;

/// Further streams, written in the same way: references, joins between projects, hovers, names and
/// profiles.
const FURTHER: &str = r#"
PUT /projects/app/lsif?key=k1 < ring => 200 {"accepted":"lsif","count":13}
GET /projects/app/references?uri=file:///c.ts&line=1&character=0&declaration=yes => 200 {"places":[{"end":{"character":1,"line":0},"project":"app","start":{"character":0,"line":0},"uri":"file:///c.ts"},{"end":{"character":1,"line":1},"project":"app","start":{"character":0,"line":1},"uri":"file:///c.ts"}]}
GET /projects/app/references?uri=file:///c.ts&line=1&character=0&declaration=no => 200 {"places":[{"end":{"character":1,"line":1},"project":"app","start":{"character":0,"line":1},"uri":"file:///c.ts"}]}

PUT /projects/app/lsif?key=k1 < import => 200 {"accepted":"lsif","count":8}
PUT /projects/lib/lsif?key=k1 < export => 200 {"accepted":"lsif","count":11}
GET /projects/app/definition?uri=file:///app.ts&line=1&character=0 => 200 {"places":[{"end":{"character":10,"line":0},"project":"lib","start":{"character":9,"line":0},"uri":"file:///lib.ts"}]}
PUT /projects/lib2/lsif?key=k1 < export => 200 {"accepted":"lsif","count":11}
GET /projects/app/definition?uri=file:///app.ts&line=1&character=0 => 200 {"places":[{"end":{"character":10,"line":0},"project":"lib","start":{"character":9,"line":0},"uri":"file:///lib.ts"},{"end":{"character":10,"line":0},"project":"lib2","start":{"character":9,"line":0},"uri":"file:///lib.ts"}]}
DELETE /projects/lib2?key=d1 => 200 {"removed":true}
DELETE /projects/lib?key=d1 => 200 {"removed":true}
GET /projects/app/definition?uri=file:///app.ts&line=1&character=0 => 200 {"places":[]}
DELETE /projects/lib?key=d2 => 200 {"removed":false}
DELETE /projects/lib?key=d1 => 200 {"removed":true}

PUT /projects/app/lsif?key=k1 < import => 200 {"accepted":"lsif","count":8}
PUT /projects/lib/lsif?key=k1 < export | 5 packageInformation 'manager':'npm','name':'lib','version':'1.0.1' => 200 {"accepted":"lsif","count":11}
GET /projects/app/definition?uri=file:///app.ts&line=1&character=0 => 200 {"places":[]}

PUT /projects/app/lsif?key=k1 < import => 200 {"accepted":"lsif","count":8}
PUT /projects/lib/lsif?key=k1&profile=2 < export | 8 declarationResult | 9 textDocument/declaration 3>8 => 200 {"accepted":"lsif","count":11}
GET /projects/app/declaration?uri=file:///app.ts&line=1&character=0 => 200 {"places":[{"end":{"character":10,"line":0},"project":"lib","start":{"character":9,"line":0},"uri":"file:///lib.ts"}]}
GET /projects/app/definition?uri=file:///app.ts&line=1&character=0 => 200 {"places":[]}
GET /projects/app/implementation?uri=file:///app.ts&line=1&character=0 => 200 {"places":[]}
GET /projects/lib/profile => 200 {"profile":2}
PUT /projects/lib/lsif?key=k2&profile=3 < export => 400 {"fault":"D03","text":"bad parameter"}

PUT /projects/app/lsif?key=k1 < hovered => 200 {"accepted":"lsif","count":6}
GET /projects/app/hover?uri=file:///h.ts&line=0&character=0 => 200 {"contents":[{"language":"c","value":"f"},"d"]}
GET /projects/app/hover?uri=file:///h.ts&line=0&character=3 => 200 {"contents":null}

PUT /projects/app/tags?key=k1 < tags ab>f.c>1 | a>f.c>2 => 200 {"accepted":"tags","count":2}
PUT /projects/lib/tags?key=k1 < tags a>f.c>1 | b>f.c>2 => 200 {"accepted":"tags","count":2}
GET /names?prefix=a => 200 {"tags":[{"address":"2","fields":[],"file":"f.c","kind":null,"line":2,"name":"a","project":"app"},{"address":"1","fields":[],"file":"f.c","kind":null,"line":1,"name":"a","project":"lib"},{"address":"1","fields":[],"file":"f.c","kind":null,"line":1,"name":"ab","project":"app"}]}
GET /names?name=a => 200 {"tags":[{"address":"2","fields":[],"file":"f.c","kind":null,"line":2,"name":"a","project":"app"},{"address":"1","fields":[],"file":"f.c","kind":null,"line":1,"name":"a","project":"lib"}]}
GET /names?prefix=a&project=lib => 200 {"tags":[{"address":"1","fields":[],"file":"f.c","kind":null,"line":1,"name":"a","project":"lib"}]}
GET /names?prefix=a&project=zed => 200 {"tags":[]}
GET /names?name=a&prefix=a => 400 {"fault":"D03","text":"bad parameter"}
GET /names => 400 {"fault":"D03","text":"bad parameter"}
GET /projects => 200 {"projects":[{"dump":false,"name":"app","tags":true},{"dump":false,"name":"lib","tags":true}]}

PUT /projects/app/lsif?key=k1 < base => 200 {"accepted":"lsif","count":11}
PUT /projects/app/lsif?key=k2&profile=2 < nested => 200 {"accepted":"lsif","count":8}
GET /projects/app/profile => 200 {"profile":2}
PUT /projects/app/lsif?profile=1&key=k3 < base => 200 {"accepted":"lsif","count":11}
GET /projects/app/profile => 200 {"profile":1}
PUT /projects/app/lsif?key=k3&profile=3 < => 400 {"fault":"D03","text":"bad parameter"}
PUT /projects/app/lsif?key=k3&profile=01 < => 400 {"fault":"D03","text":"bad parameter"}
PUT /projects/app/lsif?key=k3&profile=1&profile=1 < => 400 {"fault":"D03","text":"bad parameter"}
PUT /projects/app/lsif?key=k3&key=k3 < => 400 {"fault":"D03","text":"bad parameter"}
PUT /projects/app/lsif?%6bey=k3&key=k3 < => 400 {"fault":"D03","text":"bad parameter"}
PUT /projects/app/tags?profile=1 < => 400 {"fault":"D03","text":"bad parameter"}
PUT /projects/app/tags?key=k4&key=k4 < => 400 {"fault":"D03","text":"bad parameter"}
PUT /projects/app/tags?key=k3&profile=3 < => 200 {"accepted":"lsif","count":11}
PUT /projects/app/tags?key=k4&profile=3 < => 200 {"accepted":"tags","count":0}
GET /projects => 200 {"projects":[{"dump":true,"name":"app","tags":true}]}
DELETE /projects/app?key=k4&key=k4 => 400 {"fault":"D03","text":"bad parameter"}
DELETE /projects/app?key=k4 => 200 {"accepted":"tags","count":0}
DELETE /projects/app?key=k5 => 200 {"removed":true}
GET /projects => 200 {"projects":[]}
"#;

/// How many requests of a stream are answered at most.
const MOST: u32 = 1_000_000;

/// What a stream was answered, what was written, and how many of its bytes weren't read.
#[derive(Drop)]
pub(crate) struct Replayed {
    pub answer: Result<u32, ServeFault>,
    pub written: Vec<u8>,
    pub left: usize,
}

/// What a desk replies over a reader, to a writer that takes so many bytes at a time.
fn replay_over(alloc: Global, desk: &mut MemoryDesk, reader: Pieces<'_>, most: usize) -> Replayed {
    let mut r = Counted::new(reader);
    let mut w = Counted::new(slow_writer(alloc, most, 0));
    let answer = serve_stream(alloc, desk, &mut r, &mut w, MOST);
    let Pieces { bytes, .. } = r.into_inner();
    let Slow { taken, .. } = w.into_inner();
    Replayed {
        answer,
        written: taken,
        left: bytes.len(),
    }
}

/// The same of a desk over a new database in memory.
pub(crate) fn replay_new(alloc: Global, reader: Pieces<'_>, most: usize) -> Result<Replayed, Fail> {
    let mut desk = TableDesk::open_in_memory(alloc)?;
    Ok(replay_over(alloc, &mut desk, reader, most))
}

fn expect_replayed<R: Abort>(rt: &R, replayed: &Replayed, count: u32, wanted: &str) {
    let found = str::from_utf8(&replayed.written).unwrap_or("not UTF-8");
    expect_equal(rt, &(replayed.answer, found), &(Ok(count), wanted), "");
}

/// Asserts what a desk answers and writes for a stream, whose bytes are read and written so many at
/// a time.
pub(crate) fn expect<R: AllocGlobal + Abort>(
    rt: &R,
    desk: &mut MemoryDesk,
    stream: &[u8],
    most: usize,
    count: u32,
    wanted: &str,
) {
    let replayed = replay_over(rt.alloc(), desk, in_pieces(stream, most), most);
    expect_replayed(rt, &replayed, count, wanted);
}

/// The same of a desk over a new database in memory.
pub(crate) fn expect_new<R: AllocGlobal + Abort>(
    rt: &R,
    stream: &[u8],
    most: usize,
    count: u32,
    wanted: &str,
) -> Result<(), Fail> {
    let replayed = replay_new(rt.alloc(), in_pieces(stream, most), most)?;
    expect_replayed(rt, &replayed, count, wanted);
    Ok(())
}

/// Asserts what is written for streams that come whole, and for no bytes.
fn expect_streams<R: AllocGlobal + Abort>(rt: &R, streams: &'static str) -> Result<(), Fail> {
    for rows in streams.split("\n\n") {
        let (requests, replies) = exchange(rt.alloc(), rows, usize::MAX)?;
        let count = u32::try_from(rows.trim_matches('\n').lines().count())?;
        for &most in &[1, 7, 1_000_000] {
            expect_new(rt, requests.as_bytes(), most, count, replies.as_str())?;
        }
    }
    expect_new(rt, b"", 1, 0, "")
}

/// Uploads of dumps, what is refused of them, and requests for definitions.
#[test]
fn replay_first(rt: HostRuntime) -> Result<(), Fail> {
    expect_streams(&rt, FIRST)?;
    expect_streams(&rt, UPLOADS)
}

/// Every other request; `replay_first` has those for definitions in one project.
#[test]
fn all_rows(rt: HostRuntime) -> Result<(), Fail> {
    expect_streams(&rt, FURTHER)?;
    expect_new(&rt, PROJECTS.as_bytes(), 1, 1, NO_PROJECTS)
}
