//! Streams of requests that are written in short, and the replies to them.
use crate::found::parted;
use crate::short::dump_text;
use std::alloc::Global;
use std::test::Fail;

/// The text of a reply with that status, so long a body and that body.
pub fn reply(alloc: Global, status: &str, length: u32, body: &str) -> Result<String, Fail> {
    Ok(format!(in alloc;
        "HTTP/1.1 {status}\r\nConnection: close\r\nContent-Type: application/json\r\nContent-Length: {length}\r\n\r\n{body}"
    )?)
}

/// The stream that readers and writers fail in: uploads under keys, one of them a second time, and
/// tags.
pub const UPLOADS: &str = r#"
PUT /projects/app/lsif?key=k1 < base => 200 {"accepted":"lsif","count":11}
PUT /projects/app/lsif?key=k2 < base | 3 range 0:5 0:7 => 200 {"accepted":"lsif","count":11}
PUT /projects/app/lsif?key=k1 < base => 200 {"accepted":"lsif","count":11}
GET /projects/app/definition?uri=file:///a.ts&line=2&character=1 => 200 {"places":[{"end":{"character":7,"line":0},"project":"app","start":{"character":5,"line":0},"uri":"file:///a.ts"}]}
PUT /projects/app/tags?key=k3 < tags a\x41\tb>f.c>/a\/b/;">f => 200 {"accepted":"tags","count":1}
GET /names?prefix=aA => 200 {"tags":[{"address":"/a\\/b/","fields":[],"file":"f.c","kind":"f","line":1,"name":"aA\tb","project":"app"}]}
PUT /projects/app/tags?key=k4 < tags \q>f.c>/a\/b/;">f => 422 {"fault":"T05","line":1,"text":"bad escape"}
"#;

/// A request for the projects, of 26 bytes.
pub const PROJECTS: &str = "GET /projects HTTP/1.1\r\n\r\n";

/// The reply to it while there are none, of 105 bytes.
pub const NO_PROJECTS: &str =
    "HTTP/1.1 200 OK\r\nConnection: close\r\nContent-Type: application/json\r\nContent-Length: 15\r\n\r\n{\"projects\":[]}";

/// The body of an upload that a row names.
fn body_of(alloc: Global, short: &'static str) -> Result<String, Fail> {
    if short.is_empty() {
        return Ok(String::new(alloc));
    }
    if let Some(tags) = short.strip_prefix("tags ") {
        let lines = tags.replace(alloc, " | ", "\n")?;
        let mut text = lines.replace(alloc, '>', "\t")?;
        text.push('\n')?;
        return Ok(text);
    }
    dump_text(alloc, short)
}

/// The text of a request that is in a row before its reply.
fn request(alloc: Global, row: &'static str) -> Result<String, Fail> {
    match row.split_once(" <") {
        None => Ok(format!(in alloc; "{row} HTTP/1.1\r\n\r\n")?),
        Some((line, short)) => {
            let body = body_of(alloc, short.trim_start())?;
            let length = body.len();
            Ok(format!(in alloc; "{line} HTTP/1.1\r\nContent-Length: {length}\r\n\r\n{body}")?)
        }
    }
}

/// The status line's end of a status.
fn status_of(status: &str) -> Result<&'static str, Fail> {
    match status {
        "200" => Ok("200 OK"),
        "400" => Ok("400 Bad Request"),
        "404" => Ok("404 Not Found"),
        "422" => Ok("422 Unprocessable Entity"),
        "503" => Ok("503 Service Unavailable"),
        _ => Err(Fail::from("no such status")),
    }
}

/// The text of a reply whose status and body are in a row.
pub fn reply_of(alloc: Global, short: &str) -> Result<String, Fail> {
    let (status, body) = parted(short, " ")?;
    let length = u32::try_from(body.len())?;
    reply(alloc, status_of(status)?, length, body)
}

/// Adds a text that is made for it.
fn push(text: &mut String, made: Result<String, Fail>) -> Result<(), Fail> {
    let made = made?;
    text.push_str(made.as_str())?;
    Ok(())
}

/// The first so many requests of a stream, one after the other, and the replies to them.
pub fn exchange(alloc: Global, rows: &'static str, count: usize) -> Result<(String, String), Fail> {
    let mut requests = String::new(alloc);
    let mut replies = String::new(alloc);
    for row in rows.trim_matches('\n').lines().take(count) {
        let (asked, replied) = parted(row, " => ")?;
        push(&mut requests, request(alloc, asked))?;
        push(&mut replies, reply_of(alloc, replied))?;
    }
    Ok((requests, replies))
}
