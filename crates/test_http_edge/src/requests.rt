//! What request lines ask of a desk, and the routes of paths. In a table's row `=>` comes before
//! what is asked.
ghost use Rattle.std.specs.Prelude.{◌≡◌, is_err, true};

use crate::asserts::expect_equal_text;
use http_edge::serve_stream;
use lsif::RequestKind;
use machine::{Change, Command, Desk, DocUri, Key, ProjectName, Query, Reply, Upload};
use positions::Position;
use samples::{Slow, parted, slow_writer};
use std::alloc::{AllocError, Global};
use std::process::Abort;
use std::test::Fail;
use streams::Counted;

/// The request behind an upload.
const NEXT: &str = "GET /projects HTTP/1.1\r\nContent-Length: 0\r\n\r\n";

/// Uploads, the lengths of their bodies, of which 20,000 bytes come, and what is said to them and
/// to the request behind them.
const KEPT: &[(&str, usize, &str)] = &[
    (
        "PUT /projects/app/lsif?key=kept",
        20_000,
        "kept app; projects; ",
    ),
    (
        "PUT /projects/b/lsif?key=kept&profile=2",
        20_000,
        "kept b; projects; ",
    ),
    (
        "PUT /projects/app/tags?key=kept",
        20_000,
        "kept app; projects; ",
    ),
    (
        "PUT /projects/app/lsif?key=kept&profile=3",
        20_000,
        "D03; projects; ",
    ),
    (
        "PUT /projects/app/lsif?key=kept&key=kept",
        20_000,
        "D03; projects; ",
    ),
    ("PUT /projects/app/lsif?key=kept", 30_000, "H05; "),
    ("PUT /projects/app/lsif?key=kept", 33_554_433, "H04; "),
    (
        "PUT /projects/app/lsif?key=kept2",
        20_000,
        "L02; projects; ",
    ),
    (
        "PUT /projects/app/tags?key=kept2",
        20_000,
        "T04; projects; ",
    ),
];

/// Queries and removals, and what is refused before the desk.
const ASKED: &str = r#"
GET /projects => projects
GET /projects?project=App&project=b => projects
GET /projects/app/profile => profile app
GET /projects/app/profile?line=01 => profile app
GET /projects/APP/profile => D03
DELETE /projects/app?key=k1 => remove app k1
DELETE /projects/app?key=A-Z_9&profile=3&profile=4 => remove app A-Z_9
DELETE /projects/app => D03
DELETE /projects/app? => D03
DELETE /projects/app?key= => D03
DELETE /projects/app?key=k.1 => D03
DELETE /projects/app?key=k1&key=k1 => D03
DELETE /projects/app?%6bey=x&key=x => D03
DELETE /projects/app?%6bey=x => remove app x
DELETE /projects/app%2D?key=k1 => D03
GET /projects/app => H07 DELETE
GET /projects/APP?key=k1&key=k1 => H07 DELETE
PUT /projects?key=k1 => H07 GET
POST /projects/app/tags => H07 PUT
DELETE /projects/app/profile => H07 GET
PUT /names?name=a => H07 GET
GET /project => H06
GET /names/a?name=a => H06
GET /projects/app/definitions?uri=file:///a.ts&line=2&character=1 => H06
"#;

/// Queries at a position: the part of the target after the project.
const AT_POSITION: &str = r#"
definition?uri=file:///a.ts&line=2&character=1 => definition app file:///a.ts 2:1
hover?uri=file:///a.ts&line=2&character=1 => hover app file:///a.ts 2:1
declaration?uri=file:///a.ts&line=2&character=1 => declaration app file:///a.ts 2:1
implementation?uri=file:///a.ts&line=2&character=1 => implementation app file:///a.ts 2:1
references?uri=file:///a.ts&line=2&character=1 => references app file:///a.ts 2:1 with the declaration
references?uri=file:///a.ts&line=2&character=1&declaration=yes => references app file:///a.ts 2:1 with the declaration
references?uri=file:///a.ts&line=2&character=1&declaration=no => references app file:///a.ts 2:1 without the declaration
references?uri=file:///a.ts&line=2&character=1&declaration=maybe => D03
references?uri=file:///a.ts&line=2&character=1&declaration= => D03
references?uri=file:///a.ts&line=2&character=1&declaration=no&declaration=no => D03
references?uri=file:///a.ts&declaration=no => D03
definition?uri=file:///a.ts&line=2&character=1&declaration=maybe => definition app file:///a.ts 2:1
hover?character=0&x=1&x=2&line=2147483647&uri=FILE:/b/../a.ts => hover app file:///a.ts 2147483647:0
hover?uri=file%3A%2F%2F%2Fa.ts&%6cine=2&character=1 => hover app file:///a.ts 2:1
definition => D03
hover?uri=file:///a.ts&line=2 => D03
hover?uri=file:///a.ts&character=1 => D03
hover?line=2&character=1 => D03
hover?uri=a.ts&line=2&character=1 => D03
hover?uri=http://a:99999/&line=2&character=1 => D03
declaration?uri=file:///a.ts&line=01&character=1 => D03
declaration?uri=file:///a.ts&line=2147483648&character=1 => D03
implementation?uri=file:///a.ts&line=2&character=+1 => D03
implementation?uri=file:///a.ts&line=2&line=2&character=1 => D03
definition?uri=file:///a.ts&line=2&character=1&character=1 => D03
definition?uri=file:///a.ts&uri=file:///a.ts&line=2&character=1 => D03
"#;

/// Queries of tags: the query of the target.
const OF_TAGS: &str = r#"
name=a => names a in all
prefix=a => prefix a in all
name=a&project=zed => names a in zed
prefix=a%20b&project=zed => prefix a b in zed
prefix=a+b&x=1&x=2 => prefix a b in all
name=a&prefix=a => D03
name=a&name=a => D03
prefix=a&prefix=b => D03
name=a&prefix=a&prefix=b => D03
project=zed => D03
name= => D03
prefix= => D03
name => D03
name=&prefix=a => D03
name=%00 => D03
prefix=a%00b => D03
name=a&project=ZED => D03
name=a&project= => D03
name=a&project=zed&project=zed => D03
"#;

/// Paths, each after the method that its route takes, where it has one; and what is asked with all
/// parameters. A segment is the text between two slashes (RFC 3986, section 3.3), and its escapes
/// stay as they are.
const ROUTES: &str = r#"
PUT /projects/app/lsif => L06
PUT /projects/app/tags => tags app k1
DELETE /projects/app => remove app k1
GET /projects/app/definition => definition app file:///a.ts 2:1
GET /projects/app/references => references app file:///a.ts 2:1 with the declaration
GET /projects/app/hover => hover app file:///a.ts 2:1
GET /projects/app/declaration => declaration app file:///a.ts 2:1
GET /projects/app/implementation => implementation app file:///a.ts 2:1
GET /projects/app/profile => profile app
GET /names => names a in all
GET /projects => projects
DELETE /projects/lsif => remove lsif k1
PUT /projects/lsif/tags => tags lsif k1
GET /projects/{p}/hover => D03
PUT /projects/a%2D/lsif => D03
GET /projects/ => H06
GET /projects//lsif => H06
GET /projects/a/b => H06
GET /projects/a/ => H06
GET /projects/a/lsif/ => H06
GET /projects/a/lsi => H06
GET /projects/a/b/lsif => H06
GET /Projects => H06
GET projects => H06
GET /names/ => H06
GET /names/x => H06
GET /name => H06
GET / => H06
"#;

/// The parameters that routes take, each once.
const PARAMETERS: &str = "?key=k1&uri=file:///a.ts&line=2&character=1&name=a";

/// The method that each route takes.
const METHODS: &str = r#"
/projects/app/lsif => H07 PUT
/projects/app/tags => H07 PUT
/projects/app => H07 DELETE
/projects/app/definition => H07 GET
/projects/app/references => H07 GET
/projects/app/hover => H07 GET
/projects/app/declaration => H07 GET
/projects/app/implementation => H07 GET
/projects/app/profile => H07 GET
/names => H07 GET
/projects => H07 GET
/projects/{p}/hover => H07 GET
/projects/a%2D/lsif => H07 PUT
/projects/a/b => H06
"#;

/// A query at a position, as tables write it.
fn at_position(
    alloc: Global,
    name: &str,
    project: &ProjectName,
    uri: &DocUri,
    at: &Position,
) -> Result<String, AllocError> {
    format!(in alloc;
        "{name} {} {} {}:{}",
        project.as_str(),
        uri.as_str(),
        at.line(),
        at.character()
    )
}

/// A query of tags, as tables write it.
fn of_tags(
    alloc: Global,
    name: &str,
    text: &str,
    project: &Option<ProjectName>,
) -> Result<String, AllocError> {
    let project = match project {
        Some(project) => project.as_str(),
        None => "all",
    };
    format!(in alloc; "{name} {text} in {project}")
}

/// The word of a kind of requests.
fn word(kind: RequestKind) -> &'static str {
    match kind {
        RequestKind::Definition => "definition",
        RequestKind::References => "references",
        RequestKind::Hover => "hover",
        RequestKind::Declaration => "declaration",
        RequestKind::Implementation => "implementation",
    }
}

/// A query, as tables write it.
fn query_text(alloc: Global, query: &Query) -> Result<String, AllocError> {
    match query {
        Query::At {
            kind,
            project,
            uri,
            at,
        } => at_position(alloc, word(*kind), project, uri, at),
        Query::References {
            project,
            uri,
            at,
            declaration,
        } => {
            let mut text = at_position(alloc, "references", project, uri, at)?;
            text.push_str(if *declaration {
                " with the declaration"
            } else {
                " without the declaration"
            })?;
            Ok(text)
        }
        Query::Names { name, project } => of_tags(alloc, "names", name.as_str(), project),
        Query::Prefix { prefix, project } => of_tags(alloc, "prefix", prefix.as_str(), project),
        Query::Projects => String::from_str(alloc, "projects"),
        Query::Profile { project } => format!(in alloc; "profile {}", project.as_str()),
    }
}

/// What an upload asks of a desk, as tables write it. An empty dump is refused. Where the upload
/// lacked memory, so does this.
fn upload_text(alloc: Global, upload: Upload) -> Result<Reply, AllocError>
    ensures { upload.body.is_out_of_memory ≡ true → is_err result ≡ true }
{
    let Upload { project, key, body } = upload;
    let kind = match body.finish()? {
        Ok(Change::SetDump(_)) => "lsif",
        Ok(Change::SetTags(_)) => "tags",
        Ok(Change::Clear) => "remove",
        Err(refusal) => return Ok(refusal),
    };
    let text = format!(in alloc; "{kind} {} {}", project.as_str(), key.as_str())?;
    Ok(Reply::made(200, text))
}

/// A desk that answers each request by what is asked, as tables write it. In each project it knows
/// the reply to the key `kept` and to no other, and promises nothing of what it represents.
#[derive(Drop)]
struct Recorder {
    alloc: Global,
}

impl Desk for Recorder {
    ghost use Rattle.std.specs.Prelude.{false};

    ghost stands = { λ _ _. ⊥ };

    ghost may_leave = { λ _ _. Unit {0} };

    ghost store_may_refuse = { false };

    ghost is_reliable = { λ _. ⊥ };

    fn apply(&mut self, command: &Command<'_>) -> Reply {
        let (project, key) = (command.project().as_str(), command.key().as_str());
        match format!(in self.alloc; "remove {project} {key}") {
            Ok(text) => Reply::made(200, text),
            Err(_) => Reply::out_of_memory(),
        }
    }

    fn kept_reply(&mut self, project: &ProjectName, key: &Key) -> Option<Reply> {
        if key.as_str() != "kept" {
            return None;
        }
        match format!(in self.alloc; "kept {}", project.as_str()) {
            Ok(text) => Some(Reply::made(200, text)),
            Err(_) => Some(Reply::out_of_memory()),
        }
    }

    fn finish_upload(&mut self, upload: Upload) -> Reply {
        match upload_text(self.alloc, upload) {
            Ok(reply) => reply,
            Err(_) => Reply::out_of_memory(),
        }
    }

    fn ask(&mut self, query: &Query) -> Reply {
        match query_text(self.alloc, query) {
            Ok(text) => Reply::made(200, text),
            Err(_) => Reply::out_of_memory(),
        }
    }

    ghost weaker = { λ _ _ _ _. tt };
}

/// What a reply says: the code of a refusal, with the method that the route takes; or what is
/// asked.
fn said(alloc: Global, reply: &str) -> Result<String, Fail> {
    let (head, body) = parted(reply, "\r\n\r\n")?;
    let Some(fault) = body.strip_prefix("{\"fault\":\"") else {
        return Ok(String::from_str(alloc, body)?);
    };
    let (code, _) = parted(fault, "\"")?;
    match head.split_once("Allow: ") {
        Some((_, rest)) => {
            let (method, _) = parted(rest, "\r\n")?;
            Ok(format!(in alloc; "{code} {method}")?)
        }
        None => Ok(String::from_str(alloc, code)?),
    }
}

/// The replies to the requests of a stream, two at most.
fn replies_to(alloc: Global, stream: &str) -> Result<String, Fail> {
    let mut reader = Counted::new(stream.as_bytes());
    let mut writer = Counted::new(slow_writer(alloc, 1_000_000, 0));
    if serve_stream(alloc, &mut Recorder { alloc }, &mut reader, &mut writer, 2).is_err() {
        return Err("not served")?;
    }
    let Slow { taken, .. } = writer.into_inner();
    let text = str::from_utf8(&taken).unwrap_or("not UTF-8");
    Ok(String::from_str(alloc, text)?)
}

/// What a request line without its version asks.
fn asked(alloc: Global, line: &str) -> Result<String, Fail> {
    let request = format!(in alloc; "{line} HTTP/1.1\r\nContent-Length: 0\r\n\r\n")?;
    let replies = replies_to(alloc, request.as_str())?;
    said(alloc, replies.as_str())
}

/// What is said in turn to an upload of so many bytes, of which 20,000 come, and then to the
/// request behind it.
fn said_in_turn(alloc: Global, line: &str, length: usize) -> Result<String, Fail> {
    let body = "x".repeat(alloc, 20_000)?;
    let stream = format!(in alloc;
        "{line} HTTP/1.1\r\nContent-Length: {length}\r\n\r\n{body}{NEXT}"
    )?;
    let replies = replies_to(alloc, stream.as_str())?;
    let mut found = String::new(alloc);
    for reply in replies.as_str().split("HTTP/1.1 ") {
        if !reply.is_empty() {
            let text = said(alloc, reply)?;
            found.push_str(text.as_str())?;
            found.push_str("; ")?;
        }
    }
    Ok(found)
}

/// The same of a request line of three parts.
fn asked_between(alloc: Global, before: &str, part: &str, behind: &str) -> Result<String, Fail> {
    let line = format!(in alloc; "{before}{part}{behind}")?;
    asked(alloc, line.as_str())
}

/// Asserts what the rows of a table ask, which have these texts before and after them in the
/// request line.
fn expect_asked<R: AllocGlobal + Abort>(
    rt: &R,
    before: &str,
    table: &str,
    behind: &str,
) -> Result<(), Fail> {
    for row in table.trim_matches('\n').lines() {
        let (part, wanted) = parted(row, " => ")?;
        let found = asked_between(rt.alloc(), before, part, behind)?;
        expect_equal_text(rt, found.as_str(), wanted, part);
    }
    Ok(())
}

#[test]
fn requests(rt: HostRuntime) -> Result<(), Fail> {
    expect_asked(&rt, "", ASKED, "")?;
    expect_asked(&rt, "GET /projects/app/", AT_POSITION, "")?;
    expect_asked(&rt, "GET /names?", OF_TAGS, "")?;
    expect_asked(&rt, "", ROUTES, PARAMETERS)?;
    expect_asked(&rt, "POST ", METHODS, PARAMETERS)
}

/// Uploads whose key is kept have the kept reply, whatever body comes: it's read and dropped, and
/// what follows it is the next request. Refusals of the head, of parameters and of a body that is
/// cut go before.
#[test]
fn kept_keys(rt: HostRuntime) -> Result<(), Fail> {
    for &(line, length, wanted) in KEPT {
        let found = said_in_turn(rt.alloc(), line, length)?;
        expect_equal_text(&rt, found.as_str(), wanted, line);
    }
    Ok(())
}
