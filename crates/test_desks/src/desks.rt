//! The tests of `desk`, over its public calls alone: requests to desks with their replies, and each
//! of its functions called once. They are here, since a crate with tests of its own is proved twice
//! by the gate.
use crate::asserts::expect_equal_text;
use crate::{commands, joins, queries};
use desk::{
    Command, Desk, DocUri, Key, PlainDesk, ProjectName, Query, Reply, Request, TableDesk,
    answer_law, judgement_law, read_number, reply_law, retry_law, run,
};
use lsif::{Profile, RequestKind};
use positions::Position;
use sample_stores::opened;
use samples::{dump_text, parted, there};
use sqlite::{Alter, Connection, MemStore};
use std::alloc::Global;
use std::process::Abort;
use std::test::Fail;

/// The first word, and what follows it.
pub(crate) fn cut(text: &'static str) -> (&'static str, &'static str) {
    text.split_once(' ').unwrap_or((text, ""))
}

/// The tags file that is written in short: `␉` represents a tab, `␍` CR, `␊` LF and `-` no text.
fn tags_text(alloc: Global, short: &str) -> Result<String, Fail> {
    let mut text = String::new(alloc);
    for sign in short.chars() {
        match sign {
            '-' => {}
            '␉' => text.push('\t')?,
            '␍' => text.push('\r')?,
            '␊' => text.push('\n')?,
            _ => text.push(sign)?,
        }
    }
    Ok(text)
}

/// What the request of a row uploads, if anything. A row is a request that is written in short:
/// - `put PROJECT KEY PROFILE DUMP`;
/// - `tags PROJECT KEY TEXT`, a tags file in short;
/// - `remove PROJECT KEY`;
/// - `definition PROJECT URL LINE:CHARACTER`, and `references`, `hover`, `declaration` and
///   `implementation` in the same way, with `no` at the end of references where the declaration
///   isn't asked for;
/// - `names` or `prefix` with a text and, where one is asked for, a project;
/// - `projects`, and `profile PROJECT`.
pub(crate) fn upload(alloc: Global, row: &'static str) -> Result<String, Fail> {
    let (verb, rest) = cut(row);
    let (_, rest) = cut(rest);
    let (_, rest) = cut(rest);
    match verb {
        "put" => {
            let (_, dump) = cut(rest);
            dump_text(alloc, dump)
        }
        "tags" => tags_text(alloc, rest),
        _ => Ok(String::new(alloc)),
    }
}

pub(crate) fn project(alloc: Global, text: &str) -> Result<ProjectName, Fail> {
    there(ProjectName::read(alloc, text)?, "no project's name")
}

/// The command with this body.
pub(crate) fn command<'a>(
    alloc: Global,
    verb: &str,
    rest: &'static str,
    body: &'a [u8],
) -> Result<Command<'a>, Fail> {
    let (name, rest) = cut(rest);
    let (key, rest) = cut(rest);
    let project = project(alloc, name)?;
    let key = there(Key::read(alloc, key)?, "no key")?;
    let profile = if rest.starts_with('2') {
        Profile::Two
    } else {
        Profile::One
    };
    Ok(match verb {
        "put" => Command::PutDump {
            project,
            key,
            profile,
            body,
        },
        "tags" => Command::PutTags { project, key, body },
        _ => Command::Remove { project, key },
    })
}

/// The kind of request that a word says.
fn kind(verb: &str) -> RequestKind {
    match verb {
        "definition" => RequestKind::Definition,
        "references" => RequestKind::References,
        "hover" => RequestKind::Hover,
        "declaration" => RequestKind::Declaration,
        _ => RequestKind::Implementation,
    }
}

/// The position that is written as `2:1`.
fn position(place: &str) -> Result<Position, Fail> {
    let (line, character) = parted(place, ":")?;
    let line = there(read_number(line), "no line")?;
    let character = there(read_number(character), "no character")?;
    there(Position::new(line, character), "no position")
}

/// The query at a position.
fn query_at(alloc: Global, verb: &str, rest: &'static str) -> Result<Query, Fail> {
    let (name, rest) = cut(rest);
    let (uri, rest) = cut(rest);
    let (place, choice) = cut(rest);
    let (kind, at) = (kind(verb), position(place)?);
    let project = project(alloc, name)?;
    let uri = there(DocUri::read(alloc, uri)?, "no URL")?;
    match choice {
        "" => Ok(Query::At {
            kind,
            project,
            uri,
            at,
        }),
        _ => Ok(Query::References {
            project,
            uri,
            at,
            declaration: choice != "no",
        }),
    }
}

/// The query for tags.
fn tags_query(alloc: Global, verb: &str, rest: &'static str) -> Result<Query, Fail> {
    let (text, asked) = match rest.split_once(' ') {
        Some((text, name)) => (text, Some(project(alloc, name)?)),
        None => (rest, None),
    };
    let text = String::from_str(alloc, text)?;
    Ok(match verb {
        "names" => Query::Names {
            name: text,
            project: asked,
        },
        _ => Query::Prefix {
            prefix: text,
            project: asked,
        },
    })
}

/// The request of a row, which uploads this body if it uploads anything.
fn request<'a>(alloc: Global, row: &'static str, body: &'a str) -> Result<Request<'a>, Fail> {
    let (verb, rest) = cut(row);
    Ok(match verb {
        "put" | "tags" | "remove" => {
            Request::Command(command(alloc, verb, rest, body.as_bytes())?)
        }
        "names" | "prefix" => Request::Query(tags_query(alloc, verb, rest)?),
        "projects" => Request::Query(Query::Projects),
        "profile" => Request::Query(Query::Profile {
            project: project(alloc, rest)?,
        }),
        _ => Request::Query(query_at(alloc, verb, rest)?),
    })
}

/// The reply's status and body.
pub(crate) fn text_of(alloc: Global, reply: &Reply) -> Result<String, Fail> {
    Ok(format!(in alloc; "{} {}", reply.status(), reply.body())?)
}

/// The status and the body of the reply to a request.
pub(crate) fn served<D: Desk>(
    alloc: Global,
    desk: &mut D,
    request: &Request<'_>,
) -> Result<String, Fail> {
    let reply = match request {
        Request::Command(command) => desk.apply(command),
        Request::Query(query) => desk.ask(query),
    };
    text_of(alloc, &reply)
}

/// The status and the body of the reply to the request of a row.
pub(crate) fn reply_to<D: Desk>(
    alloc: Global,
    desk: &mut D,
    row: &'static str,
) -> Result<String, Fail> {
    let body = upload(alloc, row)?;
    let request = request(alloc, row, body.as_str())?;
    let found = served(alloc, desk, &request);
    drop(request);
    found
}

/// A desk over the tables of a new database in memory.
pub(crate) fn table_desk(alloc: Global) -> Result<TableDesk<MemStore>, Fail> {
    Ok(TableDesk::new(alloc, opened(Connection::open_in_memory(alloc)?)?))
}

/// Asserts the replies of new desks, one that keeps dumps in memory and one over tables: below each
/// row are the status and the body of its reply.
pub(crate) fn expect_replies<R: AllocGlobal + Abort>(
    rt: &R,
    scenario: &'static str,
) -> Result<(), Fail> {
    expect_of(rt, &mut PlainDesk::new(rt.alloc()), scenario)?;
    expect_of_tables(rt, &mut table_desk(rt.alloc())?, scenario)
}

/// Asserts the replies of a new desk over tables.
fn expect_of_tables<R: AllocGlobal + Abort, S: Alter>(
    rt: &R,
    desk: &mut TableDesk<S>,
    scenario: &'static str,
) -> Result<(), Fail> {
    expect_of(rt, desk, scenario)
}

/// Asserts the replies of a new desk.
fn expect_of<R: AllocGlobal + Abort, D: Desk>(
    rt: &R,
    desk: &mut D,
    scenario: &'static str,
) -> Result<(), Fail> {
    let mut found = String::new(rt.alloc());
    for (k, line) in scenario.lines().enumerate() {
        if k % 2 == 0 {
            found = reply_to(rt.alloc(), desk, line)?;
        } else {
            expect_equal_text(rt, found.as_str(), line, scenario);
        }
    }
    Ok(())
}

/// What each of the rows uploads.
pub(crate) fn uploads(alloc: Global, rows: &'static str) -> Result<Vec<String>, Fail> {
    let mut texts = Vec::new(alloc);
    for row in rows.lines() {
        texts.push(upload(alloc, row)?)?;
    }
    Ok(texts)
}

/// The requests of the rows, with what each uploads.
pub(crate) fn requests<'a>(
    alloc: Global,
    rows: &'static str,
    uploads: &'a [String],
) -> Result<Vec<Request<'a>>, Fail> {
    let mut requests = Vec::new(alloc);
    for (k, row) in rows.lines().enumerate() {
        let body = there(uploads.get(k), "no upload")?;
        requests.push(request(alloc, row, body.as_str())?)?;
    }
    Ok(requests)
}

/// The statuses and the bodies of the replies of a new desk to these requests, which are run
/// together, one a line.
fn run_all(alloc: Global, requests: &[Request<'_>]) -> Result<String, Fail> {
    let Ok(replies) = run(alloc, &mut PlainDesk::new(alloc), requests) else {
        return Err(Fail::from("out of memory"));
    };
    let mut texts = String::new(alloc);
    for reply in &replies {
        texts.push_str(text_of(alloc, reply)?.as_str())?;
        texts.push('\n')?;
    }
    Ok(texts)
}

/// The same for each of these.
fn expect_all<R: AllocGlobal + Abort>(rt: &R, scenarios: &[&'static str]) -> Result<(), Fail> {
    for scenario in scenarios {
        expect_replies(rt, *scenario)?;
    }
    Ok(())
}

/// Commands, queries at positions, and queries that other projects answer, too.
#[test]
fn replies(rt: HostRuntime) -> Result<(), Fail> {
    expect_all(&rt, commands::SCENARIOS)?;
    expect_all(&rt, queries::SCENARIOS)?;
    expect_all(&rt, joins::SCENARIOS)
}

#[test]
fn run_of_requests(rt: HostRuntime) -> Result<(), Fail> {
    let rows = "definition app file:///a.ts 2:1
put app k1 1 base
definition app file:///a.ts 2:1
put app k2 1 brace
definition app file:///b.ts 2:1
definition app file:///a.ts 2:3
names x
tags app k2 x␉f.c␉1␊
remove app k3
projects
definition lib file:///a.ts 2:1";
    let wanted = r#"404 {"fault":"D01","text":"project has no dump"}
200 {"accepted":"lsif","count":11}
200 {"places":[{"end":{"character":7,"line":0},"project":"app","start":{"character":4,"line":0},"uri":"file:///a.ts"}]}
422 {"fault":"L02","line":1,"text":"not JSON"}
404 {"fault":"D02","text":"no such document"}
200 {"places":[]}
200 {"tags":[]}
200 {"accepted":"tags","count":1}
200 {"removed":true}
200 {"projects":[]}
404 {"fault":"D01","text":"project has no dump"}
"#;
    let uploads = uploads(rt.alloc(), rows)?;
    let requests = requests(rt.alloc(), rows, &uploads)?;
    let found = run_all(rt.alloc(), &requests)?;
    expect_equal_text(&rt, found.as_str(), wanted, "run");
    judgement_law();
    answer_law();
    reply_law();
    retry_law();
    Ok(())
}
