//! Databases in files: what a second start answers, and what a migration keeps.
use calls::{close_connection, connect_file, migrate_file, replay_file};
use samples::{Slow, exchange, in_pieces, slow_writer};
use sqlite::{Alter, Connection, Unknown};
use std::fs;
use std::test::Fail;
use streams::Counted;
use tables::TablesFault;

/// Uploads of two dumps under two keys, the first of them a second time, and what is found then;
/// written as streams of requests are in `samples`.
const TWICE: &str = r#"
PUT /projects/app/lsif?key=k1 < base => 200 {"accepted":"lsif","count":11}
PUT /projects/app/lsif?key=k2 < base | 3 range 0:5 0:7 => 200 {"accepted":"lsif","count":11}
PUT /projects/app/lsif?key=k1 < base => 200 {"accepted":"lsif","count":11}
GET /projects/app/definition?uri=file:///a.ts&line=2&character=1 => 200 {"places":[{"end":{"character":7,"line":0},"project":"app","start":{"character":5,"line":0},"uri":"file:///a.ts"}]}
"#;

/// What the second start finds, before any upload.
const FOUND: &str = r#"
GET /projects => 200 {"projects":[{"dump":true,"name":"app","tags":false}]}
GET /projects/app/definition?uri=file:///a.ts&line=2&character=1 => 200 {"places":[{"end":{"character":7,"line":0},"project":"app","start":{"character":5,"line":0},"uri":"file:///a.ts"}]}
"#;

/// Two projects, one of which imports what the other exports, and a third that is removed.
const BEFORE: &str = r#"
PUT /projects/app/lsif?key=k1 < import => 200 {"accepted":"lsif","count":8}
PUT /projects/lib/lsif?key=k1 < export => 200 {"accepted":"lsif","count":11}
PUT /projects/lib/tags?key=k2 < tags a>f.c>1 => 200 {"accepted":"tags","count":1}
PUT /projects/old/tags?key=k1 < tags b>f.c>1 => 200 {"accepted":"tags","count":1}
DELETE /projects/old?key=d1 => 200 {"removed":true}
"#;

/// What their database finds after a migration.
const AFTER: &str = r#"
GET /projects/app/definition?uri=file:///app.ts&line=1&character=0 => 200 {"places":[{"end":{"character":10,"line":0},"project":"lib","start":{"character":9,"line":0},"uri":"file:///lib.ts"}]}
DELETE /projects/old?key=d1 => 200 {"removed":true}
GET /projects/lib/profile => 200 {"profile":1}
GET /projects => 200 {"projects":[{"dump":true,"name":"app","tags":false},{"dump":true,"name":"lib","tags":true}]}
GET /names?name=a => 200 {"tags":[{"address":"1","fields":[],"file":"f.c","kind":null,"line":1,"name":"a","project":"lib"}]}
"#;

/// The statements that make format 1 of format 2.
const BACK: &str =
    "DROP INDEX range_by_start; DROP INDEX bearer_by_key; DROP INDEX tag_by_name; DROP TABLE part_profile; DROP TABLE more; UPDATE format SET version = 1";

/// What is written for the requests of a stream over the database in this file.
fn replayed(
    rt: &HostRuntime,
    path: &str,
    requests: &str,
) -> Result<Result<Vec<u8>, TablesFault>, Fail> {
    let mut r = Counted::new(in_pieces(requests.as_bytes(), 100));
    let mut w = Counted::new(slow_writer(rt.alloc(), 1_000_000, 0));
    match replay_file(rt, path, Unknown, &mut r, &mut w) {
        Ok((_, conn)) => close_connection(conn),
        Err(fault) => return Ok(Err(fault)),
    }
    let Slow { taken, .. } = w.into_inner();
    Ok(Ok(taken))
}

/// What is written for the requests of these rows over the database in this file, and what is to
/// be.
fn written(rt: &HostRuntime, path: &str, rows: &'static str) -> Result<(String, String), Fail> {
    let (requests, replies) = exchange(rt.alloc(), rows, usize::MAX)?;
    match replayed(rt, path, requests.as_str())? {
        Ok(found) => {
            let found = str::from_utf8(&found).unwrap_or("not UTF-8");
            Ok((String::from_str(rt.alloc(), found)?, replies))
        }
        Err(fault) => Err(fault)?,
    }
}

/// What is written for them where it isn't what is to be.
fn other(rt: &HostRuntime, path: &str, rows: &'static str) -> Result<Option<String>, Fail> {
    let (found, wanted) = written(rt, path, rows)?;
    Ok((found.as_str() != wanted.as_str()).then_some(found))
}

#[test]
fn same_file_twice(rt: HostRuntime) -> Result<(), Fail> {
    for &rows in &[TWICE, FOUND, TWICE, FOUND] {
        assert_eq!(rt; other(&rt, "twice.db", rows)?, None);
    }
    Ok(())
}

/// Runs statements over a connection.
fn run<S: Alter>(conn: &mut Connection<S>, statements: &str) -> Result<(), Fail> {
    conn.execute_batch(statements)?;
    Ok(())
}

/// Runs statements over the database in this file.
fn change(rt: &HostRuntime, path: &str, statements: &str) -> Result<(), Fail> {
    match connect_file(rt, path, Unknown) {
        Ok(mut conn) => {
            let done = run(&mut conn, statements);
            close_connection(conn);
            done
        }
        Err(fault) => Err(fault)?,
    }
}

/// How many projects a migration of the database in this file counts.
fn counted(rt: &HostRuntime, path: &str) -> Result<Option<usize>, TablesFault> {
    let (count, conn) = migrate_file(rt, path, Unknown)?;
    close_connection(conn);
    Ok(count)
}

/// What is done with the database in a file, and what is found then.
enum Step {
    /// A migration, and how many projects it counts.
    Migration(Result<Option<usize>, TablesFault>),
    /// Statements over it.
    Change(&'static str),
    /// Requests and their replies.
    Exchange(&'static str),
    /// It isn't opened, since it's of format 1.
    IsOld,
}

/// A database without tables is refused, and two projects are migrated once.
const STEPS: &[Step] = &[
    Step::Change(""),
    Step::Migration(Err(TablesFault::Foreign)),
    Step::Exchange(BEFORE),
    Step::Migration(Ok(None)),
    Step::Change(BACK),
    Step::IsOld,
    Step::Migration(Ok(Some(2))),
    Step::Exchange(AFTER),
    Step::Migration(Ok(None)),
];

/// Whether that is found.
fn is_found(rt: &HostRuntime, path: &str, step: &Step) -> Result<bool, Fail> {
    match step {
        Step::Migration(wanted) => Ok(counted(rt, path) == *wanted),
        Step::Change(statements) => {
            change(rt, path, *statements)?;
            Ok(true)
        }
        Step::Exchange(rows) => Ok(other(rt, path, *rows)?.is_none()),
        Step::IsOld => Ok(replayed(rt, path, "")? == Err(TablesFault::OldFormat)),
    }
}

/// A database that isn't there is refused, and isn't made.
#[test]
fn migrated(rt: HostRuntime) -> Result<(), Fail> {
    let path = "migrated.db";
    assert_eq!(rt; counted(&rt, path), Err(TablesFault::Foreign));
    assert!(rt; !fs::exists(&rt, path)?);
    for (k, step) in STEPS.iter().enumerate() {
        assert!(rt; is_found(&rt, path, step)?, "{k}");
    }
    Ok(())
}
