//! What a migration keeps. Where the store stops in its midst is in `stops.rt`.
use crate::asserts::expect_equal;
use crate::opening::FORMAT_ONE;
use sample_stores::{Lived, opened};
use sqlite::{Alter, Connection, MemStore};
use std::alloc::Global;
use std::test::Fail;
use tables::{Tables, migrate};

/// Parts of three projects, of which two have a dump, and the reply to the removal of a fourth.
const PARTS: &str =
    "INSERT INTO slot (project, part) VALUES ('app', 1), ('lib', 1), ('lib', 2), ('tagged', 2);\
    INSERT INTO keyed (project, cmdkey, reply) VALUES ('old', 'd1', '{\"removed\":true}');\
    INSERT INTO document (slot, uri) VALUES (1, 'file:///app.ts'), (2, 'file:///lib.ts');\
    INSERT INTO range_row (slot, line, uri, first, last) VALUES (1, 3, 'file:///app.ts', 0, 5)";

/// Queries of a migrated database, and how many rows each gives.
const KEPT: &[(&str, usize)] = &[
    ("SELECT version FROM format WHERE version = 2", 1),
    ("SELECT slot FROM part_profile", 2),
    (
        "SELECT slot FROM part_profile JOIN slot ON slot.id = part_profile.slot WHERE slot.part = 1 AND part_profile.profile = 1",
        2,
    ),
    ("SELECT line FROM more", 0),
    (
        "SELECT reply FROM keyed WHERE project = 'old' AND cmdkey = 'd1'",
        1,
    ),
    ("SELECT uri FROM document", 2),
    ("SELECT line FROM range_row", 1),
];

/// The first of these queries that gives another number of rows.
fn lost<S: Alter>(conn: &mut Connection<S>) -> Result<Option<&'static str>, Fail> {
    for (query, rows) in KEPT {
        if conn.query_all(*query, &[])?.len() != *rows {
            return Ok(Some(*query));
        }
    }
    Ok(None)
}

/// The connection that comes back where its opening is refused.
fn refused(conn: Connection<MemStore>) -> Result<Connection<MemStore>, Fail> {
    if !conn.is_autocommit() {
        return Err("in a transaction")?;
    }
    match Tables::open(conn) {
        Ok(_) => Err("opened")?,
        Err((_, conn)) => Ok(conn),
    }
}

/// Whether the migration of a database made format 2, and the connection afterwards.
fn migrated_once(conn: Connection<MemStore>) -> Result<(bool, Connection<MemStore>), Fail> {
    if !conn.is_autocommit() {
        return Err("in a transaction")?;
    }
    match migrate(conn) {
        Ok((tables, is_made)) => Ok((is_made, tables.into_connection())),
        Err(_) => Err("not migrated")?,
    }
}

/// A database of format 1 with these parts.
fn old(alloc: Global) -> Result<Connection<MemStore>, Fail> {
    let mut conn = Connection::open_in_memory(alloc)?;
    conn.execute_batch(FORMAT_ONE)?;
    conn.execute_batch(PARTS)?;
    Ok(conn)
}

#[test]
fn migrated(rt: HostRuntime) -> Result<(), Fail> {
    let conn = refused(old(rt.alloc())?)?;
    let (first, conn) = migrated_once(conn)?;
    let (second, conn) = migrated_once(conn)?;
    assert!(rt; first && !second);
    let mut conn = opened(conn)?.into_connection();
    assert_eq!(rt; lost(&mut conn)?, None);
    Ok(())
}

/// Indexes that stand in a database of format 1 already: those of format 2, in any order and on any
/// columns, and the owner's.
const STANDING: &[&str] = &[
    "CREATE INDEX range_by_start ON range_row (slot, uri, first, last DESC)",
    "CREATE INDEX bearer_by_key ON bearer (keytext, kind)",
    "CREATE INDEX tag_by_name ON tag (name, slot, line)",
    "CREATE INDEX tag_by_name ON tag (name, slot, line);\
     CREATE INDEX range_by_start ON range_row (slot, uri, first, last DESC);\
     CREATE INDEX bearer_by_key ON bearer (keytext, kind)",
    "CREATE INDEX tag_by_name ON document (uri)",
    "CREATE INDEX by_file ON tag (file)",
    "CREATE INDEX by_file ON tag (file);CREATE INDEX Tag_By_Name ON tag (name, slot, line)",
];

#[test]
fn migrates_with_indexes(rt: HostRuntime) -> Result<(), Fail> {
    for text in STANDING {
        let mut conn = old(rt.alloc())?;
        conn.execute_batch(*text)?;
        let (is_made, conn) = migrated_once(conn)?;
        let mut conn = opened(conn)?.into_connection();
        expect_equal(&rt, &(is_made, lost(&mut conn)?), &(true, None), text);
    }
    Ok(())
}

/// Migrates a database of format 1: 2 steps where it's of format 2 then, else 1 and the fault.
fn migrated_by<S: Alter + Drop>(conn: Connection<S>) -> Lived<S> {
    if !conn.is_autocommit() {
        return (0, None, conn);
    }
    match migrate(conn) {
        Ok((tables, _)) => (2, None, tables.into_connection()),
        Err((fault, conn)) => (1, Some(fault), conn),
    }
}

/// The same where tables of format 1 with these parts are made first; no step where they can't be
/// made.
pub(crate) fn made_and_migrated<S: Alter + Drop>(
    alloc: Global,
    mut conn: Connection<S>,
) -> Result<Lived<S>, Fail> {
    let text = format!(in alloc; "BEGIN;{FORMAT_ONE};{PARTS};COMMIT")?;
    if conn.execute_batch(&text).is_ok() {
        Ok(migrated_by(conn))
    } else {
        Ok((0, None, conn))
    }
}

/// Whether the tables that a connection shows can be migrated, and then have the rows of the parts.
pub(crate) fn is_migrated<S: Alter + Drop>(conn: Connection<S>) -> Result<bool, Fail> {
    if !conn.is_autocommit() {
        return Err("in a transaction")?;
    }
    match migrate(conn) {
        Ok((tables, _)) => Ok(lost(&mut tables.into_connection())?.is_none()),
        Err(_) => Ok(false),
    }
}
