//! Stores that stop at a call, in the midst of changes of the tables and of a migration: what is
//! answered, and what a new start finds.
use crate::changes::{ROWS, Step, TAGS, held, rows_after, take};
use crate::migrated::{is_migrated, made_and_migrated};
use sample_stores::{Lived, connected, files_of, fuses, opened, reopened};
use sqlite::{Alter, Connection, Files};
use sqlite_disk::{Fuse, Memory};
use std::alloc::Global;
use std::process::Abort;
use std::test::Fail;
use tables::{Tables, TablesFault};

/// Takes the steps until one is refused: how many were accepted, and the fault of the next.
fn take_steps<S: Alter>(
    alloc: Global,
    tables: &mut Tables<S>,
) -> Result<(usize, Option<TablesFault>), Fail> {
    for (taken, row) in ROWS.iter().enumerate() {
        if let Err(fault) = take(alloc, tables, row.step, row.key)? {
            return Ok((taken, Some(fault)));
        }
    }
    Ok((ROWS.len(), None))
}

/// Opens the tables and takes the steps until one is refused.
fn steps_taken<S: Alter + Drop>(alloc: Global, conn: Connection<S>) -> Result<Lived<S>, Fail> {
    if !conn.is_autocommit() {
        return Err("in a transaction")?;
    }
    match Tables::open(conn) {
        Ok(mut tables) => {
            let (count, fault) = take_steps(alloc, &mut tables)?;
            Ok((count, fault, tables.into_connection()))
        }
        Err((fault, conn)) => Ok((0, Some(fault), conn)),
    }
}

/// Whether the tables that a connection shows have the rows after so many steps, or after one more.
fn have_taken<S: Alter + Drop>(
    alloc: Global,
    conn: Connection<S>,
    steps: usize,
) -> Result<bool, Fail> {
    let mut conn = opened(conn)?.into_connection();
    let counts = held(alloc, &mut conn)?;
    let counts = counts.as_slice();
    Ok(
        counts == rows_after(steps).as_slice()
            || (steps < ROWS.len() && counts == rows_after(steps + 1).as_slice()),
    )
}

/// What the first call answers that is refused, of a put of tags and a selection.
fn refused<S: Alter>(alloc: Global, tables: &mut Tables<S>) -> Result<Option<TablesFault>, Fail> {
    match take(alloc, tables, Step::Tags("app", TAGS), "k1")? {
        Ok(_) => Ok(tables.projects(alloc).err()),
        Err(fault) => Ok(Some(fault)),
    }
}

/// Opens the tables, of a database in memory or another, and makes these two calls: 2 steps where
/// neither is refused, 1 where one is, and none where the tables aren't opened.
fn first_calls<S: Alter + Drop>(
    alloc: Global,
    conn: Connection<S>,
    is_in_memory: bool,
) -> Result<Lived<S>, Fail> {
    if !conn.is_autocommit() {
        return Err("in a transaction")?;
    }
    let mut tables = match Tables::open(conn) {
        Ok(tables) => tables,
        Err((_, conn)) => return Ok((0, None, conn)),
    };
    if is_in_memory {
        tables = tables.in_memory();
    }
    let fault = refused(alloc, &mut tables)?;
    let count = if fault.is_some() { 1 } else { 2 };
    Ok((count, fault, tables.into_connection()))
}

/// What is done until the store stops.
#[derive(Clone, Copy)]
enum Life {
    /// Parts are replaced and removed.
    Changes,
    /// A database of format 1 is made and migrated.
    Migration,
    /// Tags are put and the projects are asked for, in a database in memory or another.
    FirstCalls { is_in_memory: bool },
}

/// How far the life comes over this connection.
fn lived<S: Alter + Drop>(
    alloc: Global,
    conn: Connection<S>,
    life: Life,
) -> Result<Lived<S>, Fail> {
    match life {
        Life::Changes => steps_taken(alloc, conn),
        Life::Migration => made_and_migrated(alloc, conn),
        Life::FirstCalls { is_in_memory } => first_calls(alloc, conn, is_in_memory),
    }
}

/// Whether a new connection shows what a life leaves that came so far. Of a database of format 1
/// that couldn't be made nothing is said, nor of the first calls.
fn is_whole<S: Alter + Drop>(
    alloc: Global,
    conn: Connection<S>,
    life: Life,
    count: usize,
) -> Result<bool, Fail> {
    match life {
        Life::Changes => have_taken(alloc, conn, count),
        Life::Migration if count > 0 => is_migrated(conn),
        Life::Migration | Life::FirstCalls { .. } => Ok(true),
    }
}

/// How many steps of a life were accepted, the fault of the next, and the files.
type Stopped = (usize, Option<TablesFault>, Files<Fuse<Memory>>);

/// A life over new files in memory that stop after so many calls of the log and of the other.
fn stopped(alloc: Global, life: Life, log: u64, db: u64) -> Result<Stopped, Fail> {
    match connected(alloc, log, db) {
        Ok(conn) => {
            let (count, fault, conn) = lived(alloc, conn, life)?;
            Ok((count, fault, files_of(conn)))
        }
        Err(files) => Ok((0, None, files)),
    }
}

/// Whether what a crash left of the files is what such a life leaves.
fn is_recovered(
    alloc: Global,
    life: Life,
    count: usize,
    files: Files<Fuse<Memory>>,
) -> Result<bool, Fail> {
    is_whole(alloc, reopened(alloc, files)?, life, count)
}

/// Asserts of a life of so many steps, where one call in so many of one of the files stops the
/// store in turn: what is left is what was before the step that was refused, or what comes after
/// it, and a step that was accepted isn't lost. What is refused answers that the store refused.
fn expect_stops<R: AllocGlobal + Abort>(
    rt: &R,
    life: Life,
    steps: usize,
    each: u64,
) -> Result<(), Fail> {
    for &is_log in &[true, false] {
        let mut taken = 0;
        for turn in 0..10000u64 {
            let (log, db) = fuses(is_log, turn.saturating_mul(each));
            let (count, fault, files) = stopped(rt.alloc(), life, log, db)?;
            assert!(rt; is_recovered(rt.alloc(), life, count, files)?);
            assert!(rt; fault.is_none() || fault == Some(TablesFault::Refused));
            taken = count;
            if taken == steps {
                break;
            }
        }
        assert_eq!(rt; taken, steps);
    }
    Ok(())
}

/// A migration leaves tables of format 1, or those of format 2, whole.
#[test]
fn stopped_at_some_calls(rt: HostRuntime) -> Result<(), Fail> {
    expect_stops(&rt, Life::Changes, ROWS.len(), 29)?;
    expect_stops(&rt, Life::Migration, 2, 29)
}

#[test]
fn great_changes_stopped_at_each_call(rt: HostRuntime) -> Result<(), Fail> {
    expect_stops(&rt, Life::Changes, ROWS.len(), 1)
}

#[test]
fn great_migration_stopped_at_each_call(rt: HostRuntime) -> Result<(), Fail> {
    expect_stops(&rt, Life::Migration, 2, 1)
}

/// The faults that the first calls answer, for each number of calls after which the files stop.
fn told_faults(alloc: Global, is_in_memory: bool) -> Result<Vec<TablesFault>, Fail> {
    let mut told = Vec::new(alloc);
    for calls in 0..10000u64 {
        let life = Life::FirstCalls { is_in_memory };
        let (count, fault, _) = stopped(alloc, life, calls, calls)?;
        if let Some(fault) = fault {
            told.push(fault)?;
        }
        if count == 2 {
            break;
        }
    }
    Ok(told)
}

/// A store that can't do what is asked was refused memory exactly where the database is in memory.
#[test]
fn stopped_in_memory(rt: HostRuntime) -> Result<(), Fail> {
    for &(is_in_memory, fault) in &[(false, TablesFault::Refused), (true, TablesFault::Memory)] {
        let told = told_faults(rt.alloc(), is_in_memory)?;
        assert!(rt; !told.is_empty());
        for found in &told {
            assert_eq!(rt; *found, fault);
        }
    }
    Ok(())
}
