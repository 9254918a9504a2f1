//! Connections to databases in memory and in files in memory that stop after so many calls, and
//! dumps and tags that are put into tables: what the tests of tables, desks and streams share.
//! What a connection must do is in functions over any store, since one over a store of files
//! takes long to prove.
#![tactic(auto)]

mod puts;

ghost use Rattle.std.specs.Prelude.{◌≡◌, false, IfOk};

pub use puts::{put_dump, put_tags, tags_of};
use sqlite::{Alter, Connection, FileStore, Files, Options};
use sqlite_disk::{Crash, Fuse, Memory};
use std::alloc::Global;
use std::test::Fail;
use tables::{Tables, TablesFault};

/// The tables that a connection shows.
pub fn opened<S: Alter + Drop>(conn: Connection<S>) -> Result<Tables<S>, Fail> {
    if !conn.is_autocommit() {
        return Err("in a transaction")?;
    }
    match Tables::open(conn) {
        Ok(tables) => Ok(tables),
        Err(_) => Err("not opened")?,
    }
}

/// What is done over a connection whose store may stop: how many steps were accepted, the fault of
/// the next one, where it's known, and the connection.
pub type Lived<S> = (usize, Option<TablesFault>, Connection<S>);

/// A database in files in memory that stop after so many calls; or the files, where they stop while
/// it's opened.
pub fn connected(
    alloc: Global,
    log: u64,
    db: u64,
) -> Result<Connection<FileStore<Fuse<Memory>>>, Files<Fuse<Memory>>>
    ensures { IfOk result (λ conn. conn.in_transaction ≡ false) }
{
    let files = Files {
        log: Fuse::new(Memory::new(alloc), log),
        db: Fuse::new(Memory::new(alloc), db),
    };
    match Connection::open_files(alloc, files, Options::new(1)) {
        Ok(conn) => Ok(conn),
        Err((_, left)) => Err(left.into_files()),
    }
}

/// The files of a connection.
pub fn files_of(conn: Connection<FileStore<Fuse<Memory>>>) -> Files<Fuse<Memory>> {
    match conn.close_files() {
        Ok(files) => files,
        Err((_, store)) => store.close(),
    }
}

/// A connection to what a crash left of the files.
pub fn reopened(
    alloc: Global,
    files: Files<Fuse<Memory>>,
) -> Result<Connection<FileStore<Fuse<Memory>>>, Fail> {
    let Files { mut log, mut db } = files;
    log.crash();
    db.crash();
    match Connection::open_files(alloc, Files { log, db }, Options::new(1)) {
        Ok(conn) => Ok(conn),
        Err(_) => Err("not recovered")?,
    }
}

/// After how many calls each file stops, where the log or the other stops after so many.
pub fn fuses(is_log: bool, calls: u64) -> (u64, u64) {
    if is_log {
        (calls, u64::MAX)
    } else {
        (u64::MAX, calls)
    }
}
