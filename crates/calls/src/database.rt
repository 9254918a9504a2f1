//! The databases that the program runs over: in a file, or in memory; how they are opened, closed
//! and migrated.
ghost use Rattle.std.specs.Prelude.{◌≡◌, ◌↔◌, ◌∷◌, [], false, IfOk, List};
ghost use Rattle.sqlite_wal.specs.Files.{image_at};
ghost use Rattle.sqlite.specs.Files.{file_state};
ghost use Rattle.sqlite.specs.Held.{state};
ghost use Rattle.sqlite.specs.State.{HasCleanDisk};
ghost use Rattle.tables.specs.Stands.{Finds, FindsOne};
ghost use Rattle.machine.specs.State.{State};
ghost use Rattle.desk.specs.TableStates.{LeavesOneOf, ServesFor};
ghost use Rattle.calls.specs.Databases.{HoldsIndex, HoldsIndexOne, IsMigrated, IsOfFormatTwo};

use desk::{Desk, IndexDesk, TableDesk};
use sqlite::{Alter, Connection, Error, ErrorCode, FileFrom, FileStore, Start};
use std::alloc::Global;
use std::fs;
use std::rt::Files;
use tables::{Tables, TablesFault, migrate};

/// The name of a database in memory.
pub const MEMORY: &str = ":memory:";

/// A connection to a database in a file. `S` says what the file is supposed to hold at the start.
pub type FileConnection<S> = Connection<FileStore<FileFrom<S>>>;

/// Why the file can't be opened as a database.
fn fault_of(error: Error) -> TablesFault {
    match error {
        Error::SqliteFailure(ErrorCode::OutOfMemory) => TablesFault::Memory,
        _ => TablesFault::Refused,
    }
}

/// A connection to the database in this file, which is made where there is none. Where the file and
/// its log hold tables that represent a state of the index, as `S` says what they hold, the
/// connection shows them.
pub fn connect_file<S: Start>(
    rt: &HostRuntime,
    path: &str,
    start: S,
) -> Result<FileConnection<S>, TablesFault>
    ensures mode { IfOk result (λ conn. conn.in_transaction ≡ false) }
    ensures finds { IfOk result (λ conn. HasCleanDisk (file_state conn) → (m : State) → HoldsIndex (image_at S.Start) m → Finds (file_state conn) m) }
    ensures finds_one { IfOk result (λ conn. HasCleanDisk (file_state conn) → (m : State) → HoldsIndexOne (image_at S.Start) m
        → FindsOne (file_state conn) m) }
{
    match Connection::open_from(rt, path, false, start) {
        Ok(conn) => Ok(conn),
        Err((error, _)) => Err(fault_of(error)),
    }
}

/// A desk over the tables of a database. Where a new connection shows one that represents a state
/// of the index, the desk represents that state, and a crash leaves it alone.
pub fn open_desk<S: Alter + Drop>(
    alloc: Global,
    conn: Connection<S>,
) -> Result<TableDesk<S>, TablesFault>
    requires mode { conn.in_transaction ≡ false }
    ensures clean { IfOk result (λ desk. ⟦<IndexDesk<Tables<S>> as Desk>⟧.is_reliable desk → HasCleanDisk (state S.Store conn)) }
    ensures stands { IfOk result (λ desk. ⟦<IndexDesk<Tables<S>> as Desk>⟧.is_reliable desk → (m : State) → Finds (state S.Store conn) m
        → ⟦<IndexDesk<Tables<S>> as Desk>⟧.stands desk m) }
    ensures alone { IfOk result (λ desk. ⟦<IndexDesk<Tables<S>> as Desk>⟧.is_reliable desk → (m : State) → Finds (state S.Store conn) m
        → ⟦<IndexDesk<Tables<S>> as Desk>⟧.may_leave desk (m ∷ [])) }
{
    match Tables::open(conn) {
        Ok(tables) => Ok(TableDesk::new(alloc, tables)),
        Err((fault, _)) => Err(fault),
    }
}

/// The connection of a desk's tables. It represents what the desk represented, and a crash leaves
/// of it what it would have left of the desk.
pub fn connection_of<S: Alter + Drop>(desk: TableDesk<S>) -> Connection<S>
    ensures stands { (m : State) → ServesFor (state S.Store result) m ↔ ⟦<IndexDesk<Tables<S>> as Desk>⟧.stands desk m }
    ensures may_leave { (states : List State) → LeavesOneOf (state S.Store result) states ↔ ⟦<IndexDesk<Tables<S>> as Desk>⟧.may_leave desk states }
    ensures reliable { HasCleanDisk (state S.Store result) ↔ ⟦<IndexDesk<Tables<S>> as Desk>⟧.is_reliable desk }
{
    desk.into_tables().into_connection()
}

/// Ends the use of the file: what its log has is written into it. Where that fails, the log has
/// all, and the next start reads it.
pub fn close_connection<S: Start>(conn: FileConnection<S>) {
    let _ = conn.close();
}

/// Whether there is no file of this name.
fn is_missing<R: Files>(rt: &R, path: &str) -> bool {
    matches!(fs::exists(rt, path), Ok(false))
}

/// Upgrades the tables of a database from format 1 to format 2, and returns how many projects they
/// have; or none, where they are of format 2 already. The connection comes back.
fn migrate_database<S: Alter + Drop>(
    alloc: Global,
    conn: Connection<S>,
) -> Result<(Option<usize>, Connection<S>), TablesFault>
    requires mode { conn.in_transaction ≡ false }
    ensures clean { IfOk result (λ r. HasCleanDisk (state S.Store r.1) → HasCleanDisk (state S.Store conn)) }
    ensures migrated { IfOk result (λ r. HasCleanDisk (state S.Store r.1) → (m : State) → FindsOne (state S.Store conn) m
        → IsMigrated (state S.Store r.1) m r.0) }
    ensures known { IfOk result (λ r. HasCleanDisk (state S.Store r.1) → (m : State) → Finds (state S.Store conn) m → IsOfFormatTwo (state S.Store r.1) m r.0) }
{
    match migrate(conn) {
        Ok((mut tables, true)) => {
            let projects = tables.projects(alloc)?;
            Ok((Some(projects.len()), tables.into_connection()))
        }
        Ok((tables, false)) => Ok((None, tables.into_connection())),
        Err((fault, _)) => Err(fault),
    }
}

/// The same for the database in this file. Where the file and its log hold tables of format 1 that
/// represent a state of the index, as `S` says what they hold, the connection shows tables of
/// format 2 that represent it, and the number is that of its projects. It's `Foreign` where there
/// is no such file, and none is made.
pub fn migrate_file<S: Start>(
    rt: &HostRuntime,
    path: &str,
    start: S,
) -> Result<(Option<usize>, FileConnection<S>), TablesFault>
    ensures migrated { IfOk result (λ r. HasCleanDisk (file_state r.1) → (m : State) → HoldsIndexOne (image_at S.Start) m → IsMigrated (file_state r.1) m r.0) }
    ensures known { IfOk result (λ r. HasCleanDisk (file_state r.1) → (m : State) → HoldsIndex (image_at S.Start) m → IsOfFormatTwo (file_state r.1) m r.0) }
{
    if is_missing(rt, path) {
        return Err(TablesFault::Foreign);
    }
    let conn = connect_file(rt, path, start)?;
    migrate_database(rt.alloc(), conn)
}
