//! The desk over a database in files in memory, which is new and empty. One over a file is made by
//! the program (`calls/src/database.rt`).
ghost use Rattle.std.specs.Prelude.{◌≡◌, ◌∷◌, [], false, IfOk};
ghost use Rattle.machine.specs.State.{nothing};

use crate::index_desk::IndexDesk;
use crate::table_desk::TableDesk;
use machine::Desk;
use sqlite::{Alter, Connection, FileStore, Files, Options};
use std::alloc::{AllocError, Global};
use tables::{MemoryDisk, Tables};

/// A desk over a database in files in memory.
pub type MemoryDesk = TableDesk<FileStore<MemoryDisk>>;

/// A desk over new tables in a database that is in memory alone, where that is empty. Where its
/// store returned what was written, it represents the state of an empty index, and a crash leaves
/// that state alone.
fn make_desk<S: Alter + Drop>(
    alloc: Global,
    conn: Connection<S>,
) -> Result<TableDesk<S>, AllocError>
    requires mode { conn.in_transaction ≡ false }
    ensures stands { IfOk result (λ desk. ⟦<IndexDesk<Tables<S>> as Desk>⟧.is_reliable desk → ⟦<IndexDesk<Tables<S>> as Desk>⟧.stands desk nothing) }
    ensures may_leave { IfOk result (λ desk. ⟦<IndexDesk<Tables<S>> as Desk>⟧.is_reliable desk
        → ⟦<IndexDesk<Tables<S>> as Desk>⟧.may_leave desk (nothing ∷ [])) }
{
    let schema = conn.schema();
    if !(schema.tables.is_empty() && schema.indexes.is_empty() && schema.views.is_empty()) {
        return Err(AllocError);
    }
    match Tables::open(conn) {
        Ok(tables) => Ok(TableDesk::new(alloc, tables.in_memory())),
        Err(_) => Err(AllocError),
    }
}

impl TableDesk<FileStore<MemoryDisk>> {
    /// A desk over a new database in memory, which represents the state of an empty one, and of
    /// which a crash leaves that alone. Nobody else has such a database, so each fault of it is
    /// that memory was refused.
    pub fn open_in_memory(alloc: Global) -> Result<MemoryDesk, AllocError>
        ensures stands { IfOk result (λ desk. ⟦<IndexDesk<Tables<FileStore<MemoryDisk>>> as Desk>⟧.stands desk nothing) }
        ensures may_leave { IfOk result (λ desk. ⟦<IndexDesk<Tables<FileStore<MemoryDisk>>> as Desk>⟧.may_leave desk (nothing ∷ [])) }
    {
        let files = Files {
            log: MemoryDisk::new(alloc),
            db: MemoryDisk::new(alloc),
        };
        let Ok(conn) = Connection::open_files(alloc, files, Options::new(1)) else {
            return Err(AllocError);
        };
        let desk = make_desk(alloc, conn)?;
        memory_law(&desk);
        Ok(desk)
    }
}

/// A desk over a database in memory is reliable: its disk returns what was written to it.
pub fn memory_law(desk: &MemoryDesk)
    ensures { ⟦<IndexDesk<Tables<FileStore<MemoryDisk>>> as Desk>⟧.is_reliable desk.now }
{}
