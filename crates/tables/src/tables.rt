//! The tables of the index: a database is opened, or its tables are made, or it's refused. Changes
//! and selections are in files of their own. `specs/Stands` says which states they represent.
ghost use Rattle.std.specs.Prelude.{◌≡◌, ◌⊎◌, codes, true, false, IsTrue, IfOk, IfErr, OnOk, OnErr};
ghost use Rattle.sqlite_catalog.specs.Change.{is_used};
ghost use Rattle.sqlite.specs.State.{HasCleanDisk, Survives, IsUnchanged};
ghost use Rattle.sqlite.specs.Held.{state};
ghost use Rattle.tables.specs.Steps.Clauses.{CommitsNothing, EndsTransaction};
ghost use Rattle.tables.specs.Schema.{empty_schema};
ghost use Rattle.tables.specs.Databases.{IsMade, WasMade, IsFormatOne, IsFormatTwo, ShowsVersion};
ghost use Rattle.tables.specs.Fault.{IsStoreFault};
ghost use Rattle.tables.specs.Opening.{AfterOpening, Gives, RefusesOld, StaysCommitted, IsRolledBack};
ghost use Rattle.tables.specs.Stands.{Finds, FindsOne, IsAsBefore, Rests, StandsFor};
ghost use Rattle.machine.specs.State.{State, nothing};

use crate::fault::{TablesFault, fault_of};
use crate::format::{Format, find_format};
use crate::kinds::declaring_more;
use crate::parts::ProjectSlot;
use sqlite::{Alter, Connection, Error, Transaction};
use std::marker::Model;

/// The tables of format 2, in a connection that is in no transaction.
#[derive(Drop)]
pub struct Tables<S: Alter> {
    pub(crate) conn: Connection<S>,
    /// Whether the database is in memory alone.
    pub(crate) is_in_memory: bool,
    /// The slot of the dump that was asked last, so that a query finds it once. Changes, faults and
    /// selections of names, projects and replies forget it.
    pub(crate) slot: Option<ProjectSlot>,
}

impl<S: Alter> Model for Tables<S> {
    ghost use Rattle.std.specs.Prelude.{◌≡◌, false};
    ghost use Rattle.sqlite.specs.Held.{Held, held_code, state};
    ghost use Rattle.tables.specs.Steps.Slots.{IsKnown};

    ghost Value = { Held S };

    ghost coded = { held_code S.code };

    ghost view = { λ t. t.conn };

    ghost invariant = { λ t. (t.conn.in_transaction ≡ false) × IsKnown (state S.Store t.conn) t.slot };
}

/// The statements that make the tables of format 2, within a transaction.
fn make_tables<S: Alter>(tx: &mut Transaction<'_, S>) -> Result<(), Error>
    ensures made { (state S.Store tx.old.conn.now).now.schema ≡ empty_schema → HasCleanDisk (state S.Store tx.new.conn.now)
        → OnOk result (IsMade (state S.Store tx.new.conn.now).now) }
    ensures inside { HasCleanDisk (state S.Store tx.new.conn.now)
        → OnOk result ((state S.Store tx.new.conn.now).in_transaction ≡ (state S.Store tx.old.conn.now).in_transaction) }
    ensures uncommitted { CommitsNothing S.Store tx.old.conn tx.new.conn }
{
    tx.execute_batch(declaring_more!(
        "CREATE TABLE format (version INTEGER PRIMARY KEY) STRICT;\
         CREATE TABLE slot (id INTEGER PRIMARY KEY, project TEXT NOT NULL, part INTEGER NOT NULL, UNIQUE (project, part)) STRICT;\
         CREATE TABLE keyed (project TEXT NOT NULL, cmdkey TEXT NOT NULL, reply TEXT NOT NULL, PRIMARY KEY (project, cmdkey)) STRICT;\
         CREATE TABLE document (slot INTEGER NOT NULL REFERENCES slot ON DELETE CASCADE, uri TEXT NOT NULL, PRIMARY KEY (slot, uri)) STRICT;\
         CREATE TABLE range_row (slot INTEGER NOT NULL REFERENCES slot ON DELETE CASCADE, line INTEGER NOT NULL, uri TEXT NOT NULL, first INTEGER NOT NULL, last INTEGER NOT NULL, parent INTEGER, def INTEGER, refs INTEGER, hover INTEGER, PRIMARY KEY (slot, line)) STRICT;\
         CREATE TABLE item (slot INTEGER NOT NULL REFERENCES slot ON DELETE CASCADE, result INTEGER NOT NULL, role INTEGER NOT NULL, uri TEXT NOT NULL, first INTEGER NOT NULL, last INTEGER NOT NULL, PRIMARY KEY (slot, result, role, uri, first, last)) STRICT;\
         CREATE TABLE hover (slot INTEGER NOT NULL REFERENCES slot ON DELETE CASCADE, result INTEGER NOT NULL, contents TEXT NOT NULL, PRIMARY KEY (slot, result)) STRICT;\
         CREATE TABLE mark (slot INTEGER NOT NULL REFERENCES slot ON DELETE CASCADE, line INTEGER NOT NULL, kind INTEGER NOT NULL, keytext TEXT NOT NULL, PRIMARY KEY (slot, line, kind, keytext)) STRICT;\
         CREATE TABLE bearer (slot INTEGER NOT NULL REFERENCES slot ON DELETE CASCADE, line INTEGER NOT NULL, keytext TEXT NOT NULL, kind INTEGER NOT NULL, def INTEGER, refs INTEGER, hover INTEGER, PRIMARY KEY (slot, line, keytext, kind)) STRICT;\
         CREATE TABLE tag (slot INTEGER NOT NULL REFERENCES slot ON DELETE CASCADE, line INTEGER NOT NULL, name TEXT NOT NULL, file TEXT NOT NULL, address TEXT NOT NULL, kind TEXT, fields TEXT NOT NULL, PRIMARY KEY (slot, line)) STRICT;\
         CREATE INDEX range_by_start ON range_row (slot, uri, first, last DESC);\
         CREATE INDEX bearer_by_key ON bearer (keytext, kind);\
         CREATE INDEX tag_by_name ON tag (name, slot, line);\
         CREATE TABLE part_profile (slot INTEGER NOT NULL REFERENCES slot ON DELETE CASCADE, profile INTEGER NOT NULL, UNIQUE (slot)) STRICT;\
         CREATE TABLE more (slot INTEGER NOT NULL REFERENCES slot ON DELETE CASCADE, line INTEGER NOT NULL, ",
        ", PRIMARY KEY (slot, line)) STRICT;\
         INSERT INTO format (version) VALUES (2)",
    ))
}

/// Makes the tables of format 2 in one transaction.
fn make<S: Alter>(conn: &mut Connection<S>) -> Result<(), Error>
    requires mode { conn.old.in_transaction ≡ false }
    ensures made { (state S.Store conn.old).now.schema ≡ empty_schema → HasCleanDisk (state S.Store conn.new)
        → OnOk result (IsMade (state S.Store conn.new).now × ((state S.Store conn.new).committed ≡ (state S.Store conn.new).now)) }
    ensures ended { EndsTransaction result (state S.Store conn.old) (state S.Store conn.new) }
    ensures same { HasCleanDisk (state S.Store conn.new) → IsTrue (state S.Store conn.new).is_open
        → OnErr result (IsRolledBack (state S.Store conn.old) (state S.Store conn.new)) }
    ensures crash { (state S.Store conn.old).now.schema ≡ empty_schema → Survives (state S.Store conn.old) (state S.Store conn.new) WasMade }
{
    let mut tx = conn.transaction();
    make_tables(&mut tx)?;
    tx.commit()
}

impl<S: Alter> Tables<S> {
    /// The tables of this connection. No slot is known yet.
    pub(crate) fn over(conn: Connection<S>) -> Tables<S>
        requires { conn.in_transaction ≡ false }
        ensures { result ≡ conn }
    {
        Tables {
            conn,
            is_in_memory: false,
            slot: None,
        }
    }

    /// The tables of format 2 in a database: found, or made in one transaction where nothing has
    /// the name of one of them, in any case of letters. What else the database has doesn't count.
    ///
    /// With each fault the connection comes back. It's `OldFormat` where the tables are of format
    /// 1, which `migrate` upgrades. It's `Foreign` where something has such a name, and `format`
    /// doesn't read as one row of version 1 or 2. It's `Memory` or `Refused` where the store
    /// refuses: then no table was made. A store in memory that can't grow while the tables are made
    /// is `Refused` too, since only the tables know that their database is in memory (`in_memory`).
    pub fn open(mut conn: Connection<S>) -> Result<Tables<S>, (TablesFault, Connection<S>)>
        requires { conn.in_transaction ≡ false }
        ensures fresh { (state S.Store conn).now.schema ≡ empty_schema → IfOk result (λ c. HasCleanDisk (state S.Store c) → Rests (state S.Store c) nothing) }
        ensures up { (state S.Store conn).now.schema ≡ empty_schema → IfOk result (λ c. HasCleanDisk (state S.Store c) → IsTrue (state S.Store c).is_open) }
        ensures stands { (m : State) → Rests (state S.Store conn) m ⊎ Finds (state S.Store conn) m → Gives (state S.Store) result m }
        ensures known { IsFormatTwo (state S.Store conn).now
            → IfOk result (λ c. HasCleanDisk (state S.Store c) → IsUnchanged (state S.Store conn) (state S.Store c)) }
        ensures store { (state S.Store conn).now.schema ≡ empty_schema ⊎ IsFormatTwo (state S.Store conn).now
            → IfErr result (λ e. HasCleanDisk (state S.Store e.1) → IsStoreFault e.0) }
        ensures old { IsFormatOne (state S.Store conn).now ⊎ ((m : State) × FindsOne (state S.Store conn) m) → RefusesOld (state S.Store) result }
        ensures version { IfErr result (λ e. HasCleanDisk (state S.Store e.1) → e.0 ≡ TablesFault.OldFormat
            → ShowsVersion (state S.Store conn) (state S.Store e.1) 1) }
        ensures shown { is_used (state S.Store conn).now.schema (codes "format") ≡ true
            → IfOk result (λ c. HasCleanDisk (state S.Store c) → ShowsVersion (state S.Store conn) (state S.Store c) 2) }
        ensures back { (state S.Store conn).now.schema ≡ empty_schema → IfErr result (λ e. HasCleanDisk (state S.Store e.1) → IsTrue (state S.Store e.1).is_open
            → IsRolledBack (state S.Store conn) (state S.Store e.1)) }
        ensures same { IsFormatOne (state S.Store conn).now ⊎ IsFormatTwo (state S.Store conn).now → IfErr result (λ e. HasCleanDisk (state S.Store e.1)
            → IsTrue (state S.Store e.1).is_open → StaysCommitted (state S.Store conn) (state S.Store e.1)) }
        ensures unread { IsFormatOne (state S.Store conn).now → IfErr result (λ e. HasCleanDisk (state S.Store e.1)
            → e.0 ≡ TablesFault.OldFormat → IsUnchanged (state S.Store conn) (state S.Store e.1)) }
        ensures mode { IfErr result (λ e. e.1.in_transaction ≡ false) }
        ensures clean { AfterOpening (state S.Store) result (λ s. HasCleanDisk s → HasCleanDisk (state S.Store conn)) }
        ensures left { (state S.Store conn).now.schema ≡ empty_schema
            → AfterOpening (state S.Store) result (λ s. Survives (state S.Store conn) s (λ db. StandsFor db nothing)) }
        ensures stays { IsFormatOne (state S.Store conn).now ⊎ IsFormatTwo (state S.Store conn).now
            → AfterOpening (state S.Store) result (λ s. HasCleanDisk s → Survives (state S.Store conn) s (λ _. ⊥)) }
    {
        match find_format(&mut conn) {
            Ok(Format::Absent) => match make(&mut conn) {
                Ok(()) => Ok(Tables::over(conn)),
                Err(error) => Err((fault_of(false, error), conn)),
            },
            Ok(Format::Two) => Ok(Tables::over(conn)),
            Ok(Format::One) => Err((TablesFault::OldFormat, conn)),
            Ok(Format::Unknown) => Err((TablesFault::Foreign, conn)),
            Err(error) => Err((fault_of(false, error), conn)),
        }
    }

    /// The same tables, of which it's known from now on that their database is in memory alone.
    /// Where its store can't do what a call asks, as grow, memory was refused, and the call returns
    /// `Memory` instead of `Refused`.
    pub fn in_memory(self) -> Tables<S>
        ensures { result ≡ self }
    {
        Tables {
            conn: self.conn,
            is_in_memory: true,
            slot: self.slot,
        }
    }

    /// Whether the store still serves: nothing is read or written. It's `Refused` where a fault has
    /// shut it, and `Memory` where memory is refused, also to a database in memory (`in_memory`).
    pub fn check(&mut self) -> Result<(), TablesFault>
        ensures open { HasCleanDisk (state S.Store self.new)
            → OnOk result (IsTrue (state S.Store self.old).is_open × IsAsBefore (state S.Store self.old) (state S.Store self.new)) }
        ensures same { HasCleanDisk (state S.Store self.new) → IsTrue (state S.Store self.new).is_open
            → OnErr result (IsTrue (state S.Store self.old).is_open × ((m : State)
            → Rests (state S.Store self.old) m → IsAsBefore (state S.Store self.old) (state S.Store self.new))) }
        ensures survives { Survives (state S.Store self.old) (state S.Store self.new) (λ _. ⊥) }
        ensures fault { IfErr result IsStoreFault }
    {
        if let Err(error) = self.conn.prepare("SELECT version FROM format") {
            self.slot = None;
            return Err(fault_of(self.is_in_memory, error));
        }
        Ok(())
    }

    /// The connection of the tables, in no transaction, for other use or another opening.
    pub fn into_connection(self) -> Connection<S>
        ensures same { result ≡ self }
        ensures mode { result.in_transaction ≡ false }
    {
        self.conn
    }
}
