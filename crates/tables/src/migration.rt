//! The way from format 1 to format 2, in one transaction. An opening alone changes no format
//! (`tables.rt`). `WasUpgraded` in `specs/Databases`.
ghost use Rattle.std.specs.Prelude.{◌≡◌, ◌≢◌, ◌⊎◌, true, false, IsTrue, IfOk, IfErr, OnOk, OnErr};
ghost use Rattle.tables.specs.Fault.{IsStoreFault};
ghost use Rattle.tables.specs.Opening.{AfterMigration, StaysCommitted, IsRolledBack, Migrates};
ghost use Rattle.sqlite.specs.State.{HasCleanDisk, Survives, IsUnchanged};
ghost use Rattle.sqlite.specs.Held.{state};
ghost use Rattle.tables.specs.Steps.Clauses.{CommitsNothing, EndsTransaction};
ghost use Rattle.tables.specs.Schema.{empty_schema};
ghost use Rattle.tables.specs.Stands.{Finds, FindsOne, Rests, RestsOne, StandsFor};
ghost use Rattle.machine.specs.State.{State};
ghost use Rattle.tables.specs.Databases.{IsFormatOne, IsFormatTwo, IsUpgraded, ShowsVersion, WasUpgraded};

use crate::fault::{TablesFault, fault_of};
use crate::format::{Format, find_format};
use crate::kinds::declaring_more;
use crate::tables::Tables;
use sqlite::{Alter, Connection, Error, Transaction};

/// The statements that make format 2 of format 1, within a transaction. Indexes with the names of
/// those of format 2 are made anew, so that they are on the columns that format 2 has them on.
fn upgrade_tables<S: Alter>(tx: &mut Transaction<'_, S>) -> Result<(), Error>
    ensures made { IsFormatOne (state S.Store tx.old.conn.now).now → HasCleanDisk (state S.Store tx.new.conn.now)
        → OnOk result (IsUpgraded (state S.Store tx.old.conn.now).now (state S.Store tx.new.conn.now).now) }
    ensures inside { HasCleanDisk (state S.Store tx.new.conn.now)
        → OnOk result ((state S.Store tx.new.conn.now).in_transaction ≡ (state S.Store tx.old.conn.now).in_transaction) }
    ensures uncommitted { CommitsNothing S.Store tx.old.conn tx.new.conn }
{
    tx.execute_batch(declaring_more!(
        "DROP INDEX IF EXISTS range_by_start;\
         DROP INDEX IF EXISTS bearer_by_key;\
         DROP INDEX IF EXISTS tag_by_name;\
         CREATE INDEX range_by_start ON range_row (slot, uri, first, last DESC);\
         CREATE INDEX bearer_by_key ON bearer (keytext, kind);\
         CREATE INDEX tag_by_name ON tag (name, slot, line);\
         CREATE TABLE part_profile (slot INTEGER NOT NULL REFERENCES slot ON DELETE CASCADE, profile INTEGER NOT NULL, UNIQUE (slot)) STRICT;\
         CREATE TABLE more (slot INTEGER NOT NULL REFERENCES slot ON DELETE CASCADE, line INTEGER NOT NULL, ",
        ", PRIMARY KEY (slot, line)) STRICT;\
         INSERT INTO part_profile (slot, profile) SELECT id, 1 FROM slot WHERE part = 1;\
         UPDATE format SET version = 2",
    ))
}

/// Makes format 2 of format 1 in one transaction.
fn upgrade<S: Alter>(conn: &mut Connection<S>) -> Result<(), Error>
    requires mode { conn.old.in_transaction ≡ false }
    ensures made { IsFormatOne (state S.Store conn.old).now → HasCleanDisk (state S.Store conn.new)
        → OnOk result (IsUpgraded (state S.Store conn.old).now (state S.Store conn.new).now
        × ((state S.Store conn.new).committed ≡ (state S.Store conn.new).now)) }
    ensures ended { EndsTransaction result (state S.Store conn.old) (state S.Store conn.new) }
    ensures same { HasCleanDisk (state S.Store conn.new) → IsTrue (state S.Store conn.new).is_open
        → OnErr result (IsRolledBack (state S.Store conn.old) (state S.Store conn.new)) }
    ensures crash { IsFormatOne (state S.Store conn.old).now
        → Survives (state S.Store conn.old) (state S.Store conn.new) (WasUpgraded (state S.Store conn.old).now.trees) }
{
    let mut tx = conn.transaction();
    upgrade_tables(&mut tx)?;
    tx.commit()
}

/// The tables of format 2 in a database, and whether they were made of those of format 1, in one
/// transaction. Each row is kept, and each dump gets profile 1.
///
/// With each fault the connection comes back, and nothing was made. It's `Foreign` where nothing
/// has the name of one of the tables, or where `format` doesn't read as one row of version 1 or 2.
/// It's `Memory` or `Refused` where the store refuses.
pub fn migrate<S: Alter>(
    mut conn: Connection<S>,
) -> Result<(Tables<S>, bool), (TablesFault, Connection<S>)>
    requires { conn.in_transaction ≡ false }
    ensures stands { (m : State) → RestsOne (state S.Store conn) m ⊎ FindsOne (state S.Store conn) m → Migrates (state S.Store) result true m }
    ensures known_stands { (m : State) → Rests (state S.Store conn) m ⊎ Finds (state S.Store conn) m → Migrates (state S.Store) result false m }
    ensures kind { IfErr result (λ e. e.0 ≢ TablesFault.OldFormat) }
    ensures store { IsFormatOne (state S.Store conn).now ⊎ IsFormatTwo (state S.Store conn).now
        → IfErr result (λ e. HasCleanDisk (state S.Store e.1) → IsStoreFault e.0) }
    ensures old { IsFormatOne (state S.Store conn).now → IfOk result (λ r. HasCleanDisk (state S.Store r.0) → (r.1 ≡ true)
        × IsUpgraded (state S.Store conn).now (state S.Store r.0).now × ((state S.Store r.0).committed ≡ (state S.Store r.0).now)) }
    ensures known { IsFormatTwo (state S.Store conn).now → IfOk result (λ r. HasCleanDisk (state S.Store r.0) → (r.1 ≡ false)
        × IsUnchanged (state S.Store conn) (state S.Store r.0)) }
    ensures fresh { (state S.Store conn).now.schema ≡ empty_schema
        → IfErr result (λ e. (e.0 ≡ TablesFault.Foreign) × (e.1 ≡ conn)) × IfOk result (λ _. ⊥) }
    ensures back { IsFormatOne (state S.Store conn).now ⊎ IsFormatTwo (state S.Store conn).now → IfErr result (λ e. HasCleanDisk (state S.Store e.1)
        → IsTrue (state S.Store e.1).is_open → StaysCommitted (state S.Store conn) (state S.Store e.1)) }
    ensures mode { IfErr result (λ e. e.1.in_transaction ≡ false) }
    ensures clean { AfterMigration (state S.Store) result (λ s. HasCleanDisk s → HasCleanDisk (state S.Store conn)) }
    ensures stays { IsFormatTwo (state S.Store conn).now
        → AfterMigration (state S.Store) result (λ s. HasCleanDisk s → Survives (state S.Store conn) s (λ _. ⊥)) }
    ensures crash { IsFormatOne (state S.Store conn).now
        → AfterMigration (state S.Store) result (λ s. HasCleanDisk s → Survives (state S.Store conn) s (WasUpgraded (state S.Store conn).now.trees)) }
    ensures left { (m : State) → RestsOne (state S.Store conn) m
        → AfterMigration (state S.Store) result (λ s. HasCleanDisk s → Survives (state S.Store conn) s (λ db. StandsFor db m)) }
    ensures two { IfOk result (λ r. HasCleanDisk (state S.Store r.0) → r.1 ≡ false → ShowsVersion (state S.Store conn) (state S.Store r.0) 2) }
    ensures whole { IsFormatOne (state S.Store conn).now → IfOk result (λ r. HasCleanDisk (state S.Store r.0) → IsFormatTwo (state S.Store r.0).now) }
{
    match find_format(&mut conn) {
        Ok(Format::One) => match upgrade(&mut conn) {
            Ok(()) => Ok((Tables::over(conn), true)),
            Err(error) => Err((fault_of(false, error), conn)),
        },
        Ok(Format::Two) => Ok((Tables::over(conn), false)),
        Ok(_) => Err((TablesFault::Foreign, conn)),
        Err(error) => Err((fault_of(false, error), conn)),
    }
}
