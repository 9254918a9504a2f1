//! The changes of the index: a dump or tags replaced, and both removed. Each is one transaction
//! with its kept reply, so that a crash leaves both or neither. `specs/Contents` says what they
//! leave.
ghost use Rattle.std.specs.Prelude.{◌≡◌, ◌||◌, Some, None, is_some, false, IsTrue, IfOk, OnOk, OnErr, ℕ, List, Option};
ghost use Rattle.sqlite.specs.State.{HasCleanDisk, Survives};
ghost use Rattle.sqlite.specs.Held.{state};
ghost use Rattle.tables.specs.Steps.Clauses.{CommitsNothing, EndsTransaction};
ghost use Rattle.flatten.specs.Rows.{rows_value};
ghost use Rattle.dump.specs.Progress.{DumpValue};
ghost use Rattle.tags.specs.Views.{tag_values};
ghost use Rattle.tables.specs.Schema.{schema_two};
ghost use Rattle.tables.specs.Columns.{dump_rows, tag_rows};
ghost use Rattle.tables.specs.Contents.{Contents, Replies, Keeps, changed as replaced, kept};
ghost use Rattle.tables.specs.Databases.{IsListed};
ghost use Rattle.tables.specs.Stands.{IsAsBefore, IsDump, MayChange, Rests, StandsFor, replies_of};
ghost use Rattle.machine.specs.State.{IsNew};
ghost use Rattle.machine.specs.State.{State, parts_removed, accepted_text, set_dump, set_tags, clear, changed};
ghost use Rattle.tables.specs.Steps.Puts.{GoesOn};
ghost use Rattle.tables.specs.declared.slots.Part.TheVariants.{Dump, Tags};

use crate::dump_part::insert_dump;
use crate::fault::{TablesFault, fault_of};
use crate::slots::{Part, insert_reply, remove_slot};
use crate::tables::Tables;
use crate::tags_part::insert_tags;
use flatten::Rows;
use machine::removal_text;
use sqlite::{Alter, Connection, Error, Transaction};
use std::alloc::Global;
use tags::Tag;

// ---- a dump

/// Replaces the rows of the project's dump, and keeps the reply under the key.
fn change_dump<S: Alter>(
    tx: &mut Transaction<'_, S>,
    project: &str,
    key: &str,
    reply: &str,
    rows: &Rows<'_>,
) -> Result<(), Error>
    ensures changed { HasCleanDisk (state S.Store tx.new.conn.now) → IsTrue tx.old.conn.now.in_transaction
        → (state S.Store tx.old.conn.now).now.schema ≡ schema_two
        → (parts : Contents) (replies : Replies) → Keeps (state S.Store tx.old.conn.now).now.trees parts replies → replies project.now key.now ≡ None
        → OnOk result (GoesOn (state S.Store tx.old.conn.now) (state S.Store tx.new.conn.now)
        × Keeps (state S.Store tx.new.conn.now).now.trees (replaced parts project.now Dump (Some (dump_rows rows.now.profile (rows_value rows.now))))
        (kept replies project.now key.now reply.now)
        × IsListed schema_two (state S.Store tx.new.conn.now).now.trees) }
    ensures uncommitted { CommitsNothing S.Store tx.old.conn tx.new.conn }
{
    remove_slot(tx, project, Part::Dump)?;
    insert_dump(tx, project, rows)?;
    insert_reply(tx, project, key, reply)?;
    Ok(())
}

/// The same in one transaction.
fn commit_dump<S: Alter>(
    conn: &mut Connection<S>,
    project: &str,
    key: &str,
    reply: &str,
    rows: &Rows<'_>,
) -> Result<(), Error>
    requires mode { conn.old.in_transaction ≡ false }
    ensures ended { EndsTransaction result (state S.Store conn.old) (state S.Store conn.new) }
    ensures done { HasCleanDisk (state S.Store conn.new) → (m : State) (dump : DumpValue) → Rests (state S.Store conn.old) m
        → IsDump dump (dump_rows rows.now.profile (rows_value rows.now)) → IsNew m project.now key.now reply.now (set_dump dump)
        → OnOk result (Rests (state S.Store conn.new) (changed m project.now key.now (set_dump dump))) }
    ensures same { HasCleanDisk (state S.Store conn.new) → IsTrue (state S.Store conn.new).is_open → (m : State) (dump : DumpValue)
        → Rests (state S.Store conn.old) m → IsDump dump (dump_rows rows.now.profile (rows_value rows.now))
        → IsNew m project.now key.now reply.now (set_dump dump)
        → OnErr result (IsAsBefore (state S.Store conn.old) (state S.Store conn.new)) }
    ensures crash { (m : State) (dump : DumpValue) → Rests (state S.Store conn.old) m → IsDump dump (dump_rows rows.now.profile (rows_value rows.now))
        → IsNew m project.now key.now reply.now (set_dump dump)
        → Survives (state S.Store conn.old) (state S.Store conn.new) (λ db. StandsFor db (changed m project.now key.now (set_dump dump))) }
{
    let mut tx = conn.transaction();
    change_dump(&mut tx, project, key, reply, rows)?;
    tx.commit()
}

// ---- tags

/// Replaces the rows of the project's tags, and keeps the reply under the key.
fn change_tags<S: Alter>(
    alloc: Global,
    tx: &mut Transaction<'_, S>,
    project: &str,
    key: &str,
    reply: &str,
    tags: &[Tag],
) -> Result<(), Error>
    ensures changed { HasCleanDisk (state S.Store tx.new.conn.now) → IsTrue tx.old.conn.now.in_transaction
        → (state S.Store tx.old.conn.now).now.schema ≡ schema_two
        → (parts : Contents) (replies : Replies) → Keeps (state S.Store tx.old.conn.now).now.trees parts replies → replies project.now key.now ≡ None
        → OnOk result (GoesOn (state S.Store tx.old.conn.now) (state S.Store tx.new.conn.now)
        × Keeps (state S.Store tx.new.conn.now).now.trees (replaced parts project.now Tags (Some (tag_rows (tag_values tags.now))))
        (kept replies project.now key.now reply.now)
        × IsListed schema_two (state S.Store tx.new.conn.now).now.trees) }
    ensures uncommitted { CommitsNothing S.Store tx.old.conn tx.new.conn }
{
    remove_slot(tx, project, Part::Tags)?;
    insert_tags(alloc, tx, project, tags)?;
    insert_reply(tx, project, key, reply)?;
    Ok(())
}

/// The same in one transaction.
fn commit_tags<S: Alter>(
    alloc: Global,
    conn: &mut Connection<S>,
    project: &str,
    key: &str,
    reply: &str,
    tags: &[Tag],
) -> Result<(), Error>
    requires mode { conn.old.in_transaction ≡ false }
    ensures ended { EndsTransaction result (state S.Store conn.old) (state S.Store conn.new) }
    ensures done { HasCleanDisk (state S.Store conn.new) → (m : State) → Rests (state S.Store conn.old) m
        → IsNew m project.now key.now reply.now (set_tags (tag_values tags.now))
        → OnOk result (Rests (state S.Store conn.new) (changed m project.now key.now (set_tags (tag_values tags.now)))) }
    ensures same { HasCleanDisk (state S.Store conn.new) → IsTrue (state S.Store conn.new).is_open → (m : State) → Rests (state S.Store conn.old) m
        → IsNew m project.now key.now reply.now (set_tags (tag_values tags.now))
        → OnErr result (IsAsBefore (state S.Store conn.old) (state S.Store conn.new)) }
    ensures crash { (m : State) → Rests (state S.Store conn.old) m → IsNew m project.now key.now reply.now (set_tags (tag_values tags.now))
        → Survives (state S.Store conn.old) (state S.Store conn.new) (λ db. StandsFor db (changed m project.now key.now (set_tags (tag_values tags.now)))) }
{
    let mut tx = conn.transaction();
    change_tags(alloc, &mut tx, project, key, reply, tags)?;
    tx.commit()
}

// ---- a removal

/// Removes both parts of the project, and returns whether there was one.
fn clear_parts<S: Alter>(tx: &mut Transaction<'_, S>, project: &str) -> Result<bool, Error>
    ensures gone { HasCleanDisk (state S.Store tx.new.conn.now) → IsTrue tx.old.conn.now.in_transaction
        → (state S.Store tx.old.conn.now).now.schema ≡ schema_two
        → (parts : Contents) (replies : Replies) → Keeps (state S.Store tx.old.conn.now).now.trees parts replies
        → IfOk result (λ was_there. (was_there ≡ (is_some (parts project.now Dump) || is_some (parts project.now Tags)))
        × GoesOn (state S.Store tx.old.conn.now) (state S.Store tx.new.conn.now)
        × Keeps (state S.Store tx.new.conn.now).now.trees (replaced (replaced parts project.now Dump None) project.now Tags None) replies) }
    ensures uncommitted { CommitsNothing S.Store tx.old.conn tx.new.conn }
{
    let dumps = remove_slot(tx, project, Part::Dump)?;
    let tags = remove_slot(tx, project, Part::Tags)?;
    Ok(dumps > 0 || tags > 0)
}

/// Removes both parts of the project, and keeps under the key whether there was one.
fn change_both<S: Alter>(
    tx: &mut Transaction<'_, S>,
    project: &str,
    key: &str,
) -> Result<bool, Error>
    ensures changed { HasCleanDisk (state S.Store tx.new.conn.now) → IsTrue tx.old.conn.now.in_transaction
        → (state S.Store tx.old.conn.now).now.schema ≡ schema_two
        → (parts : Contents) (replies : Replies) → Keeps (state S.Store tx.old.conn.now).now.trees parts replies → replies project.now key.now ≡ None
        → IfOk result (λ was_there. (was_there ≡ (is_some (parts project.now Dump) || is_some (parts project.now Tags)))
        × GoesOn (state S.Store tx.old.conn.now) (state S.Store tx.new.conn.now)
        × Keeps (state S.Store tx.new.conn.now).now.trees (replaced (replaced parts project.now Dump None) project.now Tags None)
        (kept replies project.now key.now (accepted_text (parts_removed was_there)))
        × IsListed schema_two (state S.Store tx.new.conn.now).now.trees) }
    ensures uncommitted { CommitsNothing S.Store tx.old.conn tx.new.conn }
{
    let was_there = clear_parts(tx, project)?;
    insert_reply(tx, project, key, removal_text(was_there))?;
    Ok(was_there)
}

/// The same in one transaction.
fn commit_removal<S: Alter>(
    conn: &mut Connection<S>,
    project: &str,
    key: &str,
) -> Result<bool, Error>
    requires mode { conn.old.in_transaction ≡ false }
    ensures ended { EndsTransaction result (state S.Store conn.old) (state S.Store conn.new) }
    ensures done { HasCleanDisk (state S.Store conn.new) → (m : State) → Rests (state S.Store conn.old) m → m.kept project.now key.now ≡ None
        → IfOk result (λ was_there. (was_there ≡ (is_some (m.dump project.now) || is_some (m.tags project.now)))
        × Rests (state S.Store conn.new) (changed m project.now key.now clear)) }
    ensures same { HasCleanDisk (state S.Store conn.new) → IsTrue (state S.Store conn.new).is_open → (m : State) → Rests (state S.Store conn.old) m
        → m.kept project.now key.now ≡ None
        → OnErr result (IsAsBefore (state S.Store conn.old) (state S.Store conn.new)) }
    ensures crash { (m : State) → Rests (state S.Store conn.old) m → m.kept project.now key.now ≡ None
        → Survives (state S.Store conn.old) (state S.Store conn.new) (λ db. StandsFor db (changed m project.now key.now clear)) }
{
    let mut tx = conn.transaction();
    let was_there = change_both(&mut tx, project, key)?;
    tx.commit()?;
    Ok(was_there)
}

// ---- the calls

impl<S: Alter> Tables<S> {
    ghost use Rattle.std.specs.Prelude.{◌≡◌, ◌||◌, None, is_some, IsTrue, IfOk, OnOk, OnErr};
    ghost use Rattle.sqlite.specs.State.{HasCleanDisk, Survives};
    ghost use Rattle.sqlite.specs.Held.{state};
    ghost use Rattle.flatten.specs.Rows.{rows_value};
    ghost use Rattle.dump.specs.Progress.{DumpValue};
    ghost use Rattle.tags.specs.Views.{tag_values};
    ghost use Rattle.tables.specs.Columns.{dump_rows};
    ghost use Rattle.tables.specs.Stands.{IsAsBefore, IsDump, MayChange, Rests, StandsFor};
    ghost use Rattle.machine.specs.State.{IsNew};
    ghost use Rattle.machine.specs.State.{State, set_dump, set_tags, clear, changed};

    /// Replaces the rows of the project's dump, where it has one, and keeps the text of the reply
    /// under the key, all in one transaction. The key must not be kept yet, and the rows must be
    /// those of a dump without fault.
    ///
    /// With each error the tables are as they were: `Refused` and `Memory` (`TablesFault`).
    pub fn replace_dump(
        &mut self,
        project: &str,
        key: &str,
        reply: &str,
        rows: &Rows<'_>,
    ) -> Result<(), TablesFault>
        ensures outcome { MayChange result (state S.Store self.old) (state S.Store self.new) }
        ensures done { HasCleanDisk (state S.Store self.new) → (m : State) (dump : DumpValue) → Rests (state S.Store self.old) m
            → IsDump dump (dump_rows rows.now.profile (rows_value rows.now)) → IsNew m project.now key.now reply.now (set_dump dump)
            → OnOk result (Rests (state S.Store self.new) (changed m project.now key.now (set_dump dump))) }
        ensures same { HasCleanDisk (state S.Store self.new) → IsTrue (state S.Store self.new).is_open → (m : State) (dump : DumpValue)
            → Rests (state S.Store self.old) m → IsDump dump (dump_rows rows.now.profile (rows_value rows.now))
            → IsNew m project.now key.now reply.now (set_dump dump)
            → OnErr result (IsAsBefore (state S.Store self.old) (state S.Store self.new)) }
        ensures crash { (m : State) (dump : DumpValue) → Rests (state S.Store self.old) m → IsDump dump (dump_rows rows.now.profile (rows_value rows.now))
            → IsNew m project.now key.now reply.now (set_dump dump)
            → Survives (state S.Store self.old) (state S.Store self.new) (λ db. StandsFor db (changed m project.now key.now (set_dump dump))) }
    {
        self.slot = None;
        match commit_dump(&mut self.conn, project, key, reply, rows) {
            Ok(()) => Ok(()),
            Err(error) => Err(fault_of(self.is_in_memory, error)),
        }
    }

    /// Replaces the project's tags, where it has some, and keeps the text of the reply under the
    /// key, all in one transaction. The key must not be kept yet. No tags are a part too.
    ///
    /// With each error the tables are as they were: `Refused` and `Memory` (`TablesFault`).
    pub fn replace_tags(
        &mut self,
        alloc: Global,
        project: &str,
        key: &str,
        reply: &str,
        tags: &[Tag],
    ) -> Result<(), TablesFault>
        ensures outcome { MayChange result (state S.Store self.old) (state S.Store self.new) }
        ensures done { HasCleanDisk (state S.Store self.new) → (m : State) → Rests (state S.Store self.old) m
            → IsNew m project.now key.now reply.now (set_tags (tag_values tags.now))
            → OnOk result (Rests (state S.Store self.new) (changed m project.now key.now (set_tags (tag_values tags.now)))) }
        ensures same { HasCleanDisk (state S.Store self.new) → IsTrue (state S.Store self.new).is_open → (m : State) → Rests (state S.Store self.old) m
            → IsNew m project.now key.now reply.now (set_tags (tag_values tags.now))
            → OnErr result (IsAsBefore (state S.Store self.old) (state S.Store self.new)) }
        ensures crash { (m : State) → Rests (state S.Store self.old) m → IsNew m project.now key.now reply.now (set_tags (tag_values tags.now))
            → Survives (state S.Store self.old) (state S.Store self.new) (λ db. StandsFor db (changed m project.now key.now (set_tags (tag_values tags.now)))) }
    {
        self.slot = None;
        match commit_tags(alloc, &mut self.conn, project, key, reply, tags) {
            Ok(()) => Ok(()),
            Err(error) => Err(fault_of(self.is_in_memory, error)),
        }
    }

    /// Removes the dump and the tags of the project, and keeps the text of the reply under the key,
    /// all in one transaction. The key must not be kept yet. Returns whether either was there.
    ///
    /// With each error the tables are as they were: `Refused` and `Memory` (`TablesFault`).
    pub fn remove(&mut self, project: &str, key: &str) -> Result<bool, TablesFault>
        ensures outcome { MayChange result (state S.Store self.old) (state S.Store self.new) }
        ensures done { HasCleanDisk (state S.Store self.new) → (m : State) → Rests (state S.Store self.old) m → m.kept project.now key.now ≡ None
            → IfOk result (λ was_there. (was_there ≡ (is_some (m.dump project.now) || is_some (m.tags project.now)))
            × Rests (state S.Store self.new) (changed m project.now key.now clear)) }
        ensures same { HasCleanDisk (state S.Store self.new) → IsTrue (state S.Store self.new).is_open → (m : State) → Rests (state S.Store self.old) m
            → m.kept project.now key.now ≡ None
            → OnErr result (IsAsBefore (state S.Store self.old) (state S.Store self.new)) }
        ensures crash { (m : State) → Rests (state S.Store self.old) m → m.kept project.now key.now ≡ None
            → Survives (state S.Store self.old) (state S.Store self.new) (λ db. StandsFor db (changed m project.now key.now clear)) }
    {
        self.slot = None;
        match commit_removal(&mut self.conn, project, key) {
            Ok(was_there) => Ok(was_there),
            Err(error) => Err(fault_of(self.is_in_memory, error)),
        }
    }
}
