//! The parts of projects, as they are selected: the slot of a part, the project of a slot, and the
//! profile of a dump.
ghost use Rattle.std.specs.Prelude.{◌≡◌, List, ℕ, Some, option_map, string_bytes, IfOk, OnOk};
ghost use Rattle.sqlite.specs.State.{HasCleanDisk};
ghost use Rattle.sqlite.specs.Held.{state};
ghost use Rattle.tables.specs.Schema.{schema_two};
ghost use Rattle.tables.specs.Columns.{profile_columns};
ghost use Rattle.tables.specs.Contents.{Contents, HasSlot, Replies, Keeps};
ghost use Rattle.machine.specs.State.{State};
ghost use Rattle.tables.specs.Stands.{OnlySelects, Rests};
ghost use Rattle.tables.specs.Steps.Slots.{IsDumpSlot, IsKnown, IsNamed, IsSlotOf};
ghost use Rattle.tables.specs.declared.slots.Part.{Part};
ghost use Rattle.tables.specs.declared.slots.Part.TheVariants.{Dump};
ghost use Rattle.tables.specs.Steps.Clauses.{OfDump, OfState, OnlyReads};

use crate::columns::column;
use crate::fault::{Refusal, TablesFault};
use crate::selection::{Listed, select_first};
use crate::slots::{Part, part_number};
use crate::tables::Tables;
use lsif::Profile;
use sqlite::{Alter, Connection, Row, params};
use std::alloc::Global;

const SELECT_SLOT: &str = "SELECT id FROM slot WHERE project = ?1 AND part = ?2";

/// The id of the slot of a part, where the project has it.
pub(crate) fn find_slot<S: Alter>(
    conn: &mut Connection<S>,
    project: &str,
    part: Part,
) -> Result<Option<i64>, Refusal>
    ensures slot { HasCleanDisk (state S.Store conn.new) → (state S.Store conn.old).now.schema ≡ schema_two → (parts : Contents) (replies : Replies)
        → Keeps (state S.Store conn.old).now.trees parts replies
        → IfOk result (IsSlotOf (state S.Store conn.old).now.trees parts project.now part) }
    ensures reads { OnlyReads S.Store result conn.old conn.new }
{
    let number = part_number(part);
    select_first(conn, SELECT_SLOT, params![project, number])
}

/// A slot, and the project that it is of.
#[derive(Drop)]
pub(crate) struct ProjectSlot {
    pub(crate) project: String,
    pub(crate) id: i64,
}

/// The id of the slot of the project's dump, where it has one: of the one that is known, or else
/// found. It's the one that is known from then on.
pub(crate) fn dump_slot<S: Alter>(
    alloc: Global,
    conn: &mut Connection<S>,
    known: &mut Option<ProjectSlot>,
    project: &str,
) -> Result<Option<i64>, Refusal>
    requires known { IsKnown (state S.Store conn.old) known.old }
    ensures slot { OfState S.Store conn.old conn.new (λ m. IfOk result (IsDumpSlot (state S.Store conn.old).now.trees m project.now)) }
    ensures known { OnOk result (IsKnown (state S.Store conn.new) known.new) }
    ensures reads { OnlyReads S.Store result conn.old conn.new }
{
    if let Some(slot) = &*known {
        if slot.project.as_str() == project {
            return Ok(Some(slot.id));
        }
    }
    *known = None;
    let Some(id) = find_slot(conn, project, Part::Dump)? else {
        return Ok(None);
    };
    let project = String::from_str(alloc, project)?;
    *known = Some(ProjectSlot { project, id });
    Ok(Some(id))
}

const SELECT_PROJECT: &str = "SELECT project FROM slot WHERE id = ?1";

/// The project that a slot is of: as it's named, where the slot is the one that was named last, or
/// else found. It's the one that is named from then on.
pub(crate) fn slot_project<S: Alter>(
    alloc: Global,
    conn: &mut Connection<S>,
    named: &mut Option<ProjectSlot>,
    slot: i64,
) -> Result<String, Refusal>
    requires named { IsNamed (state S.Store conn.old) named.old }
    ensures project { HasCleanDisk (state S.Store conn.new) → (state S.Store conn.old).now.schema ≡ schema_two → (parts : Contents) (replies : Replies)
        → Keeps (state S.Store conn.old).now.trees parts replies
        → (project : List ℕ) (part : Part) → HasSlot (state S.Store conn.old).now.trees slot project part
        → IfOk result (λ found. string_bytes found ≡ project) }
    ensures named { OnOk result (IsNamed (state S.Store conn.new) named.new) }
    ensures reads { OnlyReads S.Store result conn.old conn.new }
{
    if let Some(known) = &*named {
        if known.id == slot {
            return Ok(String::from_str(alloc, known.project.as_str())?);
        }
    }
    *named = None;
    let found: Option<String> = select_first(conn, SELECT_PROJECT, params![slot])?;
    let Some(project) = found else {
        return Err(Refusal::Row);
    };
    let kept = String::from_str(alloc, project.as_str())?;
    *named = Some(ProjectSlot {
        project: kept,
        id: slot,
    });
    Ok(project)
}

impl Listed for Profile {
    ghost columns = { profile_columns };

    fn read(row: &Row) -> Result<Profile, Refusal> {
        Profile::numbered(column(row, 0)?).ok_or(Refusal::Row)
    }
}

const SELECT_PROFILE: &str = "SELECT profile FROM part_profile WHERE slot = ?1";

/// The profile of the dump that has this slot.
fn profile_in<S: Alter>(conn: &mut Connection<S>, slot: i64) -> Result<Profile, Refusal>
    ensures profile { OfDump S.Store conn.old conn.new slot (λ dump. IfOk result (λ profile. profile ≡ dump.profile)) }
    ensures reads { OnlyReads S.Store result conn.old conn.new }
{
    let found = select_first(conn, SELECT_PROFILE, params![slot])?;
    found.ok_or(Refusal::Row)
}

/// The profile of a project's dump.
fn find_profile<S: Alter>(
    conn: &mut Connection<S>,
    project: &str,
) -> Result<Option<Profile>, Refusal>
    ensures found { OfState S.Store conn.old conn.new (λ m. IfOk result (λ found. found ≡ option_map (λ d. d.profile) (m.dump project.now))) }
    ensures reads { OnlyReads S.Store result conn.old conn.new }
{
    match find_slot(conn, project, Part::Dump)? {
        Some(slot) => Ok(Some(profile_in(conn, slot)?)),
        None => Ok(None),
    }
}

impl<S: Alter> Tables<S> {
    /// The profile that the project's dump was read by, or none where it has no dump. Errors:
    /// `Refused` and `Memory` (`TablesFault`).
    pub fn profile(&mut self, project: &str) -> Result<Option<Profile>, TablesFault>
        ensures found { HasCleanDisk (state S.Store self.new) → (m : State) → Rests (state S.Store self.old) m
            → IfOk result (λ found. found ≡ option_map (λ d. d.profile) (m.dump project.now)) }
        ensures selects { OnlySelects result (state S.Store self.old) (state S.Store self.new) }
    {
        self.slot = None;
        match find_profile(&mut self.conn, project) {
            Ok(found) => Ok(found),
            Err(refusal) => Err(refusal.fault(self.is_in_memory)),
        }
    }
}
