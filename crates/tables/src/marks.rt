//! The marks of a range, as they are selected. `FindsMarks` in `machine/specs/Selections`.
ghost use Rattle.std.specs.Prelude.{◌≡◌, ◌∷◌, [], List, ℕ, map, string_bytes, IfOk, OnOk};
ghost use Rattle.sqlite_value.specs.declared.value.Value.TheVariants.{Text};
ghost use Rattle.sqlite.specs.State.{HasCleanDisk};
ghost use Rattle.sqlite.specs.Held.{state};
ghost use Rattle.flatten.specs.Flat.{kind_index};
ghost use Rattle.tables.specs.Columns.{number};
ghost use Rattle.tables.specs.Contents.{HasSlot};
ghost use Rattle.machine.specs.State.{State};
ghost use Rattle.tables.specs.Stands.{OnlySelects, Rests};
ghost use Rattle.machine.specs.Selections.{FindsMarks, mark_found};
ghost use Rattle.tables.specs.Steps.Slots.{IsKnown};
ghost use Rattle.tables.specs.declared.slots.Part.TheVariants.{Dump};
ghost use Rattle.tables.specs.Steps.Clauses.{OfState, OnlyReads};

use crate::columns::{column, kind_of};
use crate::fault::{Refusal, TablesFault};
use crate::parts::{ProjectSlot, dump_slot};
use crate::selection::{Listed, select_all};
use crate::tables::Tables;
use machine::FoundMark;
use sqlite::{Alter, Connection, Row, params};
use std::alloc::Global;

impl Listed for FoundMark {
    ghost columns = { λ mark. number (kind_index mark.kind) ∷ Text (string_bytes mark.key) ∷ [] };

    fn read(row: &Row) -> Result<FoundMark, Refusal> {
        let kind = kind_of(column(row, 0)?)?;
        Ok(FoundMark {
            kind,
            key: column(row, 1)?,
        })
    }
}

const SELECT_MARKS: &str = "SELECT kind, keytext FROM mark WHERE slot = ?1 AND line = ?2";

/// The marks of a range of the dump that has this slot.
fn marks_in<S: Alter>(
    alloc: Global,
    conn: &mut Connection<S>,
    slot: i64,
    line: u32,
) -> Result<Vec<FoundMark>, Refusal>
    ensures found { OfState S.Store conn.old conn.new (λ m. (project : List ℕ)
        → HasSlot (state S.Store conn.old).now.trees slot project Dump → IfOk result (λ found. FindsMarks m project line (map mark_found found.items))) }
    ensures reads { OnlyReads S.Store result conn.old conn.new }
{
    select_all(alloc, conn, SELECT_MARKS, params![slot, line])
}

/// The marks of a range of a project's dump.
fn find_marks<S: Alter>(
    alloc: Global,
    conn: &mut Connection<S>,
    known: &mut Option<ProjectSlot>,
    project: &str,
    line: u32,
) -> Result<Vec<FoundMark>, Refusal>
    requires known { IsKnown (state S.Store conn.old) known.old }
    ensures found { OfState S.Store conn.old conn.new (λ m. IfOk result (λ found. FindsMarks m project.now line (map mark_found found.items))) }
    ensures known { OnOk result (IsKnown (state S.Store conn.new) known.new) }
    ensures reads { OnlyReads S.Store result conn.old conn.new }
{
    match dump_slot(alloc, conn, known, project)? {
        Some(slot) => marks_in(alloc, conn, slot, line),
        None => Ok(Vec::new(alloc)),
    }
}

impl<S: Alter> Tables<S> {
    /// The marks of the range at this line of the project's dump, counted from 1, in any order:
    /// none where there is no such range. Errors: `Refused` and `Memory` (`TablesFault`).
    pub fn marks(
        &mut self,
        alloc: Global,
        project: &str,
        line: u32,
    ) -> Result<Vec<FoundMark>, TablesFault>
        ensures found { HasCleanDisk (state S.Store self.new) → (m : State) → Rests (state S.Store self.old) m
            → IfOk result (λ found. FindsMarks m project.now line (map mark_found found.items)) }
        ensures selects { OnlySelects result (state S.Store self.old) (state S.Store self.new) }
    {
        match find_marks(alloc, &mut self.conn, &mut self.slot, project, line) {
            Ok(found) => Ok(found),
            Err(refusal) => {
                self.slot = None;
                Err(refusal.fault(self.is_in_memory))
            }
        }
    }
}
