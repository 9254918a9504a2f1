//! The contents of hover results, selected by the number of the result. `FindsHover` in
//! `machine/specs/Selections`.
ghost use Rattle.std.specs.Prelude.{List, ℕ, Some, option_map, string_bytes, IfOk};
ghost use Rattle.sqlite.specs.State.{HasCleanDisk};
ghost use Rattle.sqlite.specs.Held.{state};
ghost use Rattle.tables.specs.Contents.{HasSlot};
ghost use Rattle.machine.specs.State.{State};
ghost use Rattle.tables.specs.Stands.{OnlySelects, Rests};
ghost use Rattle.machine.specs.Selections.{FindsHover};
ghost use Rattle.tables.specs.Steps.Slots.{IsKnown};
ghost use Rattle.tables.specs.declared.slots.Part.TheVariants.{Dump};
ghost use Rattle.tables.specs.Steps.Clauses.{OfState, OnlyReads};

use crate::fault::{Refusal, TablesFault};
use crate::parts::{ProjectSlot, find_slot};
use crate::selection::select_first;
use crate::slots::Part;
use crate::tables::Tables;
use sqlite::{Alter, Connection, params};

const SELECT_HOVER: &str = "SELECT contents FROM hover WHERE slot = ?1 AND result = ?2";

/// The contents of a hover result of the dump that has this slot.
fn hover_in<S: Alter>(
    conn: &mut Connection<S>,
    slot: i64,
    result_number: u32,
) -> Result<Option<String>, Refusal>
    ensures found { OfState S.Store conn.old conn.new (λ m. (project : List ℕ) → HasSlot (state S.Store conn.old).now.trees slot project Dump
        → IfOk result (λ found. FindsHover m project result_number (option_map string_bytes found))) }
    ensures reads { OnlyReads S.Store result conn.old conn.new }
{
    select_first(conn, SELECT_HOVER, params![slot, result_number])
}

/// The contents of a hover result of a project's dump.
fn find_hover<S: Alter>(
    conn: &mut Connection<S>,
    known: &Option<ProjectSlot>,
    project: &str,
    result_number: u32,
) -> Result<Option<String>, Refusal>
    requires known { IsKnown (state S.Store conn.old) known.now }
    ensures found { OfState S.Store conn.old conn.new (λ m. IfOk result
        (λ found. FindsHover m project.now result_number (option_map string_bytes found))) }
    ensures reads { OnlyReads S.Store result conn.old conn.new }
{
    if let Some(slot) = known {
        if slot.project.as_str() == project {
            return hover_in(conn, slot.id, result_number);
        }
    }
    match find_slot(conn, project, Part::Dump)? {
        Some(slot) => hover_in(conn, slot, result_number),
        None => Ok(None),
    }
}

impl<S: Alter> Tables<S> {
    /// The contents of a hover result of the project's dump, by the result's number, or none where
    /// the dump has no such result or the project no dump. Errors: `Refused` and `Memory`
    /// (`TablesFault`).
    pub fn hover(
        &mut self,
        project: &str,
        result_number: u32,
    ) -> Result<Option<String>, TablesFault>
        ensures found { HasCleanDisk (state S.Store self.new) → (m : State) → Rests (state S.Store self.old) m
            → IfOk result (λ found. FindsHover m project.now result_number (option_map string_bytes found)) }
        ensures selects { OnlySelects result (state S.Store self.old) (state S.Store self.new) }
    {
        match find_hover(&mut self.conn, &self.slot, project, result_number) {
            Ok(found) => Ok(found),
            Err(refusal) => {
                self.slot = None;
                Err(refusal.fault(self.is_in_memory))
            }
        }
    }
}
