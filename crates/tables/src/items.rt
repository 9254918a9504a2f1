//! The items of results, as they are selected by the key of their table: the places of a result in
//! a role. `FindsItems` in `machine/specs/Selections`.
ghost use Rattle.std.specs.Prelude.{◌≡◌, ◌∷◌, [], List, ℕ, map, IfOk, OnOk};
ghost use Rattle.std.specs.Rc.{rc_str_bytes};
ghost use Rattle.sqlite_value.specs.declared.value.Value.TheVariants.{Text};
ghost use Rattle.sqlite.specs.State.{HasCleanDisk};
ghost use Rattle.sqlite.specs.Held.{state};
ghost use Rattle.positions.specs.Position.{IsPosition};
ghost use Rattle.tables.specs.Columns.{position, IsWritten};
ghost use Rattle.tables.specs.Contents.{HasSlot};
ghost use Rattle.machine.specs.State.{State};
ghost use Rattle.tables.specs.Stands.{OnlySelects, Rests};
ghost use Rattle.machine.specs.Selections.{FindsItems, item_found};
ghost use Rattle.tables.specs.Steps.Slots.{IsKnown};
ghost use Rattle.tables.specs.declared.slots.Part.TheVariants.{Dump};
ghost use Rattle.tables.specs.Steps.Clauses.{OfState, OnlyReads};

use crate::columns::{column, span_of};
use crate::fault::{Refusal, TablesFault};
use crate::parts::{ProjectSlot, dump_slot};
use crate::selection::{Listed, select_all};
use crate::tables::Tables;
use dump::Role;
use flatten::role_index;
use machine::FoundItem;
use sqlite::{Alter, Connection, Row, params};
use std::alloc::{AllocError, Global};
use std::rc::RcStr;

impl Listed for FoundItem {
    ghost columns = { λ item. Text (rc_str_bytes item.uri) ∷ position item.span.start ∷ position item.span.«end» ∷ [] };

    ghost is_sound = { λ item. IsPosition item.span.start × IsPosition item.span.«end» };

    ghost is_own = { λ item. IsWritten item.span };

    fn read(row: &Row) -> Result<FoundItem, Refusal> {
        let span = span_of(column(row, 1)?, column(row, 2)?)?;
        let uri = RcStr::from_string(column(row, 0)?)?;
        Ok(FoundItem { uri, span })
    }

    /// The item, which shares its uri with the item before where both have the same.
    fn after(self, before: Option<&FoundItem>) -> Result<FoundItem, AllocError> {
        match before {
            Some(before) if before.uri == self.uri => Ok(FoundItem {
                uri: before.uri.clone()?,
                span: self.span,
            }),
            _ => Ok(self),
        }
    }
}

const SELECT_ITEMS: &str =
    "SELECT uri, first, last FROM item WHERE slot = ?1 AND result = ?2 AND role = ?3";

/// The items that a result has in a role, in the dump that has this slot.
fn items_in<S: Alter>(
    alloc: Global,
    conn: &mut Connection<S>,
    slot: i64,
    result_number: u32,
    role: Role,
) -> Result<Vec<FoundItem>, Refusal>
    ensures found { OfState S.Store conn.old conn.new (λ m. (project : List ℕ) → HasSlot (state S.Store conn.old).now.trees slot project Dump
        → IfOk result (λ found. FindsItems m project result_number role (map item_found found.items))) }
    ensures reads { OnlyReads S.Store result conn.old conn.new }
{
    let role = role_index(role);
    select_all(
        alloc,
        conn,
        SELECT_ITEMS,
        params![slot, result_number, role],
    )
}

/// The items that a result has in a role, in a project's dump.
fn find_items<S: Alter>(
    alloc: Global,
    conn: &mut Connection<S>,
    known: &mut Option<ProjectSlot>,
    project: &str,
    result_number: u32,
    role: Role,
) -> Result<Vec<FoundItem>, Refusal>
    requires known { IsKnown (state S.Store conn.old) known.old }
    ensures found { OfState S.Store conn.old conn.new (λ m. IfOk result
        (λ found. FindsItems m project.now result_number role (map item_found found.items))) }
    ensures known { OnOk result (IsKnown (state S.Store conn.new) known.new) }
    ensures reads { OnlyReads S.Store result conn.old conn.new }
{
    match dump_slot(alloc, conn, known, project)? {
        Some(slot) => items_in(alloc, conn, slot, result_number, role),
        None => Ok(Vec::new(alloc)),
    }
}

impl<S: Alter> Tables<S> {
    /// The places that a result of the project's dump has in a role, by the result's number, in any
    /// order: none where the dump has no such result or the project no dump. Errors: `Refused` and
    /// `Memory` (`TablesFault`).
    pub fn items(
        &mut self,
        alloc: Global,
        project: &str,
        result_number: u32,
        role: Role,
    ) -> Result<Vec<FoundItem>, TablesFault>
        ensures found { HasCleanDisk (state S.Store self.new) → (m : State) → Rests (state S.Store self.old) m
            → IfOk result (λ found. FindsItems m project.now result_number role (map item_found found.items)) }
        ensures selects { OnlySelects result (state S.Store self.old) (state S.Store self.new) }
    {
        match find_items(
            alloc,
            &mut self.conn,
            &mut self.slot,
            project,
            result_number,
            role,
        ) {
            Ok(found) => Ok(found),
            Err(refusal) => {
                self.slot = None;
                Err(refusal.fault(self.is_in_memory))
            }
        }
    }
}
